//! What names endpoints.

ghost use Rattle.std.specs.Prelude.{◌≡◌, IfOk, option_map, slice_get, string_bytes, unwrap_or};
ghost use Rattle.std.proofs.Props.{props};
ghost use Rattle.ev_call.specs.Addresses.{IsAddress};
ghost use Rattle.ev_addresses.specs.Lists.{addresses_in, local};

use ev_addresses::address_at;
use std::alloc::Global;
use zx_base::Memory;

/// A text of addresses that can be dialled.
#[derive(Drop)]
pub struct Named {
    pub(crate) text: String,
    ghost addressed: { IsAddress (string_bytes text) } by { Prim.hlevel props },
}

/// A copy of such a text.
pub fn copy_of(alloc: Global, text: &str) -> Result<Named, Memory>
    requires { IsAddress text.now }
    ensures { IfOk result (λ named. string_bytes named.text ≡ text.now) }
{
    let text = String::from_str(alloc, text)?;
    Ok(Named { text })
}

/// What names the endpoints.
#[tactic(auto, using(ev_addresses::proofs::Local::local))]
fn text_of(named: &Option<Named>) -> &str
    ensures can { IsAddress result.now }
    ensures is { result.now ≡ unwrap_or (option_map (λ n. string_bytes n.text) named.now) local }
{
    match named {
        Some(named) => named.text.as_str(),
        None => "localhost",
    }
}

/// The address of the endpoint with this number.
pub fn address_of(named: &Option<Named>, endpoint: u32) -> &str
    ensures can { IsAddress result.now }
    ensures is { result.now ≡ unwrap_or (slice_get (addresses_in (unwrap_or (option_map (λ n. string_bytes n.text) named.now) local)) endpoint) local }
{
    address_at(text_of(named), endpoint as usize)
}
