//! A link to one of several endpoints.

ghost use Rattle.std.specs.Prelude.{◌≡◌, ℕ, [], length, IfOk, Err, slice_get, string_bytes, unwrap_or};
ghost use Rattle.ev_addresses.specs.Lists.{addresses_in, local};
ghost use Rattle.ev_call.specs.Addresses.{IsAddress};
ghost use Rattle.ev_call.specs.Calls.{calls_of};
ghost use Rattle.ev_link.specs.Reaching.{DialsInTurn, turned, undialled_times};
ghost use Rattle.zx_net.specs.Nets.{GivesNext};

use crate::http_link::HttpLink;
use ev_addresses::{address_at, count_of, next_of};
use std::alloc::Global;
use zx_net::Net;

/// Why there is no link.
#[derive(Clone, Copy)]
pub enum NoLink {
    /// Nobody answers at any of the addresses.
    Dial,
    /// The allocator refused memory.
    Memory,
}

/// The number of an address of a text, from 0; the first if there are fewer.
fn within(endpoints: &str, at: usize) -> usize
    ensures { result ≡ turned (length (addresses_in endpoints.now)) 0 at }
{
    if at < count_of(endpoints) { at } else { 0 }
}

/// A new link to the first endpoint of a text that can be dialled. The text is one or more bytes of visible ASCII; its addresses are
/// dialled in turn, from the one with this number on and round, until one dial succeeds. `at` is then the number of the one that answered,
/// from 0.
pub fn link_to<N: Net>(
    alloc: Global,
    net: &mut N,
    endpoints: &str,
    at: &mut usize,
) -> Result<HttpLink<N::In, N::Out>, NoLink>
    requires { IsAddress endpoints.now }
    ensures dials { DialsInTurn result (length (addresses_in endpoints.now)) (N.counts net.old) (N.counts net.new) }
    // It names the address that comes after as many as were dialled in vain, and is over the one stream that was dialled.
    ensures host { IfOk result (λ link. (failed : ℕ) × (N.counts net.new ≡ undialled_times failed (N.counts net.old))
        × (at.new ≡ turned (length (addresses_in endpoints.now)) failed at.old)
        × (string_bytes link.host ≡ unwrap_or (slice_get (addresses_in endpoints.now) at.new) local)) }
    ensures stays { result ≡ Err NoLink.Dial → at.new ≡ at.old }
    ensures gives { IfOk result (λ link. GivesNext (N.streams net.old) (N.streams net.new) (N.In.left link.source)) }
    ensures kept { result ≡ Err NoLink.Dial → N.streams net.new ≡ N.streams net.old }
    ensures failures { IfOk result (λ link. link.failures ≡ 0) }
    ensures asks { IfOk result (λ link. calls_of link.asks.items link.results.items ≡ []) }
{
    let mut next = within(endpoints, *at);
    'endpoints: for index in 0..count_of(endpoints) {
        let address = address_at(endpoints, next);
        if let Ok((source, sink)) = net.dial(address) {
            *at = next;
            return match HttpLink::new(alloc, source, sink, address) {
                Ok(link) => Ok(link),
                Err(_refused) => Err(NoLink::Memory),
            };
        }
        next = next_of(endpoints, next);
    }
    Err(NoLink::Dial)
}
