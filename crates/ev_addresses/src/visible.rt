//! Which addresses can be dialled.

ghost use Rattle.std.specs.Prelude.{◌≡◌, IsTrue};
ghost use Rattle.std.specs.List.{list_all};
ghost use Rattle.ev_call.specs.Addresses.{IsAddress};
ghost use Rattle.ev_addresses.specs.Visible.{is_visible};

/// Whether all of these are visible characters of ASCII.
pub fn are_visible(text: &[u8]) -> bool
    ensures { result ≡ list_all is_visible text.now }
{
    text.iter().all(|byte| *byte >= 33 && *byte <= 126)
}

/// Whether a text can be dialled as an address, or as several: it has one or more bytes, each of them visible ASCII.
#[tactic(auto, using(crate::proofs::Characters::all_within))]
pub fn is_address(text: &str) -> bool
    ensures { IsTrue result → IsAddress text.now }
{
    let bytes = text.as_bytes();
    if bytes.is_empty() {
        return false;
    }
    are_visible(bytes)
}
