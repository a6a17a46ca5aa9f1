//! Addresses by their number.

ghost use Rattle.std.specs.Prelude.{◌≡◌, ◌≤◌, length, option_map, slice_get, unwrap_or};
ghost use Rattle.ev_call.specs.Addresses.{IsAddress};
ghost use Rattle.ev_addresses.specs.Lists.{addresses_in, local, named_in, next_of};

/// How many addresses count.
const MOST: usize = 5;

/// The named endpoint with this number, from 0.
fn named_at(text: &str, index: usize) -> Option<&str>
    ensures { option_map (λ part. part.now) result ≡ slice_get (named_in text.now) index }
{
    text.split(',')
        .filter(|part| !part.is_empty())
        .take(MOST)
        .nth(index)
}

/// How many endpoints are named.
fn count_named(text: &str) -> usize
    ensures { result ≡ length (named_in text.now) }
{
    text.split(',')
        .filter(|part| !part.is_empty())
        .take(MOST)
        .count()
}

/// The address with this number, from 0; `localhost` where there are fewer. It can be dialled where the text is one or more bytes of
/// visible ASCII.
#[tactic(auto, using(crate::proofs::Numbers::is_named, crate::proofs::Numbers::is_local, crate::proofs::Local::local))]
pub fn address_at(text: &str, index: usize) -> &str
    ensures is { result.now ≡ unwrap_or (slice_get (addresses_in text.now) index) local }
    ensures can { IsAddress text.now → IsAddress result.now }
{
    match named_at(text, index) {
        Some(address) => address,
        None => "localhost",
    }
}

/// How many addresses are in a text: 1 to 5.
#[tactic(auto, using(crate::proofs::Numbers::one_where_none, crate::proofs::Numbers::as_named, crate::proofs::Numbers::few))]
pub fn count_of(text: &str) -> usize
    ensures is { result ≡ length (addresses_in text.now) }
    ensures least { 1 ≤ result }
    ensures most { result ≤ 5 }
{
    let named = count_named(text);
    if named == 0 {
        return 1;
    }
    named
}

/// The number of the address after this one, from 0; after the last comes the first.
pub fn next_of(text: &str, index: usize) -> usize
    ensures { result ≡ next_of (length (addresses_in text.now)) index }
{
    let last = count_of(text) - 1;
    if index < last { index + 1 } else { 0 }
}
