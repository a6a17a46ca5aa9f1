//! The words of the commands that have more than one: `etcd LISTEN LIMIT`, `serve LISTEN ENDPOINT LIMIT` and
//! `stress NUMBER CONNECTIONS STEPS`.

ghost use Rattle.std.specs.Prelude.{◌≡◌, ◌==◌, ◌≤◌, IfSome, IsNone, length, nat_le};
ghost use Rattle.std.specs.List.{list_all, slice_split};
ghost use Rattle.ev_addresses.specs.Lists.{is_part};
ghost use Rattle.zetcd_cmd.specs.Proxying.{IsServe, NamesServe};
ghost use Rattle.zetcd_cmd.specs.Serving.{are_addresses as are_addresses_of, are_plain as are_plain_of, IsEtcd, NamesEtcd, digits_number, is_address as is_address_of, limit_in};
ghost use Rattle.zetcd_cmd.specs.Stressing.{IsStress, NamesStress, count_in, number_in};

use ev_addresses::are_visible;
use zt_text::decimal_digit;

/// How many endpoints `serve` takes.
const MAX_ADDRESSES: usize = 5;

/// The longest number has this many digits.
const MAX_DIGITS: usize = 10;

/// Whether this is the text of an address: one or more visible characters of ASCII, of which the first is no `-`.
fn is_address(text: &[u8]) -> bool
    ensures { result ≡ is_address_of text.now }
{
    if text.is_empty() || text[0] == b'-' {
        return false;
    }
    are_visible(text)
}

/// Whether these are one to five addresses with commas between them, none of which is empty.
fn are_addresses(text: &[u8]) -> bool
    ensures { result ≡ are_addresses_of text.now }
{
    is_address(text) && are_plain(text)
}

/// Whether the commas of a text stand as between one to five addresses.
fn are_plain(text: &[u8]) -> bool
    ensures { result ≡ are_plain_of text.now }
{
    are_some(text) && are_few(text)
}

/// Whether something stands before, between and after the commas.
fn are_some(text: &[u8]) -> bool
    ensures { result ≡ list_all is_part (slice_split (λ b. b == 44) text.now) }
{
    text.split(|byte| *byte == b',')
        .all(|part| !part.is_empty())
}

/// Whether at most four commas stand in the text.
fn are_few(text: &[u8]) -> bool
    ensures { result ≡ nat_le (length (slice_split (λ b. b == 44) text.now)) 5 }
{
    text.split(|byte| *byte == b',').count() <= MAX_ADDRESSES
}

/// The number of these digits, up to 4294967295; `None` where one is no digit, or the number is greater.
fn digits(text: &[u8]) -> Option<u64>
    ensures { result ≡ digits_number text.now }
{
    let mut value: u64 = 0;
    for byte in text {
        let digit = decimal_digit(*byte)?;
        value = value * 10 + u64::from(digit);
        if value > u64::from(u32::MAX) {
            return None;
        }
    }
    Some(value)
}

/// A number from 1 to 4294967295 in one to ten digits, without a sign.
fn limit_of(text: &[u8]) -> Option<u64>
    ensures { result ≡ limit_in text.now }
{
    if text.is_empty() || text.len() > MAX_DIGITS {
        return None;
    }
    match digits(text) {
        Some(0) | None => None,
        Some(limit) => Some(limit),
    }
}

/// The address and the limit of these words; `None` if they do not start `etcd`.
pub fn etcd_words<'a>(words: &[&'a str]) -> Option<(&'a str, u64)>
    ensures some { IfSome result (λ found. IsEtcd words.now found.0.now found.1) }
    ensures none { IsNone result → ¬ NamesEtcd words.now }
{
    let [word, listen, limit] = words else {
        return None;
    };
    if word.as_bytes() != b"etcd".as_slice() || !is_address(listen.as_bytes()) {
        return None;
    }
    match limit_of(limit.as_bytes()) {
        Some(limit) => Some((listen, limit)),
        None => None,
    }
}

/// What `serve` is to do.
#[derive(Clone, Copy)]
pub struct Proxy<'a> {
    /// The address to listen at.
    pub listen: &'a str,
    /// The addresses of the etcd's members.
    pub endpoint: &'a str,
    /// How many connections are accepted.
    pub limit: u64,
}

/// What these words have `serve` do; `None` if they do not start `serve`.
pub fn serve_words<'a>(words: &[&'a str]) -> Option<Proxy<'a>>
    ensures some { IfSome result (λ p. IsServe words.now p.listen.now p.endpoint.now p.limit) }
    ensures none { IsNone result → ¬ NamesServe words.now }
{
    let [word, listen, endpoint, limit] = words else {
        return None;
    };
    if word.as_bytes() != b"serve".as_slice() {
        return None;
    }
    if !is_address(listen.as_bytes()) || !are_addresses(endpoint.as_bytes()) {
        return None;
    }
    match limit_of(limit.as_bytes()) {
        Some(limit) => Some(Proxy {
            listen,
            endpoint,
            limit,
        }),
        None => None,
    }
}

/// The most connections and the most steps of a schedule.
const MOST_CONNECTIONS: u64 = 256;

const MOST_STEPS: u64 = 200_000;

/// What `stress` is to run.
#[derive(Clone, Copy)]
pub struct Schedule {
    /// The number that makes the schedule, up to 4294967295.
    pub number: u64,
    /// From 1 to 256.
    pub connections: u32,
    /// From 1 to 200000.
    pub steps: u32,
}

/// A number from 0 to 4294967295 in one to ten digits, without a sign.
fn number_of(text: &[u8]) -> Option<u64>
    ensures { result ≡ number_in text.now }
{
    if text.is_empty() || text.len() > MAX_DIGITS {
        return None;
    }
    digits(text)
}

/// A number from 1 to `most`, which is below 2^32, so written.
fn count_of(text: &[u8], most: u64) -> Option<u32>
    requires { most ≤ 4294967295 }
    ensures is { result ≡ count_in most text.now }
    ensures most { IfSome result (λ count. count ≤ most) }
    ensures least { IfSome result (λ count. 1 ≤ count) }
{
    let count = limit_of(text)?;
    if count > most {
        return None;
    }
    Some(count as u32)
}

/// What these words have `stress` run; `None` if they do not start `stress`.
pub fn stress_words(words: &[&str]) -> Option<Schedule>
    ensures some { IfSome result (λ s. IsStress words.now s.number s.connections s.steps) }
    ensures least { IfSome result (λ s. 1 ≤ s.connections) }
    ensures most { IfSome result (λ s. s.connections ≤ 256) }
    ensures none { IsNone result → ¬ NamesStress words.now }
{
    let [word, first, second, third] = words else {
        return None;
    };
    if word.as_bytes() != b"stress".as_slice() {
        return None;
    }
    let number = number_of(first.as_bytes())?;
    let connections = count_of(second.as_bytes(), MOST_CONNECTIONS)?;
    let steps = count_of(third.as_bytes(), MOST_STEPS)?;
    Some(Schedule {
        number,
        connections,
        steps,
    })
}
