//! Pieces of a text that is read from its front, where it is spelled as expected: no blanks, and strings without escapes.

ghost use Rattle.std.specs.Prelude.{◌≡◌, ◌≤◌, ◌^◌, ◌++◌, take, length, true, Some, IfSome, IsTrue, IsUtf8};
ghost use Rattle.std.specs.List.{list_all};
ghost use Rattle.json.specs.Run.{is_plain};
ghost use Rattle.serde_json.specs.Data.{string};
ghost use Rattle.ev_fields.specs.Kinds.{number_of, count_of, lease_of, bytes_of};
ghost use Rattle.ev_fields.specs.Straight.{IsContent, IsContentIf, count_if, lease_if, bytes_if};

use crate::members::{MAX_COUNTS, MAX_LEASES, digits_of};
use base64::engine::general_purpose::STANDARD;
use std::alloc::Global;
use zx_base::Bytes;

/// What stands after this text, where the bytes begin with it.
pub fn passes<'a>(bytes: &'a [u8], text: &[u8]) -> Option<&'a [u8]>
    ensures { IfSome result (λ rest. bytes.now ≡ text.now ++ rest.now) }
{
    if bytes.len() < text.len() {
        return None;
    }
    let (front, rest) = bytes.split_at(text.len());
    if front == text { Some(rest) } else { None }
}

/// How many bytes stand before the first that ends a string, or needs an escape in it.
fn plain_len(bytes: &[u8]) -> usize
    ensures within { result ≤ length bytes.now }
    ensures plain { list_all is_plain (take result bytes.now) ≡ true }
{
    let mut at = 0;
    while at < bytes.len() {
        let byte = bytes[at];
        if (byte == b'"' || byte == b'\\') || byte < 0x20 {
            return at;
        }
        at += 1;
    }
    at
}

/// The bytes between this text, which ends with a quote, and the next quote, and what stands after that.
pub fn content<'a>(bytes: &'a [u8], text: &[u8]) -> Option<(&'a [u8], &'a [u8])>
    ensures { IfSome result (λ found. IsContent text.now bytes.now found.0.now found.1.now) }
{
    let bytes = passes(bytes, text)?;
    let len = plain_len(bytes);
    let (content, rest) = bytes.split_at(len);
    let rest = passes(rest, b"\"")?;
    Some((content, rest))
}

/// As [`content`] where the bytes begin with the text; otherwise nothing, and all of the bytes.
pub fn content_if<'a>(bytes: &'a [u8], text: &[u8]) -> Option<(Option<&'a [u8]>, &'a [u8])>
    ensures { IfSome result (λ found. IsContentIf text.now bytes.now found.0 found.1.now) }
{
    if passes(bytes, text).is_none() {
        return Some((None, bytes));
    }
    let (content, rest) = content(bytes, text)?;
    Some((Some(content), rest))
}

#[tactic(auto, unfolding(crate::specs::Kinds::number_of))]
fn number(top: u64, text: &[u8]) -> Option<i64>
    requires { top ≤ 2 ^ 63 }
    ensures { IfSome result (λ n. number_of top (string text.now) ≡ Some n) }
{
    let Ok(text) = std::str::from_utf8(text) else {
        return None;
    };
    match digits_of(text) {
        Some(n) if n < top => Some(n as i64),
        _ => None,
    }
}

/// The number from 0 to below 2^62 that these digits spell.
#[tactic(auto, unfolding(crate::specs::Kinds::count_of))]
pub fn count_of(text: &[u8]) -> Option<i64>
    ensures { IfSome result (λ n. count_of (string text.now) ≡ Some n) }
{
    number(MAX_COUNTS, text)
}

/// The lease's number, from 0 to below 2^63, that these digits spell.
#[tactic(auto, unfolding(crate::specs::Kinds::lease_of))]
pub fn lease_of(text: &[u8]) -> Option<i64>
    ensures { IfSome result (λ n. lease_of (string text.now) ≡ Some n) }
{
    number(MAX_LEASES, text)
}

/// The bytes that this base64 with padding stands for.
#[tactic(auto, unfolding(crate::specs::Kinds::bytes_of))]
pub fn bytes_of(alloc: Global, text: &[u8]) -> Option<Bytes>
    ensures { IfSome result (λ bytes. bytes_of (string text.now) ≡ Some bytes) }
{
    match STANDARD.decode(alloc, text) {
        Ok(bytes) => Some(Bytes::from_vec(bytes)),
        Err(_) => None,
    }
}

/// As [`count_of`]; 0 where there are no digits.
pub fn count_if(text: Option<&[u8]>) -> Option<i64>
    ensures { IfSome result (λ n. count_if text.entry ≡ Some n) }
{
    match text {
        Some(digits) => count_of(digits),
        None => Some(0),
    }
}

/// As [`lease_of`]; 0 where there are no digits.
pub fn lease_if(text: Option<&[u8]>) -> Option<i64>
    ensures { IfSome result (λ n. lease_if text.entry ≡ Some n) }
{
    match text {
        Some(digits) => lease_of(digits),
        None => Some(0),
    }
}

/// As [`bytes_of`]; no bytes where there is no base64.
pub fn bytes_if(alloc: Global, text: Option<&[u8]>) -> Option<Bytes>
    ensures { IfSome result (λ bytes. bytes_if text.entry ≡ Some bytes) }
{
    match text {
        Some(coded) => bytes_of(alloc, coded),
        None => Some(Bytes::new(alloc)),
    }
}

/// Whether the bytes are UTF-8.
pub fn is_utf8(bytes: &[u8]) -> bool
    ensures { IsTrue result → IsUtf8 bytes.now }
{
    simdutf8::compat::from_utf8(bytes).is_ok()
}
