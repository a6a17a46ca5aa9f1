//! Whether a word is what is expected, and which of its bytes is not.

use crate::expected::Expected;
use std::alloc::Global;
use zt_text::{decimal_digit, hex, number, password, session_id};
use zx_base::Memory;

/// The greatest zxid, revision or count of updates.
const MAX_LONG: u64 = 9_223_372_036_854_775_807;

/// The greatest length, and the greatest of those below zero, without their sign.
const MAX_INT: u64 = 2_147_483_647;

/// Whether a word is what is expected.
pub fn fits(alloc: Global, expected: Expected, word: &[u8]) -> Result<bool, Memory> {
    match expected {
        Expected::Connection | Expected::Proxy | Expected::Stray | Expected::Millis => {
            Ok(number(word).is_some())
        }
        Expected::Session => Ok(session_id(word).is_some()),
        Expected::Password => Ok(password(word).is_some()),
        Expected::Bytes => Ok(hex(alloc, word)?.is_some()),
        _ => Ok(fits_long(expected, word)),
    }
}

/// Whether a word is the number of a transcript that is expected.
fn fits_long(expected: Expected, word: &[u8]) -> bool {
    match expected {
        Expected::Frame | Expected::Time | Expected::Place => is_decimal(word, u64::MAX),
        Expected::Zxid | Expected::Revision | Expected::Updates => is_decimal(word, MAX_LONG),
        Expected::Line => is_decimal(word, u64::MAX) && word != b"0".as_slice(),
        Expected::Length => is_length(word),
        _ => false,
    }
}

/// Whether this is a decimal number without sign or leading zero, up to this one.
fn is_decimal(word: &[u8], most: u64) -> bool {
    match decimal(word) {
        Some(value) => value <= most,
        None => false,
    }
}

/// The decimal number of a word without sign or leading zero; None from 2^64 on.
fn decimal(word: &[u8]) -> Option<u64> {
    if word.is_empty() || (word.len() > 1 && word[0] == b'0') {
        return None;
    }
    let mut value: u64 = 0;
    for byte in word {
        let digit = decimal_digit(*byte)?;
        value = value.checked_mul(10)?.checked_add(u64::from(digit))?;
    }
    Some(value)
}

/// Whether this is a length of 32 bits, with `-` in front if it is below zero.
fn is_length(word: &[u8]) -> bool {
    match word {
        [b'-', digits @ ..] => is_decimal(digits, MAX_INT + 1) && digits != b"0".as_slice(),
        _ => is_decimal(word, MAX_INT),
    }
}

/// How many of a word's bytes are as expected, for one that does not fit: those before the first that may not be in such a word; none if
/// all may, since then the word is wrong as a whole.
pub fn fitting(expected: Expected, word: &[u8]) -> usize {
    for (at, byte) in word.iter().enumerate() {
        if !may_have(expected, *byte) {
            return at;
        }
    }
    0
}

/// Whether this byte may be in such a word.
fn may_have(expected: Expected, byte: u8) -> bool {
    match expected {
        Expected::ScriptLine
        | Expected::TranscriptLine
        | Expected::Update
        | Expected::Cause
        | Expected::Reason => true,
        Expected::Session | Expected::Password | Expected::Bytes => {
            matches!(byte, b'0'..=b'9' | b'a'..=b'f')
        }
        _ => decimal_digit(byte).is_some(),
    }
}
