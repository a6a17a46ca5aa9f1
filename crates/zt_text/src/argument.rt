//! What the words of a line say.

ghost use Rattle.std.specs.Prelude.{◌≡◌, ◌+◌, ◌*◌, [], length, Some, None, IfOk, MatchBool};
ghost use Rattle.zt_text.specs.Scripts.{decimal_digit as decimal_digit_of, hex_value as hex_digit_of, hex_byte as hex_byte_of, hex_pairs as hex_pairs_of, number as number_of, hex as hex_of, session_id as session_id_of, password as password_of};

use std::alloc::Global;
use zx_base::{Bytes, Memory};

/// The value of a decimal digit.
pub fn decimal_digit(byte: u8) -> Option<u8>
    ensures { result ≡ decimal_digit_of byte }
{
    match byte {
        b'0'..=b'9' => Some(byte - b'0'),
        _ => None,
    }
}

/// The value of a hex digit in lower case.
fn hex_digit(byte: u8) -> Option<u8>
    ensures { result ≡ hex_digit_of byte }
{
    match byte {
        b'0'..=b'9' => Some(byte - b'0'),
        b'a'..=b'f' => Some(byte - b'a' + 10),
        _ => None,
    }
}

/// The byte of two hex digits, the high one first.
#[tactic(auto, unfolding(crate::specs::Scripts::hex_byte))]
fn hex_byte(high: u8, low: u8) -> Option<u8>
    ensures { result ≡ hex_byte_of high low }
{
    let high = hex_digit(high)?;
    let low = hex_digit(low)?;
    Some(high * 16 + low)
}

/// A decimal number without sign or leading zero, up to 4294967295.
#[tactic(auto, unfolding(crate::specs::Scripts::number))]
pub fn number(word: &[u8]) -> Option<u32>
    ensures { result ≡ number_of word.now }
{
    if word.is_empty() || (word.len() > 1 && word[0] == b'0') {
        return None;
    }
    let mut value: u64 = 0;
    for byte in word {
        let digit = decimal_digit(*byte)?;
        value = value * 10 + u64::from(digit);
        if value > u64::from(u32::MAX) {
            return None;
        }
    }
    Some(value as u32)
}

/// A session's number: 16 hex digits, from 1 to 2^63 - 1.
#[tactic(auto, unfolding(crate::specs::Scripts::session_id))]
pub fn session_id(word: &[u8]) -> Option<i64>
    ensures { result ≡ session_id_of word.now }
{
    if word.len() != 16 {
        return None;
    }
    let mut value: u64 = 0;
    for byte in word {
        let digit = hex_digit(*byte)?;
        value = value * 16 + u64::from(digit);
    }
    if value >= 1 && value < 0x8000_0000_0000_0000 {
        Some(value as i64)
    } else {
        None
    }
}

/// Writes the bytes that pairs of hex digits spell. Where it answers false, what was written is of no use.
fn fill_from_hex(word: &[u8], out: &mut [u8]) -> bool
    requires { length word.now ≡ 2 * length out.old }
    ensures { MatchBool result (hex_pairs_of word.now ≡ Some out.new) (hex_pairs_of word.now ≡ None) }
{
    for at in 0..out.len() {
        let Some(byte) = hex_byte(word[2 * at], word[2 * at + 1]) else {
            return false;
        };
        out[at] = byte;
    }
    true
}

/// A session's password: 32 hex digits.
#[tactic(auto, unfolding(crate::specs::Scripts::password))]
pub fn password(word: &[u8]) -> Option<[u8; 16]>
    ensures { result ≡ password_of word.now }
{
    if word.len() != 32 {
        return None;
    }
    let mut bytes = [0u8; 16];
    if fill_from_hex(word, &mut bytes) {
        Some(bytes)
    } else {
        None
    }
}

/// Bytes: an even number of hex digits in lower case, or `-` for none.
#[tactic(auto, unfolding(crate::specs::Scripts::hex))]
pub fn hex(alloc: Global, word: &[u8]) -> Result<Option<Bytes>, Memory>
    ensures { IfOk result (λ bytes. bytes ≡ hex_of word.now) }
{
    match word {
        [] => Ok(None),
        b"-" => Ok(Some(Bytes::new(alloc))),
        _ => hex_pairs(alloc, word),
    }
}

fn hex_pairs(alloc: Global, word: &[u8]) -> Result<Option<Bytes>, Memory>
    ensures { IfOk result (λ bytes. bytes ≡ hex_pairs_of word.now) }
{
    if word.len() % 2 != 0 {
        return Ok(None);
    }
    let mut bytes = vec![in alloc; 0u8; word.len() / 2]?;
    if fill_from_hex(word, &mut bytes) {
        Ok(Some(Bytes::from_vec(bytes)))
    } else {
        Ok(None)
    }
}
