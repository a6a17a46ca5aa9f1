//! The numbers of a transcript's line.

ghost use Rattle.std.specs.Prelude.{◌≡◌, ◌+◌, ◌*◌, ◌<◌, MatchOption};
ghost use Rattle.zt_lines.specs.Words.{as_length, as_negative_length, length_word, long as long_of, place as place_of};

use zt_text::decimal_digit;

/// Ten times a number, plus a digit; None from 2^64 on.
fn with_digit(value: u64, digit: u8) -> Option<u64>
    ensures { MatchOption result (18446744073709551615 < value * 10 + digit) (λ n. n ≡ value * 10 + digit) }
{
    value.checked_mul(10)?.checked_add(u64::from(digit))
}

/// A decimal number without sign or leading zero, up to 2^64 - 1: a place in a stream, a time of the clock in milliseconds or
/// the index of a frame.
#[tactic(auto, unfolding(crate::specs::Words::natural))]
pub fn place(word: &[u8]) -> Option<u64>
    ensures { result ≡ place_of word.now }
{
    if word.is_empty() || (word.len() > 1 && word[0] == b'0') {
        return None;
    }
    let mut value: u64 = 0;
    for byte in word {
        let digit = decimal_digit(*byte)?;
        value = with_digit(value, digit)?;
    }
    Some(value)
}

/// A number from 0 to 2^63 - 1: a zxid, a revision or a count of updates.
#[tactic(auto, unfolding(crate::specs::Words::long))]
pub fn long(word: &[u8]) -> Option<i64>
    ensures { result ≡ long_of word.now }
{
    let value = place(word)?;
    if value < 0x8000_0000_0000_0000 {
        Some(value as i64)
    } else {
        None
    }
}

/// This number as a length; None from 2^31 on.
fn as_length(value: u64) -> Option<i32>
    ensures { result ≡ as_length value }
{
    if value < 0x8000_0000 {
        Some(value as i32)
    } else {
        None
    }
}

/// The negative of this number as a length; None unless it is from 1 to 2^31.
fn as_negative_length(value: u64) -> Option<i32>
    ensures { result ≡ as_negative_length value }
{
    if value >= 1 && value <= 0x8000_0000 {
        Some(-1 - ((value - 1) as i32))
    } else {
        None
    }
}

/// A length from -2^31 to 2^31 - 1, with `-` in front where it is negative.
#[tactic(auto, unfolding(crate::specs::Words::length_word))]
pub fn length(word: &[u8]) -> Option<i32>
    ensures { result ≡ length_word word.now }
{
    let [first, digits @ ..] = word else {
        return None;
    };
    if *first == b'-' {
        as_negative_length(place(digits)?)
    } else {
        as_length(place(word)?)
    }
}
