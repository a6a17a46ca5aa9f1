//! Words of rows.

use std::alloc::Global;
use zx_base::{Bytes, Memory};

/// A word's bytes, `-` for none; `~` stands for the byte 0.
pub fn bytes_of(alloc: Global, word: &str) -> Result<Bytes, Memory> {
    let written = if word == "-" { "" } else { word };
    Ok(Bytes::from_vec(written.replace(alloc, "~", "\0")?.into_bytes()))
}

/// A word in decimal, perhaps with a sign.
pub fn number(word: &str) -> Option<i64> {
    word.parse::<i64>().ok()
}

/// A word in decimal that is at least 0.
pub fn count(word: &str) -> Option<usize> {
    word.parse::<usize>().ok()
}
