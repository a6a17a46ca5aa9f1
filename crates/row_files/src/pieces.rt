//! Texts that are put together.

use crate::words::word_of;
use std::alloc::Global;
use zx_base::Memory;

/// A piece of a text.
#[derive(Clone, Copy)]
pub enum Piece<'a> {
    /// A text as it is.
    Text(&'a str),
    /// A number in decimal, after a minus where it is below 0.
    Number(i64),
    /// A number in decimal.
    Count(u64),
}

/// The pieces, one after the other.
pub fn joined(alloc: Global, pieces: &[Piece<'_>]) -> Result<String, Memory> {
    let mut text = String::new(alloc);
    for piece in pieces {
        add(alloc, &mut text, *piece)?;
    }
    Ok(text)
}

fn add(alloc: Global, text: &mut String, piece: Piece<'_>) -> Result<(), Memory> {
    match piece {
        Piece::Text(piece) => text.push_str(piece)?,
        Piece::Number(number) => text.push_str(format!(in alloc; "{number}")?.as_str())?,
        Piece::Count(number) => text.push_str(format!(in alloc; "{number}")?.as_str())?,
    }
    Ok(())
}

/// Adds to a text.
pub fn push(text: &mut String, words: &str) -> Result<(), Memory> {
    text.push_str(words)?;
    Ok(())
}

/// Adds a blank and a word.
pub fn push_word(text: &mut String, word: &str) -> Result<(), Memory> {
    push(text, " ")?;
    push(text, word)
}

/// Adds a number in decimal after this text.
pub fn push_number(
    alloc: Global,
    text: &mut String,
    front: &str,
    number: i64,
) -> Result<(), Memory> {
    push(text, front)?;
    push(text, format!(in alloc; "{number}")?.as_str())
}

/// ` WORD@NUMBER`: a key and the revision of its last change.
pub fn push_at(alloc: Global, text: &mut String, key: &[u8], number: i64) -> Result<(), Memory> {
    push_word(text, word_of(key))?;
    push_number(alloc, text, "@", number)
}

/// Adds a number after this text; nothing for 0.
pub fn push_unless_zero(
    alloc: Global,
    text: &mut String,
    front: &str,
    number: i64,
) -> Result<(), Memory> {
    if number == 0 {
        return Ok(());
    }
    push_number(alloc, text, front, number)
}

/// This text alone, as what comes of a row.
pub fn said(alloc: Global, words: &str) -> Result<Option<String>, Memory> {
    Ok(Some(String::from_str(alloc, words)?))
}
