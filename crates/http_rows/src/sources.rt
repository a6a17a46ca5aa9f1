//! Sources in memory that give their bytes in pieces, with idle turns between them.

use crate::marks::unescaped;
use std::alloc::{AllocError, Global};
use zx_outside::MemSource;

/// How many pieces come after an idle turn.
const IDLE_TURNS: usize = 500;

/// How many idle turns a call waits at most.
const PAUSE: usize = 6000;

/// A source of these bytes in pieces of this size, the first 500 of them each after an idle turn; size 0 does not cut them.
pub fn source_of(alloc: Global, text: &str, cut: u32) -> Result<MemSource, AllocError> {
    let bytes = unescaped(alloc, text.as_bytes())?;
    let pieces = pieces_of(alloc, bytes.len(), cut)?;
    Ok(MemSource::new(bytes, pieces, Vec::new(alloc)))
}

/// The pieces that so many bytes are cut into.
fn pieces_of(alloc: Global, length: usize, cut: u32) -> Result<Vec<u32>, AllocError> {
    let mut pieces = Vec::new(alloc);
    if cut > 0 {
        for number in 0..length {
            if number < IDLE_TURNS {
                pieces.push(0)?;
            }
            pieces.push(cut)?;
        }
    }
    Ok(pieces)
}

/// Adds so many pieces of one size.
fn push_times(pieces: &mut Vec<u32>, size: u32, times: usize) -> Result<(), AllocError> {
    for _ in 0..times {
        pieces.push(size)?;
    }
    Ok(())
}

/// The number that a text begins with and the text after it; 0 and the whole text where there is none.
fn number_before(text: &str) -> (usize, &str) {
    match text.split_once(' ') {
        Some((number, rest)) => match number.parse::<usize>() {
            Ok(number) => (number, rest),
            Err(_) => (0, text),
        },
        None => (0, text),
    }
}

/// A source that is idle for as many turns as the text's first word says, and then gives the rest.
pub fn idle_source(alloc: Global, text: &str) -> Result<MemSource, AllocError> {
    let (turns, rest) = number_before(text);
    let mut pieces = Vec::new(alloc);
    push_times(&mut pieces, 0, turns)?;
    let bytes = unescaped(alloc, rest.as_bytes())?;
    Ok(MemSource::new(bytes, pieces, Vec::new(alloc)))
}

/// A source that gives bytes one by one and then a piece, as the text's first two words say, and then is idle for 6,000 turns.
pub fn paused_source(alloc: Global, text: &str) -> Result<MemSource, AllocError> {
    let (ones, rest) = number_before(text);
    let (next, rest) = number_before(rest);
    let mut pieces = Vec::new(alloc);
    push_times(&mut pieces, 1, ones)?;
    pieces.push(u32::try_from(next).unwrap_or(1))?;
    push_times(&mut pieces, 0, PAUSE)?;
    let bytes = unescaped(alloc, rest.as_bytes())?;
    Ok(MemSource::new(bytes, pieces, Vec::new(alloc)))
}
