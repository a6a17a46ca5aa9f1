//! Rows of streams that are cut into frames.

use row_files::{Piece, bytes_of, hex_of, joined, push};
use std::alloc::Global;
use zk_wire::{CutFault, Cutter};
use zx_base::{Bytes, Memory};

/// What each piece of a stream gives: its frames with `,` after each, `.` where it gives none, or the length that is out of
/// range with its place. Pieces stand on the left with a blank between them.
pub fn cut(alloc: Global, row: &str) -> Result<Option<String>, Memory> {
    let mut cutter = Cutter::new(alloc);
    let mut all = String::new(alloc);
    for piece in row.split(" ") {
        if !push_given(alloc, &mut cutter, &mut all, piece)? {
            return Ok(None);
        }
    }
    Ok(Some(all))
}

/// Adds what a piece gives; false where the piece is unreadable.
fn push_given(
    alloc: Global,
    cutter: &mut Cutter,
    all: &mut String,
    piece: &str,
) -> Result<bool, Memory> {
    let Some(piece) = bytes_of(alloc, piece)? else {
        return Ok(false);
    };
    if !all.is_empty() {
        all.push_str(" ")?;
    }
    let given = given_by(alloc, cutter.take(piece.as_slice()))?;
    all.push_str(given.as_str())?;
    Ok(true)
}

fn given_by(alloc: Global, cut: Result<Vec<Bytes>, CutFault>) -> Result<String, Memory> {
    match cut {
        Ok(frames) => frames_of(alloc, frames.as_slice()),
        Err(CutFault::BadLength { place, length }) => {
            let pieces = [
                Piece::Text("length:"),
                Piece::Count(place),
                Piece::Text(":"),
                Piece::Number(i64::from(length)),
            ];
            joined(alloc, &pieces)
        }
        Err(CutFault::Memory) => Err(Memory),
    }
}

fn frames_of(alloc: Global, frames: &[Bytes]) -> Result<String, Memory> {
    if frames.is_empty() {
        return Ok(String::from_str(alloc, ".")?);
    }
    let mut all = String::new(alloc);
    for frame in frames {
        push_frame(alloc, &mut all, frame)?;
    }
    Ok(all)
}

fn push_frame(alloc: Global, all: &mut String, frame: &Bytes) -> Result<(), Memory> {
    let digits = hex_of(alloc, frame.as_slice())?;
    push(all, digits.as_str())?;
    push(all, ",")
}
