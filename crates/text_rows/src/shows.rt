//! Rows of streams that are shown.

use row_files::bytes_of;
use std::alloc::Global;
use zt_show::{Lines, Show};
use zx_base::Memory;

/// The lines that are shown of a stream, with `;` after each. Its pieces stand on the left with a blank between them; the text is
/// emptied after each.
pub fn shown(alloc: Global, row: &str) -> Result<Option<String>, Memory> {
    let mut show = Show::new(alloc);
    let mut text = Lines::new(alloc);
    let mut all = String::new(alloc);
    if push_row(alloc, &mut show, &mut text, &mut all, row)? {
        Ok(Some(all))
    } else {
        Ok(None)
    }
}

/// Adds what is shown; false where a piece is unreadable.
fn push_row(
    alloc: Global,
    show: &mut Show,
    text: &mut Lines,
    all: &mut String,
    row: &str,
) -> Result<bool, Memory> {
    for piece in row.split(" ") {
        match push_piece(alloc, show, text, all, piece)? {
            Some(true) => {}
            Some(false) => return Ok(true),
            None => return Ok(false),
        }
    }
    show.finish(text)?;
    add_lines(all, text)?;
    push_count(alloc, all, show.lines())?;
    Ok(true)
}

/// Adds what is shown of a piece: whether the stream goes on after it, and none where it is unreadable.
fn push_piece(
    alloc: Global,
    show: &mut Show,
    text: &mut Lines,
    all: &mut String,
    piece: &str,
) -> Result<Option<bool>, Memory> {
    let Some(piece) = bytes_of(alloc, piece)? else {
        return Ok(None);
    };
    let ending = show.take(piece.as_slice(), text)?;
    add_lines(all, text)?;
    Ok(Some(ending.is_none()))
}

fn push_count(alloc: Global, all: &mut String, lines: u64) -> Result<(), Memory> {
    all.push_str(format!(in alloc; " {lines} lines")?.as_str())?;
    Ok(())
}

/// Takes the lines away from a text.
fn add_lines(all: &mut String, text: &mut Lines) -> Result<(), Memory> {
    if let Ok(lines) = str::from_utf8(text.as_slice()) {
        for line in lines.lines() {
            all.push_str(line)?;
            all.push_str(";")?;
        }
    }
    text.clear();
    Ok(())
}
