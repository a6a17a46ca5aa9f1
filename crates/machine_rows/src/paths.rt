//! Paths.

use row_files::{Piece, Words, bytes_of, hex_of, joined, said};
use std::alloc::Global;
use zk_model::{Path, PathFault};
use zx_base::Memory;

/// What comes of the left side of a row; `None` where it cannot be read.
pub fn found(alloc: Global, left: &str) -> Result<Option<String>, Memory> {
    let Some((word, rest)) = left.split_once(' ') else {
        return Ok(None);
    };
    match word {
        "long" => return length_of(alloc, rest, false),
        "long-prefix" => return length_of(alloc, rest, true),
        "numbered" => return numbered(alloc, rest),
        _ => {}
    }
    let Some(text) = bytes_of(alloc, rest)? else {
        return Ok(None);
    };
    match word {
        "path" => read(alloc, text.as_slice()),
        "prefix" => read_prefix(alloc, text.as_slice()),
        "names" => names(alloc, text.as_slice()),
        _ => Ok(None),
    }
}

/// `read` where the text is read as itself, or the fault.
fn read(alloc: Global, text: &[u8]) -> Result<Option<String>, Memory> {
    match Path::read(alloc, text, false) {
        Ok(path) if path.bytes() == text => said(alloc, "read"),
        Ok(_) => said(alloc, "another path"),
        Err(fault) => said(alloc, fault_name(fault)),
    }
}

/// What is read as the path of a sequential create, or the fault.
fn read_prefix(alloc: Global, text: &[u8]) -> Result<Option<String>, Memory> {
    match Path::read(alloc, text, true) {
        Ok(path) => Ok(Some(hex_of(alloc, path.bytes())?)),
        Err(fault) => said(alloc, fault_name(fault)),
    }
}

/// The length of the path that is read of a slash and so many letters, or the fault.
fn length_of(alloc: Global, letters: &str, sequential: bool) -> Result<Option<String>, Memory> {
    let Ok(letters) = letters.parse::<u32>() else {
        return Ok(None);
    };
    let mut text = Vec::new(alloc);
    text.push(b'/')?;
    for _letter in 0..letters {
        text.push(b'a')?;
    }
    match Path::read(alloc, text.as_slice(), sequential) {
        Ok(path) => {
            let length = path.bytes().len();
            Ok(Some(format!(in alloc; "{length}")?))
        }
        Err(fault) => said(alloc, fault_name(fault)),
    }
}

/// A path's depth, last name and parent.
fn names(alloc: Global, text: &[u8]) -> Result<Option<String>, Memory> {
    let Ok(path) = Path::read(alloc, text, false) else {
        return Ok(None);
    };
    Ok(Some(names_text(alloc, &path)?))
}

fn names_text(alloc: Global, path: &Path) -> Result<String, Memory> {
    let name = hex_of(alloc, path.last_name())?;
    let parent = parent_text(alloc, path)?;
    let pieces = [
        Piece::Count(u64::from(path.depth())),
        Piece::Text(" "),
        Piece::Text(name.as_str()),
        Piece::Text(" "),
        Piece::Text(parent.as_str()),
    ];
    joined(alloc, &pieces)
}

/// A path's parent, which is copied first.
fn parent_text(alloc: Global, path: &Path) -> Result<String, Memory> {
    match path.parent(alloc)? {
        Some(parent) => hex_of(alloc, parent.copy(alloc)?.bytes()),
        None => Ok(String::from_str(alloc, "none")?),
    }
}

/// The path of a sequence node, which has to be a child of its parent.
fn numbered(alloc: Global, rest: &str) -> Result<Option<String>, Memory> {
    let mut words = Words::new(rest);
    let (Some(prefix), Some(number)) = (words.word(), words.number()) else {
        return Ok(None);
    };
    match bytes_of(alloc, prefix)? {
        Some(prefix) => numbered_after(alloc, prefix.as_slice(), number),
        None => Ok(None),
    }
}

fn numbered_after(alloc: Global, prefix: &[u8], number: u32) -> Result<Option<String>, Memory> {
    if Path::read(alloc, prefix, true).is_err() {
        return said(alloc, "no prefix");
    }
    let path = Path::numbered(alloc, prefix, number)?;
    if !is_child(alloc, &path)? {
        return said(alloc, "no child of its parent");
    }
    Ok(Some(hex_of(alloc, path.bytes())?))
}

/// Whether a path has a parent and is a child of it.
fn is_child(alloc: Global, path: &Path) -> Result<bool, Memory> {
    match path.parent(alloc)? {
        Some(parent) => Ok(path.is_child_of(parent.bytes())),
        None => Ok(false),
    }
}

/// The name of a fault.
fn fault_name(fault: PathFault) -> &'static str {
    match fault {
        PathFault::NoSlash => "no slash",
        PathFault::EndSlash => "end slash",
        PathFault::EmptyName => "empty name",
        PathFault::DotName => "dot name",
        PathFault::BadText => "bad text",
        PathFault::TooLong => "too long",
        PathFault::Memory => "memory",
    }
}
