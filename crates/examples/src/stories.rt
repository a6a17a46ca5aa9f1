//! Stories in words: a script or a transcript, beside which its words stand in a file.

use crate::compare::first_difference;
use crate::files::{bytes_of, text_of};
use anyhow::{Result, bail};
use std::alloc::Global;
use std::rt::Files;
use zt_story::{Unmade, in_words, script_of};
use zx_base::Memory;

/// Where a script or a transcript, put into words, differs from its words. None: nowhere. Lines of the words that begin with `#` are
/// for the reader.
pub fn words_problem<R: Files + AllocGlobal>(rt: &R, path: &str) -> Result<Option<String>> {
    let text = text_of(rt, path)?;
    let words = text_of(rt, format!(in rt.alloc(); "{path}.words")?.as_str())?;
    let wanted = without_comments(rt.alloc(), words.as_str())?;
    match in_words(rt.alloc(), text.as_str()) {
        Ok(made) => problem_at(rt.alloc(), made.as_slice(), wanted.as_slice()),
        Err(Memory) => bail!("out of memory"),
    }
}

/// Where the script that is made from a script's words differs from it. None: nowhere.
pub fn script_problem<R: Files + AllocGlobal>(rt: &R, path: &str) -> Result<Option<String>> {
    let words = text_of(rt, format!(in rt.alloc(); "{path}.words")?.as_str())?;
    let wanted = bytes_of(rt, path)?;
    match script_of(rt.alloc(), words.as_str()) {
        Ok(made) => problem_at(rt.alloc(), made.as_slice(), wanted.as_slice()),
        Err(Unmade::Memory) => bail!("out of memory"),
        Err(Unmade::Line { line, byte }) => bail!("line {line} cannot be read from byte {byte} on"),
    }
}

/// The lines of a text that do not begin with `#`, each with a line feed after it.
fn without_comments(alloc: Global, text: &str) -> Result<Vec<u8>> {
    let mut kept = Vec::new(alloc);
    for line in text.lines() {
        if !line.starts_with('#') {
            kept.extend_from_slice(line.as_bytes())?;
            kept.push(b'\n')?;
        }
    }
    Ok(kept)
}

/// Where two texts begin to differ. None: nowhere.
fn problem_at(alloc: Global, found: &[u8], wanted: &[u8]) -> Result<Option<String>> {
    match first_difference(found, wanted) {
        Some(at) => Ok(Some(format!(in alloc; "at byte {at}")?)),
        None => Ok(None),
    }
}
