//! Files and folders of examples.

use anyhow::{Context, Result, bail};
use std::fs;
use std::rt::Files;

/// The names in a folder up to their first dot, each once and in order.
pub fn names_in<R: Files + AllocGlobal + Clone + Drop>(
    rt: &R,
    folder: &str,
) -> Result<Vec<String>> {
    let mut names = Vec::new(rt.alloc());
    for entry in fs::read_dir(rt, folder).context(format_args!("listing {folder}"))? {
        let entry = entry?;
        names.push(String::from_str(rt.alloc(), stem(entry.file_name()))?)?;
    }
    names.sort()?;
    names.dedup();
    Ok(names)
}

/// A file's name without its endings.
fn stem(name: &str) -> &str {
    match name.split_once('.') {
        Some((stem, _)) => stem,
        None => name,
    }
}

/// The bytes of a file.
pub fn bytes_of<R: Files + AllocGlobal>(rt: &R, path: &str) -> Result<Vec<u8>> {
    let bytes = fs::read(rt, path).context(format_args!("reading {path}"))?;
    Ok(bytes)
}

/// The bytes of the file that has this ending.
pub fn bytes_beside<R: Files + AllocGlobal>(rt: &R, path: &str, ending: &str) -> Result<Vec<u8>> {
    let file = format!(in rt.alloc(); "{path}.{ending}")?;
    bytes_of(rt, file.as_str())
}

/// The text of a file.
pub fn text_of<R: Files + AllocGlobal>(rt: &R, path: &str) -> Result<String> {
    let text = fs::read_to_string(rt, path).context(format_args!("reading {path}"))?;
    Ok(text)
}

/// Whether there is such a file.
pub fn exists<R: Files + AllocGlobal>(rt: &R, path: &str) -> Result<bool> {
    let there = fs::exists(rt, path)?;
    Ok(there)
}

/// The number that a file holds.
pub fn number_of<R: Files + AllocGlobal>(rt: &R, path: &str) -> Result<u64> {
    let text = text_of(rt, path)?;
    match text.trim().parse::<u64>() {
        Ok(number) => Ok(number),
        Err(_) => bail!("no number in {path}"),
    }
}
