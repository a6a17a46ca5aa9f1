//! Texts, and the data of nodes.

use row_files::word_of;
use std::alloc::Global;
use zk_model::{Path, PathFault};
use zx_base::{Bytes, Memory, Text};

/// More bytes of data than this, all the same, are spelled by their number.
const MAX_SPELLED: usize = 64;

/// The bytes that a word stands for: none for `-`, and `abbb` for `ab*3`. A `*` without a number after it stands for
/// itself.
pub fn content(alloc: Global, word: &str) -> Result<Bytes, Memory> {
    if word == "-" {
        return Ok(Bytes::new(alloc));
    }
    if let Some((front, times)) = word.rsplit_once('*') {
        if let Ok(times) = times.parse::<usize>() {
            return repeated(alloc, front.as_bytes(), times);
        }
    }
    Bytes::copy_of(alloc, word.as_bytes())
}

/// These bytes, the last of them so many times.
fn repeated(alloc: Global, front: &[u8], times: usize) -> Result<Bytes, Memory> {
    let mut bytes = Vec::from_slice(alloc, front)?;
    if let Some(last) = front.last() {
        bytes.resize(front.len().saturating_add(times.saturating_sub(1)), *last)?;
    }
    Ok(Bytes::from_vec(bytes))
}

/// The text that a word stands for.
pub fn text(alloc: Global, word: &str) -> Result<Text, Memory> {
    content(alloc, word)
}

/// A node's data as a word: `x*NUMBER` for more than 64 bytes that are all `x`.
pub fn data_word(alloc: Global, bytes: &[u8]) -> Result<String, Memory> {
    let length = bytes.len();
    if length > MAX_SPELLED && bytes.iter().all(|byte| *byte == b'x') {
        return Ok(format!(in alloc; "x*{length}")?);
    }
    Ok(String::from_str(alloc, word_of(bytes))?)
}

/// A word as a path; `None` where it is not a valid one.
pub fn read_path(alloc: Global, word: &str) -> Result<Option<Path>, Memory> {
    match Path::read(alloc, word.as_bytes(), false) {
        Ok(path) => Ok(Some(path)),
        Err(PathFault::Memory) => Err(Memory),
        Err(_) => Ok(None),
    }
}
