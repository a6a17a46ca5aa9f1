//! The keys of the stored layout.

use crate::words::number;
use row_files::word_of;
use std::alloc::Global;
use zn_layout::{counts_key, data_key, head_key, lease_key, session_key};
use zx_base::{Bytes, Memory};

/// The most bytes of a path.
const MAX_PATH: usize = 1_024;

/// The key of a kind with this path or session number, as a word; `None` where the row has no such form.
pub fn written(alloc: Global, left: &str) -> Result<Option<String>, Memory> {
    let Some((kind, word)) = left.split_once(' ') else {
        return Ok(None);
    };
    match key_of(alloc, kind, word)? {
        Some(key) => Ok(Some(String::from_str(alloc, word_of(key.as_slice()))?)),
        None => Ok(None),
    }
}

fn key_of(alloc: Global, kind: &str, word: &str) -> Result<Option<Bytes>, Memory> {
    match kind {
        "head" => Ok(Some(head_key(alloc)?)),
        "data" => path_key(alloc, true, word.as_bytes()),
        "counts" => path_key(alloc, false, word.as_bytes()),
        "nodes" => numbered_key(alloc, true, word),
        "life" => numbered_key(alloc, false, word),
        _ => Ok(None),
    }
}

fn path_key(alloc: Global, of_data: bool, path: &[u8]) -> Result<Option<Bytes>, Memory> {
    if path.len() > MAX_PATH {
        return Ok(None);
    }
    if of_data {
        Ok(Some(data_key(alloc, path)?))
    } else {
        Ok(Some(counts_key(alloc, path)?))
    }
}

fn numbered_key(alloc: Global, of_nodes: bool, word: &str) -> Result<Option<Bytes>, Memory> {
    let id = match number(word) {
        Some(id) => id,
        None => return Ok(None),
    };
    if id < 1 {
        return Ok(None);
    }
    if of_nodes {
        Ok(Some(session_key(alloc, id)?))
    } else {
        Ok(Some(lease_key(alloc, id)?))
    }
}
