//! What is done to a store besides asks, and what its watchers are told.

use crate::asks::{fault_text, push_kvs};
use crate::words::{bytes_of, count, number};
use ev_store::{Store, StoreFault};
use ev_types::Kv;
use std::alloc::Global;
use zx_base::Memory;

/// `lapse ID`
pub fn lapse(alloc: Global, store: &mut Store, rest: &str) -> Result<Option<String>, Memory> {
    match number(rest) {
        Some(id) => revision_text(alloc, store.lapse(id)),
        None => Ok(None),
    }
}

/// `foreign KEY VALUE`
pub fn foreign(alloc: Global, store: &mut Store, rest: &str) -> Result<Option<String>, Memory> {
    let Some((key, value)) = rest.split_once(' ') else {
        return Ok(None);
    };
    let key = bytes_of(alloc, key)?;
    let value = bytes_of(alloc, value)?;
    revision_text(alloc, store.foreign(key.as_slice(), value.as_slice()))
}

fn revision_text(
    alloc: Global,
    changed: Result<i64, StoreFault>,
) -> Result<Option<String>, Memory> {
    match changed {
        Ok(revision) => Ok(Some(format!(in alloc; "{revision}")?)),
        Err(fault) => fault_text(alloc, fault),
    }
}

/// `compact REVISION`
pub fn compact(alloc: Global, store: &mut Store, rest: &str) -> Result<Option<String>, Memory> {
    let Some(revision) = number(rest) else {
        return Ok(None);
    };
    match store.compact(revision) {
        Ok(()) => Ok(Some(String::from_str(alloc, "compacted")?)),
        Err(fault) => fault_text(alloc, fault),
    }
}

/// `events REVISION COUNT`
pub fn events(alloc: Global, store: &Store, rest: &str) -> Result<Option<String>, Memory> {
    let Some((revision, most)) = rest.split_once(' ') else {
        return Ok(None);
    };
    let (Some(revision), Some(most)) = (number(revision), count(most)) else {
        return Ok(None);
    };
    match store.events_since(revision, most) {
        Ok(puts) => { Ok(Some(puts_text(alloc, puts.as_slice())?)) }
        Err(fault) => fault_text(alloc, fault),
    }
}

fn puts_text(alloc: Global, puts: &[Kv]) -> Result<String, Memory> {
    let mut text = String::from_str(alloc, "{")?;
    push_kvs(alloc, &mut text, puts)?;
    Ok(text)
}
