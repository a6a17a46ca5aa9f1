//! What others do to the etcd. Each adds the revision after it, or the denial; it is false where the words are others.

use crate::answers::{answer_of, push_fault};
use ev_store::Store;
use ev_types::{Act, Ask, TxnReq};
use row_files::{Words, bytes_of, push_number};
use std::alloc::Global;
use zx_base::{Bytes, Memory, Seq};

/// Adds the revision of an ask's answer, or the denial.
fn push_revision(
    alloc: Global,
    text: &mut String,
    store: &mut Store,
    ask: &Ask,
) -> Result<bool, Memory> {
    if let Some(answer) = answer_of(alloc, text, store, ask)? {
        push_number(alloc, text, "", answer.revision())?;
    }
    Ok(true)
}

/// One operation is carried out alone, with no guard.
fn done(alloc: Global, text: &mut String, store: &mut Store, act: Act) -> Result<bool, Memory> {
    let mut success = Seq::new(alloc);
    success.push(act)?;
    let txn = TxnReq {
        guards: Seq::new(alloc),
        success,
        failure: Seq::new(alloc),
    };
    push_revision(alloc, text, store, &Ask::Txn(txn))
}

/// `put KEY VALUE LEASE`
pub fn put(
    alloc: Global,
    text: &mut String,
    store: &mut Store,
    words: &mut Words,
) -> Result<bool, Memory> {
    let (Some(key), Some(digits), Some(lease)) = (words.word(), words.word(), words.long()) else {
        return Ok(false);
    };
    let Some(value) = bytes_of(alloc, digits)? else {
        return Ok(false);
    };
    let value = Bytes::from_vec(value);
    let key = Bytes::copy_of(alloc, key.as_bytes())?;
    done(alloc, text, store, Act::Put { key, value, lease })
}

/// `delete KEY`
pub fn delete(
    alloc: Global,
    text: &mut String,
    store: &mut Store,
    words: &mut Words,
) -> Result<bool, Memory> {
    let Some(key) = words.word() else {
        return Ok(false);
    };
    let key = Bytes::copy_of(alloc, key.as_bytes())?;
    done(alloc, text, store, Act::Delete { key })
}

/// `grant ID SECONDS`
pub fn grant(
    alloc: Global,
    text: &mut String,
    store: &mut Store,
    words: &mut Words,
) -> Result<bool, Memory> {
    let (Some(id), Some(ttl)) = (words.long(), words.long()) else {
        return Ok(false);
    };
    push_revision(alloc, text, store, &Ask::Grant { id, ttl })
}

/// `lapse ID`
pub fn lapse(
    alloc: Global,
    text: &mut String,
    store: &mut Store,
    words: &mut Words,
) -> Result<bool, Memory> {
    let Some(id) = words.long() else {
        return Ok(false);
    };
    match store.lapse(id) {
        Ok(revision) => push_number(alloc, text, "", revision)?,
        Err(fault) => push_fault(alloc, text, &fault)?,
    }
    Ok(true)
}
