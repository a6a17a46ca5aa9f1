//! Rows of what was found, which a view takes.

use crate::values::value;
use ev_types::{ActAns, Kv, RangeAns};
use row_files::{Words, hex_of, said, word_of};
use row_words::read_path;
use std::alloc::Global;
use zn_view::{View, ViewFault, Want, are_numbers, is_count};
use zx_base::{Bytes, Memory, Seq};

/// A key with its value. One that was put more than once was created at revision 2.
fn kept(
    alloc: Global,
    key: &str,
    value: Vec<u8>,
    mod_revision: i64,
    version: i64,
) -> Result<Kv, Memory> {
    Ok(Kv {
        key: Bytes::copy_of(alloc, key.as_bytes())?,
        value: Bytes::from_vec(value),
        create_revision: if version == 1 { mod_revision } else { 2 },
        mod_revision,
        version,
        lease: 0,
    })
}

/// Adds what was found for one want. `None` where a number is not one of an etcd's, which is from 0 to 2^62 - 1.
fn add(
    alloc: Global,
    view: &mut View,
    want: Want,
    revision: i64,
    kvs: Seq<Kv>,
) -> Result<Option<String>, Memory> {
    let wants = [want];
    let parts = [ActAns::Range(RangeAns {
        kvs,
        more: false,
        count: 0,
    })];
    if !is_count(revision) || !are_numbers(&parts) {
        return Ok(None);
    }
    match view.add(&wants, revision, &parts) {
        Ok(()) => said(alloc, "added"),
        Err(fault) => fault_text(alloc, fault),
    }
}

fn fault_text(alloc: Global, fault: ViewFault) -> Result<Option<String>, Memory> {
    match fault {
        ViewFault::OtherRevision { view: old, found } => Ok(Some(format!(in alloc;
            "other revision: {old} and {found}"
        )?)),
        ViewFault::Damaged { key, value } => {
            let key = word_of(key.as_slice());
            let digits = hex_of(alloc, value.as_slice())?;
            Ok(Some(format!(in alloc; "damaged: {key} {digits}")?))
        }
        ViewFault::Memory => Err(Memory),
    }
}

fn key_of(alloc: Global, word: &str) -> Result<Want, Memory> {
    Ok(Want::Key(Bytes::copy_of(alloc, word.as_bytes())?))
}

fn one(alloc: Global, kv: Kv) -> Result<Seq<Kv>, Memory> {
    let mut kvs = Seq::new(alloc);
    kvs.push(kv)?;
    Ok(kvs)
}

/// `KEY MOD_REVISION VERSION RECORD`: what is found for the wanted key, which is this one where no other is named
fn found_for(
    alloc: Global,
    view: &mut View,
    revision: i64,
    wanted: Option<&str>,
    words: &mut Words,
) -> Result<Option<String>, Memory> {
    let (Some(key), Some(put), Some(version)) = (words.word(), words.long(), words.long()) else {
        return Ok(None);
    };
    let Some(value) = value(alloc, words)? else {
        return Ok(None);
    };
    let want = key_of(
        alloc,
        match wanted {
            Some(wanted) => wanted,
            None => key,
        },
    )?;
    let kvs = one(alloc, kept(alloc, key, value, put, version)?)?;
    add(alloc, view, want, revision, kvs)
}

/// `KEY MOD_REVISION VERSION RECORD`: what is found under the key that is wanted
pub fn saw(
    alloc: Global,
    view: &mut View,
    revision: i64,
    words: &mut Words,
) -> Result<Option<String>, Memory> {
    found_for(alloc, view, revision, None, words)
}

/// `WANTED KEY MOD_REVISION VERSION RECORD`: another key is found than the one that is wanted
pub fn other(
    alloc: Global,
    view: &mut View,
    revision: i64,
    words: &mut Words,
) -> Result<Option<String>, Memory> {
    let wanted = words.word();
    found_for(alloc, view, revision, wanted, words)
}

/// `KEY`: nothing is found under it
pub fn absent(
    alloc: Global,
    view: &mut View,
    revision: i64,
    words: &mut Words,
) -> Result<Option<String>, Memory> {
    let Some(key) = words.word() else {
        return Ok(None);
    };
    add(alloc, view, key_of(alloc, key)?, revision, Seq::new(alloc))
}

/// Adds a key without a value; false where there is none to add.
fn push_key(alloc: Global, kvs: &mut Seq<Kv>, key: Option<&str>) -> Result<bool, Memory> {
    let Some(key) = key else {
        return Ok(false);
    };
    kvs.push(kept(alloc, key, Vec::new(alloc), 1, 1)?)?;
    Ok(true)
}

/// The most keys that a row lists.
const MAX_LISTED: u32 = 1_000_000;

/// `PATH KEY..`: the keys in the range of the node's children
pub fn listed(
    alloc: Global,
    view: &mut View,
    revision: i64,
    words: &mut Words,
) -> Result<Option<String>, Memory> {
    let Some(text) = words.word() else {
        return Ok(None);
    };
    let Some(path) = read_path(alloc, text)? else {
        return Ok(None);
    };
    let mut kvs = Seq::new(alloc);
    for _ in 0..MAX_LISTED {
        if !push_key(alloc, &mut kvs, words.word())? {
            break;
        }
    }
    add(alloc, view, Want::Children(path), revision, kvs)
}
