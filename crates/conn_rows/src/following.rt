//! Rows of a follower.

ghost use Rattle.std.specs.Prelude.{IfOk, IfSome};
ghost use Rattle.zw_feed.specs.Following.{IsNumbered, LineFits};

use ev_json::Line;
use ev_types::Kv;
use row_files::{Words, bytes_of, push, push_number};
use std::alloc::Global;
use zn_layout::Entry;
use zw_feed::{FeedFault, Follower};
use zx_base::{Bytes, Memory, Seq};

/// What a follower answers, line by line.
pub fn followed(alloc: Global, mut words: Words<'_>) -> Result<Option<String>, Memory> {
    let Some(number) = words.number() else {
        return Ok(None);
    };
    let mut follower = Follower::new(alloc, i64::from(number));
    let mut found = String::new(alloc);
    for _ in 0..1000u32 {
        let Some(word) = words.word() else {
            break;
        };
        let Some(line) = line_of(alloc, word, &mut words)? else {
            return Ok(None);
        };
        if !found.is_empty() {
            push(&mut found, "; ")?;
        }
        match follower.take(&line) {
            Ok(entries) => push_entries(alloc, &mut found, entries.as_slice())?,
            Err(fault) => push_fault(alloc, &mut found, &fault)?,
        }
    }
    Ok(Some(found))
}

/// A line of this kind.
fn line_of(alloc: Global, word: &str, words: &mut Words<'_>) -> Result<Option<Line>, Memory>
    ensures { IfOk result (λ line. IfSome line LineFits) }
{
    match word {
        "created" => Ok(Some(Line::Created { revision: 3 })),
        "ended" => Ok(Some(Line::Ended)),
        "compacted" => Ok(Some(Line::Compacted { rev: 9 })),
        "head" => put_of(alloc, b"zk/head", words),
        "other" => put_of(alloc, b"zk/heads", words),
        _ => Ok(None),
    }
}

/// A line with one put of this key, whose version and value come next. The revision is the version plus 1.
fn put_of(alloc: Global, key: &[u8], words: &mut Words<'_>) -> Result<Option<Line>, Memory>
    ensures { IfOk result (λ line. IfSome line LineFits) }
{
    let (Some(version), Some(digits)) = (words.number(), words.word()) else {
        return Ok(None);
    };
    let Some(value) = bytes_of(alloc, digits)? else {
        return Ok(None);
    };
    let mut kvs = Seq::new(alloc);
    kvs.push(kv_of(alloc, key, version, value.as_slice())?)?;
    Ok(Some(Line::Events {
        revision: i64::from(version) + 1,
        kvs,
    }))
}

fn kv_of(alloc: Global, key: &[u8], version: u32, value: &[u8]) -> Result<Kv, Memory>
    ensures { IfOk result IsNumbered }
{
    Ok(Kv {
        key: Bytes::copy_of(alloc, key)?,
        value: Bytes::copy_of(alloc, value)?,
        create_revision: 2,
        mod_revision: i64::from(version) + 1,
        version: i64::from(version),
        lease: 0,
    })
}

/// Each entry's number and zxid, and how many triggers it has.
fn push_entries(alloc: Global, found: &mut String, entries: &[Entry]) -> Result<(), Memory> {
    if entries.is_empty() {
        push(found, "none")?;
    }
    for entry in entries {
        push_number(alloc, found, "entry ", entry.number)?;
        push_number(alloc, found, " ", entry.zxid)?;
        push_number(alloc, found, " ", entry.triggers.as_slice().len() as i64)?;
    }
    Ok(())
}

fn push_fault(alloc: Global, found: &mut String, fault: &FeedFault) -> Result<(), Memory> {
    match fault {
        FeedFault::Ended => push(found, "ended"),
        FeedFault::Compacted { rev } => push_number(alloc, found, "compacted ", *rev),
        FeedFault::Gap {
            expected,
            found: version,
        } => {
            push_number(alloc, found, "gap ", *expected)?;
            push_number(alloc, found, " ", *version)
        }
        FeedFault::Damaged { .. } => push(found, "damaged"),
        FeedFault::Memory => push(found, "memory"),
    }
}
