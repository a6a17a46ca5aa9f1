//! Records, which are read and written again.

use row_files::{Piece, hex_of, joined, push, word_of};
use std::alloc::Global;
use zk_model::{Path, Trigger};
use zn_layout::{
    CountRec, HeadRec, LeaseRec, NodeRec, RecordFault, SessionRec, read_counts, read_head,
    read_lease, read_node, read_session, write_counts, write_head, write_lease, write_node,
    write_session,
};
use zx_base::Memory;

/// The key that each value is read under, which a damaged record is to name.
const KEY: &[u8] = b"zk/key";

/// What a value is as a record of this kind. A record must be written again as the same bytes.
pub fn read(alloc: Global, left: &str) -> Result<Option<String>, Memory> {
    let Some((kind, digits)) = left.split_once(' ') else {
        return Ok(None);
    };
    let Ok(value) = hex::decode(alloc, digits) else {
        return Ok(None);
    };
    let value = value.as_slice();
    match kind {
        "node" => node(alloc, value),
        "counts" => counts(alloc, value),
        "session" => session(alloc, value),
        "life" => life(alloc, value),
        "head" => head(alloc, value),
        _ => Ok(None),
    }
}

fn fault(alloc: Global, fault: RecordFault, value: &[u8]) -> Result<Option<String>, Memory> {
    match fault {
        RecordFault::Memory => Err(Memory),
        RecordFault::Damaged { key, value: kept } => {
            let text = if key.is(KEY) && kept.is(value) {
                "damaged"
            } else {
                "damaged, and other bytes are given"
            };
            Ok(Some(String::from_str(alloc, text)?))
        }
    }
}

/// The record's text, or that other bytes are written for it.
fn same(alloc: Global, text: String, again: &[u8], value: &[u8]) -> Result<Option<String>, Memory> {
    if again == value {
        Ok(Some(text))
    } else {
        Ok(Some(String::from_str(alloc, "written otherwise")?))
    }
}

fn node(alloc: Global, value: &[u8]) -> Result<Option<String>, Memory> {
    match read_node(alloc, KEY, value) {
        Ok(node) => {
            let again = write_node(alloc, &node)?;
            same(alloc, node_text(alloc, &node)?, again.as_slice(), value)
        }
        Err(read_fault) => fault(alloc, read_fault, value),
    }
}

fn node_text(alloc: Global, node: &NodeRec) -> Result<String, Memory> {
    let content = hex_of(alloc, node.content.as_slice())?;
    let pieces = [
        Piece::Text("czxid "),
        Piece::Number(node.czxid),
        Piece::Text(" version "),
        Piece::Number(i64::from(node.version)),
        Piece::Text(" ctime "),
        Piece::Number(node.ctime),
        Piece::Text(" mtime "),
        Piece::Number(node.mtime),
        Piece::Text(" owner "),
        Piece::Number(node.owner),
        Piece::Text(" data "),
        Piece::Text(content.as_str()),
    ];
    joined(alloc, &pieces)
}

fn counts(alloc: Global, value: &[u8]) -> Result<Option<String>, Memory> {
    match read_counts(alloc, KEY, value) {
        Ok(counts) => {
            let again = write_counts(alloc, &counts)?;
            same(alloc, counts_text(alloc, &counts)?, again.as_slice(), value)
        }
        Err(read_fault) => fault(alloc, read_fault, value),
    }
}

fn counts_text(alloc: Global, counts: &CountRec) -> Result<String, Memory> {
    let pieces = [
        Piece::Text("creates "),
        Piece::Number(i64::from(counts.creates)),
        Piece::Text(" children "),
        Piece::Number(i64::from(counts.children)),
    ];
    joined(alloc, &pieces)
}

fn session(alloc: Global, value: &[u8]) -> Result<Option<String>, Memory> {
    match read_session(alloc, KEY, value) {
        Ok(session) => {
            let again = write_session(alloc, &session)?;
            same(
                alloc,
                session_text(alloc, &session)?,
                again.as_slice(),
                value,
            )
        }
        Err(read_fault) => fault(alloc, read_fault, value),
    }
}

fn session_text(alloc: Global, session: &SessionRec) -> Result<String, Memory> {
    let mut text = String::from_str(alloc, "paths")?;
    for path in session.paths.as_slice() {
        push_word(&mut text, path.bytes())?;
    }
    Ok(text)
}

fn push_word(text: &mut String, bytes: &[u8]) -> Result<(), Memory> {
    push(text, " ")?;
    push(text, word_of(bytes))
}

fn life(alloc: Global, value: &[u8]) -> Result<Option<String>, Memory> {
    match read_lease(alloc, KEY, value) {
        Ok(life) => {
            let again = write_lease(alloc, &life)?;
            same(alloc, life_text(alloc, &life)?, again.as_slice(), value)
        }
        Err(read_fault) => fault(alloc, read_fault, value),
    }
}

fn life_text(alloc: Global, life: &LeaseRec) -> Result<String, Memory> {
    let passwd = hex_of(alloc, &life.passwd)?;
    let pieces = [
        Piece::Text("timeout "),
        Piece::Number(i64::from(life.timeout)),
        Piece::Text(" attaches "),
        Piece::Number(life.attaches),
        Piece::Text(" passwd "),
        Piece::Text(passwd.as_str()),
    ];
    joined(alloc, &pieces)
}

fn head(alloc: Global, value: &[u8]) -> Result<Option<String>, Memory> {
    match read_head(alloc, KEY, value) {
        Ok(head) => {
            let again = write_head(alloc, &head)?;
            same(alloc, head_text(alloc, &head)?, again.as_slice(), value)
        }
        Err(read_fault) => fault(alloc, read_fault, value),
    }
}

fn head_text(alloc: Global, head: &HeadRec) -> Result<String, Memory> {
    let mut text = String::from_str(alloc, "triggers")?;
    for trigger in head.triggers.as_slice() {
        push_trigger(&mut text, trigger)?;
    }
    Ok(text)
}

fn push_trigger(text: &mut String, trigger: &Trigger) -> Result<(), Memory> {
    match trigger {
        Trigger::Created(path) => push_kind(text, " created", path),
        Trigger::Deleted(path) => push_kind(text, " deleted", path),
        Trigger::Changed(path) => push_kind(text, " changed", path),
        Trigger::Children(path) => push_kind(text, " children", path),
    }
}

fn push_kind(text: &mut String, kind: &str, path: &Path) -> Result<(), Memory> {
    push(text, kind)?;
    push_word(text, path.bytes())
}
