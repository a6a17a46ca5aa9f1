//! Plans in words.

use crate::replies::push_reply;
use ev_types::{Act, RangeReq};
use row_files::{Piece, joined, push, push_at, push_number, push_unless_zero, push_word, word_of};
use row_words::{data_word, push_trigger};
use std::alloc::Global;
use zk_model::Trigger;
use zn_layout::{RecordFault, read_counts, read_head, read_node, read_session};
use zn_view::{Plan, Want};
use zx_base::Memory;

/// `planned if GUARDS do OPERATIONS else KEYS shows TRIGGERS draft REPLY`. A head that is put with other triggers than these is
/// followed by its own.
pub fn plan_text(alloc: Global, plan: &Plan) -> Result<String, Memory> {
    let mut text = String::from_str(alloc, "planned if")?;
    for guard in plan.guards.as_slice() {
        push_at(alloc, &mut text, guard.key.as_slice(), guard.mod_revision)?;
    }
    push_word(&mut text, "do")?;
    let shown = triggers_text(alloc, plan.triggers.as_slice())?;
    for act in plan.success.as_slice() {
        push_act(alloc, &mut text, act)?;
        push_other_head(alloc, &mut text, act, shown.as_str())?;
    }
    push_word(&mut text, "else")?;
    for want in plan.again.as_slice() {
        push_again(&mut text, want)?;
    }
    push_word(&mut text, "shows")?;
    push(&mut text, shown.as_str())?;
    push_word(&mut text, "draft")?;
    push_reply(alloc, &mut text, &plan.draft)?;
    Ok(text)
}

fn triggers_text(alloc: Global, triggers: &[Trigger]) -> Result<String, Memory> {
    let mut text = String::new(alloc);
    for trigger in triggers {
        push_trigger(&mut text, trigger)?;
    }
    Ok(text)
}

/// ` [ TRIGGERS ]` after a put of the head, if they are not the ones shown
fn push_other_head(alloc: Global, text: &mut String, act: &Act, shown: &str) -> Result<(), Memory> {
    let Act::Put { key, value, .. } = act else {
        return Ok(());
    };
    if !key.is(b"zk/head") {
        return Ok(());
    }
    let head = match read_head(alloc, key.as_slice(), value.as_slice()) {
        Ok(head) => head,
        Err(RecordFault::Damaged { .. }) => return push_word(text, "damaged"),
        Err(RecordFault::Memory) => return Err(Memory),
    };
    let put = triggers_text(alloc, head.triggers.as_slice())?;
    if put.as_str() == shown {
        return Ok(());
    }
    push_word(text, "[")?;
    push(text, put.as_str())?;
    push_word(text, "]")
}

fn push_again(text: &mut String, want: &Want) -> Result<(), Memory> {
    match want {
        Want::Key(key) => push_word(text, word_of(key.as_slice())),
        Want::Children(_) => push_word(text, "children"),
    }
}

/// ` put KEY RECORD`, followed by ` lease ID` where it has one; ` delete KEY`; or a range
pub fn push_act(alloc: Global, text: &mut String, act: &Act) -> Result<(), Memory> {
    match act {
        Act::Put { key, value, lease } => {
            push_word(text, "put")?;
            push_word(text, word_of(key.as_slice()))?;
            push_record(alloc, text, key.as_slice(), value.as_slice())?;
            push_unless_zero(alloc, text, " lease ", *lease)
        }
        Act::Delete { key } => {
            push_word(text, "delete")?;
            push_word(text, word_of(key.as_slice()))
        }
        Act::Range(range) => push_range(alloc, text, range),
    }
}

/// ` get KEY`, or ` keys KEY` if the values are left out, followed by the range's end, `@REVISION` and ` limit NUMBER`, where it
/// has them
fn push_range(alloc: Global, text: &mut String, range: &RangeReq) -> Result<(), Memory> {
    push_word(text, if range.keys_only { "keys" } else { "get" })?;
    push_word(text, word_of(range.key.as_slice()))?;
    if !range.end.as_slice().is_empty() {
        push_word(text, word_of(range.end.as_slice()))?;
    }
    push_unless_zero(alloc, text, "@", range.revision)?;
    push_unless_zero(alloc, text, " limit ", range.limit)
}

/// The record of a node, of its counts or of a session's nodes, by the key's kind; nothing for any other key.
fn push_record(alloc: Global, text: &mut String, key: &[u8], value: &[u8]) -> Result<(), Memory> {
    let name = word_of(key);
    if name.starts_with("zk/d/") {
        return push_node(alloc, text, key, value);
    }
    if name.starts_with("zk/c/") {
        return push_counts(alloc, text, key, value);
    }
    if name.starts_with("zk/s/") {
        return push_nodes(alloc, text, key, value);
    }
    Ok(())
}

/// ` CZXID/VERSION/CTIME/MTIME/OWNER/DATA`
fn push_node(alloc: Global, text: &mut String, key: &[u8], value: &[u8]) -> Result<(), Memory> {
    let node = match read_node(alloc, key, value) {
        Ok(node) => node,
        Err(RecordFault::Damaged { .. }) => return push_word(text, "damaged"),
        Err(RecordFault::Memory) => return Err(Memory),
    };
    let data = data_word(alloc, node.content.as_slice())?;
    let pieces = [
        Piece::Number(node.czxid),
        Piece::Text("/"),
        Piece::Number(i64::from(node.version)),
        Piece::Text("/"),
        Piece::Number(node.ctime),
        Piece::Text("/"),
        Piece::Number(node.mtime),
        Piece::Text("/"),
        Piece::Number(node.owner),
        Piece::Text("/"),
        Piece::Text(data.as_str()),
    ];
    push_word(text, joined(alloc, &pieces)?.as_str())
}

/// ` CREATES/CHILDREN`
fn push_counts(alloc: Global, text: &mut String, key: &[u8], value: &[u8]) -> Result<(), Memory> {
    let counts = match read_counts(alloc, key, value) {
        Ok(counts) => counts,
        Err(RecordFault::Damaged { .. }) => return push_word(text, "damaged"),
        Err(RecordFault::Memory) => return Err(Memory),
    };
    push_number(alloc, text, " ", i64::from(counts.creates))?;
    push_number(alloc, text, "/", i64::from(counts.children))
}

/// ` [ PATH.. ]`
fn push_nodes(alloc: Global, text: &mut String, key: &[u8], value: &[u8]) -> Result<(), Memory> {
    let session = match read_session(alloc, key, value) {
        Ok(session) => session,
        Err(RecordFault::Damaged { .. }) => return push_word(text, "damaged"),
        Err(RecordFault::Memory) => return Err(Memory),
    };
    push_word(text, "[")?;
    for path in session.paths.as_slice() {
        push_word(text, word_of(path.bytes()))?;
    }
    push_word(text, "]")
}
