//! Asks in words.

use ev_types::{Act, Ask, TxnReq};
use row_files::{
    Piece, hex_of, joined, push, push_at, push_number, push_unless_zero, push_word, word_of,
};
use std::alloc::Global;
use zx_base::Memory;

/// Adds pieces of a text.
pub fn push_pieces(alloc: Global, text: &mut String, pieces: &[Piece<'_>]) -> Result<(), Memory> {
    push(text, joined(alloc, pieces)?.as_str())
}

/// ` put KEY VALUE`, with `lease ID` after it if it has one; ` delete KEY`; ` get KEY`, with `at REVISION` after it where it is not
/// of the present
fn push_act(alloc: Global, text: &mut String, act: &Act) -> Result<(), Memory> {
    match act {
        Act::Put { key, value, lease } => {
            push_word(text, "put")?;
            push_word(text, word_of(key.as_slice()))?;
            push_bytes(alloc, text, value.as_slice())?;
            push_unless_zero(alloc, text, " lease ", *lease)
        }
        Act::Delete { key } => {
            push_word(text, "delete")?;
            push_word(text, word_of(key.as_slice()))
        }
        Act::Range(range) => {
            push_word(text, "get")?;
            push_word(text, word_of(range.key.as_slice()))?;
            push_unless_zero(alloc, text, " at ", range.revision)
        }
    }
}

/// A blank and bytes in hex
fn push_bytes(alloc: Global, text: &mut String, bytes: &[u8]) -> Result<(), Memory> {
    push_word(text, hex_of(alloc, bytes)?.as_str())
}

fn push_acts(alloc: Global, text: &mut String, front: &str, acts: &[Act]) -> Result<(), Memory> {
    push(text, front)?;
    for act in acts {
        push_act(alloc, text, act)?;
    }
    Ok(())
}

/// `if GUARDS do OPERATIONS else OPERATIONS`, or the operations alone where nothing is guarded
fn push_txn(alloc: Global, text: &mut String, txn: &TxnReq) -> Result<(), Memory> {
    if txn.guards.as_slice().is_empty() {
        return push_acts(alloc, text, "do", txn.success.as_slice());
    }
    push(text, "if")?;
    for guard in txn.guards.as_slice() {
        push_at(alloc, text, guard.key.as_slice(), guard.mod_revision)?;
    }
    push_acts(alloc, text, " do", txn.success.as_slice())?;
    push_acts(alloc, text, " else", txn.failure.as_slice())
}

/// A transaction, `grant ID SECONDS`, `keep ID` or `range KEY`
pub fn push_ask(alloc: Global, text: &mut String, ask: &Ask) -> Result<(), Memory> {
    match ask {
        Ask::Txn(txn) => push_txn(alloc, text, txn),
        Ask::Grant { id, ttl } => push_two(alloc, text, "grant ", *id, *ttl),
        Ask::Alive { id } => push_number(alloc, text, "keep ", *id),
        Ask::Range(range) => {
            push(text, "range")?;
            push_word(text, word_of(range.key.as_slice()))
        }
    }
}

/// Two numbers after these words, with a blank between them.
pub fn push_two(
    alloc: Global,
    text: &mut String,
    front: &str,
    first: i64,
    second: i64,
) -> Result<(), Memory> {
    push_number(alloc, text, front, first)?;
    push_number(alloc, text, " ", second)
}

/// `damaged KEY VALUE`
pub fn push_damaged(
    alloc: Global,
    text: &mut String,
    key: &[u8],
    value: &[u8],
) -> Result<(), Memory> {
    push(text, "damaged")?;
    push_word(text, word_of(key))?;
    push_bytes(alloc, text, value)
}
