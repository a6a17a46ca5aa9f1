//! Asks and their answers.

use crate::changes::{compact, events, foreign, lapse};
use crate::words::{bytes_of, number};
use ev_store::{Denied, Store, StoreFault};
use ev_types::{Act, ActAns, Answer, Ask, Guard, Kv, RangeAns, RangeReq, TxnReq};
use row_files::{Piece, joined, push, word_of};
use std::alloc::Global;
use zx_base::{Memory, Seq};

/// The seconds of a lease are below this.
const MAX_SECONDS: i64 = 4_611_686_018_427_387_904;

/// Does what a row says to the store as the earlier rows left it. `new` makes a new store.
pub fn carried_out(alloc: Global, store: &mut Store, left: &str) -> Result<Option<String>, Memory> {
    if left == "new" {
        *store = Store::new(alloc)?;
        let revision = store.revision();
        return Ok(Some(format!(in alloc; "{revision}")?));
    }
    let Some((kind, rest)) = left.split_once(' ') else {
        return Ok(None);
    };
    match kind {
        "grant" => grant(alloc, store, rest),
        "alive" => alive(alloc, store, rest),
        "range" => look(alloc, store, rest),
        "txn" => transact(alloc, store, rest),
        "lapse" => lapse(alloc, store, rest),
        "foreign" => foreign(alloc, store, rest),
        "compact" => compact(alloc, store, rest),
        "events" => events(alloc, store, rest),
        _ => Ok(None),
    }
}

/// `grant ID TTL`
fn grant(alloc: Global, store: &mut Store, rest: &str) -> Result<Option<String>, Memory> {
    let Some((id, ttl)) = rest.split_once(' ') else {
        return Ok(None);
    };
    let (Some(id), Some(ttl)) = (number(id), number(ttl)) else {
        return Ok(None);
    };
    if id < 1 || ttl < 0 || ttl >= MAX_SECONDS {
        return Ok(None);
    }
    text_of(alloc, store.carry_out(&Ask::Grant { id, ttl }))
}

/// `alive ID`
fn alive(alloc: Global, store: &mut Store, rest: &str) -> Result<Option<String>, Memory> {
    match number(rest) {
        Some(id) => text_of(alloc, store.carry_out(&Ask::Alive { id })),
        None => Ok(None),
    }
}

/// `range KEY:END:REVISION:LIMIT:KEYS`, the last `keys` where values are left out
fn look(alloc: Global, store: &mut Store, rest: &str) -> Result<Option<String>, Memory> {
    match range(alloc, rest)? {
        Some(range) => text_of(alloc, store.carry_out(&Ask::Range(range))),
        None => Ok(None),
    }
}

/// `txn GUARDS | SUCCESS | FAILURE`, words with blanks between them
fn transact(alloc: Global, store: &mut Store, rest: &str) -> Result<Option<String>, Memory> {
    match txn(alloc, rest)? {
        Some(txn) => text_of(alloc, store.carry_out(&Ask::Txn(txn))),
        None => Ok(None),
    }
}

fn txn(alloc: Global, rest: &str) -> Result<Option<TxnReq>, Memory> {
    let mut txn = TxnReq {
        guards: Seq::new(alloc),
        success: Seq::new(alloc),
        failure: Seq::new(alloc),
    };
    Ok(if push_lists(alloc, &mut txn, rest)? {
        Some(txn)
    } else {
        None
    })
}

/// Adds what the words of a transaction say; false where they are others.
fn push_lists(alloc: Global, txn: &mut TxnReq, rest: &str) -> Result<bool, Memory> {
    let Some((given, lists)) = rest.split_once(" | ") else {
        return Ok(false);
    };
    let Some((first, second)) = lists.split_once(" | ") else {
        return Ok(false);
    };
    Ok(
        push_guards(alloc, &mut txn.guards, given)?
            && push_list(alloc, &mut txn.success, first)?
            && push_list(alloc, &mut txn.failure, second)?,
    )
}

/// `KEY@REVISION`, or `-` for none; false where a word is another
fn push_guards(alloc: Global, guards: &mut Seq<Guard>, words: &str) -> Result<bool, Memory> {
    if words == "-" {
        return Ok(true);
    }
    for word in words.split(' ') {
        if !push_guard(alloc, guards, word)? {
            return Ok(false);
        }
    }
    Ok(true)
}

fn push_guard(alloc: Global, guards: &mut Seq<Guard>, word: &str) -> Result<bool, Memory> {
    match guard(alloc, word)? {
        Some(guard) => {
            guards.push(guard)?;
            Ok(true)
        }
        None => Ok(false),
    }
}

fn guard(alloc: Global, word: &str) -> Result<Option<Guard>, Memory> {
    let Some((key, revision)) = word.split_once('@') else {
        return Ok(None);
    };
    let Some(mod_revision) = number(revision) else {
        return Ok(None);
    };
    Ok(Some(Guard {
        key: bytes_of(alloc, key)?,
        mod_revision,
    }))
}

/// Operations, each perhaps followed by `*COUNT`, or `-` for none; false where a word is another
fn push_list(alloc: Global, acts: &mut Seq<Act>, words: &str) -> Result<bool, Memory> {
    if words == "-" {
        return Ok(true);
    }
    for word in words.split(' ') {
        if !push_acts(alloc, acts, word)? {
            return Ok(false);
        }
    }
    Ok(true)
}

/// Adds an operation as often as its word says; false where the word is no operation.
fn push_acts(alloc: Global, acts: &mut Seq<Act>, word: &str) -> Result<bool, Memory> {
    let (word, count) = match word.split_once('*') {
        Some((word, count)) => (word, number(count)),
        None => (word, Some(1)),
    };
    let Some(count) = count else {
        return Ok(false);
    };
    for _ in 0..count {
        if !push_act(alloc, acts, word)? {
            return Ok(false);
        }
    }
    Ok(true)
}

fn push_act(alloc: Global, acts: &mut Seq<Act>, word: &str) -> Result<bool, Memory> {
    match act(alloc, word)? {
        Some(act) => {
            acts.push(act)?;
            Ok(true)
        }
        None => Ok(false),
    }
}

/// `put:KEY:VALUE:LEASE`, `delete:KEY`, `range:KEY:END:REVISION:LIMIT:KEYS`
fn act(alloc: Global, word: &str) -> Result<Option<Act>, Memory> {
    let Some((kind, rest)) = word.split_once(':') else {
        return Ok(None);
    };
    match kind {
        "put" => put(alloc, rest),
        "delete" => Ok(Some(Act::Delete {
            key: bytes_of(alloc, rest)?,
        })),
        "range" => match range(alloc, rest)? {
            Some(range) => Ok(Some(Act::Range(range))),
            None => Ok(None),
        },
        _ => Ok(None),
    }
}

fn put(alloc: Global, rest: &str) -> Result<Option<Act>, Memory> {
    let Some((key, rest)) = rest.split_once(':') else {
        return Ok(None);
    };
    let Some((value, lease)) = rest.split_once(':') else {
        return Ok(None);
    };
    let Some(lease) = number(lease) else {
        return Ok(None);
    };
    Ok(Some(Act::Put {
        key: bytes_of(alloc, key)?,
        value: bytes_of(alloc, value)?,
        lease,
    }))
}

fn range(alloc: Global, rest: &str) -> Result<Option<RangeReq>, Memory> {
    let Some((key, rest)) = rest.split_once(':') else {
        return Ok(None);
    };
    let Some((end, rest)) = rest.split_once(':') else {
        return Ok(None);
    };
    let Some((revision, rest)) = rest.split_once(':') else {
        return Ok(None);
    };
    let Some((limit, keys)) = rest.split_once(':') else {
        return Ok(None);
    };
    let (Some(revision), Some(limit)) = (number(revision), number(limit)) else {
        return Ok(None);
    };
    Ok(Some(RangeReq {
        key: bytes_of(alloc, key)?,
        end: bytes_of(alloc, end)?,
        revision,
        limit,
        keys_only: keys == "keys",
    }))
}

/// An answer or a denial as it stands in a row.
fn text_of(alloc: Global, answered: Result<Answer, StoreFault>) -> Result<Option<String>, Memory> {
    match answered {
        Ok(answer) => Ok(Some(answer_text(alloc, &answer)?)),
        Err(fault) => fault_text(alloc, fault),
    }
}

/// A denial as it stands in a row.
pub fn fault_text(alloc: Global, fault: StoreFault) -> Result<Option<String>, Memory> {
    match fault {
        StoreFault::Denied(denied) => Ok(Some(denial_text(alloc, &denied)?)),
        StoreFault::Memory => Err(Memory),
    }
}

fn answer_text(alloc: Global, answer: &Answer) -> Result<String, Memory> {
    match answer {
        Answer::Txn {
            revision,
            succeeded,
            parts,
        } => {
            let choice = if *succeeded { " success" } else { " failure" };
            let mut text = format!(in alloc; "{revision}")?;
            push(&mut text, choice)?;
            for part in parts.as_slice() {
                push_part(alloc, &mut text, part)?;
            }
            Ok(text)
        }
        Answer::Range { revision, found } => {
            let mut text = format!(in alloc; "{revision}")?;
            push_found(alloc, &mut text, found)?;
            Ok(text)
        }
        Answer::Granted { revision, id, ttl } => lease_text(
            alloc,
            *revision,
            " granted ",
            *id,
            *ttl,
        ),
        Answer::Alive { revision, id, ttl } => lease_text(alloc, *revision, " alive ", *id, *ttl),
    }
}

fn lease_text(
    alloc: Global,
    revision: i64,
    words: &str,
    id: i64,
    ttl: i64,
) -> Result<String, Memory> {
    let pieces = [
        Piece::Number(revision),
        Piece::Text(words),
        Piece::Number(id),
        Piece::Text(" "),
        Piece::Number(ttl),
    ];
    joined(alloc, &pieces)
}

fn push_part(alloc: Global, text: &mut String, part: &ActAns) -> Result<(), Memory> {
    match part {
        ActAns::Put => push(text, " put"),
        ActAns::Deleted(count) => push(text, format!(in alloc; " deleted:{count}")?.as_str()),
        ActAns::Range(found) => push_found(alloc, text, found),
    }
}

/// ` COUNT{(KEY=VALUE@CREATE/MOD/VERSION/LEASE)..}`, with `+` after the count where a limit left some out
fn push_found(alloc: Global, text: &mut String, found: &RangeAns) -> Result<(), Memory> {
    let count = found.count;
    push(text, format!(in alloc; " {count}")?.as_str())?;
    push(text, if found.more { "+{" } else { "{" })?;
    push_kvs(alloc, text, found.kvs.as_slice())
}

/// `(KEY=VALUE@CREATE/MOD/VERSION/LEASE)` for each, and `}` after them
pub fn push_kvs(alloc: Global, text: &mut String, kvs: &[Kv]) -> Result<(), Memory> {
    for kv in kvs {
        push_kv(alloc, text, kv)?;
    }
    push(text, "}")
}

fn push_kv(alloc: Global, text: &mut String, kv: &Kv) -> Result<(), Memory> {
    push(text, kv_text(alloc, kv)?.as_str())
}

fn kv_text(alloc: Global, kv: &Kv) -> Result<String, Memory> {
    let pieces = [
        Piece::Text("("),
        Piece::Text(word_of(kv.key.as_slice())),
        Piece::Text("="),
        Piece::Text(word_of(kv.value.as_slice())),
        Piece::Text("@"),
        Piece::Number(kv.create_revision),
        Piece::Text("/"),
        Piece::Number(kv.mod_revision),
        Piece::Text("/"),
        Piece::Number(kv.version),
        Piece::Text("/"),
        Piece::Number(kv.lease),
        Piece::Text(")"),
    ];
    joined(alloc, &pieces)
}

fn denial_text(alloc: Global, denied: &Denied) -> Result<String, Memory> {
    match denied {
        Denied::LeaseExists { id } => numbered(alloc, "lease ", *id, " exists"),
        Denied::NoLease { id } => numbered(alloc, "no lease ", *id, ""),
        Denied::Future { asked, revision } => compared(alloc, *asked, " is above ", *revision),
        Denied::Compacted { asked, floor } => compared(alloc, *asked, " is below ", *floor),
        Denied::TooMany { count } => Ok(format!(in alloc; "denied: {count} are too many")?),
        Denied::Twice { key } => {
            let key = word_of(key.as_slice());
            Ok(format!(in alloc; "denied: {key} twice")?)
        }
        Denied::Full { revision } => numbered(alloc, "full at ", *revision, ""),
    }
}

/// The text of a denial with a number in it.
fn numbered<'a>(
    alloc: Global,
    front: &'a str,
    number: i64,
    end: &'a str,
) -> Result<String, Memory> {
    let pieces = [
        Piece::Text("denied: "),
        Piece::Text(front),
        Piece::Number(number),
        Piece::Text(end),
    ];
    joined(alloc, &pieces)
}

/// The text of a denial that compares two numbers.
fn compared(alloc: Global, first: i64, words: &str, second: i64) -> Result<String, Memory> {
    let pieces = [
        Piece::Text("denied: "),
        Piece::Number(first),
        Piece::Text(words),
        Piece::Number(second),
    ];
    joined(alloc, &pieces)
}
