//! The sessions that have no life.

ghost use Rattle.std.specs.Prelude.{◌≡◌, IfOk, option_copied};
ghost use Rattle.zs_reaper.specs.Calling.{Makes, link_told};
ghost use Rattle.zs_reaper.specs.Listing.{Lists, Shows, found_at, lapsed_of, list_ask as ask_from, names_from, next_from as from_next, numbers_in as numbers_of, parts_of as parts_in, session_in as session_of, without_of};

use crate::calling::{TurnFault, call};
use ev_call::Etcd;
use ev_types::{Act, ActAns, Answer, Ask, Kv, RangeReq, TxnReq};
use std::alloc::Global;
use zn_layout::{LEASE_FRONT, SESSION_FRONT};
use zt_text::session_id;
use zx_base::{Bytes, Memory, Seq};

/// How many keys of each kind are listed by one ask.
const MAX_LISTED: i64 = 1000;

/// What stands behind the numbers of all sessions, each 16 hex digits.
pub(crate) const BEHIND: &[u8] = b"g";

/// How many bytes of a session's key say which kind it is.
pub(crate) const KIND: usize = 5;

/// What a list of some sessions shows.
#[derive(Drop)]
pub struct Listed {
    /// The numbers of those that have lapsed.
    pub lapsed: Seq<i64>,
    /// Where the next list begins, after the kind of the key; `None` where this was the last.
    pub next: Option<Bytes>,
}

/// The names of the keys of one kind, from this number on, before that one.
fn names(alloc: Global, kind: &[u8], from: &[u8], end: &[u8]) -> Result<Act, Memory>
    ensures { IfOk result (λ a. a ≡ names_from kind.now from.now end.now) }
{
    let mut key = Vec::from_slice(alloc, kind)?;
    key.extend_from_slice(from)?;
    let mut past = Vec::from_slice(alloc, kind)?;
    past.extend_from_slice(end)?;
    Ok(Act::Range(RangeReq {
        key: Bytes::from_vec(key),
        end: Bytes::from_vec(past),
        revision: 0,
        limit: MAX_LISTED,
        keys_only: true,
    }))
}

/// Asks for the keys of the next open sessions and of those that live, from this number on, before that one. A session that lives is open, so each of
/// the open ones listed that lives is among those that are listed as living.
fn list_ask(alloc: Global, from: &[u8], end: &[u8]) -> Result<Ask, Memory>
    ensures { IfOk result (λ q. q ≡ ask_from from.now end.now) }
{
    let mut success = Seq::new(alloc);
    success.push(names(alloc, SESSION_FRONT, from, end)?)?;
    success.push(names(alloc, LEASE_FRONT, from, end)?)?;
    Ok(Ask::Txn(TxnReq {
        guards: Seq::new(alloc),
        success,
        failure: Seq::new(alloc),
    }))
}

/// The session whose key of this kind this is.
fn session_in(kind: &[u8], kv: &Kv) -> Option<i64>
    ensures { result ≡ session_of kind.now kv.now }
{
    match kv.key.as_slice().strip_prefix(kind) {
        Some(number) => session_id(number),
        None => None,
    }
}

/// The sessions whose keys of this kind these are.
#[tactic(auto, using(crate::proofs::Searching::numbers_more, crate::proofs::Searching::numbers_same))]
fn numbers_in(alloc: Global, kind: &[u8], kvs: &[Kv]) -> Result<Vec<i64>, Memory>
    ensures { IfOk result (λ v. v.items ≡ numbers_of kind.now kvs.now) }
{
    let mut found = Vec::new(alloc);
    'keys: for kv in kvs {
        match session_in(kind, kv) {
            Some(number) => found.push(number)?,
            None => {}
        }
    }
    Ok(found)
}

/// Those of these sessions that are not among the living.
#[tactic(auto, using(crate::proofs::Searching::without_more, crate::proofs::Searching::without_same))]
fn without(alloc: Global, numbers: &[i64], living: &[i64]) -> Result<Vec<i64>, Memory>
    ensures { IfOk result (λ v. v.items ≡ without_of numbers.now living.now) }
{
    let mut lapsed = Vec::new(alloc);
    'numbers: for number in numbers {
        if !living.contains(number) {
            lapsed.push(*number)?;
        }
    }
    Ok(lapsed)
}

/// The numbers of the sessions that are open and do not live.
fn lapsed(alloc: Global, opened: &[Kv], alive: &[Kv]) -> Result<Seq<i64>, Memory>
    ensures { IfOk result (λ v. v ≡ lapsed_of opened.now alive.now) }
{
    let numbers = numbers_in(alloc, SESSION_FRONT, opened)?;
    let living = numbers_in(alloc, LEASE_FRONT, alive)?;
    Ok(Seq::from_vec(without(alloc, numbers.as_slice(), living.as_slice())?))
}

/// Where the list after this one begins: right after its last key.
fn next_from(alloc: Global, opened: &[Kv]) -> Result<Option<Bytes>, Memory>
    ensures { IfOk result (λ next. next ≡ from_next opened.now) }
{
    if opened.len() < MAX_LISTED as usize {
        return Ok(None);
    }
    let Some(last) = opened.last() else {
        return Ok(None);
    };
    let key = last.key.as_slice();
    let mut next = Vec::from_slice(alloc, &key[KIND.min(key.len())..])?;
    next.push(0)?;
    Ok(Some(Bytes::from_vec(next)))
}

/// The parts of a transaction's answer.
fn parts_of(answer: &Answer) -> &[ActAns]
    ensures { result.now ≡ parts_in answer.now }
{
    match answer {
        Answer::Txn { parts, .. } => parts.as_slice(),
        Answer::Range { .. } | Answer::Granted { .. } | Answer::Alive { .. } => &[],
    }
}

/// The keys that the part at this place found, where it is a range's.
fn found(parts: &[ActAns], at: usize) -> Option<&[Kv]>
    ensures { option_copied result ≡ found_at parts.now at }
{
    if at >= parts.len() {
        return None;
    }
    match &parts[at] {
        ActAns::Range(range) => Some(range.kvs.as_slice()),
        ActAns::Put | ActAns::Deleted(_) => None,
    }
}

/// What an answer shows.
fn shown(alloc: Global, answer: &Answer) -> Result<Listed, TurnFault>
    ensures { Shows answer.now result }
{
    let parts = parts_of(answer);
    let Some(opened) = found(parts, 0) else {
        return Err(TurnFault::NoList);
    };
    let Some(alive) = found(parts, 1) else {
        return Err(TurnFault::NoList);
    };
    Ok(Listed {
        lapsed: lapsed(alloc, opened, alive)?,
        next: next_from(alloc, opened)?,
    })
}

/// Lists the next sessions from this number on, before that one.
#[tactic(auto, using(crate::proofs::Listed::list_none, crate::proofs::Listed::list_shown, crate::proofs::Listed::list_failed))]
pub(crate) fn list<L: Etcd>(
    alloc: Global,
    link: &mut L,
    from: &[u8],
    end: &[u8],
) -> Result<Listed, TurnFault>
    ensures { Makes (Lists from.now end.now result) (link_told L.told L.failures link.old) (link_told L.told L.failures link.new) }
{
    let Ok(ask) = list_ask(alloc, from, end) else {
        return Err(TurnFault::Memory);
    };
    match call(link, &ask) {
        Ok(answer) => shown(alloc, &answer),
        Err(fault) => Err(fault),
    }
}
