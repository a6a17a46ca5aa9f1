//! Answers to transactions read straight from their texts, where these are spelled as etcd's gateway spells them: members in its
//! order, no blanks, and strings without escapes. Any other text gives `None`, and is read by its tokens.

ghost use Rattle.std.specs.Prelude.{◌≡◌, ◌++◌, ◌∷◌, [], cond, true, false, IfSome, codes};
ghost use Rattle.ev_fields.specs.Kinds.{each};
ghost use Rattle.ev_json.specs.Answers.{kv_in, put_done_in, deleted_in, range_part_in, part_in, parts_in, txn_answer_in};
ghost use Rattle.ev_json.specs.Spelled.{IsSpelled, AreSpelled, AreSpelledIf, IsFlagged};

use crate::answer_value::held;
use ev_fields::straight::{
    bytes_if, bytes_of, content, content_if, count_if, count_of, lease_if, passes,
};
use ev_types::{Act, ActAns, Answer, Kv, RangeAns, TxnReq};
use std::alloc::Global;
use zx_base::Seq;

fn kv<'a>(alloc: Global, bytes: &'a [u8]) -> Option<(Kv, &'a [u8])>
    ensures { IfSome result (λ found. IsSpelled kv_in 1 bytes.now found.0 found.1.now) }
{
    let (key, rest) = content(bytes, b"{\"key\":\"")?;
    let (create_revision, rest) = content(rest, b",\"create_revision\":\"")?;
    let (mod_revision, rest) = content(rest, b",\"mod_revision\":\"")?;
    let (version, rest) = content(rest, b",\"version\":\"")?;
    let (value, rest) = content_if(rest, b",\"value\":\"")?;
    let (lease, rest) = content_if(rest, b",\"lease\":\"")?;
    let rest = passes(rest, b"}")?;
    let create_revision = count_of(create_revision)?;
    let mod_revision = count_of(mod_revision)?;
    let version = count_of(version)?;
    let lease = lease_if(lease)?;
    let key = bytes_of(alloc, key)?;
    let value = bytes_if(alloc, value)?;
    let kv = Kv {
        key,
        value,
        create_revision,
        mod_revision,
        version,
        lease,
    };
    Some((kv, rest))
}

/// What stands after a comma, where one is wanted.
fn comma_if(bytes: &[u8], wanted: bool) -> Option<&[u8]>
    ensures { IfSome result (λ rest. bytes.now ≡ cond wanted (44 ∷ []) [] ++ rest.now) }
{
    if wanted {
        passes(bytes, b",")
    } else {
        Some(bytes)
    }
}

/// Keys with their values, up to the end of their list.
fn kvs<'a>(alloc: Global, bytes: &'a [u8]) -> Option<(Vec<Kv>, &'a [u8])>
    ensures { IfSome result (λ found. AreSpelled (each kv_in) 1 false bytes.now found.0.items found.1.now) }
{
    let mut list = Vec::new(alloc);
    let mut rest = bytes;
    let mut later = false;
    for _ in 0..bytes.len() {
        if let Some(rest) = passes(rest, b"]") {
            return Some((list, rest));
        }
        let (found, next) = kv(alloc, comma_if(rest, later)?)?;
        if list.push(found).is_err() {
            return None;
        }
        rest = next;
        later = true;
    }
    None
}

#[tactic(auto, using(crate::proofs::Spellings::nothing_read))]
fn kvs_if<'a>(alloc: Global, bytes: &'a [u8]) -> Option<(Vec<Kv>, &'a [u8])>
    ensures { IfSome result (λ found. AreSpelledIf (each kv_in) 1 (codes ",\"kvs\":[") bytes.now found.0.items found.1.now) }
{
    match passes(bytes, b",\"kvs\":[") {
        Some(items) => kvs(alloc, items),
        None => Some((Vec::new(alloc), bytes)),
    }
}

/// Whether the bytes begin with this text, and what stands after it, or all of them.
fn flag_if<'a>(bytes: &'a [u8], text: &[u8]) -> (bool, &'a [u8])
    ensures { IsFlagged text.now bytes.now result.0 result.1.now }
{
    match passes(bytes, text) {
        Some(rest) => (true, rest),
        None => (false, bytes),
    }
}

fn put_done(bytes: &[u8]) -> Option<(ActAns, &[u8])>
    ensures { IfSome result (λ found. IsSpelled put_done_in 5 bytes.now found.0 found.1.now) }
{
    let (_revision, rest) = content(bytes, b"{\"response_put\":{\"header\":{\"revision\":\"")?;
    let rest = passes(rest, b"}}}")?;
    Some((ActAns::Put, rest))
}

fn deleted(bytes: &[u8]) -> Option<(ActAns, &[u8])>
    ensures { IfSome result (λ found. IsSpelled deleted_in 5 bytes.now found.0 found.1.now) }
{
    let (_revision, rest) = content(
        bytes,
        b"{\"response_delete_range\":{\"header\":{\"revision\":\"",
    )?;
    let rest = passes(rest, b"}")?;
    let (deleted, rest) = content_if(rest, b",\"deleted\":\"")?;
    let rest = passes(rest, b"}}")?;
    let deleted = count_if(deleted)?;
    Some((ActAns::Deleted(deleted), rest))
}

fn range_part<'a>(alloc: Global, bytes: &'a [u8]) -> Option<(ActAns, &'a [u8])>
    ensures { IfSome result (λ found. IsSpelled range_part_in 5 bytes.now found.0 found.1.now) }
{
    let (_revision, rest) = content(bytes, b"{\"response_range\":{\"header\":{\"revision\":\"")?;
    let rest = passes(rest, b"}")?;
    let (kvs, rest) = kvs_if(alloc, rest)?;
    let (more, rest) = flag_if(rest, b",\"more\":true");
    let (count, rest) = content_if(rest, b",\"count\":\"")?;
    let rest = passes(rest, b"}}")?;
    let count = count_if(count)?;
    let kvs = Seq::from_vec(kvs);
    Some((ActAns::Range(RangeAns { kvs, more, count }), rest))
}

#[tactic(auto, using(crate::proofs::Spellings::by_kind))]
fn part<'a>(alloc: Global, act: &Act, bytes: &'a [u8]) -> Option<(ActAns, &'a [u8])>
    ensures { IfSome result (λ found. IsSpelled (part_in act.now) 5 bytes.now found.0 found.1.now) }
{
    match act {
        Act::Put { .. } => put_done(bytes),
        Act::Delete { .. } => {
            let (answer, rest) = deleted(bytes)?;
            Some((answer, rest))
        }
        Act::Range(_) => range_part(alloc, bytes),
    }
}

/// One answer for each operation, up to the end of their list.
fn parts<'a>(alloc: Global, acts: &[Act], bytes: &'a [u8]) -> Option<(Vec<ActAns>, &'a [u8])>
    ensures { IfSome result (λ found. AreSpelled (parts_in acts.now) 5 false bytes.now found.0.items found.1.now) }
{
    let Ok(mut list) = Vec::with_capacity(alloc, acts.len()) else {
        return None;
    };
    let mut rest = bytes;
    let mut later = false;
    for act in acts {
        let (answer, next) = part(alloc, act, comma_if(rest, later)?)?;
        if list.push(answer).is_err() {
            return None;
        }
        rest = next;
        later = true;
    }
    let rest = passes(rest, b"]")?;
    Some((list, rest))
}

#[tactic(auto, using(crate::proofs::Spellings::nothing_read))]
fn parts_if<'a>(alloc: Global, acts: &[Act], bytes: &'a [u8]) -> Option<(Vec<ActAns>, &'a [u8])>
    ensures { IfSome result (λ found. AreSpelledIf (parts_in acts.now) 5 (codes ",\"responses\":[") bytes.now found.0.items found.1.now) }
{
    if acts.is_empty() {
        return Some((Vec::new(alloc), bytes));
    }
    parts(alloc, acts, passes(bytes, b",\"responses\":[")?)
}

/// Whether only the last brace is left.
fn last(bytes: &[u8]) -> Option<()>
    ensures { IfSome result (λ _. bytes.now ≡ 125 ∷ []) }
{
    if bytes == b"}".as_slice() {
        Some(())
    } else {
        None
    }
}

/// The operations that were carried out.
fn acts_of(txn: &TxnReq, succeeded: bool) -> &[Act]
    ensures { result.now ≡ cond succeeded txn.now.success txn.now.failure }
{
    if succeeded {
        txn.success.as_slice()
    } else {
        txn.failure.as_slice()
    }
}

/// The answer to a transaction, where its text is spelled so.
pub fn txn_answer(alloc: Global, txn: &TxnReq, body: &[u8]) -> Option<Answer>
    ensures { IfSome result (λ answer. IsSpelled (txn_answer_in txn.now) 127 body.now answer []) }
{
    let (_cluster, rest) = content(body, b"{\"header\":{\"cluster_id\":\"")?;
    let (_member, rest) = content(rest, b",\"member_id\":\"")?;
    let (revision, rest) = content(rest, b",\"revision\":\"")?;
    let (_term, rest) = content(rest, b",\"raft_term\":\"")?;
    let rest = passes(rest, b"}")?;
    let (succeeded, rest) = flag_if(rest, b",\"succeeded\":true");
    let (parts, rest) = parts_if(alloc, acts_of(txn, succeeded), rest)?;
    last(rest)?;
    let Ok(succeeded) = held(txn.guards.as_slice(), succeeded) else {
        return None;
    };
    let revision = count_of(revision)?;
    Some(Answer::Txn {
        revision,
        succeeded,
        parts: Seq::from_vec(parts),
    })
}
