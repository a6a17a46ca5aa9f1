//! Answers read from JSON values.

ghost use Rattle.std.specs.Prelude.{◌≡◌, Result, Ok};
ghost use Rattle.std.specs.Bool.{MatchBool};
ghost use Rattle.serde_json.specs.Data.{Data, Items, no_items, item};
ghost use Rattle.ev_fields.specs.Places.{data_at, items_at};
ghost use Rattle.ev_json.specs.Answers.{revision_in, kv_in, found_in, held, put_done_in, deleted_in, range_part_in, part_in, parts_in, txn_answer_in, range_answer_in, granted_in, kept_in, kept_alive_in, result_in, answer_in};
ghost use Rattle.ev_fields.specs.Gives.{Gives, GivesAs};

use crate::list::{Read, list};
use ev_fields::fault::JsonFault;
use ev_fields::field::Field;
use ev_fields::members::{
    broken, bytes, count, flag, items, lease, member, message, needed_bytes, needed_count, without,
};
use ev_fields::place::{Place, Places};
use ev_types::{Act, ActAns, Answer, Ask, Guard, Kv, RangeAns, TxnReq};
use std::alloc::Global;
use zx_base::Seq;

/// The revision in a message's header.
#[tactic(auto, unfolding(crate::specs::Answers::revision_in))]
pub fn revision(value: &Place<'_, '_>) -> Result<i64, JsonFault>
    ensures { Gives result (revision_in (data_at value.now)) }
{
    let header = message(value, Field::Header)?;
    needed_count(&header, Field::Revision)
}

impl Read for Kv {
    ghost reading = { kv_in };

    #[tactic(auto, unfolding(crate::specs::Answers::kv_in))]
    fn read(alloc: Global, value: &Place<'_, '_>) -> Result<Kv, JsonFault> {
        let create_revision = count(value, Field::CreateRevision)?;
        let key = needed_bytes(alloc, value, Field::Key)?;
        let lease = lease(value, Field::Lease)?;
        let mod_revision = count(value, Field::ModRevision)?;
        let content = bytes(alloc, value, Field::Value)?;
        let version = count(value, Field::Version)?;
        Ok(Kv {
            key,
            value: content,
            create_revision,
            mod_revision,
            version,
            lease,
        })
    }
}

impl Read for RangeAns {
    ghost reading = { found_in };

    #[tactic(auto, unfolding(crate::specs::Answers::found_in))]
    fn read(alloc: Global, value: &Place<'_, '_>) -> Result<RangeAns, JsonFault> {
        let count = count(value, Field::Count)?;
        let kvs = list(alloc, value, Field::Kvs)?;
        let more = flag(value, Field::More)?;
        Ok(RangeAns { kvs, more, count })
    }
}

#[tactic(auto, unfolding(crate::specs::Answers::put_done_in))]
fn put_done(value: &Place<'_, '_>) -> Result<ActAns, JsonFault>
    ensures { Gives result (put_done_in (data_at value.now)) }
{
    message(value, Field::ResponsePut)?;
    without(value, Field::ResponseDeleteRange)?;
    without(value, Field::ResponseRange)?;
    Ok(ActAns::Put)
}

#[tactic(auto, unfolding(crate::specs::Answers::deleted_in))]
fn deleted(value: &Place<'_, '_>) -> Result<ActAns, JsonFault>
    ensures { Gives result (deleted_in (data_at value.now)) }
{
    let delete = message(value, Field::ResponseDeleteRange)?;
    let deleted = count(&delete, Field::Deleted)?;
    without(value, Field::ResponsePut)?;
    without(value, Field::ResponseRange)?;
    Ok(ActAns::Deleted(deleted))
}

#[tactic(auto, unfolding(crate::specs::Answers::range_part_in))]
fn range_part(alloc: Global, value: &Place<'_, '_>) -> Result<ActAns, JsonFault>
    ensures { Gives result (range_part_in (data_at value.now)) }
{
    let range = message(value, Field::ResponseRange)?;
    let found = RangeAns::read(alloc, &range)?;
    without(value, Field::ResponsePut)?;
    without(value, Field::ResponseDeleteRange)?;
    Ok(ActAns::Range(found))
}

/// The answer to one operation.
#[tactic(auto, unfolding(crate::specs::Answers::part_in))]
fn part(alloc: Global, act: &Act, value: &Place<'_, '_>) -> Result<ActAns, JsonFault>
    ensures { Gives result (part_in act.now (data_at value.now)) }
{
    match act {
        Act::Put { .. } => put_done(value),
        Act::Delete { .. } => deleted(value),
        Act::Range(_) => range_part(alloc, value),
    }
}

/// Whether no items are left.
fn are_over(values: Places<'_, '_>) -> bool
    ensures { MatchBool result (items_at values.entry ≡ no_items)
        ((d : Data) × (rest : Items) × (items_at values.entry ≡ item d rest)) }
{
    let mut values = values;
    match values.next() {
        Some(_) => false,
        None => true,
    }
}

/// One answer for each operation.
fn parts(alloc: Global, acts: &[Act], mut values: Places<'_, '_>) -> Result<Vec<ActAns>, JsonFault>
    ensures { GivesAs (λ v. v.items) result (parts_in acts.now (items_at values.entry)) }
{
    let mut list = Vec::with_capacity(alloc, acts.len())?;
    for act in acts {
        let Some(value) = values.next() else {
            return Err(broken(Field::Responses));
        };
        list.push(part(alloc, act, &value)?)?;
    }
    if !are_over(values) {
        return Err(broken(Field::Responses));
    }
    Ok(list)
}

/// Whether the guards held, of which an answer says this. Where there are none, they cannot have failed.
#[tactic(auto, unfolding(crate::specs::Answers::held))]
pub fn held(guards: &[Guard], succeeded: bool) -> Result<bool, JsonFault>
    ensures { Gives result (held guards.now succeeded) }
{
    if guards.is_empty() && !succeeded {
        return Err(broken(Field::Succeeded));
    }
    Ok(succeeded)
}

#[tactic(auto, unfolding(crate::specs::Answers::txn_answer_in))]
fn txn_answer(alloc: Global, txn: &TxnReq, value: &Place<'_, '_>) -> Result<Answer, JsonFault>
    ensures { Gives result (txn_answer_in txn.now (data_at value.now)) }
{
    let revision = revision(value)?;
    let succeeded = flag(value, Field::Succeeded)?;
    let responses = items(value, Field::Responses)?;
    let acts = if succeeded {
        txn.success.as_slice()
    } else {
        txn.failure.as_slice()
    };
    let parts = parts(alloc, acts, responses)?;
    Ok(Answer::Txn {
        revision,
        succeeded: held(txn.guards.as_slice(), succeeded)?,
        parts: Seq::from_vec(parts),
    })
}

#[tactic(auto, unfolding(crate::specs::Answers::range_answer_in))]
fn range_answer(alloc: Global, value: &Place<'_, '_>) -> Result<Answer, JsonFault>
    ensures { Gives result (range_answer_in (data_at value.now)) }
{
    let revision = revision(value)?;
    let found = RangeAns::read(alloc, value)?;
    Ok(Answer::Range { revision, found })
}

#[tactic(auto, unfolding(crate::specs::Answers::granted_in))]
fn granted(value: &Place<'_, '_>) -> Result<Answer, JsonFault>
    ensures { Gives result (granted_in (data_at value.now)) }
{
    let id = lease(value, Field::Id)?;
    let ttl = count(value, Field::Ttl)?;
    let revision = revision(value)?;
    Ok(Answer::Granted { revision, id, ttl })
}

#[tactic(auto, unfolding(crate::specs::Answers::kept_in))]
fn kept(value: &Place<'_, '_>) -> Result<Answer, JsonFault>
    ensures { Gives result (kept_in (data_at value.now)) }
{
    let id = lease(value, Field::Id)?;
    let ttl = count(value, Field::Ttl)?;
    let revision = revision(value)?;
    Ok(Answer::Alive { revision, id, ttl })
}

/// The message in a line of a stream: its `result`, or the whole value where it has none.
#[tactic(auto, unfolding(crate::specs::Answers::result_in))]
pub fn result_of<'t, 'a>(value: Place<'t, 'a>) -> Result<Place<'t, 'a>, JsonFault>
    ensures { GivesAs data_at result (result_in (data_at value.entry)) }
{
    let Some(found) = member(&value, Field::Result) else {
        return Ok(value);
    };
    if !found.is_object() {
        return Err(broken(Field::Result));
    }
    Ok(found)
}

#[tactic(auto, unfolding(crate::specs::Answers::kept_alive_in))]
fn kept_alive(value: Place<'_, '_>) -> Result<Answer, JsonFault>
    ensures { Gives result (kept_alive_in (data_at value.entry)) }
{
    let message = result_of(value)?;
    kept(&message)
}

/// The answer to an ask.
#[tactic(auto, unfolding(crate::specs::Answers::answer_in))]
pub fn answer(alloc: Global, ask: &Ask, value: Place<'_, '_>) -> Result<Answer, JsonFault>
    ensures { Gives result (answer_in ask.now (data_at value.entry)) }
{
    match ask {
        Ask::Txn(txn) => txn_answer(alloc, txn, &value),
        Ask::Range(_) => range_answer(alloc, &value),
        Ask::Grant { .. } => granted(&value),
        Ask::Alive { .. } => kept_alive(value),
    }
}
