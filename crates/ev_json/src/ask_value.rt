//! Asks read from JSON values.

ghost use Rattle.std.specs.Prelude.{Result, Ok};
ghost use Rattle.ev_fields.specs.Places.{data_at};
ghost use Rattle.ev_json.specs.Asks.{guard_in, range_in, put_in, delete_in, range_act_in, act_in, txn_in, range_ask_in, txn_ask_in, grant_in, alive_in, ask_in, watch_in};
ghost use Rattle.ev_fields.specs.Gives.{Gives};

use crate::list::{Read, list};
use ev_fields::fault::JsonFault;
use ev_fields::field::Field;
use ev_fields::members::{
    broken, bytes, count, flag, has, key, lease, message, positive_count, positive_lease, without,
    word, word_or_none,
};
use ev_fields::place::Place;
use ev_types::{Act, Ask, Guard, RangeReq, Route, TxnReq};
use std::alloc::Global;
use zx_base::Bytes;

impl Read for Guard {
    ghost reading = { guard_in };

    #[tactic(auto, unfolding(crate::specs::Asks::guard_in))]
    fn read(alloc: Global, value: &Place<'_, '_>) -> Result<Guard, JsonFault> {
        let key = key(alloc, value)?;
        let mod_revision = count(value, Field::ModRevision)?;
        without(value, Field::RangeEnd)?;
        word_or_none(value, Field::Result, "EQUAL")?;
        word(value, Field::Target, "MOD")?;
        Ok(Guard { key, mod_revision })
    }
}

impl Read for RangeReq {
    ghost reading = { range_in };

    #[tactic(auto, unfolding(crate::specs::Asks::range_in))]
    fn read(alloc: Global, value: &Place<'_, '_>) -> Result<RangeReq, JsonFault> {
        let key = key(alloc, value)?;
        let keys_only = flag(value, Field::KeysOnly)?;
        let limit = count(value, Field::Limit)?;
        let end = bytes(alloc, value, Field::RangeEnd)?;
        let revision = count(value, Field::Revision)?;
        Ok(RangeReq {
            key,
            end,
            revision,
            limit,
            keys_only,
        })
    }
}

#[tactic(auto, unfolding(crate::specs::Asks::put_in))]
fn put(alloc: Global, value: &Place<'_, '_>) -> Result<Act, JsonFault>
    ensures { Gives result (put_in (data_at value.now)) }
{
    let put = message(value, Field::RequestPut)?;
    let key = key(alloc, &put)?;
    let lease = lease(&put, Field::Lease)?;
    let content = bytes(alloc, &put, Field::Value)?;
    without(value, Field::RequestDeleteRange)?;
    without(value, Field::RequestRange)?;
    Ok(Act::Put {
        key,
        value: content,
        lease,
    })
}

#[tactic(auto, unfolding(crate::specs::Asks::delete_in))]
fn delete(alloc: Global, value: &Place<'_, '_>) -> Result<Act, JsonFault>
    ensures { Gives result (delete_in (data_at value.now)) }
{
    let delete = message(value, Field::RequestDeleteRange)?;
    let key = key(alloc, &delete)?;
    without(&delete, Field::RangeEnd)?;
    without(value, Field::RequestRange)?;
    Ok(Act::Delete { key })
}

#[tactic(auto, unfolding(crate::specs::Asks::range_act_in))]
fn range(alloc: Global, value: &Place<'_, '_>) -> Result<Act, JsonFault>
    ensures { Gives result (range_act_in (data_at value.now)) }
{
    let range = message(value, Field::RequestRange)?;
    let asked = RangeReq::read(alloc, &range)?;
    Ok(Act::Range(asked))
}

impl Read for Act {
    ghost reading = { act_in };

    #[tactic(auto, unfolding(crate::specs::Asks::act_in))]
    fn read(alloc: Global, value: &Place<'_, '_>) -> Result<Act, JsonFault> {
        if has(value, Field::RequestPut) {
            return put(alloc, value);
        }
        if has(value, Field::RequestDeleteRange) {
            return delete(alloc, value);
        }
        range(alloc, value)
    }
}

impl Read for TxnReq {
    ghost reading = { txn_in };

    #[tactic(auto, unfolding(crate::specs::Asks::txn_in))]
    fn read(alloc: Global, value: &Place<'_, '_>) -> Result<TxnReq, JsonFault> {
        if !value.is_object() {
            return Err(broken(Field::Success));
        }
        let guards = list(alloc, value, Field::Compare)?;
        let failure = list(alloc, value, Field::Failure)?;
        let success = list(alloc, value, Field::Success)?;
        Ok(TxnReq {
            guards,
            success,
            failure,
        })
    }
}

#[tactic(auto, unfolding(crate::specs::Asks::txn_ask_in))]
fn txn_ask(alloc: Global, value: &Place<'_, '_>) -> Result<Ask, JsonFault>
    ensures { Gives result (txn_ask_in (data_at value.now)) }
{
    let txn = TxnReq::read(alloc, value)?;
    Ok(Ask::Txn(txn))
}

#[tactic(auto, unfolding(crate::specs::Asks::range_ask_in))]
fn range_ask(alloc: Global, value: &Place<'_, '_>) -> Result<Ask, JsonFault>
    ensures { Gives result (range_ask_in (data_at value.now)) }
{
    let range = RangeReq::read(alloc, value)?;
    Ok(Ask::Range(range))
}

#[tactic(auto, unfolding(crate::specs::Asks::grant_in))]
fn grant(value: &Place<'_, '_>) -> Result<Ask, JsonFault>
    ensures { Gives result (grant_in (data_at value.now)) }
{
    let id = positive_lease(value, Field::Id)?;
    let ttl = positive_count(value, Field::Ttl)?;
    Ok(Ask::Grant { id, ttl })
}

#[tactic(auto, unfolding(crate::specs::Asks::alive_in))]
fn alive(value: &Place<'_, '_>) -> Result<Ask, JsonFault>
    ensures { Gives result (alive_in (data_at value.now)) }
{
    let id = positive_lease(value, Field::Id)?;
    Ok(Ask::Alive { id })
}

/// The ask in the value of a body that was posted to the path of this route.
#[tactic(auto, unfolding(crate::specs::Asks::ask_in))]
pub fn ask(alloc: Global, route: Route, value: &Place<'_, '_>) -> Result<Ask, JsonFault>
    ensures { Gives result (ask_in route (data_at value.now)) }
{
    match route {
        Route::Txn => txn_ask(alloc, value),
        Route::Range => range_ask(alloc, value),
        Route::Grant => grant(value),
        Route::Alive => alive(value),
        Route::Watch => Err(broken(Field::CreateRequest)),
    }
}

/// A request to watch one key: the revision to start at, and the key.
#[tactic(auto, unfolding(crate::specs::Asks::watch_in))]
pub fn watch(alloc: Global, value: &Place<'_, '_>) -> Result<(i64, Bytes), JsonFault>
    ensures { Gives result (watch_in (data_at value.now)) }
{
    let request = message(value, Field::CreateRequest)?;
    let key = key(alloc, &request)?;
    let from = positive_count(&request, Field::StartRevision)?;
    Ok((from, key))
}
