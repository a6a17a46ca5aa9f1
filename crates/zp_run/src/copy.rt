//! Copies of what a connection is handed, and of what is told of it.

ghost use Rattle.std.specs.Prelude.{◌≡◌, IfOk};
ghost use Rattle.std.specs.Arc.{arc_value};
ghost use Rattle.zp_run.specs.Notes.{OfEntry, noted, noted_input};

use crate::event::Event;
use ev_types::{ActAns, Answer, Kv, RangeAns};
use std::alloc::Global;
use std::sync::Arc;
use zn_layout::Entry;
use zn_view::copy_kv;
use zp_step::Input;
use zx_base::{Bytes, Memory, Seq};

fn copy_kvs(alloc: Global, kvs: &[Kv]) -> Result<Seq<Kv>, Memory>
    ensures { IfOk result (λ copies. copies ≡ kvs.now) }
{
    let mut copies = Seq::new(alloc);
    for kv in kvs {
        copies.push(copy_kv(alloc, kv)?)?;
    }
    Ok(copies)
}

fn copy_found(alloc: Global, found: &RangeAns) -> Result<RangeAns, Memory>
    ensures { IfOk result (λ copy. copy ≡ found.now) }
{
    Ok(RangeAns {
        kvs: copy_kvs(alloc, found.kvs.as_slice())?,
        more: found.more,
        count: found.count,
    })
}

fn copy_part(alloc: Global, part: &ActAns) -> Result<ActAns, Memory>
    ensures { IfOk result (λ copy. copy ≡ part.now) }
{
    match part {
        ActAns::Put => Ok(ActAns::Put),
        ActAns::Deleted(count) => Ok(ActAns::Deleted(*count)),
        ActAns::Range(found) => Ok(ActAns::Range(copy_found(alloc, found)?)),
    }
}

fn copy_parts(alloc: Global, parts: &[ActAns]) -> Result<Seq<ActAns>, Memory>
    ensures { IfOk result (λ copies. copies ≡ parts.now) }
{
    let mut copies = Seq::new(alloc);
    for part in parts {
        copies.push(copy_part(alloc, part)?)?;
    }
    Ok(copies)
}

fn copy_answer(alloc: Global, answer: &Answer) -> Result<Answer, Memory>
    ensures { IfOk result (λ copy. copy ≡ answer.now) }
{
    match answer {
        Answer::Txn {
            revision,
            succeeded,
            parts,
        } => Ok(Answer::Txn {
            revision: *revision,
            succeeded: *succeeded,
            parts: copy_parts(alloc, parts.as_slice())?,
        }),
        Answer::Range { revision, found } => Ok(Answer::Range {
            revision: *revision,
            found: copy_found(alloc, found)?,
        }),
        Answer::Granted { revision, id, ttl } => Ok(Answer::Granted {
            revision: *revision,
            id: *id,
            ttl: *ttl,
        }),
        Answer::Alive { revision, id, ttl } => Ok(Answer::Alive {
            revision: *revision,
            id: *id,
            ttl: *ttl,
        }),
    }
}

/// One more owner of the same entry.
fn share(entry: &Arc<Entry, Global>) -> Result<Input, Memory>
    ensures { IfOk result (λ copy. noted_input copy ≡ OfEntry (arc_value entry.now)) }
{
    Ok(Input::Entry(Arc::try_clone(entry)?))
}

fn copy_input(alloc: Global, input: &Input) -> Result<Input, Memory>
    ensures { IfOk result (λ copy. noted_input copy ≡ noted_input input.now) }
{
    match input {
        Input::Frame(bytes) => Ok(Input::Frame(Bytes::copy_of(alloc, bytes.as_slice())?)),
        Input::BadLength { place, length } => Ok(Input::BadLength {
            place: *place,
            length: *length,
        }),
        Input::Answer(answer) => Ok(Input::Answer(copy_answer(alloc, answer)?)),
        Input::Failed => Ok(Input::Failed),
        Input::Entry(entry) => share(entry),
        Input::Lagged { cursor, floor } => Ok(Input::Lagged {
            cursor: *cursor,
            floor: *floor,
        }),
        Input::FeedClosed => Ok(Input::FeedClosed),
        Input::ClientEnd { place } => Ok(Input::ClientEnd { place: *place }),
    }
}

/// A copy of an event. An entry gets one more owner and is not copied.
pub(crate) fn copy_event(alloc: Global, event: &Event) -> Result<Event, Memory>
    ensures { IfOk result (λ copy. noted copy ≡ noted event.now) }
{
    match event {
        Event::In(input, now) => Ok(Event::In(copy_input(alloc, input)?, *now)),
        Event::Out(bytes) => Ok(Event::Out(Bytes::copy_of(alloc, bytes.as_slice())?)),
    }
}
