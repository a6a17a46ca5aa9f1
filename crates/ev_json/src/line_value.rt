//! The lines of a watch read from JSON values.

ghost use Rattle.std.specs.Prelude.{◌≡◌, Result, Ok, IfOk, codes};
ghost use Rattle.serde_json.specs.Find.{get};
ghost use Rattle.ev_fields.specs.Places.{data_at};
ghost use Rattle.ev_json.specs.Answers.{deletion_in, kv_needed, event_in, puts_of, news_in, change_in, line_in};
ghost use Rattle.ev_fields.specs.Gives.{Gives};

use crate::answer_value::{result_of, revision};
use crate::line::{Event, Line};
use crate::list::{Read, list};
use ev_fields::fault::JsonFault;
use ev_fields::field::Field;
use ev_fields::members::{broken, count, flag, member};
use ev_fields::place::Place;
use ev_types::Kv;
use std::alloc::{AllocError, Global};
use zx_base::Seq;

#[tactic(auto, unfolding(crate::specs::Answers::deletion_in))]
fn is_deletion(value: &Place<'_, '_>) -> Result<bool, JsonFault>
    ensures { Gives result (deletion_in (data_at value.now)) }
{
    let Some(kind) = member(value, Field::Kind) else {
        return Ok(false);
    };
    let Some(text) = kind.as_str() else {
        return Err(broken(Field::Kind));
    };
    if text == "DELETE" {
        return Ok(true);
    }
    if text == "PUT" {
        return Ok(false);
    }
    Err(broken(Field::Kind))
}

fn needed_kv(alloc: Global, value: &Place<'_, '_>) -> Result<Kv, JsonFault>
    ensures { Gives result (kv_needed (get (codes "kv") (data_at value.now))) }
{
    match value.get("kv") {
        Some(kv) => Kv::read(alloc, &kv),
        None => Err(broken(Field::Key)),
    }
}

impl Read for Event {
    ghost reading = { event_in };

    #[tactic(auto, unfolding(crate::specs::Answers::event_in))]
    fn read(alloc: Global, value: &Place<'_, '_>) -> Result<Event, JsonFault> {
        let deletion = is_deletion(value)?;
        let kv = needed_kv(alloc, value)?;
        if !deletion {
            return Ok(Event { kv: Some(kv) });
        }
        if kv.key.as_slice() == b"zk/head".as_slice() {
            return Err(broken(Field::Kind));
        }
        Ok(Event { kv: None })
    }
}

/// The puts among the events, in order.
fn puts(alloc: Global, events: Vec<Event>) -> Result<Vec<Kv>, AllocError>
    ensures { IfOk result (λ v. v.items ≡ puts_of events.items) }
{
    let mut kvs = Vec::with_capacity(alloc, events.len())?;
    for event in events {
        if let Some(kv) = event.kv {
            kvs.push(kv)?;
        }
    }
    Ok(kvs)
}

#[tactic(auto, unfolding(crate::specs::Answers::news_in))]
fn news(alloc: Global, value: &Place<'_, '_>) -> Result<Line, JsonFault>
    ensures { Gives result (news_in (data_at value.now)) }
{
    let revision = revision(value)?;
    let created = flag(value, Field::Created)?;
    let events: Seq<Event> = list(alloc, value, Field::Events)?;
    if created {
        return Ok(Line::Created { revision });
    }
    let kvs = puts(alloc, events.into_vec())?;
    Ok(Line::Events {
        revision,
        kvs: Seq::from_vec(kvs),
    })
}

#[tactic(auto, unfolding(crate::specs::Answers::change_in))]
fn change(alloc: Global, value: &Place<'_, '_>) -> Result<Line, JsonFault>
    ensures { Gives result (change_in (data_at value.now)) }
{
    let canceled = flag(value, Field::Canceled)?;
    let rev = count(value, Field::CompactRevision)?;
    if !canceled {
        return news(alloc, value);
    }
    if rev > 0 {
        Ok(Line::Compacted { rev })
    } else {
        Ok(Line::Ended)
    }
}

/// One line of a watch.
#[tactic(auto, unfolding(crate::specs::Answers::line_in))]
pub fn line(alloc: Global, value: Place<'_, '_>) -> Result<Line, JsonFault>
    ensures { Gives result (line_in (data_at value.entry)) }
{
    if value.get("error").is_some() {
        return Ok(Line::Ended);
    }
    let message = result_of(value)?;
    change(alloc, &message)
}
