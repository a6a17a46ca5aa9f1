//! Closes.

ghost use Rattle.std.specs.Prelude.{◌≤ℤ◌, pos};

use crate::answers::answer_of;
use crate::words::{push_ask, push_damaged};
use ev_store::Store;
use ev_types::{ActAns, Answer, Ask, TxnReq};
use row_files::{Words, push, push_number};
use std::alloc::Global;
use zk_model::Reply;
use zn_view::{Decision, Plan, View, ViewFault, Want, Who, are_numbers, is_count, ranges, reading};
use zs_close::{needs_close, plan_close};
use zx_base::Memory;

/// What a round led to.
#[derive(Clone, Copy)]
enum Round {
    /// Something was looked up.
    Read,
    /// Nothing is lacking.
    Whole,
    /// The close ends with what was added to the text.
    Ended,
}

/// `SESSION MINE`: reads what the close needs, and carries out its plan; false where the words are others
pub fn close(
    alloc: Global,
    text: &mut String,
    store: &mut Store,
    words: &mut Words,
) -> Result<bool, Memory> {
    let (Some(session), Some(mine)) = (words.long(), words.long()) else {
        return Ok(false);
    };
    if session < 1 {
        return Ok(false);
    }
    let mut view = View::empty(alloc);
    closed(alloc, text, store, Who { session, mine }, &mut view)?;
    Ok(true)
}

fn closed(
    alloc: Global,
    text: &mut String,
    store: &mut Store,
    who: Who,
    view: &mut View,
) -> Result<(), Memory>
    requires { pos 1 ≤ℤ who.session }
{
    for rounds in 0..4u32 {
        match read(alloc, text, store, who, view)? {
            Round::Read => {}
            Round::Whole => return decided(alloc, text, store, who, view, rounds),
            Round::Ended => return Ok(()),
        }
    }
    push(text, "no end")
}

/// Reads what the view lacks.
fn read(
    alloc: Global,
    text: &mut String,
    store: &mut Store,
    who: Who,
    view: &mut View,
) -> Result<Round, Memory>
    requires { pos 1 ≤ℤ who.session }
{
    let wants = needs_close(alloc, who, view)?;
    if wants.as_slice().is_empty() {
        return Ok(Round::Whole);
    }
    look_up(alloc, text, store, view, wants.as_slice())
}

/// Looks up what is wanted, at the view's revision.
fn look_up(
    alloc: Global,
    text: &mut String,
    store: &mut Store,
    view: &mut View,
    wants: &[Want],
) -> Result<Round, Memory> {
    let ask = reading(alloc, view.revision(), wants)?;
    look(alloc, text, store, view, wants, &ask)
}

fn look(
    alloc: Global,
    text: &mut String,
    store: &mut Store,
    view: &mut View,
    wants: &[Want],
    ask: &Ask,
) -> Result<Round, Memory> {
    match answer_of(alloc, text, store, ask)? {
        Some(answer) => taken(alloc, text, view, wants, &answer),
        None => Ok(Round::Ended),
    }
}

/// Adds what the answer has to the view.
fn taken(
    alloc: Global,
    text: &mut String,
    view: &mut View,
    wants: &[Want],
    answer: &Answer,
) -> Result<Round, Memory> {
    match answer {
        Answer::Txn {
            revision,
            parts,
            ..
        } => added(alloc, text, view, wants, *revision, parts.as_slice()),
        _ => ended(text, "no answer"),
    }
}

/// Adds what was read to the view, at the revision of the first round.
fn added(
    alloc: Global,
    text: &mut String,
    view: &mut View,
    wants: &[Want],
    revision: i64,
    parts: &[ActAns],
) -> Result<Round, Memory> {
    let at = if view.revision() == 0 {
        revision
    } else {
        view.revision()
    };
    if !is_count(at) || !are_numbers(parts) {
        return ended(text, "no answer");
    }
    match view.add(wants, at, parts) {
        Ok(()) => Ok(Round::Read),
        Err(ViewFault::Damaged { key, value }) => {
            push_damaged(alloc, text, key.as_slice(), value.as_slice())?;
            Ok(Round::Ended)
        }
        Err(ViewFault::OtherRevision { .. }) => ended(text, "other revision"),
        Err(ViewFault::Memory) => Err(Memory),
    }
}

/// The close ends with these words.
fn ended(text: &mut String, words: &str) -> Result<Round, Memory> {
    push(text, words)?;
    Ok(Round::Ended)
}

/// The decision on a view that lacks nothing.
fn decided(
    alloc: Global,
    text: &mut String,
    store: &mut Store,
    who: Who,
    view: &View,
    rounds: u32,
) -> Result<(), Memory>
    requires { pos 1 ≤ℤ who.session }
{
    let lacking = needs_close(alloc, who, view)?;
    if !lacking.as_slice().is_empty() {
        return push(text, "lacks something");
    }
    match plan_close(alloc, who, view)? {
        Decision::Planned(plan) => planned(alloc, text, store, plan, rounds),
        end => push_end(alloc, text, &end),
    }
}

/// A decision without a plan: `refused CODE`, `expired` or `moved REVISION`; a close has no good reply without a plan
fn push_end(alloc: Global, text: &mut String, end: &Decision) -> Result<(), Memory> {
    match end {
        Decision::Answered { reply, .. } => push_answered(alloc, text, reply),
        Decision::Expired => push(text, "expired"),
        Decision::Moved { found } => push_number(alloc, text, "moved ", *found),
        Decision::Planned(_) => push(text, "planned"),
    }
}

fn push_answered(alloc: Global, text: &mut String, reply: &Reply) -> Result<(), Memory> {
    match reply {
        Reply::Refused(code) => push_number(alloc, text, "refused ", i64::from(*code)),
        Reply::Good(_) => push(text, "answered"),
    }
}

/// `N rounds, TRANSACTION, at REVISION`, or that a guard failed
fn planned(
    alloc: Global,
    text: &mut String,
    store: &mut Store,
    plan: Plan,
    rounds: u32,
) -> Result<(), Memory> {
    let ask = Ask::Txn(txn_of(alloc, plan)?);
    carry_out(alloc, text, store, &ask, rounds)
}

fn carry_out(
    alloc: Global,
    text: &mut String,
    store: &mut Store,
    ask: &Ask,
    rounds: u32,
) -> Result<(), Memory> {
    match answer_of(alloc, text, store, ask)? {
        Some(answer) => push_outcome(alloc, text, rounds, ask, &answer),
        None => Ok(()),
    }
}

/// The transaction of a plan.
fn txn_of(alloc: Global, plan: Plan) -> Result<TxnReq, Memory> {
    let failure = ranges(alloc, 0, plan.again.as_slice())?;
    Ok(TxnReq {
        guards: plan.guards,
        success: plan.success,
        failure,
    })
}

fn push_outcome(
    alloc: Global,
    text: &mut String,
    rounds: u32,
    ask: &Ask,
    answer: &Answer,
) -> Result<(), Memory> {
    let Answer::Txn {
        revision,
        succeeded,
        ..
    } = answer
    else {
        return push(text, "no answer");
    };
    push_number(alloc, text, "", i64::from(rounds))?;
    push(text, " rounds, ")?;
    push_ask(alloc, text, ask)?;
    let words = if *succeeded {
        ", done at "
    } else {
        ", failed at "
    };
    push_number(alloc, text, words, *revision)
}
