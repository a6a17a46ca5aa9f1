//! What a connection does at each input.

ghost use Rattle.std.specs.Prelude.{◌≡◌, ◌+◌, length, false, Some, None, IfOk, OnOk, IsTrue, MatchOption, ◌↔◌, ◌≤ℤ◌, pos, ◌<◌, ◌^◌};
ghost use Rattle.zs_session.specs.Answering.{IsAwaited};
ghost use Rattle.zp_step.specs.Laws.{end_by as end_of};
ghost use Rattle.zp_step.specs.Stages.{Ready, asked_of, counted_up, is_shut};
ghost use Rattle.zp_step.specs.Steps.{Answers, Comes, Handles, IsFit, queued};
ghost use Rattle.zp_core.specs.Held.{IsFrame, IsHeld};
ghost use Rattle.zp_step.specs.Keepalives.{TakesUp};
ghost use Rattle.zp_core.specs.Going.{GoesOn, IsAtRest, IsNext};
ghost use Rattle.zp_core.specs.Handling.{ComesLater};
ghost use Rattle.zp_core.specs.Meanings.{Leads, core_of, ready, stage_of};

use crate::client::Client;
use crate::commits::committed;
use crate::connects::{connect, open};
use crate::entries::tell;
use crate::keepalives::{checked, kept_alive, take_up};
use crate::moves::{Move, append, close, rest};
use crate::rounds::read_on;
use crate::stage::Stage;
use ev_types::Answer;
use std::alloc::Global;
use zk_service::Cause;
use zp_step::{Action, Input};
use zx_base::{Bytes, Memory, Seq};

/// The length of a request's header in bytes: its xid and its type (zookeeper.jute, `RequestHeader`).
const HEADER: usize = 8;

/// How many bytes the length before a frame takes.
const LENGTH: u64 = 4;

fn answered(
    alloc: Global,
    client: &mut Client,
    stage: Stage,
    answer: &Answer,
    now: u64,
) -> Result<Move, Memory>
    requires held { IsHeld (core_of client.old (stage_of stage)) }
    requires opened { is_shut (stage_of stage) ≡ false }
    requires time { now < 2 ^ 62 }
    requires fit { IsAwaited (asked_of client.old.who (stage_of stage)) (Some answer.now) }
    ensures { IfOk result (Leads (λ c out. Answers (core_of client.old (stage_of stage)) answer.now now c out (stage_of stage)) client.new) }
{
    match stage {
        Stage::Connecting(connecting) => connect(alloc, client, connecting, Some(answer), now),
        Stage::KeepingAlive { frame } => kept_alive(alloc, client, frame, now, answer),
        Stage::Checking { frame } => checked(alloc, client, &frame, now, answer),
        Stage::Reading(round) => read_on(alloc, client, round, now, answer),
        Stage::Committing(commit) => committed(alloc, client, commit, now, answer),
        Stage::Unconnected { .. } | Stage::Ready | Stage::Waiting(_) | Stage::Shut => {
            unreachable!()
        }
    }
}

/// Counts the bytes of a frame, and those of the length before it.
fn count(client: &mut Client, frame: &[u8])
    ensures { client.new ≡ record client.old { taken = counted_up (client.old.taken + 4 + length frame.now) } }
{
    client.taken = client
        .taken
        .saturating_add(LENGTH)
        .saturating_add(frame.len() as u64);
}

/// Adds a frame after those that wait.
fn queue(alloc: Global, client: &mut Client, frame: &[u8]) -> Result<(), Memory>
    ensures { OnOk result (ready client.new ≡ queued (ready client.old) frame.now) }
{
    count(client, frame);
    client.waiting.push_back(Bytes::copy_of(alloc, frame)?)?;
    Ok(())
}

/// A frame after the first one waits, unless it has no header: then the connection is closed.
fn come_later(
    alloc: Global,
    client: &mut Client,
    stage: Stage,
    frame: &[u8],
) -> Result<Move, Memory>
    ensures { IfOk result (ComesLater client.old stage frame.now client.new) }
{
    if frame.len() < HEADER {
        let place = client.taken;
        return close(alloc, Cause::NoHeader { place });
    }
    queue(alloc, client, frame)?;
    Ok(rest(alloc, stage))
}

/// A frame comes; the first one is the connect.
fn come(
    alloc: Global,
    client: &mut Client,
    stage: Stage,
    frame: &[u8],
    now: u64,
) -> Result<Move, Memory>
    requires held { IsHeld (core_of client.old (stage_of stage)) }
    requires opened { is_shut (stage_of stage) ≡ false }
    ensures { IfOk result (Leads (λ c out. Comes (core_of client.old (stage_of stage)) frame.now now c out (stage_of stage)) client.new) }
{
    match stage {
        Stage::Unconnected { fresh } => {
            let place = client.taken;
            count(client, frame);
            open(alloc, client, place, fresh, frame, now)
        }
        stage => come_later(alloc, client, stage, frame),
    }
}

/// The cause for which an input shuts a connection, whatever its stage.
fn end_by(input: &Input) -> Option<Cause>
    ensures { result ≡ end_of input.now }
{
    match input {
        Input::Frame(_) | Input::Answer(_) | Input::Entry(_) => None,
        Input::Failed => Some(Cause::LinkFault),
        Input::BadLength { place, length } => Some(Cause::BadLength {
            place: *place,
            length: *length,
        }),
        Input::Lagged { cursor, floor } => Some(Cause::Lagged {
            cursor: *cursor,
            floor: *floor,
        }),
        Input::FeedClosed => Some(Cause::FeedClosed),
        Input::ClientEnd { place } => Some(Cause::ClientEnd { place: *place }),
    }
}

/// What an open connection does at a frame, an answer or an entry.
fn handle_open(
    alloc: Global,
    client: &mut Client,
    stage: Stage,
    input: &Input,
    now: u64,
) -> Result<Move, Memory>
    requires held { IsHeld (core_of client.old (stage_of stage)) }
    requires opened { is_shut (stage_of stage) ≡ false }
    requires time { now < 2 ^ 62 }
    requires fit { IsFit (core_of client.old (stage_of stage)) input.now }
    requires goes_on { end_of input.now ≡ None }
    ensures { IfOk result (Leads (Handles (core_of client.old (stage_of stage)) input.now now) client.new) }
{
    match input {
        Input::Frame(frame) => come(alloc, client, stage, frame.as_slice(), now),
        Input::Answer(answer) => answered(alloc, client, stage, answer, now),
        Input::Entry(entry) => tell(alloc, client, stage, entry),
        Input::Failed
        | Input::BadLength { .. }
        | Input::Lagged { .. }
        | Input::FeedClosed
        | Input::ClientEnd { .. } => unreachable!(),
    }
}

/// What an open connection does at an input.
pub(crate) fn handle(
    alloc: Global,
    client: &mut Client,
    stage: Stage,
    input: &Input,
    now: u64,
) -> Result<Move, Memory>
    requires held { IsHeld (core_of client.old (stage_of stage)) }
    requires opened { is_shut (stage_of stage) ≡ false }
    requires time { now < 2 ^ 62 }
    requires fit { IsFit (core_of client.old (stage_of stage)) input.now }
    ensures { IfOk result (Leads (Handles (core_of client.old (stage_of stage)) input.now now) client.new) }
{
    match end_by(input) {
        Some(why) => close(alloc, why),
        None => handle_open(alloc, client, stage, input, now),
    }
}

fn is_ready(stage: &Stage) -> bool
    ensures { IsTrue result ↔ (stage_of stage.now ≡ Ready) }
{
    matches!(stage, Stage::Ready)
}

/// The next frame, where the connection is ready and one waits.
fn next_frame(client: &mut Client, stage: &Stage) -> Option<Bytes>
    ensures { MatchOption result (IsAtRest client.old (stage_of stage.now) client.new) (IsNext client.old (stage_of stage.now) client.new) }
{
    if !is_ready(stage) {
        return None;
    }
    client.waiting.pop_front()
}

/// Takes up a frame.
fn take_next(
    alloc: Global,
    client: &mut Client,
    stage: &mut Stage,
    frame: Bytes,
    now: u64,
) -> Result<Seq<Action>, Memory>
    requires frame { IsFrame frame }
    requires real { pos 1 ≤ℤ client.old.who.session }
    requires time { now < 2 ^ 62 }
    ensures { IfOk result (TakesUp (ready client.old) frame now (core_of client.new (stage_of stage.new))) }
{
    let taken = take_up(alloc, client, frame, now)?;
    *stage = taken.stage;
    Ok(taken.actions)
}

/// Takes up the frames that wait, as long as the connection is ready.
pub(crate) fn go_on(
    alloc: Global,
    client: &mut Client,
    stage: &mut Stage,
    actions: &mut Vec<Action>,
    now: u64,
) -> Result<(), Memory>
    requires held { IsHeld (core_of client.old (stage_of stage.old)) }
    requires time { now < 2 ^ 62 }
    ensures { OnOk result (GoesOn now (core_of client.old (stage_of stage.old)) actions.old.items (core_of client.new (stage_of stage.new)) actions.new.items) }
{
    'frames: while let Some(frame) = next_frame(client, stage) {
        let more = take_next(alloc, client, stage, frame, now)?;
        append(actions, more)?;
    }
    Ok(())
}
