//! What is told in answer to a frame as of a moment.

ghost use Rattle.std.specs.Prelude.{◌≡◌, ◌<◌, ℕ, ℤ, Some, length, option_map, slice_get, IfOk};
ghost use Rattle.zk_transcript.specs.declared.transcript.TranscriptLine.TheVariants.{Update};
ghost use Rattle.zk_model.specs.declared.reply.Reply.TheVariants as reply;
ghost use Rattle.zk_transcript.specs.History.{after};
ghost use Rattle.zk_service.specs.Answers.{owned_limit_in};
ghost use Rattle.zk_service.specs.States.{session_at};
ghost use Rattle.zk_service.specs.States.{session_at};
ghost use Rattle.zk_jute.specs.Requests.{Frame};
ghost use Rattle.zk_service.specs.Answers.{only, plain_reply as plain_reply_of, session_refusal as session_refusal_of};
ghost use Rattle.zk_transcript.specs.Walks.{closes_session as closes_session_of, looked as looked_of, response_at as response_at_of, told_as_of as told_as_of_of, told_by_state as told_by_state_of};
ghost use Rattle.zk_machine.specs.Faults.{IsWhole};
ghost use Rattle.zk_answers.specs.Outcomes.{told_of};
ghost use Rattle.zk_judge.specs.Fronts.{IsFront};
ghost use Rattle.zk_judge.specs.NextFrames.{IsNextFrame};
ghost use Rattle.zk_judge.specs.Seen.{IsShortFrame, ending_of, frame_as};

use crate::arming::tree_answer;
use crate::bodies::copy_of_body;
use crate::frames::{FrameRead, asked, plain_reply};
use crate::index::Index;
use crate::next_frame::NextFrame;
use crate::walker::Party;
use std::alloc::Global;
use zk_answers::{Told, Watches};
use zk_history::State;
use zk_model::code::{SESSION_EXPIRED, SESSION_MOVED};
use zk_model::{Body, Reply};
use zk_service::{UpdateKind, UpdateRec};
use zk_transcript::TranscriptLine;
use zx_base::{Memory, Seq};

/// What is told, and whether no request is answered after it.
#[derive(Drop)]
pub struct Ending {
    pub told: Told,
    pub is_over: bool,
}

/// The code with which the session test refuses: the session is not open or has lapsed, or is attached to another connection.
fn session_refusal(party: Party, state: &State) -> Option<i32>
    ensures { option_map reply.Refused result ≡ session_refusal_of party.connection (session_at party.session state.now) }
{
    match state.session(party.session) {
        None => Some(SESSION_EXPIRED),
        Some(session) => {
            if session.is_lapsed() {
                Some(SESSION_EXPIRED)
            } else if party.connection != session.connection() {
                Some(SESSION_MOVED)
            } else {
                None
            }
        }
    }
}

/// The refusal of the session test, which leaves the watches as they are.
fn refused(alloc: Global, watches: Watches, code: i32) -> Told
    ensures { told_of result ≡ only watches (reply.Refused code) }
{
    Told {
        reply: Reply::Refused(code),
        notices: Seq::new(alloc),
        watches,
    }
}

/// The tree's answer to a frame that is not answered without it.
fn looked(
    alloc: Global,
    state: &State,
    party: Party,
    frame: &FrameRead,
    watches: Watches,
) -> Result<Option<Told>, Memory>
    requires whole { IsWhole state.now.tree }
    requires short { IsShortFrame (frame_as frame.now) }
    ensures { IfOk result (λ o. option_map told_of o ≡ looked_of state.now (owned_limit_in (session_at party.session state.now)) party.session watches (frame_as frame.now) (plain_reply_of watches (frame_as frame.now))) }
{
    if plain_reply(alloc, frame)?.is_some() {
        return Ok(None);
    }
    match asked(frame) {
        Some(request) => tree_answer(alloc, state, party, watches, request),
        None => Ok(None),
    }
}

/// The refusal of the session test, after which no request is answered, or else the tree's answer.
fn told_by_state(
    alloc: Global,
    state: &State,
    party: Party,
    frame: &FrameRead,
    watches: Watches,
) -> Result<Option<Ending>, Memory>
    requires whole { IsWhole state.now.tree }
    requires short { IsShortFrame (frame_as frame.now) }
    ensures { IfOk result (λ o. option_map ending_of o ≡ told_by_state_of state.now party.connection party.session (frame_as frame.now) watches) }
{
    match session_refusal(party, state) {
        Some(code) => Ok(Some(Ending {
            told: refused(alloc, watches, code),
            is_over: true,
        })),
        None => match looked(alloc, state, party, frame, watches)? {
            Some(told) => Ok(Some(Ending {
                told,
                is_over: false,
            })),
            None => Ok(None),
        },
    }
}

/// The body of the reply to the request that the update at a place carried out.
fn response_at(
    alloc: Global,
    index: &Index,
    place: usize,
    update: UpdateRec,
) -> Result<Option<Body>, Memory>
    requires within { place < length index.now.lines.now }
    requires update { slice_get index.now.lines.now place ≡ Some (Update update) }
    ensures { IfOk result (λ o. o ≡ response_at_of index.now.lines.now place update.zxid update.kind) }
{
    match update.kind {
        UpdateKind::Asked { .. } => match index.response(place) {
            Some(response) => Ok(Some(copy_of_body(alloc, response)?)),
            None => Ok(None),
        },
        UpdateKind::Closed { .. } => Ok(Some(Body::Empty)),
        _ => Ok(None),
    }
}

fn closes_session(kind: UpdateKind) -> bool
    ensures { result ≡ closes_session_of kind }
{
    match kind {
        UpdateKind::Closed { .. } => true,
        _ => false,
    }
}

/// What is told of a request that the update at this place carried out, where that is the last of these lines.
#[tactic(auto, unfolding(zk_transcript::specs::Walks::told_as_of))]
fn told_of_own(
    alloc: Global,
    index: &Index,
    past: &[TranscriptLine],
    watches: Watches,
    place: usize,
    update: UpdateRec,
) -> Result<Option<Ending>, Memory>
    requires front { IsFront past.now index.now.lines.now }
    requires update { slice_get index.now.lines.now place ≡ Some (Update update) }
    ensures { IfOk result (λ o. (c : ℕ) (id : ℤ) (x : Frame) → option_map ending_of o ≡ told_as_of_of past.now c id x watches (Some (place, update))) }
{
    if past.len() == 0 || past.len() - 1 != place {
        return Ok(None);
    }
    match response_at(alloc, index, place, update)? {
        Some(response) => Ok(Some(Ending {
            told: Told {
                reply: Reply::Good(response),
                notices: Seq::new(alloc),
                watches,
            },
            is_over: closes_session(update.kind),
        })),
        None => Ok(None),
    }
}

/// What is told in answer to a frame as of the moment after the lines `past`, which lead to `state`. The watches are those that are
/// armed then.
#[tactic(auto, unfolding(zk_transcript::specs::Walks::told_as_of))]
pub fn told_as_of(
    alloc: Global,
    index: &Index,
    past: &[TranscriptLine],
    state: &State,
    party: Party,
    asked: &NextFrame,
    watches: Watches,
) -> Result<Option<Ending>, Memory>
    requires front { IsFront past.now index.now.lines.now }
    requires state { state.now ≡ after past.now }
    requires asked { IsNextFrame index.now.lines.now party.connection asked.now }
    ensures { IfOk result (λ o. option_map ending_of o ≡ told_as_of_of past.now party.connection party.session (frame_as asked.now.read) watches asked.now.own) }
{
    match asked.own {
        Some((place, update)) => told_of_own(alloc, index, past, watches, place, update),
        None => told_by_state(alloc, state, party, &asked.read, watches),
    }
}
