//! The steps of a connection's walk that answer a frame.

ghost use Rattle.std.specs.Prelude.{◌≡◌, ◌&&◌, ◌+◌, ◌<◌, ◌++◌, ◌∷◌, ◌^◌, [], Some, option_map, IfOk};
ghost use Rattle.zk_service.specs.Answers.{only, xid_of as xid_of_of, has_header as has_header_of, is_auth_refusal as is_auth_refusal_of};
ghost use Rattle.zk_transcript.specs.History.{after, state_at};
ghost use Rattle.zk_transcript.specs.Walks.{Answer, Plain, after_update as after_update_of, answer_plainly as answer_plainly_of, due_notices, later_of as later_of_of, may_answer_at, move, plain_answer as plain_answer_of, reply_step as reply_step_of};
ghost use Rattle.zk_judge.specs.Fronts.{IsFront, IsTold};
ghost use Rattle.std.specs.List.{All};
ghost use Rattle.zk_jute.specs.Packets.{CanBeSent, NoticeCanBeSent};
ghost use Rattle.zk_judge.specs.NextFrames.{IsNextFrame, answered_after, answered_as_of, before_frame};
ghost use Rattle.zk_judge.specs.Sendable.{CanBeTold};
ghost use Rattle.zk_judge.specs.Seen.{ending_of, frame_as, step_of, walker_of};
ghost use Rattle.zk_answers.specs.Outcomes.{told_of};

use crate::answers::{Ending, told_as_of};
use crate::firing::fire_above;
use crate::frames::{FrameRead, frame_of, has_header, plain_said, xid_of};
use crate::index::Index;
use crate::next_frame::NextFrame;
use crate::packets::{Due, add_notices, reply_packet};
use crate::walker::{Fired, Party, Step, Walker};
use std::alloc::Global;
use zk_answers::Told;
use zk_history::State;
use zk_model::code::AUTH_FAILED;
use zk_model::{Notice, Reply};
use zk_transcript::TranscriptLine;
use zx_base::{Bytes, Memory};

fn is_auth_refusal(answer: &Reply) -> bool
    ensures { result ≡ is_auth_refusal_of answer.now }
{
    match answer {
        Reply::Refused(code) => *code == AUTH_FAILED,
        Reply::Good(_) => false,
    }
}

/// The later of two places or moments.
pub fn later_of(first: usize, second: usize) -> usize
    ensures { result ≡ later_of_of first second }
{
    if first <= second { second } else { first }
}

/// An answer to a frame without the tree, due from a place on.
fn plain_answer(
    alloc: Global,
    walker: Walker,
    place: usize,
    frame: &FrameRead,
    answer: Reply,
) -> Result<Step, Memory>
    requires sent { CanBeSent answer }
    requires next { walker.next + 1 < 2 ^ 64 }
    ensures { IfOk result (λ s. Some (step_of s) ≡ plain_answer_of (walker_of walker) place (xid_of_of (frame_as frame.now)) (Some (only walker.watches answer))) }
{
    let mut due = Vec::new(alloc);
    due.push((
        place,
        reply_packet(alloc, xid_of(frame), walker.zxid, &answer)?,
    ))?;
    Ok(Step {
        walker: Walker {
            zxid: walker.zxid,
            since: walker.since,
            watches: walker.watches,
            next: walker.next + 1,
            moment: walker.moment,
            is_over: is_auth_refusal(&answer),
        },
        due,
    })
}

/// The step that answers a frame without the tree.
fn answer_frame_plainly(
    alloc: Global,
    walker: Walker,
    place: usize,
    bytes: &[u8],
) -> Result<Option<Step>, Memory>
    requires place { place + 1 < 2 ^ 64 }
    requires next { walker.next + 1 < 2 ^ 64 }
    ensures { IfOk result (λ o. option_map step_of o ≡ answer_plainly_of (walker_of walker) (Some (place, bytes.now))) }
{
    let frame = frame_of(alloc, bytes)?;
    let Walker {
        zxid,
        since,
        watches,
        next,
        moment,
        is_over,
    } = walker;
    match plain_said(alloc, &frame, watches)? {
        Some(said) => {
            let first = later_of(since, place + 1);
            let walker = Walker {
                zxid,
                since,
                watches: said.watches,
                next,
                moment,
                is_over,
            };
            Ok(Some(plain_answer(alloc, walker, first, &frame, said.reply)?))
        }
        None => Ok(None),
    }
}

/// The step that answers the next frame without the tree; the reply repeats the walker's zxid.
pub fn answer_plainly(
    alloc: Global,
    index: &Index,
    party: Party,
    walker: Walker,
) -> Result<Option<Step>, Memory>
    ensures { IfOk result (λ o. option_map step_of o ≡ move index.now.lines.now party.connection party.session (walker_of walker) Plain) }
{
    if walker.is_over {
        return Ok(None);
    }
    match index.placed_frame(party.connection, walker.next) {
        Some((place, bytes)) => answer_frame_plainly(alloc, walker, place, bytes),
        None => Ok(None),
    }
}

/// What is due with an answer as of a moment to the frame at `place`: what fired, the notices of the answer, which are due from
/// place `since` on, and the reply, due from `moment` on. The notices and the reply are due after the frame.
fn reply_due(
    alloc: Global,
    fired: Vec<Due>,
    since: usize,
    moment: usize,
    place: usize,
    notices: &[Notice],
    packet: Bytes,
) -> Result<Vec<Due>, Memory>
    requires sendable { All NoticeCanBeSent notices.now }
    requires place { place + 1 < 2 ^ 64 }
    ensures { IfOk result (λ v. v.items ≡ fired.items ++ due_notices (later_of_of since (place + 1)) notices.now ++ ((later_of_of moment (place + 1), packet) ∷ [])) }
{
    let mut due = fired;
    add_notices(alloc, &mut due, later_of(since, place + 1), notices)?;
    due.push((later_of(moment, place + 1), packet))?;
    Ok(due)
}

/// The moment right after the update with a zxid among these first lines, or 0 where there is none.
fn since_of(index: &Index, past: &[TranscriptLine], zxid: i64) -> usize
    requires { IsFront past.now index.now.lines.now }
    ensures { result ≡ after_update_of zxid past.now }
{
    match index.update_place(zxid) {
        Some(place) if place < past.len() => place + 1,
        _ => 0,
    }
}

/// The step that answers a frame as of the moment after the lines `past`, which lead to a state with this zxid.
fn reply_step(
    alloc: Global,
    index: &Index,
    past: &[TranscriptLine],
    zxid: i64,
    asked: &NextFrame,
    fired: Vec<Due>,
    ending: Ending,
) -> Result<Step, Memory>
    requires told { CanBeTold (told_of ending.told) }
    requires front { IsFront past.now index.now.lines.now }
    requires zxid { zxid ≡ (after past.now).zxid }
    requires place { asked.now.place + 1 < 2 ^ 64 }
    requires next { asked.now.index + 1 < 2 ^ 64 }
    ensures { IfOk result (λ s. step_of s ≡ reply_step_of past.now (before_frame asked.now.index) asked.now.place (xid_of_of (frame_as asked.now.read)) fired.items (ending_of ending)) }
{
    let Ending { told, is_over } = ending;
    let Told {
        reply: answer,
        notices,
        watches,
    } = told;
    let since = since_of(index, past, zxid);
    let packet = reply_packet(alloc, xid_of(&asked.read), zxid, &answer)?;
    let due = reply_due(
        alloc,
        fired,
        since,
        past.len(),
        asked.place,
        notices.as_slice(),
        packet,
    )?;
    Ok(Step {
        walker: Walker {
            zxid,
            since,
            watches,
            next: asked.index + 1,
            moment: past.len(),
            is_over,
        },
        due,
    })
}

/// Whether a frame may be answered as of the moment after the lines `past`, which lead to `state`.
fn may_answer(past: &[TranscriptLine], state: &State, walker: &Walker, frame: &FrameRead) -> bool
    requires { state.now ≡ after past.now }
    ensures { result ≡ (may_answer_at past.now (walker_of walker.now) && has_header_of (frame_as frame.now)) }
{
    walker.moment <= past.len() && walker.zxid <= state.zxid() && has_header(frame)
}

/// The step that answers a frame after what fired, as of the moment after the lines `past`, which lead to `state`. The frame may
/// be answered then.
fn answer_fired(
    alloc: Global,
    index: &Index,
    past: &[TranscriptLine],
    state: &State,
    party: Party,
    asked: &NextFrame,
    fired: Fired,
) -> Result<Option<Step>, Memory>
    requires front { IsFront past.now index.now.lines.now }
    requires state { state.now ≡ after past.now }
    requires asked { IsNextFrame index.now.lines.now party.connection asked.now }
    ensures { IfOk result (λ o. option_map step_of o ≡ answered_after past.now party asked.now fired) }
{
    let Fired { watches, due } = fired;
    match told_as_of(alloc, index, past, state, party, asked, watches)? {
        Some(ending) => {
            let step = reply_step(alloc, index, past, state.zxid(), asked, due, ending)?;
            Ok(Some(step))
        }
        None => Ok(None),
    }
}

/// The step that answers a frame as of the moment after the lines `past`, which lead to `state`, where it may be answered then:
/// after what the updates above the walker's zxid fire.
fn answer_asked(
    alloc: Global,
    index: &Index,
    past: &[TranscriptLine],
    state: &State,
    party: Party,
    asked: &NextFrame,
    walker: Walker,
) -> Result<Option<Step>, Memory>
    requires told { IsTold index.now.lines.now (walker_of walker) }
    requires front { IsFront past.now index.now.lines.now }
    requires state { state.now ≡ after past.now }
    requires asked { IsNextFrame index.now.lines.now party.connection asked.now }
    requires next { asked.now.index ≡ walker.next }
    ensures { IfOk result (λ o. option_map step_of o ≡ answered_as_of index.now.lines.now past.now party (walker_of walker) asked.now.own) }
{
    if !may_answer(past, state, &walker, &asked.read) {
        return Ok(None);
    }
    let fired = fire_above(alloc, index, past, walker)?;
    answer_fired(alloc, index, past, state, party, asked, fired)
}

/// The step that answers the next frame as of a moment; `state` is the state at that moment.
pub fn answer_as_of(
    alloc: Global,
    index: &Index,
    state: &State,
    party: Party,
    walker: Walker,
    moment: usize,
) -> Result<Option<Step>, Memory>
    requires told { IsTold index.now.lines.now (walker_of walker) }
    requires state { state.now ≡ state_at index.now.lines.now moment }
    ensures { IfOk result (λ o. option_map step_of o ≡ move index.now.lines.now party.connection party.session (walker_of walker) (Answer moment)) }
{
    if walker.is_over {
        return Ok(None);
    }
    if index.lines.len() < moment {
        return Ok(None);
    }
    match NextFrame::of(alloc, index, party.connection, walker.next)? {
        Some(asked) => answer_asked(
            alloc,
            index,
            &index.lines[..moment],
            state,
            party,
            &asked,
            walker,
        ),
        None => Ok(None),
    }
}
