//! The replies of a connection: those that frames get without the tree, and the moments to try for the others.

ghost use Rattle.std.specs.Prelude.{◌≡◌, ◌||◌, ◌<◌, ◌≤◌, ◌∷◌, [], Some, None, bytes_eq, if◌then◌else◌, length, option_map, option_to_list, IfOk, IfSome};
ghost use Rattle.std.specs.Ordering.{int_eq};
ghost use Rattle.zk_jute.specs.Packets.{CanBeSent, reply_packet as reply_packet_of};
ghost use Rattle.zk_model.specs.Codes.{session_expired};
ghost use Rattle.zk_service.specs.Answers.{asks_of_watches as asks_of_watches_of, xid_of as xid_of_of};
ghost use Rattle.zk_transcript.specs.History.{state_at};
ghost use Rattle.zk_transcript.specs.Walks.{later_of as later_of_of, placed_frame as placed_frame_of};
ghost use Rattle.zk_least.specs.LeastMoments.{code_in as code_in_of, lapsed_from as lapsed_from_of, moments_to_try};
ghost use Rattle.zk_least.specs.LeastWalk.{given as given_of, is_answer, is_watch_answer, repeats as repeats_of, zxid_in as zxid_in_of};
ghost use Rattle.zk_judge.specs.Fronts.{IsTold};
ghost use Rattle.zk_judge.specs.Sent.{packets_in};
ghost use Rattle.zk_judge.specs.Seen.{frame_as, left_by, step_of, walker_of};
ghost use Rattle.zk_judge.specs.Waiting.{IsNotBefore, moments_at, moments_of, tried, tries_of};

use crate::frames::{FrameRead, asks_of_watches, frame_of, plain_reply, xid_of};
use crate::index::Index;
use crate::packets::{code_in, come_first, reply_packet, zxid_in};
use crate::places::lapsed_from;
use crate::sent::Packets;
use crate::steps::{answer_as_of, later_of};
use crate::walker::{Party, Step, Walker};
use std::alloc::Global;
use zk_history::State;
use zk_model::code::{NO_WATCHER, SESSION_EXPIRED};
use zk_model::{Body, Reply};
use zx_base::Memory;

/// Whether a packet is this reply to a frame, with whatever zxid.
fn is_reply(alloc: Global, frame: &FrameRead, answer: &Reply, packet: &[u8]) -> Result<bool, Memory>
    requires { CanBeSent answer.now }
    ensures { IfOk result (λ b. b ≡ bytes_eq packet.now (reply_packet_of (xid_of_of (frame_as frame.now)) (zxid_in_of packet.now) answer.now)) }
{
    let wanted = reply_packet(alloc, xid_of(frame), zxid_in(packet), answer)?;
    Ok(packet == wanted.as_slice())
}

/// Whether a packet is one of the replies that a checkWatches or removeWatches gets by what is armed, with whatever zxid.
#[tactic(auto, using(crate::proofs::WatchAnswers::unasked, crate::proofs::WatchAnswers::found, crate::proofs::WatchAnswers::missed))]
fn is_watch_reply(alloc: Global, frame: &FrameRead, packet: &[u8]) -> Result<bool, Memory>
    ensures { IfOk result (λ b. b ≡ is_watch_answer (frame_as frame.now) packet.now (asks_of_watches_of (frame_as frame.now))) }
{
    let asked = asks_of_watches(frame);
    if !asked {
        return Ok(false);
    }
    let found = is_reply(alloc, frame, &Reply::Good(Body::Empty), packet)?;
    if found {
        return Ok(true);
    }
    let missed = is_reply(alloc, frame, &Reply::Refused(NO_WATCHER), packet)?;
    Ok(missed)
}

/// Whether a packet is this reply to a frame, or one that such a frame gets by what is armed.
#[tactic(auto, using(crate::proofs::WatchAnswers::either_first, crate::proofs::WatchAnswers::either_last))]
fn is_either(
    alloc: Global,
    frame: &FrameRead,
    answer: &Reply,
    packet: &[u8],
) -> Result<bool, Memory>
    requires { CanBeSent answer.now }
    ensures { IfOk result (λ b. b ≡ (is_answer (frame_as frame.now) packet.now answer.now || is_watch_answer (frame_as frame.now) packet.now (asks_of_watches_of (frame_as frame.now)))) }
{
    let alike = is_reply(alloc, frame, answer, packet)?;
    if alike {
        return Ok(true);
    }
    let watched = is_watch_reply(alloc, frame, packet)?;
    Ok(watched)
}

/// Whether a reply is a frame's answer without the tree, with whatever zxid.
fn is_plain(alloc: Global, bytes: &[u8], reply: &[u8]) -> Result<bool, Memory>
    ensures { IfOk result (λ b. b ≡ repeats_of (Some (0, bytes.now)) reply.now) }
{
    let frame = frame_of(alloc, bytes)?;
    match plain_reply(alloc, &frame)? {
        Some(answer) => is_either(alloc, &frame, &answer, reply),
        None => Ok(false),
    }
}

/// Whether a reply is the next frame's answer without the tree, with whatever zxid.
pub fn repeats(
    alloc: Global,
    index: &Index,
    party: Party,
    walker: &Walker,
    reply: &[u8],
) -> Result<bool, Memory>
    ensures { IfOk result (λ b. b ≡ repeats_of (placed_frame_of party.connection walker.now.next index.now.lines.now) reply.now) }
{
    match index.placed_frame(party.connection, walker.next) {
        Some((_, bytes)) => is_plain(alloc, bytes, reply),
        None => Ok(false),
    }
}

/// The step, where the packets that are due with it come next.
pub fn given(step: Option<Step>, packets: Packets<'_>) -> Option<Step>
    ensures within { IfSome result (λ s. length s.due.items ≤ length (packets_in packets.entry)) }
    ensures step { option_map (left_by (packets_in packets.entry)) result ≡ given_of (packets_in packets.entry) (option_map step_of step) }
{
    match step {
        Some(step) => {
            if come_first(step.due.as_slice(), packets) {
                Some(step)
            } else {
                None
            }
        }
        None => None,
    }
}

/// The step that answers the next frame as of a moment, where the moment is after the frame's line and the packets come next;
/// `state` is the state at that moment.
pub fn allowed(
    alloc: Global,
    index: &Index,
    state: &State,
    party: Party,
    walker: Walker,
    packets: Packets<'_>,
    moment: usize,
) -> Result<Option<Step>, Memory>
    requires told { IsTold index.now.lines.now (walker_of walker) }
    requires state { state.now ≡ state_at index.now.lines.now moment }
    ensures within { IfOk result (λ o. IfSome o (λ s. length s.due.items ≤ length (packets_in packets.entry))) }
    ensures step { IfOk result (λ o. option_map (left_by (packets_in packets.entry)) o ≡ tried index.now.lines.now party.connection party.session (walker_of walker) (packets_in packets.entry) moment) }
{
    match index.placed_frame(party.connection, walker.next) {
        Some((place, _)) => {
            if place < moment {
                let step = answer_as_of(alloc, index, state, party, walker, moment)?;
                Ok(given(step, packets))
            } else {
                Ok(None)
            }
        }
        None => Ok(None),
    }
}

/// The second moment to try for a reply, where it says that the session has expired: right after the session's lapse.
fn second_moment(
    index: &Index,
    party: Party,
    first: usize,
    update: usize,
    reply: &[u8],
) -> Option<usize>
    ensures rises { IsNotBefore first result }
    ensures tries { option_to_list result ≡ (if int_eq (code_in_of reply.now) session_expired then later_of_of first (lapsed_from_of party.session update index.now.lines.now) ∷ [] else []) }
{
    if code_in(reply) == SESSION_EXPIRED {
        Some(later_of(first, lapsed_from(index.lines, party.session, update)))
    } else {
        None
    }
}

/// The first moment to try for a reply to the frame at a place, and the second, where its request has no update of its own.
fn open_moments(
    index: &Index,
    party: Party,
    walker: &Walker,
    reply: &[u8],
    place: usize,
) -> (usize, Option<usize>)
    requires { place < length index.now.lines.now }
    ensures tries { (result.0 ∷ option_to_list result.1) ≡ moments_to_try index.now.lines.now party.session (walker_of walker.now) place reply.now None }
    ensures rises { IsNotBefore result.0 result.1 }
{
    let update = index.after_update(zxid_in(reply));
    let first = later_of(later_of(walker.moment, place + 1), update);
    (first, second_moment(index, party, first, update, reply))
}

/// The first moment to try for a reply to the frame at a place, and the second.
fn frame_moments(
    index: &Index,
    party: Party,
    walker: &Walker,
    reply: &[u8],
    place: usize,
) -> (usize, Option<usize>)
    requires { place < length index.now.lines.now }
    ensures tries { (result.0 ∷ option_to_list result.1) ≡ moments_at index.now.lines.now party (walker_of walker.now) place reply.now }
    ensures rises { IsNotBefore result.0 result.1 }
{
    match index.own_update(party.connection, walker.next) {
        Some((own, _)) => (own + 1, None),
        None => open_moments(index, party, walker, reply, place),
    }
}

/// The first moment to try for a reply to the next frame, and the second.
pub fn moments(
    index: &Index,
    party: Party,
    walker: &Walker,
    reply: &[u8],
) -> Option<(usize, Option<usize>)>
    ensures tries { tries_of result ≡ moments_of index.now.lines.now party (walker_of walker.now) reply.now }
    ensures rises { IfSome result (λ t. IsNotBefore t.0 t.1) }
{
    match index.placed_frame(party.connection, walker.next) {
        Some((place, _)) => Some(frame_moments(index, party, walker, reply, place)),
        None => None,
    }
}
