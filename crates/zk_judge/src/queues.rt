//! The updates that a client is told of before a reply that its frame gets without the tree.

ghost use Rattle.std.specs.Prelude.{◌≡◌, ◌<◌, ◌≤◌, Some, length, option_map, IfOk, IfSome};
ghost use Rattle.zk_least.specs.LeastQueues.{told_through as told_through_of, told_up_to as told_up_to_of};
ghost use Rattle.zk_least.specs.LeastWalk.{zxid_in as zxid_in_of};
ghost use Rattle.zk_judge.specs.Fronts.{IsTold};
ghost use Rattle.zk_judge.specs.Sent.{packets_in};
ghost use Rattle.zk_judge.specs.Seen.{left_by, plainly_given, step_of, taken_by, then_answered, walker_of};

use crate::firing::{fire_above, then_fire};
use crate::index::Index;
use crate::packets::zxid_in;
use crate::sent::Packets;
use crate::steps::answer_plainly;
use crate::walker::{Party, Step, Walker};
use crate::walks::given;
use std::alloc::Global;
use zx_base::Memory;

/// The step that tells a client all updates up to the one at `place`, where something is still armed before that one.
fn told_through(
    alloc: Global,
    index: &Index,
    walker: Walker,
    place: usize,
    zxid: i64,
) -> Result<Option<Step>, Memory>
    requires told { IsTold index.now.lines.now (walker_of walker) }
    requires place { place < length index.now.lines.now }
    ensures { IfOk result (λ o. option_map step_of o ≡ told_through_of index.now.lines.now (walker_of walker) (Some (place, zxid))) }
{
    let told = walker.zxid;
    let next = walker.next;
    let moment = walker.moment;
    let is_over = walker.is_over;
    let before = fire_above(alloc, index, &index.lines[..place], walker)?;
    if before.watches.is_unarmed() {
        return Ok(None);
    }
    let fired = then_fire(alloc, index, place, told, before)?;
    Ok(Some(Step {
        walker: Walker {
            zxid,
            since: place + 1,
            watches: fired.watches,
            next,
            moment,
            is_over,
        },
        due: fired.due,
    }))
}

/// The step that tells a client all updates up to the zxid of a reply; one without packets, where it has been told of that zxid.
fn told_up_to(
    alloc: Global,
    index: &Index,
    walker: Walker,
    reply: &[u8],
) -> Result<Option<Step>, Memory>
    requires told { IsTold index.now.lines.now (walker_of walker) }
    ensures { IfOk result (λ o. option_map step_of o ≡ told_up_to_of index.now.lines.now (walker_of walker) (zxid_in_of reply.now)) }
{
    let zxid = zxid_in(reply);
    if zxid <= walker.zxid {
        return Ok(Some(Step {
            walker,
            due: Vec::new(alloc),
        }));
    }
    match index.update_place(zxid) {
        Some(place) => told_through(alloc, index, walker, place, zxid),
        None => Ok(None),
    }
}

/// How far a connection has come, and how many packets brought it there.
#[derive(Drop)]
pub struct Taken {
    pub walker: Walker,
    pub count: usize,
}

/// The next frame's answer without the tree, where it comes next after what the client was told.
fn answered_plainly(
    alloc: Global,
    index: &Index,
    party: Party,
    told: Step,
    packets: Packets<'_>,
) -> Result<Option<Taken>, Memory>
    requires within { length told.due.items ≤ length (packets_in packets) }
    ensures within { IfOk result (λ o. IfSome o (λ t. t.count ≤ length (packets_in packets.entry))) }
    ensures taken { IfOk result (λ o. option_map (taken_by (packets_in packets.entry)) o ≡ then_answered index.now.lines.now party (Some (left_by (packets_in packets.entry) told))) }
{
    let count = told.due.len();
    let answer = answer_plainly(alloc, index, party, told.walker)?;
    match given(answer, packets.rest_after(count)) {
        Some(step) => Ok(Some(Taken {
            count: count + step.due.len(),
            walker: step.walker,
        })),
        None => Ok(None),
    }
}

/// The next reply, which its frame gets without the tree, after what is told before it.
pub fn plain_reply_given(
    alloc: Global,
    index: &Index,
    party: Party,
    walker: Walker,
    packets: Packets<'_>,
    reply: &[u8],
) -> Result<Option<Taken>, Memory>
    requires told { IsTold index.now.lines.now (walker_of walker) }
    ensures within { IfOk result (λ o. IfSome o (λ t. t.count ≤ length (packets_in packets.entry))) }
    ensures taken { IfOk result (λ o. option_map (taken_by (packets_in packets.entry)) o ≡ plainly_given index.now.lines.now party (walker_of walker) (packets_in packets.entry) reply.now) }
{
    let told = told_up_to(alloc, index, walker, reply)?;
    match given(told, packets) {
        Some(told) => answered_plainly(alloc, index, party, told, packets),
        None => Ok(None),
    }
}
