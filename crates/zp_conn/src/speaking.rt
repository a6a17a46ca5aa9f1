//! What a step says.

ghost use Rattle.std.specs.Prelude.{◌≡◌, true};
ghost use Rattle.zp_step.specs.Ending.{ends_well};
ghost use Rattle.zp_conn.specs.Speaking.{Says, Speaks};

use crate::outbox::Outbox;
use ev_types::Ask;
use std::collections::VecDeque;
use zk_service::Cause;
use zp_run::{Event, Trace};
use zp_step::Action;
use zx_base::{Bytes, Memory};

/// What is left of a step when its packets are held.
#[derive(Drop)]
pub(crate) enum Rest {
    Nothing,
    /// For etcd to carry out.
    Ask(Ask),
    /// The connection is shut.
    Close(Cause),
}

/// Notes a packet, and then holds it.
fn say<T: Trace>(outbox: &mut Outbox, trace: &mut T, packet: Bytes) -> Result<(), Memory>
    ensures { Says result packet outbox.old outbox.new (T.told trace.old) (T.told trace.new) }
{
    let event = Event::Out(packet);
    trace.note(&event)?;
    match event {
        Event::Out(packet) => outbox.hold(packet.as_slice()),
        Event::In(_input, _now) => unreachable!(),
    }
}

/// Holds the packets of a step, each noted before, and gives what is left of the step.
#[tactic(auto, using(crate::proofs::Packets::asks_last, crate::proofs::Packets::closes_last, crate::proofs::Packets::nothing_left, crate::proofs::Packets::cuts))]
pub(crate) fn speak<T: Trace>(
    outbox: &mut Outbox,
    trace: &mut T,
    actions: Vec<Action>,
) -> Result<Rest, Memory>
    requires { ends_well actions.items ≡ true }
    ensures { Speaks result actions.items outbox.old outbox.new (T.told trace.old) (T.told trace.new) }
{
    let mut queue = VecDeque::from(actions);
    'actions: while let Some(action) = queue.pop_front() {
        match action {
            Action::Send(packet) => say(outbox, trace, packet)?,
            Action::Ask(ask) => return Ok(Rest::Ask(ask)),
            Action::Close(why) => return Ok(Rest::Close(why)),
        }
    }
    Ok(Rest::Nothing)
}
