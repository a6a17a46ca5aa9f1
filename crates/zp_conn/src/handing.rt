//! Hands inputs to the connection's state machine.

ghost use Rattle.std.specs.Prelude.{◌≡◌, ◌<◌, ◌^◌, false};
ghost use Rattle.zp_step.specs.Stages.{is_shut};
ghost use Rattle.zp_step.specs.Steps.{MayTake};
ghost use Rattle.zp_conn.specs.Handing.{Hands, IsStepped};

use crate::outbox::Outbox;
use crate::speaking::{Rest, speak};
use zp_core::{Core, Input};
use zp_run::{Event, Trace};
use zp_step::steps_end_well;
use zx_base::Memory;

/// A step, with its packets noted and held.
fn stepped<T: Trace>(
    core: &mut Core,
    outbox: &mut Outbox,
    trace: &mut T,
    input: &Input,
    now: u64,
) -> Result<Rest, Memory>
    requires opened { is_shut core.old.stage ≡ false }
    requires may { MayTake core.old input.now }
    requires time { now < 2 ^ 62 }
    ensures { IsStepped result input.now now core.old core.new outbox.old outbox.new (T.told trace.old) (T.told trace.new) }
{
    let actions = core.step(input, now)?;
    // Proof only: the ask or the end of a step stands last.
    steps_end_well();
    speak(outbox, trace, actions)
}

/// Notes an input and hands it in, and notes and holds the packets of the step. Gives what is left of the step.
pub(crate) fn hand<T: Trace>(
    core: &mut Core,
    outbox: &mut Outbox,
    trace: &mut T,
    input: Input,
    now: u64,
) -> Result<Rest, Memory>
    requires opened { is_shut core.old.stage ≡ false }
    requires may { MayTake core.old input }
    requires time { now < 2 ^ 62 }
    ensures { Hands result input now core.old core.new outbox.old outbox.new (T.told trace.old) (T.told trace.new) }
{
    let event = Event::In(input, now);
    trace.note(&event)?;
    match event {
        Event::In(input, now) => stepped(core, outbox, trace, &input, now),
        Event::Out(_packet) => unreachable!(),
    }
}
