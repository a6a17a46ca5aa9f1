//! What is asked next.

ghost use Rattle.std.specs.Prelude.{◌≡◌, pos, ◌≤ℤ◌, IfOk};
ghost use Rattle.zs_session.specs.Connecting.{Waits, ConnectEnds, IsResumable};
ghost use Rattle.zs_session.specs.declared.connect.Phase.TheVariants as phases;

use crate::asks::{attach_wants, first_wants, granted_timeout, lease_seconds};
use crate::connect::{Connect, ConnectStep, Phase};
use crate::txns::{attach_txn, new_session_txn};
use ev_types::Ask;
use std::alloc::Global;
use zn_layout::LeaseRec;
use zn_view::reading;
use zx_base::Memory;

/// What a step answers, and what is waited for then.
#[derive(Drop)]
pub(crate) struct Move {
    pub phase: Phase,
    pub step: ConnectStep,
}

fn ask(phase: Phase, ask: Ask) -> Move
    ensures { result ≡ record { phase = phase; step = ConnectStep.Ask ask } }
{
    Move {
        phase,
        step: ConnectStep::Ask(ask),
    }
}

/// Nothing more is asked.
pub(crate) fn end(step: ConnectStep) -> Move
    ensures { ConnectEnds step result.phase result.step }
{
    Move {
        phase: Phase::Over,
        step,
    }
}

/// Reads the head, and the life of the session that is to be resumed.
pub(crate) fn begin(alloc: Global, connect: &Connect) -> Result<Move, Memory>
    ensures { IfOk result (λ m. Waits connect.now phases.Looking m.phase m.step) }
{
    let wants = first_wants(alloc, &connect.request)?;
    Ok(ask(Phase::Looking, reading(alloc, 0, wants.as_slice())?))
}

/// Asks for the lease of the new session.
pub(crate) fn grant(connect: &Connect) -> Move
    ensures { Waits connect.now phases.Granting result.phase result.step }
{
    let timeout = granted_timeout(connect.request.timeout);
    ask(
        Phase::Granting,
        Ask::Grant {
            id: connect.fresh.id,
            ttl: lease_seconds(timeout),
        },
    )
}

/// Asks for the transaction of the new session.
pub(crate) fn create(alloc: Global, connect: &Connect) -> Result<Move, Memory>
    requires { pos 1 ≤ℤ connect.now.fresh.id }
    ensures { IfOk result (λ m. Waits connect.now phases.Creating m.phase m.step) }
{
    let timeout = granted_timeout(connect.request.timeout);
    let txn = new_session_txn(alloc, &connect.fresh, timeout)?;
    Ok(ask(Phase::Creating, Ask::Txn(txn)))
}

/// Asks for a keepalive of the session that is to be resumed.
pub(crate) fn keep(connect: &Connect, seen: i64, life: LeaseRec) -> Move
    ensures { Waits connect.now (phases.Keeping seen life) result.phase result.step }
{
    ask(
        Phase::Keeping { seen, life },
        Ask::Alive {
            id: connect.request.session,
        },
    )
}

/// Reads the life of the session again, and the head.
pub(crate) fn look_again(alloc: Global, connect: &Connect) -> Result<Move, Memory>
    requires { pos 1 ≤ℤ connect.now.request.session }
    ensures { IfOk result (λ m. Waits connect.now phases.LookingAgain m.phase m.step) }
{
    let wants = attach_wants(alloc, connect.request.session)?;
    Ok(ask(Phase::LookingAgain, reading(alloc, 0, wants.as_slice())?))
}

/// Asks for the transaction that attaches the session, whose life was seen as `life`, last put at revision `seen`.
pub(crate) fn attach(
    alloc: Global,
    connect: &Connect,
    seen: i64,
    life: LeaseRec,
) -> Result<Move, Memory>
    requires { IsResumable connect.now.request life }
    ensures { IfOk result (λ m. Waits connect.now (phases.Attaching seen life) m.phase m.step) }
{
    let txn = attach_txn(alloc, connect.request.session, seen, &life)?;
    Ok(ask(Phase::Attaching { seen, life }, Ask::Txn(txn)))
}
