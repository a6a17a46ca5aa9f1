//! What is asked next.

ghost use Rattle.std.specs.Prelude.{◌≡◌, ◌++◌, ℤ, pos, ◌≤ℤ◌, IfOk};
ghost use Rattle.zn_view.specs.Asks.{transaction};
ghost use Rattle.zn_view.specs.Seen.{IsCountNumber};
ghost use Rattle.zs_close.specs.Reaping.{IsReadyToReap};
ghost use Rattle.zs_reap.specs.Steps.{AreFewOwned, Asks, ReaperEnds, IsReaperCounted, ReaperDecides, IsReaperPhase, LacksSome, ReaperLooksFirst, reaper_wants as wants_of_first};
ghost use Rattle.zs_reap.specs.declared.reap.Phase.TheVariants as phases;

use crate::reap::{Phase, ReapStep};
use ev_types::{Ask, TxnReq};
use std::alloc::Global;
use zn_view::{Plan, View, Want, head_wants, ranges, reading};
use zs_close::{Reaping, needs_reap, plan_reap};
use zx_base::{Memory, Seq};

/// What a step answers, and what is waited for then.
#[derive(Drop)]
pub(crate) struct Move {
    pub phase: Phase,
    pub step: ReapStep,
}

/// Nothing more is asked.
pub(crate) fn end(step: ReapStep) -> Move
    ensures { ReaperEnds step result.phase result.step }
{
    Move {
        phase: Phase::Over,
        step,
    }
}

/// The head, the record of the session's life, and the list of its nodes; of a number below 1 the head alone.
pub(crate) fn first_wants(alloc: Global, session: i64) -> Result<Seq<Want>, Memory>
    ensures { IfOk result (λ ws. ws ≡ wants_of_first session) }
{
    if session < 1 {
        return head_wants(alloc);
    }
    let nothing = View::empty(alloc);
    let wants = needs_reap(alloc, session, &nothing)?;
    Ok(wants)
}

/// Reads the keys of the first look, as they are now.
pub(crate) fn look(alloc: Global, session: i64) -> Result<Move, Memory>
    ensures asks { IfOk result (λ m. ReaperLooksFirst session m.phase m.step) }
    ensures held { IfOk result (λ m. (id : ℤ) → IsReaperPhase id m.phase) }
{
    let wants = first_wants(alloc, session)?;
    Ok(Move {
        phase: Phase::Looking,
        step: ReapStep::Ask(reading(alloc, 0, wants.as_slice())?),
    })
}

/// These wants, and others after them.
fn joined(wants: Seq<Want>, more: Seq<Want>) -> Result<Seq<Want>, Memory>
    ensures { IfOk result (λ ws. ws ≡ wants ++ more) }
{
    let mut all = wants.into_vec();
    let mut others = more.into_vec();
    all.append(&mut others)?;
    Ok(Seq::from_vec(all))
}

/// Reads at the view's revision what the view lacks, and before that the keys of the first look once more.
pub(crate) fn count(
    alloc: Global,
    session: i64,
    view: &View,
    lacking: Seq<Want>,
) -> Result<Move, Memory>
    requires real { pos 1 ≤ℤ session }
    requires revision { IsCountNumber view.now.revision }
    requires lacks { LacksSome session view.now lacking }
    ensures asks { IfOk result (λ m. IsReaperCounted session view.now m.phase m.step) }
    ensures held { IfOk result (λ m. IsReaperPhase session m.phase) }
{
    let first = first_wants(alloc, session)?;
    let wants = joined(first, lacking)?;
    let revision = view.revision();
    let ask = reading(alloc, revision, wants.as_slice())?;
    Ok(Move {
        phase: Phase::Counting { revision, wants },
        step: ReapStep::Ask(ask),
    })
}

/// Asks for the transaction of a plan.
fn remove(alloc: Global, plan: Plan) -> Result<Move, Memory>
    ensures { IfOk result (λ m. Asks (phases.Removing plan.again) (transaction plan) m.phase m.step) }
{
    let failure = ranges(alloc, 0, plan.again.as_slice())?;
    Ok(Move {
        phase: Phase::Removing { again: plan.again },
        step: ReapStep::Ask(Ask::Txn(TxnReq {
            guards: plan.guards,
            success: plan.success,
            failure,
        })),
    })
}

/// What becomes of the session, on a view that saw the record of its life or lacks nothing.
pub(crate) fn decided(alloc: Global, session: i64, view: &View) -> Result<Move, Memory>
    requires real { pos 1 ≤ℤ session }
    requires ready { IsReadyToReap session view.now }
    requires few { AreFewOwned session view.now }
    ensures asks { IfOk result (λ m. ReaperDecides session view.now m.phase m.step) }
    ensures held { IfOk result (λ m. IsReaperPhase session m.phase) }
{
    match plan_reap(alloc, session, view)? {
        Reaping::Planned(plan) => remove(alloc, plan),
        Reaping::Kept => Ok(end(ReapStep::Kept {
            rev: view.revision(),
        })),
        Reaping::Gone => Ok(end(ReapStep::Gone {
            rev: view.revision(),
        })),
        Reaping::TooMany => unreachable!(),
    }
}
