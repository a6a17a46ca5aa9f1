//! The steps of a reap.

ghost use Rattle.std.specs.Prelude.{◌≡◌, option_copied, Some, IfOk, IfErr, OnErr};
ghost use Rattle.zs_session.specs.Answering.{IsTxnAnswer};
ghost use Rattle.zs_reap.specs.Steps.{Answered, IsAsked, IsFaultOfReaper, IsReaperHeld, IsReaperPhase, IsReapFault, IsReaperWaiting, MayStepReaper, ReaperMoves, ReaperSteps};
ghost use Rattle.zs_reap.specs.declared.reap.Phase.TheVariants as phases;

use crate::looks::{looked, looked_again};
use crate::moves::{Move, end, look};
use crate::reap::{Phase, Reap, ReapStep};
use ev_types::{ActAns, Answer};
use std::alloc::Global;
use std::marker::Model;
use zs_session::StepFault;

/// What follows the answer of a transaction.
fn answered(
    alloc: Global,
    reap: &Reap,
    revision: i64,
    succeeded: bool,
    parts: &[ActAns],
) -> Result<Move, StepFault>
    requires held { IsReaperHeld reap.now }
    requires asked { IsAsked reap.now.phase }
    requires answer { IsTxnAnswer revision parts.now }
    ensures ok { IfOk result (λ m. Answered reap.now.session reap.now.phase revision succeeded parts.now m.phase m.step) }
    ensures held { IfOk result (λ m. IsReaperPhase reap.now.session m.phase) }
    ensures fault { IfErr result (IsFaultOfReaper reap.now.session reap.now.phase revision succeeded parts.now) }
{
    match &reap.phase {
        Phase::Unasked | Phase::Over => unreachable!(),
        Phase::Looking => looked(alloc, reap.session, revision, parts),
        Phase::Counting {
            revision: first,
            wants,
        } => looked_again(alloc, reap.session, wants.as_slice(), *first, parts),
        Phase::Removing { again } if !succeeded => {
            looked_again(alloc, reap.session, again.as_slice(), revision, parts)
        }
        Phase::Removing { .. } => Ok(end(ReapStep::Reaped { zxid: revision })),
    }
}

fn moved(alloc: Global, reap: &Reap, answer: Option<&Answer>) -> Result<Move, StepFault>
    requires held { IsReaperHeld reap.now }
    requires may { MayStepReaper reap.now (option_copied answer) }
    ensures ok { IfOk result (λ m. ReaperMoves reap.now (option_copied answer.entry) m.phase m.step) }
    ensures held { IfOk result (λ m. IsReaperPhase reap.now.session m.phase) }
    ensures fault { IfErr result (IsReapFault reap.now (option_copied answer.entry)) }
{
    match answer {
        None => Ok(look(alloc, reap.session)?),
        Some(
            Answer::Txn {
                revision,
                succeeded,
                parts,
            },
        ) => answered(alloc, reap, *revision, *succeeded, parts.as_slice()),
        Some(Answer::Range { .. } | Answer::Granted { .. } | Answer::Alive { .. }) => {
            unreachable!()
        }
    }
}

/// The end of a session that has lapsed, one ask a step.
#[derive(Drop)]
pub struct Reaper {
    reap: Reap,
    alloc: Global,
}

impl Model for Reaper {
    ghost use Rattle.zs_reap.specs.declared.reap.Reap.{Reap};

    ghost Value = { Reap };

    ghost use Rattle.zs_reap.specs.Steps.{IsReaperHeld};

    ghost view = { λ r. r.reap };

    ghost invariant = { λ r. IsReaperHeld r.reap };
}

impl Reaper {
    /// A reaper of the session of this number. Nothing was asked yet. No session has a number below 1: of one, the reaper looks at
    /// the head and says that it is gone.
    pub fn new(alloc: Global, session: i64) -> Reaper
        ensures { result ≡ record { session = session; phase = phases.Unasked } }
    {
        Reaper {
            reap: Reap {
                session,
                phase: Phase::Unasked,
            },
            alloc,
        }
    }

    /// The session, and how far its end has come.
    pub fn reap(&self) -> &Reap
        ensures { result.now ≡ self.now }
    {
        &self.reap
    }

    /// Makes the next step. The first takes no answer, each later one the answer to what was asked last; after a step that asked
    /// nothing there is none. At a fault the reaper stays as it was, and `Memory` may be tried again with the same answer.
    /// `Damaged`: the answer shows, under a key that was looked up, a value that is no record; or, where all are records, a list of
    /// more nodes than a session may own, which no sound state has. No step is made with such an answer.
    pub fn step(&mut self, answer: Option<&Answer>) -> Result<ReapStep, StepFault>
        requires { MayStepReaper self.old (option_copied answer) }
        ensures ok { IfOk result (λ step. ReaperSteps self.old (option_copied answer.entry) step self.new) }
        ensures waits { IfOk result (λ step. IsReaperWaiting step self.new.phase) }
        ensures err { OnErr result (self.new ≡ self.old) }
        ensures fault { IfErr result (IsReapFault self.old (option_copied answer.entry)) }
        ensures held { IsReaperHeld self.new }
    {
        let moved = moved(self.alloc, &self.reap, answer)?;
        self.reap.phase = moved.phase;
        Ok(moved.step)
    }
}
