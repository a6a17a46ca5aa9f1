//! The steps of a connect.

ghost use Rattle.std.specs.Prelude.{◌≡◌, pos, ◌≤ℤ◌, option_copied, Some, IfOk, IfErr, OnErr};
ghost use Rattle.zs_session.specs.Connecting.{ConnectAnswers, IsConnectFault, IsFaultOfConnect, IsConnectHeld, IsConnectWaiting, MayStepConnect, ConnectMoves, ConnectSteps, asked_in_phase};
ghost use Rattle.zs_session.specs.Answering.{IsAwaited};
ghost use Rattle.zs_session.specs.declared.connect.Phase.TheVariants as phases;

use crate::answers::{attached_anew, created, kept_alive, looked, looked_again};
use crate::connect::{Connect, ConnectStep, Phase};
use crate::fault::StepFault;
use crate::moves::{Move, begin, create};
use ev_types::Answer;
use std::alloc::Global;
use std::marker::Model;
use zk_model::ConnectRequest;
use zk_service::Fresh;

/// What follows an answer.
fn answered(alloc: Global, connect: &Connect, answer: &Answer) -> Result<Move, StepFault>
    requires held { IsConnectHeld connect.now }
    requires going { connect.now.phase ≡ phases.Over → ⊥ }
    requires awaited { IsAwaited (asked_in_phase connect.now connect.now.phase) (Some answer.now) }
    ensures ok { IfOk result (λ m. ConnectAnswers connect.now connect.now.phase answer.now m.phase m.step) }
    ensures fault { IfErr result (IsFaultOfConnect connect.now connect.now.phase answer.now) }
{
    match connect.phase {
        Phase::Unasked | Phase::Over => unreachable!(),
        Phase::Looking => looked(alloc, connect, answer),
        Phase::Granting => Ok(create(alloc, connect)?),
        Phase::Creating => created(alloc, connect, answer),
        Phase::Keeping { seen, life } => kept_alive(alloc, connect, seen, life, answer),
        Phase::LookingAgain => looked_again(alloc, connect, answer),
        Phase::Attaching { seen, life } => attached_anew(alloc, connect, seen, life, answer),
    }
}

fn moved(alloc: Global, connect: &Connect, answer: Option<&Answer>) -> Result<Move, StepFault>
    requires held { IsConnectHeld connect.now }
    requires may { MayStepConnect connect.now (option_copied answer) }
    ensures ok { IfOk result (λ m. ConnectMoves connect.now (option_copied answer.entry) m.phase m.step) }
    ensures fault { IfErr result (IsConnectFault connect.now (option_copied answer.entry)) }
{
    match answer {
        None => Ok(begin(alloc, connect)?),
        Some(answer) => answered(alloc, connect, answer),
    }
}

/// A connect that gets its session, one ask a step.
#[derive(Drop)]
pub struct Connecting {
    connect: Connect,
    alloc: Global,
}

impl Model for Connecting {
    ghost use Rattle.zs_session.specs.declared.connect.Connect.{Connect};

    ghost Value = { Connect };

    ghost use Rattle.zs_session.specs.Connecting.{IsConnectHeld};

    ghost view = { λ c. c.connect };

    ghost invariant = { λ c. IsConnectHeld c.connect };
}

impl Connecting {
    /// A connect of which nothing was asked yet. The fresh number is at least 1; it and the password are those of a new
    /// session.
    pub fn new(alloc: Global, request: ConnectRequest, fresh: Fresh) -> Connecting
        requires { pos 1 ≤ℤ fresh.id }
        ensures { result ≡ record { request = request; fresh = fresh; phase = phases.Unasked } }
    {
        Connecting {
            connect: Connect {
                request,
                fresh,
                phase: Phase::Unasked,
            },
            alloc,
        }
    }

    /// The connect, and how far it has come.
    pub fn connect(&self) -> &Connect
        ensures { result.now ≡ self.now }
    {
        &self.connect
    }

    /// Makes the next step. The first takes no answer, each later one the answer to what was asked last; after a step that asked
    /// nothing there is none. At a fault the connect stays as it was, and `Memory` may be tried again with the same answer.
    /// `Damaged`: the answer shows, under a key that was looked up, a value that is no record. No step is made with such an answer.
    pub fn step(&mut self, answer: Option<&Answer>) -> Result<ConnectStep, StepFault>
        requires { MayStepConnect self.old (option_copied answer) }
        ensures ok { IfOk result (λ step. ConnectSteps self.old (option_copied answer.entry) step self.new) }
        ensures waits { IfOk result (λ step. IsConnectWaiting step self.new) }
        ensures err { OnErr result (self.new ≡ self.old) }
        ensures fault { IfErr result (IsConnectFault self.old (option_copied answer.entry)) }
        ensures held { IsConnectHeld self.new }
    {
        let moved = moved(self.alloc, &self.connect, answer)?;
        self.connect.phase = moved.phase;
        Ok(moved.step)
    }
}
