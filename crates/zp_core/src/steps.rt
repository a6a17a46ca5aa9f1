//! A connection as a state machine.

ghost use Rattle.std.specs.Prelude.{◌≡◌, ◌≤ℤ◌, pos, true, false, IfOk, OnErr, ◌<◌, ◌^◌};
ghost use Rattle.zp_step.specs.Stages.{is_shut, new_core, wants_of};
ghost use Rattle.zp_step.specs.Steps.{IsFit, MayTake, Steps, StepsOpen};
ghost use Rattle.zp_step.specs.Kinds.{kind_in_stage};
ghost use Rattle.zp_core.specs.Held.{IsHeld};
ghost use Rattle.zp_core.specs.Meanings.{Leads, core_of, stage_of};
ghost use Rattle.zw_watch.specs.Bits.{IsHeard};

use crate::client::Client;
use crate::inputs::{go_on, handle};
use crate::moves::Move;
use crate::stage::Stage;
use crate::updates::asked_in;
use std::alloc::Global;
use std::collections::VecDeque;
use std::marker::Model;
use zk_service::UpdateKind;
use zn_view::Who;
use zp_kept::KeptViews;
use zp_step::{Action, Fresh, Input, Wants};
use zw_watch::Armed;
use zx_base::{Memory, Seq};

/// A step of a connection that is open.
fn step_open(
    alloc: Global,
    client: &mut Client,
    stage: Stage,
    input: &Input,
    now: u64,
) -> Result<Move, Memory>
    requires held { IsHeld (core_of client.old (stage_of stage)) }
    requires opened { is_shut (stage_of stage) ≡ false }
    requires fit { IsFit (core_of client.old (stage_of stage)) input.now }
    requires time { now < 2 ^ 62 }
    ensures ok { IfOk result (Leads (StepsOpen (core_of client.old (stage_of stage)) input.now now) client.new) }
    ensures held { IfOk result (λ m. IsHeld (core_of client.new (stage_of m.stage))) }
{
    let handled = handle(alloc, client, stage, input, now)?;
    let mut stage = handled.stage;
    let mut actions = handled.actions.into_vec();
    go_on(alloc, client, &mut stage, &mut actions, now)?;
    Ok(Move {
        stage,
        actions: Seq::from_vec(actions),
    })
}

/// A connection: how far it has come, and what its client was told. Contracts see the core of `zp_step`.
#[derive(Drop)]
pub struct Core {
    stage: Stage,
    client: Client,
    alloc: Global,
}

impl Model for Core {
    ghost use Rattle.std.specs.Coded.{codes};
    ghost use Rattle.zp_step.specs.Stages as definition;
    ghost use Rattle.zk_model.specs.PathSets.{coded_watches};

    ghost Value = { definition.Core };

    ghost coded = { Prim.hlevel (codes, coded_watches) };

    ghost use Rattle.zp_core.specs.Meanings.{core_of, stage_of};
    ghost use Rattle.zp_core.specs.Held.{IsHeld};

    ghost view = { λ c. core_of c.client (stage_of c.stage) };

    ghost invariant = { λ c. IsHeld (core_of c.client (stage_of c.stage)) };
}

impl Core {
    /// A connection before its first frame. `fresh` is what a new session would be made with.
    pub fn new(alloc: Global, fresh: Fresh) -> Core
        requires { pos 1 ≤ℤ fresh.id }
        ensures { result ≡ new_core fresh }
    {
        Core {
            stage: Stage::Unconnected { fresh },
            client: Client {
                waiting: VecDeque::new(alloc),
                taken: 0,
                zxid: 0,
                cursor: 0,
                watches: Armed::new(alloc),
                who: Who {
                    session: 0,
                    mine: 0,
                },
                timeout: 0,
                kept: 0,
                next: 1,
                views: KeptViews::new(alloc),
            },
            alloc,
        }
    }

    /// What the connection waits for. An answer or an entry may be handed in only where this names it; a frame may come at any
    /// time.
    pub fn wants(&self) -> Wants
        ensures { result ≡ wants_of self.now }
    {
        let cursor = self.client.cursor;
        match &self.stage {
            Stage::Unconnected { .. } => Wants::Frame,
            Stage::Ready if self.client.watches.is_empty() => Wants::Frame,
            Stage::Ready => Wants::FrameOrEntry { cursor },
            Stage::Waiting(_) => Wants::Entry { cursor },
            Stage::Shut => Wants::Nothing,
            Stage::Connecting(_)
            | Stage::KeepingAlive { .. }
            | Stage::Checking { .. }
            | Stage::Reading(_)
            | Stage::Committing(_) => Wants::Answer,
        }
    }

    /// The bits of the entries that it waits for: all while a reply waits, and otherwise those of its watches.
    pub fn bits(&self) -> u64
        ensures { IsHeard self.now.watches result }
    {
        match &self.stage {
            Stage::Waiting(_) => u64::MAX,
            _ => self.client.watches.bits(),
        }
    }

    /// The update that the transaction which is out makes if it changes the head, as a transcript shows it in which this
    /// connection has the number `connection`. None where no transaction of an update is out.
    pub fn update_asked(&self, connection: u32) -> Option<UpdateKind>
        ensures asked { result ≡ kind_in_stage connection self.now self.now.stage }
        ensures held { IsHeld self.now }
    {
        asked_in(connection, &self.client, &self.stage)
    }

    /// Takes an input at the time `now`, and answers with what the connection does then. `now` is in milliseconds, since 1970 in
    /// a server: an update stores it as ctime and mtime. Without memory the connection is shut, and nothing is done.
    pub fn step(&mut self, input: &Input, now: u64) -> Result<Vec<Action>, Memory>
        requires may { MayTake self.old input.now }
        requires time { now < 2 ^ 62 }
        ensures ok { IfOk result (λ out. Steps self.old input.now now self.new out.items) }
        ensures shut { OnErr result (is_shut self.new.stage ≡ true) }
        ensures held { IsHeld self.new }
    {
        match std::mem::replace(&mut self.stage, Stage::Shut) {
            Stage::Shut => Ok(Vec::new(self.alloc)),
            stage => {
                let done = step_open(self.alloc, &mut self.client, stage, input, now)?;
                self.stage = done.stage;
                Ok(done.actions.into_vec())
            }
        }
    }
}
