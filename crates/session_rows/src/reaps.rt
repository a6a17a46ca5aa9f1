//! Reaps.

ghost use Rattle.std.specs.Prelude.{option_copied};
ghost use Rattle.zs_reap.specs.Steps.{MayStepReaper};

use crate::answers::answer_of;
use crate::waiting::Waiting;
use crate::words::{push_ask, push_damaged};
use ev_store::Store;
use ev_types::{Answer, Ask};
use row_files::{Words, push_number};
use std::alloc::Global;
use std::marker::Model;
use zs_reap::{ReapStep, Reaper};
use zs_session::StepFault;
use zx_base::Memory;

/// A reap that waits for the answer to an ask.
#[derive(Drop)]
pub struct BegunReap {
    reaper: Reaper,
    asked: Ask,
}

impl Model for BegunReap {
    ghost use Rattle.ev_types.specs.declared.ask.Ask.{Ask};
    ghost use Rattle.zs_reap.specs.declared.reap.Reap.{Reap};

    ghost Value = { Reap × Ask };

    ghost use Rattle.zs_reap.specs.Steps.{IsAsked, IsTxn};

    ghost view = { λ b. (b.reaper, b.asked) };

    ghost invariant = { λ b. IsAsked b.reaper.phase × IsTxn b.asked };
}

/// `SESSION`: adds what the first step says; none where the words are others
pub fn begin_reap(
    alloc: Global,
    text: &mut String,
    words: &mut Words,
) -> Result<Option<Waiting>, Memory> {
    let Some(session) = words.long() else {
        return Ok(None);
    };
    let reaper = Reaper::new(alloc, session);
    Ok(Some(stepped(alloc, text, reaper, None)?))
}

/// One step: adds what it says, and hands back the reap where it waits for an answer.
fn stepped(
    alloc: Global,
    text: &mut String,
    reaper: Reaper,
    answer: Option<&Answer>,
) -> Result<Waiting, Memory>
    requires { MayStepReaper reaper (option_copied answer) }
{
    let mut reaper = reaper;
    let made = reaper.step(answer);
    push_step(alloc, text, &made)?;
    match made {
        Ok(ReapStep::Ask(asked)) => Ok(Waiting::Reap(BegunReap { reaper, asked })),
        Ok(_end) => Ok(Waiting::Nothing),
        Err(_fault) => Ok(Waiting::Nothing),
    }
}

/// What a step says.
fn push_step(
    alloc: Global,
    text: &mut String,
    made: &Result<ReapStep, StepFault>,
) -> Result<(), Memory> {
    match made {
        Ok(ReapStep::Ask(ask)) => push_ask(alloc, text, ask),
        Ok(ReapStep::Reaped { zxid }) => push_number(alloc, text, "reaped ", *zxid),
        Ok(ReapStep::Kept { rev }) => push_number(alloc, text, "kept ", *rev),
        Ok(ReapStep::Gone { rev }) => push_number(alloc, text, "gone ", *rev),
        Err(StepFault::Damaged { key, value }) => push_damaged(
            alloc,
            text,
            key.as_slice(),
            value.as_slice(),
        ),
        Err(StepFault::Memory) => Err(Memory),
    }
}

impl BegunReap {
    /// Has what was asked carried out, and makes the next step: adds what it says, and hands back the reap where it waits again.
    pub fn go_on(
        self,
        alloc: Global,
        text: &mut String,
        store: &mut Store,
    ) -> Result<Waiting, Memory> {
        let BegunReap { reaper, asked } = self;
        match answer_of(alloc, text, store, &asked)? {
            Some(answer) => stepped(alloc, text, reaper, Some(&answer)),
            None => Ok(Waiting::Nothing),
        }
    }
}
