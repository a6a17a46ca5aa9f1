//! The next ask of a request, or its decision.

ghost use Rattle.std.specs.Prelude.{◌≤ℤ◌, pos, length, IfOk, ◌<◌, ◌^◌};
ghost use Rattle.zn_view.specs.Needs.{AreNeeds};
ghost use Rattle.zn_view.specs.declared.plan.Decision.TheVariants as decision;
ghost use Rattle.zp_step.specs.Looking.{Looks, decided};
ghost use Rattle.zp_step.specs.Replies.{Is};
ghost use Rattle.zp_core.specs.Held.{IsRequest};
ghost use Rattle.zp_core.specs.Meanings.{Leads, ready};

use crate::asks::{ask_for, ask_plan, lacking_of};
use crate::client::Client;
use crate::decisions::{carry, decide};
use crate::guesses::{Guess, guessed_plan};
use crate::keeping::keep_view;
use crate::moves::Move;
use crate::stage::Task;
use std::alloc::Global;
use std::collections::VecDeque;
use zn_view::Want;
use zx_base::Memory;

/// Asks for the plan that was made on a guess.
fn plan_on_guess(
    alloc: Global,
    client: &Client,
    mut task: Box<Task>,
    now: u64,
    guess: Guess,
) -> Result<Move, Memory>
    ensures { IfOk result (Leads (Is (decided (ready client.now) task.value.xid task.value.request guess.view now (decision.Planned guess.plan))) client.now) }
{
    task.view = guess.view;
    ask_plan(alloc, client, task, now, guess.plan)
}

/// Asks for what is lacking, or for a plan on a guess of it.
fn guess_or_ask(
    alloc: Global,
    client: &Client,
    task: Box<Task>,
    lacking: VecDeque<Want>,
    now: u64,
) -> Result<Move, Memory>
    requires request { IsRequest task.value.request }
    requires real { pos 1 ≤ℤ client.now.who.session }
    requires time { now < 2 ^ 62 }
    requires needs { AreNeeds task.value.request client.now.who task.value.view lacking.items }
    requires some { 0 < length lacking.items }
    ensures { IfOk result (Leads (Looks (ready client.now) task.value.xid task.value.request task.value.view now) client.now) }
{
    match guessed_plan(alloc, client.who, &task, &lacking, now)? {
        Some(guess) => plan_on_guess(alloc, client, task, now, guess),
        None => ask_for(alloc, client, task, lacking),
    }
}

/// Asks for what is still lacking, or decides.
pub(crate) fn look_by(
    alloc: Global,
    client: &mut Client,
    task: Box<Task>,
    lacking: VecDeque<Want>,
    now: u64,
) -> Result<Move, Memory>
    requires request { IsRequest task.value.request }
    requires real { pos 1 ≤ℤ client.old.who.session }
    requires time { now < 2 ^ 62 }
    requires needs { AreNeeds task.value.request client.old.who task.value.view lacking.items }
    ensures { IfOk result (Leads (Looks (ready client.old) task.value.xid task.value.request task.value.view now) client.new) }
{
    if lacking.len() > 0 {
        return guess_or_ask(alloc, client, task, lacking, now);
    }
    let who = client.who;
    keep_view(alloc, client, &task.request, &task.view)?;
    let decision = decide(alloc, &task.request, who, now, &task.view)?;
    carry(alloc, client, task, now, decision)
}

/// Finds out what is still lacking, and asks for it, or decides.
pub(crate) fn look(
    alloc: Global,
    client: &mut Client,
    task: Box<Task>,
    now: u64,
) -> Result<Move, Memory>
    requires request { IsRequest task.value.request }
    requires real { pos 1 ≤ℤ client.old.who.session }
    requires time { now < 2 ^ 62 }
    ensures { IfOk result (Leads (Looks (ready client.old) task.value.xid task.value.request task.value.view now) client.new) }
{
    let lacking = lacking_of(alloc, client.who, &task)?;
    look_by(alloc, client, task, lacking, now)
}
