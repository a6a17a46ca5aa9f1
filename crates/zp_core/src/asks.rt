//! What a request still has to look up, and the asks of a look and of a plan.

ghost use Rattle.std.specs.Prelude.{◌≡◌, ◌≤ℤ◌, pos, IfOk, take};
ghost use Rattle.ev_types.specs.declared.ask.Ask.TheVariants as asks;
ghost use Rattle.zn_view.specs.Asks.{transaction as transaction_of};
ghost use Rattle.zn_view.specs.Needs.{AreNeeds};
ghost use Rattle.zp_step.specs.Looking.{asks_for, decided, max_ranges};
ghost use Rattle.zp_step.specs.Replies.{Is};
ghost use Rattle.zp_core.specs.Meanings.{Leads, ready};
ghost use Rattle.zn_view.specs.declared.plan.Decision.TheVariants as decision;

use crate::client::Client;
use crate::copies::{copy_acts, copy_guards};
use crate::moves::{Move, only};
use crate::round::Round;
use crate::stage::{Commit, Stage, Task};
use ev_types::{Ask, TxnReq};
use std::alloc::Global;
use std::collections::VecDeque;
use zk_model::Request;
use zn_multi::needs_multi;
use zn_ops::needs as single_needs;
use zn_view::{Plan, View, Want, Who, ranges};
use zp_step::Action;
use zs_close::needs_close;
use zx_base::{Memory, Seq};

/// What a request still has to look up.
pub(crate) fn needs(
    alloc: Global,
    request: &Request,
    who: Who,
    view: &View,
) -> Result<Seq<Want>, Memory>
    requires real { pos 1 ≤ℤ who.session }
    ensures { IfOk result (AreNeeds request.now who view.now) }
{
    match request {
        Request::Close => needs_close(alloc, who, view),
        Request::Multi { parts } => needs_multi(alloc, parts.as_slice(), who, view),
        _ => single_needs(alloc, request, who, view),
    }
}

/// What a task still has to look up.
pub(crate) fn lacking_of(alloc: Global, who: Who, task: &Task) -> Result<VecDeque<Want>, Memory>
    requires { pos 1 ≤ℤ who.session }
    ensures { IfOk result (λ ws. AreNeeds task.now.request who task.now.view ws.items) }
{
    let lacking = needs(alloc, &task.request, who, &task.view)?;
    Ok(VecDeque::from(lacking.into_vec()))
}

/// Asks for the first of what is lacking, at the view's revision. The rest is kept.
pub(crate) fn ask_for(
    alloc: Global,
    client: &Client,
    task: Box<Task>,
    lacking: VecDeque<Want>,
) -> Result<Move, Memory>
    requires { AreNeeds task.value.request client.now.who task.value.view lacking.items }
    ensures { IfOk result (Leads (Is (asks_for (ready client.now) task.value.xid task.value.request task.value.view (take max_ranges lacking.items))) client.now) }
{
    let round = Round::begin(alloc, task, client.who, lacking)?;
    let actions = only(alloc, Action::Ask(round.ask(alloc)?))?;
    Ok(Move {
        stage: Stage::Reading(Box::new(alloc, round)?),
        actions,
    })
}

/// The transaction of a plan.
fn transaction(alloc: Global, plan: &Plan) -> Result<TxnReq, Memory>
    ensures { IfOk result (λ txn. asks.Txn txn ≡ transaction_of plan.now) }
{
    Ok(TxnReq {
        guards: copy_guards(alloc, plan.guards.as_slice())?,
        success: copy_acts(alloc, plan.success.as_slice())?,
        failure: ranges(alloc, 0, plan.again.as_slice())?,
    })
}

/// Asks for the transaction of a plan.
pub(crate) fn ask_plan(
    alloc: Global,
    client: &Client,
    task: Box<Task>,
    now: u64,
    plan: Plan,
) -> Result<Move, Memory>
    ensures { IfOk result (Leads (Is (decided (ready client.now) task.value.xid task.value.request task.value.view now (decision.Planned plan))) client.now) }
{
    let txn = transaction(alloc, &plan)?;
    let actions = only(alloc, Action::Ask(Ask::Txn(txn)))?;
    let commit = Commit {
        task,
        plan,
        time: now,
    };
    Ok(Move {
        stage: Stage::Committing(Box::new(alloc, commit)?),
        actions,
    })
}
