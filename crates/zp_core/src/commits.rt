//! What follows the answer to a plan's transaction.

ghost use Rattle.std.specs.Prelude.{◌≡◌, ◌≤ℤ◌, pos, false, IfOk, ◌<◌, ◌^◌};
ghost use Rattle.zn_view.specs.Adding.{AreNumbers};
ghost use Rattle.zn_view.specs.Seen.{IsCountNumber};
ghost use Rattle.zn_view.specs.Asks.{transaction};
ghost use Rattle.zs_session.specs.Answering.{IsAnswerTo};
ghost use Rattle.zp_step.specs.Plans.{end_after as end_of, finishes};
ghost use Rattle.zp_core.specs.Handling.{CommitIsAnswered, CommitIsMade, CommitIsTried};
ghost use Rattle.zp_core.specs.Held.{IsRequest};
ghost use Rattle.zp_core.specs.Meanings.{Leads, pending_of, ready};

use crate::client::Client;
use crate::keeping::leave;
use crate::looks::look;
use crate::moves::{Move, close};
use crate::replies::reply_in_turn;
use crate::stage::{Commit, Pending, Task, WatchChange};
use ev_types::{ActAns, Answer};
use std::alloc::Global;
use zk_model::Request;
use zk_service::Cause;
use zn_ops::finish;
use zn_view::View;
use zs_session::{StepFault, look as look_at, number_in};
use zx_base::Memory;

/// After a closeSession the connection is closed.
fn end_after(request: &Request) -> Option<Cause>
    ensures { result ≡ end_of request.now }
{
    match request {
        Request::Close => Some(Cause::Closed),
        _ => None,
    }
}

/// The reply to an update that was made at this revision, which is its zxid.
fn finished(
    alloc: Global,
    commit: Box<Commit>,
    revision: i64,
    parts: &[ActAns],
) -> Result<Pending, Memory>
    ensures { IfOk result (λ p. pending_of p ≡ finishes commit.value.task.value.xid commit.value.task.value.request commit.value.plan revision parts.now) }
{
    let number = number_in(parts);
    let xid = commit.task.xid;
    let ends = end_after(&commit.task.request);
    let answer = finish(alloc, Box::into_inner(commit).plan, revision)?;
    Ok(Pending {
        number,
        zxid: revision,
        xid,
        answer,
        change: WatchChange::Adds(None),
        ends,
    })
}

/// The update was made at this revision, which is its zxid: what it leaves of the view is kept, and its reply is sent, or waits.
fn done(
    alloc: Global,
    client: &mut Client,
    commit: Box<Commit>,
    revision: i64,
    parts: &[ActAns],
) -> Result<Move, Memory>
    requires { IsCountNumber revision }
    ensures { IfOk result (Leads (λ c out. CommitIsMade (ready client.old) commit.value c out revision parts.now) client.new) }
{
    leave(alloc, client, &commit, revision, parts)?;
    let pending = finished(alloc, commit, revision, parts)?;
    reply_in_turn(alloc, client, pending)
}

/// The request of a plan, with another view.
fn viewed_anew(commit: Box<Commit>, view: View) -> Box<Task>
    ensures { result.value ≡ record commit.value.task.value { view = view } }
{
    let mut task = Box::into_inner(commit).task;
    task.view = view;
    task
}

/// A guard failed: what was read again is a new view, on which the request goes on.
fn look_again(
    alloc: Global,
    client: &mut Client,
    commit: Box<Commit>,
    now: u64,
    revision: i64,
    parts: &[ActAns],
) -> Result<Move, Memory>
    requires request { IsRequest commit.value.task.value.request }
    requires real { pos 1 ≤ℤ client.old.who.session }
    requires time { now < 2 ^ 62 }
    requires revision { IsCountNumber revision }
    requires numbers { AreNumbers parts.now }
    ensures { IfOk result (Leads (λ c out. CommitIsTried (ready client.old) commit.value now c out revision false parts.now) client.new) }
{
    match look_at(alloc, commit.plan.again.as_slice(), revision, parts) {
        Ok(view) => look(alloc, client, viewed_anew(commit, view), now),
        Err(StepFault::Damaged { key, value }) => close(alloc, Cause::Damaged { key, value }),
        Err(StepFault::Memory) => Err(Memory),
    }
}

fn commit_at(
    alloc: Global,
    client: &mut Client,
    commit: Box<Commit>,
    now: u64,
    revision: i64,
    succeeded: bool,
    parts: &[ActAns],
) -> Result<Move, Memory>
    requires request { IsRequest commit.value.task.value.request }
    requires real { pos 1 ≤ℤ client.old.who.session }
    requires time { now < 2 ^ 62 }
    requires revision { IsCountNumber revision }
    requires numbers { AreNumbers parts.now }
    ensures { IfOk result (Leads (λ c out. CommitIsTried (ready client.old) commit.value now c out revision succeeded parts.now) client.new) }
{
    if succeeded {
        return done(alloc, client, commit, revision, parts);
    }
    look_again(alloc, client, commit, now, revision, parts)
}

/// At the answer to the transaction of a plan.
pub(crate) fn committed(
    alloc: Global,
    client: &mut Client,
    commit: Box<Commit>,
    now: u64,
    answer: &Answer,
) -> Result<Move, Memory>
    requires awaited { IsAnswerTo (transaction commit.value.plan) answer.now }
    requires request { IsRequest commit.value.task.value.request }
    requires real { pos 1 ≤ℤ client.old.who.session }
    requires time { now < 2 ^ 62 }
    ensures { IfOk result (Leads (λ c out. CommitIsAnswered (ready client.old) commit.value now c out answer.now) client.new) }
{
    match answer {
        Answer::Txn {
            revision,
            succeeded,
            parts,
        } => commit_at(
            alloc,
            client,
            commit,
            now,
            *revision,
            *succeeded,
            parts.as_slice(),
        ),
        Answer::Range { .. } | Answer::Granted { .. } | Answer::Alive { .. } => unreachable!(),
    }
}
