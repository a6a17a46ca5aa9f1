//! What is decided on a view that lacks nothing.

ghost use Rattle.std.specs.Prelude.{◌≡◌, ◌≤ℤ◌, [], pos, IfOk, IfSome, ◌<◌, ◌^◌};
ghost use Rattle.zn_view.specs.Needs.{AreNeeds};
ghost use Rattle.zn_view.specs.Views.{IsDecision};
ghost use Rattle.zn_updates.specs.Deciding.{IsTakenIfCreate};
ghost use Rattle.zn_view.specs.Deciding.{IfPlanned, IsTested};
ghost use Rattle.zp_step.specs.Looking.{IsBacked, change_by, decided, expired, moved, pending};
ghost use Rattle.zp_step.specs.Replies.{Is};
ghost use Rattle.zp_core.specs.Held.{IsRequest};
ghost use Rattle.zp_core.specs.Meanings.{Leads, change_of, pending_of, ready};
ghost use Rattle.zp_core.specs.OnKept.{PlansOn};

use crate::asks::ask_plan;
use crate::client::Client;
use crate::moves::Move;
use crate::replies::reply_in_turn;
use crate::stage::{Pending, Task, WatchChange};
use std::alloc::Global;
use zk_model::code::{SESSION_EXPIRED, SESSION_MOVED};
use zk_model::{Reply, Request};
use zk_service::Cause;
use zn_multi::decide_multi;
use zn_ops::decide as decide_single;
use zn_reads::seen_paths;
use zn_view::{Arm, Decision, Plan, View, Who};
use zs_close::plan_close;
use zx_base::{Memory, Seq};

/// Decides a request on a view that lacks nothing of what it reads.
pub(crate) fn decide(
    alloc: Global,
    request: &Request,
    who: Who,
    now: u64,
    view: &View,
) -> Result<Decision, Memory>
    requires request { IsRequest request.now }
    requires real { pos 1 ≤ℤ who.session }
    requires time { now < 2 ^ 62 }
    requires whole { AreNeeds request.now who view.now [] }
    ensures tested { IfOk result (IsTested request.now who view.now) }
    ensures right { IfOk result (IsDecision request.now who view.now) }
    ensures backed { IfOk result (IsBacked request.now who now view.now) }
    ensures created { IfOk result (IfPlanned (IsTakenIfCreate request.now)) }
{
    match request {
        Request::Close => plan_close(alloc, who, view),
        Request::Multi { parts } => decide_multi(alloc, parts.as_slice(), who, now, view),
        _ => decide_single(alloc, request, who, now, view),
    }
}

/// The plan that is decided on a view that lacks nothing: `None` where the decision is no plan.
pub(crate) fn plan_decided(
    alloc: Global,
    request: &Request,
    who: Who,
    now: u64,
    view: &View,
) -> Result<Option<Plan>, Memory>
    requires request { IsRequest request.now }
    requires real { pos 1 ≤ℤ who.session }
    requires time { now < 2 ^ 62 }
    requires whole { AreNeeds request.now who view.now [] }
    ensures plan { IfOk result (PlansOn request.now who now view.now) }
    ensures created { IfOk result (λ o. IfSome o (IsTakenIfCreate request.now)) }
{
    match decide(alloc, request, who, now, view)? {
        Decision::Planned(plan) => Ok(Some(plan)),
        Decision::Answered { .. } | Decision::Expired | Decision::Moved { .. } => Ok(None),
    }
}

/// What the reply to a request does to the watches.
fn change(
    alloc: Global,
    request: &Request,
    view: &View,
    arm: Option<Arm>,
) -> Result<WatchChange, Memory>
    ensures { IfOk result (λ c. change_of c ≡ change_by request.now view.now arm) }
{
    match request {
        Request::SetWatches {
            relative,
            exists,
            datas,
            children,
        } => {
            let seen = seen_paths(
                alloc,
                datas.as_slice(),
                exists.as_slice(),
                children.as_slice(),
                view,
            )?;
            Ok(WatchChange::Sets {
                since: *relative,
                seen: Seq::from_vec(seen),
            })
        }
        _ => Ok(WatchChange::Adds(arm)),
    }
}

/// A reply computed on a view, whose head gives its number and its zxid.
fn pending(
    view: &View,
    xid: i32,
    answer: Reply,
    change: WatchChange,
    ends: Option<Cause>,
) -> Pending
    ensures { pending_of result ≡ pending view.now xid answer (change_of change) ends }
{
    Pending {
        number: view.number(),
        zxid: view.zxid(),
        xid,
        answer,
        change,
        ends,
    }
}

/// The refusal of a session that is closed or has lapsed.
pub(crate) fn expired(view: &View, xid: i32) -> Pending
    ensures { pending_of result ≡ expired view.now xid }
{
    pending(
        view,
        xid,
        Reply::Refused(SESSION_EXPIRED),
        WatchChange::Adds(None),
        Some(Cause::Expired {
            rev: view.revision(),
        }),
    )
}

/// The refusal of a session that was attached to another connection, by the update with zxid `found`.
pub(crate) fn moved(who: Who, view: &View, found: i64, xid: i32) -> Pending
    ensures { pending_of result ≡ moved who view.now found xid }
{
    pending(
        view,
        xid,
        Reply::Refused(SESSION_MOVED),
        WatchChange::Adds(None),
        Some(Cause::Moved {
            mine: who.mine,
            found,
        }),
    )
}

/// Answers a request by its decision, or asks for its plan.
pub(crate) fn carry(
    alloc: Global,
    client: &mut Client,
    task: Box<Task>,
    now: u64,
    decision: Decision,
) -> Result<Move, Memory>
    ensures { IfOk result (Leads (Is (decided (ready client.old) task.value.xid task.value.request task.value.view now decision)) client.new) }
{
    match decision {
        Decision::Answered { reply, arm } => {
            let change = change(alloc, &task.request, &task.view, arm)?;
            let pending = pending(&task.view, task.xid, reply, change, None);
            reply_in_turn(alloc, client, pending)
        }
        Decision::Planned(plan) => ask_plan(alloc, client, task, now, plan),
        Decision::Expired => reply_in_turn(alloc, client, expired(&task.view, task.xid)),
        Decision::Moved { found } => {
            let pending = moved(client.who, &task.view, found, task.xid);
            reply_in_turn(alloc, client, pending)
        }
    }
}
