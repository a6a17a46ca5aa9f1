//! How a request is looked up: an update first at the view that is kept of its path. Where that view lacks nothing and the decision
//! on it is a plan, the plan is asked at once. Anything else is looked up anew.

ghost use Rattle.std.specs.Prelude.{◌≡◌, ◌≤ℤ◌, [], Some, pos, IfOk, ◌<◌, ◌^◌};
ghost use Rattle.std.specs.Map.{lookup};
ghost use Rattle.zx_base.specs.Maps.{same};
ghost use Rattle.zn_view.specs.Keeping.{update_path as path_of_update};
ghost use Rattle.zn_view.specs.Seen.{empty_view};
ghost use Rattle.zp_step.specs.Replies.{Is};
ghost use Rattle.zp_step.specs.Taking.{LooksFirst, LooksOn};
ghost use Rattle.zp_core.specs.Held.{IsRequest};
ghost use Rattle.zp_core.specs.Handling.{planned_at_once};
ghost use Rattle.zp_core.specs.Meanings.{Leads, ready};
ghost use Rattle.zp_core.specs.OnKept.{PlansOn};

use crate::asks::{ask_plan, needs};
use crate::client::Client;
use crate::decisions::plan_decided;
use crate::keeping::update_path;
use crate::looks::look;
use crate::moves::Move;
use crate::stage::Task;
use std::alloc::Global;
use zk_model::Request;
use zn_view::{Plan, View, Who};
use zp_kept::PathKey;
use zx_base::{Memory, Seq};

/// A plan on a kept view, where the view lacks nothing and the decision on it is a plan.
fn plan_on(
    alloc: Global,
    request: &Request,
    who: Who,
    now: u64,
    view: &View,
) -> Result<Option<Plan>, Memory>
    requires request { IsRequest request.now }
    requires real { pos 1 ≤ℤ who.session }
    requires time { now < 2 ^ 62 }
    ensures { IfOk result (PlansOn request.now who now view.now) }
{
    let lacking = needs(alloc, request, who, view)?;
    if lacking.len() > 0 {
        return Ok(None);
    }
    plan_decided(alloc, request, who, now, view)
}

/// Asks for a plan that was made on a kept view: the view was used last.
fn plan_at_once(
    alloc: Global,
    client: &mut Client,
    mut task: Box<Task>,
    now: u64,
    key: &PathKey,
    view: View,
    plan: Plan,
) -> Result<Move, Memory>
    requires { lookup (same key.now) client.old.views ≡ Some view }
    ensures { IfOk result (Leads (Is (planned_at_once (ready client.old) key.now task.value.xid task.value.request view now plan)) client.new) }
{
    client.views.use_first(key);
    task.view = view;
    ask_plan(alloc, client, task, now, plan)
}

/// Looks at the view that is kept of the update's path first.
fn look_on(
    alloc: Global,
    client: &mut Client,
    task: Box<Task>,
    now: u64,
    key: &PathKey,
) -> Result<Move, Memory>
    requires empty { task.value.view ≡ empty_view }
    requires request { IsRequest task.value.request }
    requires real { pos 1 ≤ℤ client.old.who.session }
    requires time { now < 2 ^ 62 }
    ensures { IfOk result (Leads (λ c out. LooksOn (ready client.old) task.value.xid task.value.request now c out key.now (lookup (same key.now) client.old.views)) client.new) }
{
    let Some(view) = client.views.find(key) else {
        return look(alloc, client, task, now);
    };
    let Some(plan) = plan_on(alloc, &task.request, client.who, now, view)? else {
        return look(alloc, client, task, now);
    };
    let view = view.copy()?;
    plan_at_once(alloc, client, task, now, key, view, plan)
}

/// Looks a request up; an update first at the view that is kept of its path.
pub(crate) fn look_first(
    alloc: Global,
    client: &mut Client,
    task: Box<Task>,
    now: u64,
) -> Result<Move, Memory>
    requires empty { task.value.view ≡ empty_view }
    requires request { IsRequest task.value.request }
    requires real { pos 1 ≤ℤ client.old.who.session }
    requires time { now < 2 ^ 62 }
    ensures { IfOk result (Leads (λ c out. LooksFirst (ready client.old) task.value.xid task.value.request now c out (path_of_update task.value.request)) client.new) }
{
    match update_path(&task.request) {
        Some(path) => {
            let key = PathKey::copy_of(alloc, path)?;
            look_on(alloc, client, task, now, &key)
        }
        None => look(alloc, client, task, now),
    }
}

/// A request for which nothing was looked up yet.
pub(crate) fn begun(alloc: Global, xid: i32, request: Request) -> Result<Box<Task>, Memory>
    ensures { IfOk result (λ t. t.value ≡ record { xid = xid; request = request; view = empty_view; asked = [] }) }
{
    let task = Task {
        xid,
        request,
        view: View::empty(alloc),
        asked: Seq::new(alloc),
    };
    Ok(Box::new(alloc, task)?)
}
