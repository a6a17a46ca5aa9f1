//! The decision on a single request: its form first, then its session, then the tree.

ghost use Rattle.std.specs.Prelude.{◌^◌, ◌<◌, ◌≡◌, ◌≤◌, ◌≤ℤ◌, true, pos, nat_abs, length, None, IfOk};
ghost use Rattle.zk_model.specs.Limits.{max_frame};
ghost use Rattle.zk_model.specs.Watches.{no_watches};
ghost use Rattle.zk_service.specs.Answers.{plain_request};
ghost use Rattle.zn_ops.specs.Forms.{is_single};
ghost use Rattle.zn_layout.specs.Keys.{LeaseKey};
ghost use Rattle.zn_ops.specs.Deciding.{IsAttachedAt};
ghost use Rattle.zn_view.specs.Asks.{WritesOnce};
ghost use Rattle.zn_view.specs.Deciding.{IfPlanned, IsGood, IsTested, IsToldByForm, is_by_tree};
ghost use Rattle.zn_view.specs.Keeping.{IsKeepable};
ghost use Rattle.zn_view.specs.Needs.{IsWhole};
ghost use Rattle.zn_updates.specs.Deciding.{content_in, IsAttached, IsTakenIfCreate};
ghost use Rattle.zn_updates.specs.Writing.{WritesAs};
ghost use Rattle.zn_view.specs.Lookups.{HasSeen, sees};
ghost use Rattle.zn_view.specs.Views.{IsDecision};

use crate::form::plain_reply;
use crate::kinds::is_update;
use std::alloc::Global;
use zk_model::Request;
use zn_reads::decide_read;
use zn_updates::decide_update;
use zn_view::{Decision, View, Who};
use zx_base::Memory;

/// The revision at which the record of a session's life was last put, which is when the session was last begun or resumed.
/// `None` where the session is closed or has lapsed. The record's key was looked up; the session's number is at least 1.
pub fn attached_at(view: &View, session: i64) -> Result<Option<i64>, Memory>
    requires real { pos 1 ≤ℤ session }
    requires seen { HasSeen view.now (LeaseKey (nat_abs session)) }
    ensures { IfOk result (IsAttachedAt (sees view.now (LeaseKey (nat_abs session)))) }
{
    match view.life_of(session)? {
        Some((_, life)) => Ok(Some(life.mod_revision)),
        None => Ok(None),
    }
}

/// Decides a request of a session that is attached to this connection.
fn decide_by_tree(
    alloc: Global,
    request: &Request,
    who: Who,
    now: u64,
    view: &View,
) -> Result<Decision, Memory>
    requires single { is_single request.now ≡ true }
    requires real { pos 1 ≤ℤ who.session }
    requires time { now < 2 ^ 62 }
    requires short { length (content_in request.now) ≤ max_frame }
    requires whole { IsWhole request.now who view.now }
    requires formed { plain_request no_watches request.now ≡ None }
    requires attached { IsAttached who view.now }
    ensures decision { IfOk result (IsDecision request.now who view.now) }
    ensures tree { IfOk result (λ d. is_by_tree d ≡ true) }
    ensures plan { IfOk result (IfPlanned (IsGood request.now who now view.now)) }
    ensures once { IfOk result (IfPlanned WritesOnce) }
    ensures created { IfOk result (IfPlanned (IsTakenIfCreate request.now)) }
    ensures keepable { IfOk result (IfPlanned (IsKeepable request.now view.now)) }
    ensures writes { IfOk result (IfPlanned (WritesAs request.now who view.now)) }
{
    if is_update(request) {
        return Ok(decide_update(alloc, request, who, now, view)?);
    }
    Ok(decide_read(alloc, request, view)?)
}

/// Decides a request that its form does not decide.
fn decide_by_session(
    alloc: Global,
    request: &Request,
    who: Who,
    now: u64,
    view: &View,
) -> Result<Decision, Memory>
    requires single { is_single request.now ≡ true }
    requires real { pos 1 ≤ℤ who.session }
    requires time { now < 2 ^ 62 }
    requires short { length (content_in request.now) ≤ max_frame }
    requires whole { IsWhole request.now who view.now }
    requires formed { plain_request no_watches request.now ≡ None }
    ensures decision { IfOk result (IsDecision request.now who view.now) }
    ensures tested { IfOk result (IsTested request.now who view.now) }
    ensures plan { IfOk result (IfPlanned (IsGood request.now who now view.now)) }
    ensures once { IfOk result (IfPlanned WritesOnce) }
    ensures created { IfOk result (IfPlanned (IsTakenIfCreate request.now)) }
    ensures keepable { IfOk result (IfPlanned (IsKeepable request.now view.now)) }
    ensures writes { IfOk result (IfPlanned (WritesAs request.now who view.now)) }
{
    let Some(found) = attached_at(view, who.session)? else {
        return Ok(Decision::Expired);
    };
    if found != who.mine {
        return Ok(Decision::Moved { found });
    }
    Ok(decide_by_tree(alloc, request, who, now, view)?)
}

/// Decides a request on a view that lacks nothing that the request reads, so that [`needs`](crate::needs) names nothing. The
/// request is neither a multi nor a closeSession ([`is_single`](crate::is_single)), and its data is no longer than a frame may
/// be ([`is_short`](crate::is_short)); of a setWatches the reply alone is decided, and of a checkWatches or removeWatches the answer
/// where nothing is armed. `now` is the time in milliseconds, below
/// 2^62; the session's number is at least 1.
///
/// Where the request's form decides, the decision is that answer, on every view, also on one that no state has. Otherwise the
/// session has expired where the record of its life is not there, and has moved where that was put at another revision than
/// `who.mine`; and otherwise the tree decides. A plan is a good one (`IsGood` of `zn_view`), and writes the keys of its update,
/// each once, and no other. An etcd takes the plan of a create even where the view is of no state. What the plan of an update leaves of
/// the view may be kept for the next request of its path (`IsKeepable` of `zn_view`).
pub fn decide(
    alloc: Global,
    request: &Request,
    who: Who,
    now: u64,
    view: &View,
) -> Result<Decision, Memory>
    requires single { is_single request.now ≡ true }
    requires real { pos 1 ≤ℤ who.session }
    requires time { now < 2 ^ 62 }
    requires short { length (content_in request.now) ≤ max_frame }
    requires whole { IsWhole request.now who view.now }
    ensures decision { IfOk result (IsDecision request.now who view.now) }
    ensures form { IfOk result (IsToldByForm request.now) }
    ensures tested { IfOk result (IsTested request.now who view.now) }
    ensures plan { IfOk result (IfPlanned (IsGood request.now who now view.now)) }
    ensures once { IfOk result (IfPlanned WritesOnce) }
    ensures created { IfOk result (IfPlanned (IsTakenIfCreate request.now)) }
    ensures keepable { IfOk result (IfPlanned (IsKeepable request.now view.now)) }
    ensures writes { IfOk result (IfPlanned (WritesAs request.now who view.now)) }
{
    match plain_reply(alloc, request)? {
        Some(reply) => Ok(Decision::Answered { reply, arm: None }),
        None => decide_by_session(alloc, request, who, now, view),
    }
}
