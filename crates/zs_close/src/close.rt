//! closeSession (ZooKeeper API, `close`), planned on a view.

ghost use Rattle.std.specs.Prelude.{◌≡◌, ◌≤ℤ◌, ℕ, All, Some, pos, nat_abs, IfOk};
ghost use Rattle.zk_model.specs.declared.request.Request.TheVariants as req;
ghost use Rattle.zn_layout.specs.Keys.{CountsKey, LeaseKey, SessionKey};
ghost use Rattle.zn_layout.specs.Records.{IsSessionRec};
ghost use Rattle.zn_view.specs.Deciding.{IfPlanned, IsGood, IsTested};
ghost use Rattle.zn_view.specs.Lookups.{sees, HasSeen};
ghost use Rattle.zn_view.specs.Needs.{AreNeeds, IsWhole};
ghost use Rattle.zn_view.specs.Views.{IsDecision};
ghost use Rattle.zs_close.specs.Closing.{unsound as refusal, IsClose, IsClosedBy, IsClosedWith};
ghost use Rattle.zs_close.specs.Ending.{parents};
ghost use Rattle.zs_close.specs.Wanting.{AreParentsSeen};

use crate::plan::end_plan;
use crate::wants::end_needs;
use std::alloc::Global;
use zk_model::Reply;
use zk_model::code::SYSTEM_ERROR;
use zn_layout::SessionRec;
use zn_view::{Decision, View, Want, Who};
use zx_base::{Memory, Seq};

/// What a close of a session still has to look up: the head, the record of the session's life and the list of its nodes, and once
/// the view saw that list, the counts of the nodes' parents. The session's number is at least 1.
pub fn needs_close(alloc: Global, who: Who, view: &View) -> Result<Seq<Want>, Memory>
    requires { pos 1 ≤ℤ who.session }
    ensures { IfOk result (AreNeeds req.Close who view.now) }
{
    let wants = end_needs(alloc, view, who.session)?;
    Ok(wants)
}

/// The answer on a view that no sound state has: SystemError (-1).
fn unsound() -> Decision
    ensures { result ≡ refusal }
{
    Decision::Answered {
        reply: Reply::Refused(SYSTEM_ERROR),
        arm: None,
    }
}

/// Closes a session with these nodes, unless they are more than it may own.
fn close_with(
    alloc: Global,
    session: i64,
    view: &View,
    nodes: &SessionRec,
) -> Result<Decision, Memory>
    requires real { pos 1 ≤ℤ session }
    requires listed { IsSessionRec nodes.now }
    requires seen { All (λ q. HasSeen view.now (CountsKey q)) (parents nodes.now.paths) }
    ensures { IfOk result (IsClosedWith session view.now nodes.now) }
{
    if nodes.paths.len() > nodes.layout.max_owned() {
        return Ok(unsound());
    }
    Ok(Decision::Planned(end_plan(alloc, view, true, session, nodes)?))
}

/// Closes a session that is attached here.
fn close_attached(alloc: Global, session: i64, view: &View) -> Result<Decision, Memory>
    requires real { pos 1 ≤ℤ session }
    requires seen { HasSeen view.now (SessionKey (nat_abs session)) }
    requires parents { AreParentsSeen session view.now }
    ensures { IfOk result (IsClosedBy session view.now (sees view.now (SessionKey (nat_abs session)))) }
{
    match view.nodes_of(session)? {
        Some(nodes) => close_with(alloc, session, view, &nodes),
        None => Ok(unsound()),
    }
}

/// Closes a session that lives and is attached here.
fn close(alloc: Global, who: Who, view: &View) -> Result<Decision, Memory>
    requires real { pos 1 ≤ℤ who.session }
    requires life { HasSeen view.now (LeaseKey (nat_abs who.session)) }
    requires seen { HasSeen view.now (SessionKey (nat_abs who.session)) }
    requires parents { AreParentsSeen who.session view.now }
    ensures { IfOk result (IsClose who view.now) }
{
    let Some((_, life)) = view.life_of(who.session)? else {
        return Ok(Decision::Expired);
    };
    if life.mod_revision != who.mine {
        return Ok(Decision::Moved {
            found: life.mod_revision,
        });
    }
    close_attached(alloc, who.session, view)
}

/// Decides a close on a view of which [`needs_close`] names nothing. `Expired` and `Moved` are by the record of the session's life,
/// as for each request. Otherwise there is a plan by which the session and all its nodes go at one zxid; only on a view that no
/// sound state has, with no list of the session's nodes or with more of them than it may own, the close is refused with SystemError.
pub fn plan_close(alloc: Global, who: Who, view: &View) -> Result<Decision, Memory>
    requires real { pos 1 ≤ℤ who.session }
    requires whole { IsWhole req.Close who view.now }
    ensures decision { IfOk result (IsDecision req.Close who view.now) }
    ensures tested { IfOk result (IsTested req.Close who view.now) }
    ensures plan { IfOk result (IfPlanned (λ p. (now : ℕ) → IsGood req.Close who now view.now p)) }
{
    let decision = close(alloc, who, view)?;
    Ok(decision)
}
