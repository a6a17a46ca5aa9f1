//! The end of a session that has lapsed, planned on a view.

ghost use Rattle.std.specs.Prelude.{◌≡◌, ◌≤ℤ◌, ℤ, true, false, [], All, pos, nat_abs, IfOk};
ghost use Rattle.zk_model.specs.declared.request.Request.TheVariants as req;
ghost use Rattle.zk_service.specs.States.{State, IsSound};
ghost use Rattle.zn_layout.specs.Keys.{CountsKey, LeaseKey, SessionKey};
ghost use Rattle.zn_layout.specs.Records.{IsSessionRec};
ghost use Rattle.zn_view.specs.Lookups.{sees, HasSeen};
ghost use Rattle.zn_view.specs.Deciding.{IsTaken};
ghost use Rattle.zn_view.specs.Needs.{AreNeeds};
ghost use Rattle.zn_view.specs.Views.{IsOf};
ghost use Rattle.zs_close.specs.Ending.{parents};
ghost use Rattle.zs_close.specs.Reaping.{lives, IfReaped, IsReadyToReap, IsReap, IsReapDecision, IsReapPlan, IsReapedBy, IsReapedWith};
ghost use Rattle.zs_close.specs.Wanting.{AreEndWants, AreParentsSeen};

use crate::plan::end_plan;
use crate::wants::end_needs;
use std::alloc::Global;
use zn_layout::{SessionRec, lease_key};
use zn_view::{Plan, View, Want};
use zx_base::{Memory, Seq};

/// What becomes of a session that a reaper looks at.
#[derive(Drop)]
pub enum Reaping {
    /// It has lapsed, and this ends it.
    Planned(Plan),
    /// The record of its life is there: it lives.
    Kept,
    /// It is not open: the list of its nodes is not there.
    Gone,
    /// The list has more nodes than a session may own, as in no sound state.
    TooMany,
}

/// Whether the view saw the record of a session's life.
fn is_alive(alloc: Global, session: i64, view: &View) -> Result<bool, Memory>
    requires { pos 1 ≤ℤ session }
    ensures { IfOk result (λ b. b ≡ lives session view.now) }
{
    let key = lease_key(alloc, session)?;
    match view.found(key.as_slice()) {
        Some(Some(_)) => Ok(true),
        Some(None) | None => Ok(false),
    }
}

/// What a reaper of a session still has to look up: nothing once the view saw the record of the session's life, since the session
/// is kept then; otherwise the same keys as a close of it, see [`needs_close`](crate::needs_close). The session's number is at
/// least 1.
pub fn needs_reap(alloc: Global, session: i64, view: &View) -> Result<Seq<Want>, Memory>
    requires { pos 1 ≤ℤ session }
    ensures kept { IfOk result (λ ws. lives session view.now ≡ true → ws ≡ []) }
    ensures needs { IfOk result (λ ws. lives session view.now ≡ false → (mine : ℤ) → AreNeeds req.Close (record { session = session; mine = mine }) view.now ws) }
    ensures are { IfOk result (λ ws. lives session view.now ≡ false → AreEndWants session view.now ws) }
{
    if is_alive(alloc, session, view)? {
        return Ok(Seq::new(alloc));
    }
    let wants = end_needs(alloc, view, session)?;
    Ok(wants)
}

/// Ends a session with these nodes, unless they are more than it may own.
fn reap_with(
    alloc: Global,
    session: i64,
    view: &View,
    nodes: &SessionRec,
) -> Result<Reaping, Memory>
    requires real { pos 1 ≤ℤ session }
    requires listed { IsSessionRec nodes.now }
    requires seen { All (λ q. HasSeen view.now (CountsKey q)) (parents nodes.now.paths) }
    ensures { IfOk result (IsReapedWith session view.now nodes.now) }
{
    if nodes.paths.len() > nodes.layout.max_owned() {
        return Ok(Reaping::TooMany);
    }
    Ok(Reaping::Planned(end_plan(alloc, view, false, session, nodes)?))
}

/// Ends a session without a record of its life.
fn reap_lapsed(alloc: Global, session: i64, view: &View) -> Result<Reaping, Memory>
    requires real { pos 1 ≤ℤ session }
    requires seen { HasSeen view.now (SessionKey (nat_abs session)) }
    requires parents { AreParentsSeen session view.now }
    ensures { IfOk result (IsReapedBy session view.now (sees view.now (SessionKey (nat_abs session)))) }
{
    match view.nodes_of(session)? {
        Some(nodes) => reap_with(alloc, session, view, &nodes),
        None => Ok(Reaping::Gone),
    }
}

/// Ends a session, unless the record of its life is there.
fn reap(alloc: Global, session: i64, view: &View) -> Result<Reaping, Memory>
    requires real { pos 1 ≤ℤ session }
    requires life { HasSeen view.now (LeaseKey (nat_abs session)) }
    requires seen { lives session view.now ≡ false → HasSeen view.now (SessionKey (nat_abs session)) }
    requires parents { lives session view.now ≡ false → AreParentsSeen session view.now }
    ensures { IfOk result (IsReap session view.now) }
{
    if view.life_of(session)?.is_some() {
        return Ok(Reaping::Kept);
    }
    reap_lapsed(alloc, session, view)
}

/// Decides what becomes of a session on a view of which [`needs_reap`] names nothing. By its plan the session and all its nodes go
/// at one zxid, or nothing changes. `TooMany` comes exactly where the record of the session's life is not there and the list of its
/// nodes has more than it may own.
pub fn plan_reap(alloc: Global, session: i64, view: &View) -> Result<Reaping, Memory>
    requires real { pos 1 ≤ℤ session }
    requires ready { IsReadyToReap session view.now }
    ensures seen { IfOk result (IsReap session view.now) }
    ensures decision { IfOk result (IsReapDecision session view.now) }
    ensures plan { IfOk result (IfReaped (IsReapPlan session view.now)) }
    ensures taken { IfOk result (IfReaped (λ p. (s : State) → IsSound s → IsOf view.now s → IsTaken p)) }
{
    let reaping = reap(alloc, session, view)?;
    Ok(reaping)
}
