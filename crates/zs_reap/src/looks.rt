//! What an answer shows, and what it leads to.

ghost use Rattle.std.specs.Prelude.{◌≡◌, pos, ◌≤ℤ◌, ◌<ℤ◌, IfOk, IfErr, OnOk};
ghost use Rattle.zn_view.specs.Seen.{IsCountNumber};
ghost use Rattle.zn_view.specs.Adding.{AreNumbers};
ghost use Rattle.zs_session.specs.Answering.{viewed};
ghost use Rattle.zs_reap.specs.Steps.{AreFewOwned, IsCrowdedFault, IsReaperPhase, IsReadFault, IsReaperTested, ReaperLooked, ReaperLookedAgain, reaper_wants as wants_of_first};

use crate::moves::{Move, count, decided, end, first_wants, look};
use crate::reap::ReapStep;
use ev_types::{ActAns, Kv};
use std::alloc::Global;
use zn_layout::session_key;
use zn_view::{View, Want};
use zs_close::needs_reap;
use zs_session::{StepFault, look as look_at};
use zx_base::{Bytes, Memory};

/// The fault of a value that no sound state has under its key.
fn damaged(alloc: Global, kv: &Kv) -> Result<StepFault, Memory>
    ensures { IfOk result (λ fault. fault ≡ StepFault.Damaged kv.now.key kv.now.value) }
{
    Ok(StepFault::Damaged {
        key: Bytes::copy_of(alloc, kv.key.as_slice())?,
        value: Bytes::copy_of(alloc, kv.value.as_slice())?,
    })
}

/// Refuses a list of more nodes than a session may own.
fn test_nodes(alloc: Global, session: i64, view: &View) -> Result<(), StepFault>
    requires { pos 1 ≤ℤ session }
    ensures ok { OnOk result (AreFewOwned session view.now) }
    ensures fault { IfErr result (IsCrowdedFault session view.now) }
{
    let key = session_key(alloc, session)?;
    let Some(Some(kv)) = view.found(key.as_slice()) else {
        return Ok(());
    };
    let Some(nodes) = view.nodes_of(session)? else {
        return Ok(());
    };
    if nodes.paths.len() > nodes.layout.max_owned() {
        return Err(damaged(alloc, kv)?);
    }
    Ok(())
}

/// What these keys had at a revision: all of it is records, and the session's nodes are no more than it may own.
fn seen(
    alloc: Global,
    session: i64,
    wants: &[Want],
    revision: i64,
    parts: &[ActAns],
) -> Result<View, StepFault>
    requires real { pos 1 ≤ℤ session }
    requires revision { IsCountNumber revision }
    requires numbers { AreNumbers parts.now }
    ensures ok { IfOk result (λ view. view ≡ viewed revision wants.now parts.now) }
    ensures tested { OnOk result (IsReaperTested session wants.now revision parts.now) }
    ensures fault { IfErr result (IsReadFault session wants.now revision parts.now) }
{
    let view = look_at(alloc, wants, revision, parts)?;
    test_nodes(alloc, session, &view)?;
    Ok(view)
}

/// What follows the first look of a number below 1, which is no session's.
fn looked_nowhere(
    alloc: Global,
    session: i64,
    wants: &[Want],
    revision: i64,
    parts: &[ActAns],
) -> Result<Move, StepFault>
    requires below { session <ℤ pos 1 }
    requires revision { IsCountNumber revision }
    requires numbers { AreNumbers parts.now }
    ensures ok { IfOk result (λ m. ReaperLooked session wants.now revision parts.now m.phase m.step) }
    ensures held { IfOk result (λ m. IsReaperPhase session m.phase) }
    ensures fault { IfErr result (IsReadFault session wants.now revision parts.now) }
{
    look_at(alloc, wants, revision, parts)?;
    Ok(end(ReapStep::Gone { rev: revision }))
}

/// What follows the first look of another number: the decision, or, where the session has to go and the view lacks the counts of
/// the nodes' parents, a look at these.
fn looked_there(
    alloc: Global,
    session: i64,
    wants: &[Want],
    revision: i64,
    parts: &[ActAns],
) -> Result<Move, StepFault>
    requires real { pos 1 ≤ℤ session }
    requires revision { IsCountNumber revision }
    requires numbers { AreNumbers parts.now }
    ensures ok { IfOk result (λ m. ReaperLooked session wants.now revision parts.now m.phase m.step) }
    ensures held { IfOk result (λ m. IsReaperPhase session m.phase) }
    ensures fault { IfErr result (IsReadFault session wants.now revision parts.now) }
{
    let view = seen(alloc, session, wants, revision, parts)?;
    let lacking = needs_reap(alloc, session, &view)?;
    if lacking.as_slice().is_empty() {
        return Ok(decided(alloc, session, &view)?);
    }
    Ok(count(alloc, session, &view, lacking)?)
}

/// What follows the first look.
pub(crate) fn looked(
    alloc: Global,
    session: i64,
    revision: i64,
    parts: &[ActAns],
) -> Result<Move, StepFault>
    requires revision { IsCountNumber revision }
    requires numbers { AreNumbers parts.now }
    ensures ok { IfOk result (λ m. ReaperLooked session (wants_of_first session) revision parts.now m.phase m.step) }
    ensures held { IfOk result (λ m. IsReaperPhase session m.phase) }
    ensures fault { IfErr result (IsReadFault session (wants_of_first session) revision parts.now) }
{
    let wants = first_wants(alloc, session)?;
    if session < 1 {
        return looked_nowhere(alloc, session, wants.as_slice(), revision, parts);
    }
    looked_there(alloc, session, wants.as_slice(), revision, parts)
}

/// What follows a later look: the decision, or, where the view lacks something since the session had other nodes by then, a look
/// anew.
pub(crate) fn looked_again(
    alloc: Global,
    session: i64,
    wants: &[Want],
    revision: i64,
    parts: &[ActAns],
) -> Result<Move, StepFault>
    requires real { pos 1 ≤ℤ session }
    requires revision { IsCountNumber revision }
    requires numbers { AreNumbers parts.now }
    ensures ok { IfOk result (λ m. ReaperLookedAgain session wants.now revision parts.now m.phase m.step) }
    ensures held { IfOk result (λ m. IsReaperPhase session m.phase) }
    ensures fault { IfErr result (IsReadFault session wants.now revision parts.now) }
{
    let view = seen(alloc, session, wants, revision, parts)?;
    let lacking = needs_reap(alloc, session, &view)?;
    if lacking.as_slice().is_empty() {
        return Ok(decided(alloc, session, &view)?);
    }
    Ok(look(alloc, session)?)
}
