//! What an answer shows.

ghost use Rattle.std.specs.Prelude.{◌≡◌, ◌↔◌, pos, ◌≤ℤ◌, false, is_some, IfOk, IfErr, OnOk, MatchOption, IsTrue};
ghost use Rattle.zn_view.specs.Adding.{AreNumbers, AreRecords};
ghost use Rattle.zn_view.specs.Seen.{IsCountNumber, found_of, seen};
ghost use Rattle.zs_session.specs.Answering.{viewed, IsLookFault};
ghost use Rattle.zs_session.specs.Connecting.{SawLifeAt, SawMine, SawNoneOfMine, is_there, is_taken as is_number_taken};
ghost use Rattle.zs_session.specs.Sessions.{life_key};

use crate::fault::StepFault;
use ev_types::ActAns;
use std::alloc::Global;
use zk_model::ConnectRequest;
use zn_layout::{LeaseRec, lease_key, session_key};
use zn_view::{View, ViewFault, Want};
use zx_base::Memory;

/// What some keys had at a revision of an etcd, 0 to 2^62 - 1, by a part for each want, in their order. `Damaged` has the first
/// key, in that order, whose value is no record of the key's kind, and the value.
pub fn look(
    alloc: Global,
    wants: &[Want],
    revision: i64,
    parts: &[ActAns],
) -> Result<View, StepFault>
    requires revision { IsCountNumber revision }
    requires numbers { AreNumbers parts.now }
    ensures ok { IfOk result (λ view. view ≡ viewed revision wants.now parts.now) }
    ensures records { OnOk result (AreRecords wants.now parts.now) }
    ensures fault { IfErr result (IsLookFault wants.now parts.now) }
{
    let mut view = View::empty(alloc);
    match view.add(wants, revision, parts) {
        Ok(()) => Ok(view),
        Err(ViewFault::Damaged { key, value }) => Err(StepFault::Damaged { key, value }),
        Err(ViewFault::Memory) => Err(StepFault::Memory),
        Err(ViewFault::OtherRevision { .. }) => unreachable!(),
    }
}

fn has_password(request: &ConnectRequest, life: &LeaseRec) -> bool
    ensures { IsTrue result ↔ (life.now.passwd ≡ request.now.passwd) }
{
    request.passwd.is(&life.passwd)
}

fn is_found(view: &View, key: &[u8]) -> bool
    ensures { result ≡ is_some (found_of (seen view.now key.now)) }
{
    matches!(view.found(key), Some(Some(_)))
}

/// The revision at which a session's life was last put, and its record: none where the view saw none.
fn life_of(alloc: Global, id: i64, view: &View) -> Result<Option<(i64, LeaseRec)>, Memory>
    requires { pos 1 ≤ℤ id }
    ensures { IfOk result (λ o. MatchOption o (is_there view.now (life_key id) ≡ false) (λ x. SawLifeAt view.now id x.0 x.1)) }
{
    let key = lease_key(alloc, id)?;
    if !is_found(view, key.as_slice()) {
        return Ok(None);
    }
    match view.life_of(id)? {
        Some((life, kv)) => Ok(Some((kv.mod_revision, life))),
        None => Ok(None),
    }
}

/// The revision at which the life of the session that is to be resumed was last put, and its record: none where there is no such
/// session, or it has another password.
pub(crate) fn mine(
    alloc: Global,
    request: &ConnectRequest,
    view: &View,
) -> Result<Option<(i64, LeaseRec)>, Memory>
    ensures { IfOk result (λ o. MatchOption o (SawNoneOfMine request.now view.now) (λ x. SawMine request.now view.now x.0 x.1)) }
{
    if request.session < 1 {
        return Ok(None);
    }
    match life_of(alloc, request.session, view)? {
        Some((seen, life)) if has_password(request, &life) => Ok(Some((seen, life))),
        Some(_) | None => Ok(None),
    }
}

/// Whether a session's number is in use: one of its two keys is there.
pub(crate) fn is_taken(alloc: Global, id: i64, view: &View) -> Result<bool, Memory>
    requires { pos 1 ≤ℤ id }
    ensures { IfOk result (λ taken. taken ≡ is_number_taken id view.now) }
{
    let life = lease_key(alloc, id)?;
    let nodes = session_key(alloc, id)?;
    Ok(is_found(view, life.as_slice()) || is_found(view, nodes.as_slice()))
}
