//! The requests that are updates.

ghost use Rattle.std.specs.Prelude.{◌^◌, ◌<◌, ◌≡◌, ◌≤◌, ◌≤ℤ◌, pos, length, true, IfOk, IsTrue};
ghost use Rattle.zk_model.specs.Limits.{max_frame};
ghost use Rattle.zn_view.specs.Needs.{AreNeeds, IsWhole};
ghost use Rattle.zn_view.specs.Deciding.{IfPlanned, IsToldByForm, is_by_tree};
ghost use Rattle.zk_model.specs.Kinds.{is_update};
ghost use Rattle.zn_updates.specs.Deciding.{content_in, IsBySound, IsGuarded};
ghost use Rattle.zn_updates.specs.Writing.{WritesAs};

use crate::asked::asked;
use crate::create::{create_needs, decide_create};
use crate::create2::{create2_needs, decide_create2};
use crate::delete::{decide_delete, delete_needs};
use crate::set_data::{decide_set_data, set_data_needs};
use std::alloc::Global;
use zk_model::Request;
use zn_view::{Decision, View, Want, Who};
use zx_base::{Memory, Seq};

/// What a create, with or without Stat, a delete or a setData still has to read, as far as the view determines it: nothing
/// where the view has it all, and where the request is refused by its form. The session's number is at least 1.
pub fn update_needs(
    alloc: Global,
    request: &Request,
    who: Who,
    view: &View,
) -> Result<Seq<Want>, Memory>
    requires update { IsTrue (is_update request.now) }
    requires real { pos 1 ≤ℤ who.session }
    ensures { IfOk result (AreNeeds request.now who view.now) }
{
    match request {
        Request::Create {
            path,
            acl,
            flags,
            ..
        } => create_needs(alloc, path.as_slice(), acl.as_slice(), *flags, who, view),
        Request::Create2 {
            path,
            acl,
            flags,
            ..
        } => create2_needs(alloc, path.as_slice(), acl.as_slice(), *flags, who, view),
        Request::Delete { path, .. } => delete_needs(alloc, path.as_slice(), who, view),
        Request::SetData { path, .. } => set_data_needs(alloc, path.as_slice(), who, view),
        _ => unreachable!(),
    }
}

/// Decides a create, with or without Stat, a delete or a setData of a session that is open, on a view that lacks nothing that
/// the request reads. The caller tests the session. `now` is in milliseconds since 1970, below 2^62; the session's number is at least 1.
pub fn decide_update(
    alloc: Global,
    request: &Request,
    who: Who,
    now: u64,
    view: &View,
) -> Result<Decision, Memory>
    requires update { IsTrue (is_update request.now) }
    requires real { pos 1 ≤ℤ who.session }
    requires time { now < 2 ^ 62 }
    requires short { length (content_in request.now) ≤ max_frame }
    requires whole { IsWhole request.now who view.now }
    ensures form { IfOk result (IsToldByForm request.now) }
    ensures sound { IfOk result (IsBySound request.now who view.now) }
    ensures tree { IfOk result (λ d. is_by_tree d ≡ true) }
    ensures plan { IfOk result (IfPlanned (IsGuarded request.now who now view.now)) }
    ensures writes { IfOk result (IfPlanned (WritesAs request.now who view.now)) }
{
    match request {
        Request::Create {
            path,
            content,
            acl,
            flags,
        } => decide_create(alloc, &asked(path, content, acl, *flags), who, now, view),
        Request::Create2 {
            path,
            content,
            acl,
            flags,
        } => decide_create2(alloc, &asked(path, content, acl, *flags), who, now, view),
        Request::Delete { path, version } => {
            decide_delete(alloc, path.as_slice(), *version, who, now, view)
        }
        Request::SetData {
            path,
            content,
            version,
        } => decide_set_data(
            alloc,
            path.as_slice(),
            content.as_slice(),
            *version,
            who,
            now,
            view,
        ),
        _ => unreachable!(),
    }
}
