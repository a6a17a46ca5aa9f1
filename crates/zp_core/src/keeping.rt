//! Which views are kept, and which updates are planned on them.

ghost use Rattle.std.specs.Prelude.{◌≡◌, true, false, None, Some, IfOk, OnOk, MatchOption, option_copied};
ghost use Rattle.zn_view.specs.Asks.{kept_under};
ghost use Rattle.zn_view.specs.Keeping.{IsAfter, trimmed, update_path as path_of_update};
ghost use Rattle.zn_view.specs.Seen.{IsCountNumber};
ghost use Rattle.zn_layout.specs.Keys.{HeadKey, key_bytes};
ghost use Rattle.zk_model.specs.Single.{is_sequential as is_sequential_by};
ghost use Rattle.zp_step.specs.Kept.{Leaves, LeavesBy, head_shown as head_of, keeps, put_first, view_path as path_of_view};
ghost use Rattle.zp_core.specs.Meanings.{ready};

use crate::client::Client;
use crate::stage::Commit;
use ev_types::{ActAns, Kv};
use std::alloc::Global;
use zk_model::Request;
use zk_model::flags::is_sequential;
use zn_view::{View, is_head, last_found};
use zp_kept::PathKey;
use zx_base::Memory;

/// The path of a create, unless it makes a sequence node.
fn path_of_create(path: &[u8], flags: i32) -> Option<&[u8]>
    ensures { MatchOption result (is_sequential_by flags ≡ true) (λ p. (p.now ≡ path.now) × (is_sequential_by flags ≡ false)) }
{
    if is_sequential(flags) {
        return None;
    }
    Some(path)
}

/// The path of an update that may be planned on a kept view.
pub(crate) fn update_path(request: &Request) -> Option<&[u8]>
    ensures { MatchOption result (path_of_update request.now ≡ None) (λ p. path_of_update request.now ≡ Some p.now) }
{
    match request {
        Request::Create { path, flags, .. } | Request::Create2 { path, flags, .. } => {
            path_of_create(path.as_slice(), *flags)
        }
        Request::Delete { path, .. } => Some(path.as_slice()),
        Request::SetData { path, .. } => Some(path.as_slice()),
        _ => None,
    }
}

/// The path under which a request's view is kept.
pub(crate) fn view_path(request: &Request) -> Option<&[u8]>
    ensures { MatchOption result (path_of_view request.now ≡ None) (λ p. path_of_view request.now ≡ Some p.now) }
{
    match request {
        Request::Exists { path, .. }
        | Request::GetData { path, .. }
        | Request::GetAcl { path }
        | Request::GetChildren { path, .. }
        | Request::GetChildren2 { path, .. }
        | Request::Check { path, .. } => Some(path.as_slice()),
        _ => update_path(request),
    }
}

/// Keeps a view under a path, if it is small enough.
fn keep_under(alloc: Global, client: &mut Client, path: &[u8], view: &View) -> Result<(), Memory>
    ensures { OnOk result (ready client.new ≡ record (ready client.old) { views = put_first path.now (trimmed view.now) (ready client.old).views }) }
{
    let key = PathKey::copy_of(alloc, path)?;
    match view.trimmed()? {
        Some(view) => client.views.keep(key, view)?,
        None => client.views.forget(&key),
    }
    Ok(())
}

/// Keeps a view that lacked nothing under its request's path.
pub(crate) fn keep_view(
    alloc: Global,
    client: &mut Client,
    request: &Request,
    view: &View,
) -> Result<(), Memory>
    ensures { OnOk result (ready client.new ≡ keeps (ready client.old) request.now view.now) }
{
    match view_path(request) {
        Some(path) => keep_under(alloc, client, path, view),
        None => Ok(()),
    }
}

/// The head among what was found.
fn head_among(kvs: &[Kv]) -> Option<&Kv>
    ensures { option_copied result ≡ kept_under (key_bytes HeadKey) kvs.now }
{
    for kv in kvs {
        if is_head(&kv.key) {
            return Some(kv);
        }
    }
    None
}

/// The head that an update's answer shows.
fn head_shown(parts: &[ActAns]) -> Option<&Kv>
    ensures { option_copied result ≡ head_of parts.now }
{
    head_among(last_found(parts))
}

/// What an update leaves of the view that its plan was made on. `None` where it would be no view.
fn left(commit: &Commit, revision: i64, head: &Kv) -> Result<Option<View>, Memory>
    requires { IsCountNumber revision }
    ensures { IfOk result (IsAfter commit.now.task.value.view commit.now.plan.guards commit.now.plan.success revision head.now) }
{
    let guards = commit.plan.guards.as_slice();
    let success = commit.plan.success.as_slice();
    commit.task.view.after(guards, success, revision, head)
}

/// Keeps under a path what an update leaves of the view that its plan was made on.
fn leave_under(
    alloc: Global,
    client: &mut Client,
    path: &[u8],
    commit: &Commit,
    revision: i64,
    parts: &[ActAns],
) -> Result<(), Memory>
    requires { IsCountNumber revision }
    ensures { OnOk result (LeavesBy (ready client.old) path.now commit.now.task.value.view commit.now.plan revision (head_of parts.now) (ready client.new)) }
{
    let Some(head) = head_shown(parts) else {
        return Ok(());
    };
    match left(commit, revision, head)? {
        Some(view) => keep_under(alloc, client, path, &view),
        None => Ok(()),
    }
}

/// Keeps what an update leaves of the view that its plan was made on.
pub(crate) fn leave(
    alloc: Global,
    client: &mut Client,
    commit: &Commit,
    revision: i64,
    parts: &[ActAns],
) -> Result<(), Memory>
    requires { IsCountNumber revision }
    ensures { OnOk result (Leaves (ready client.old) commit.now.task.value.request commit.now.task.value.view commit.now.plan revision parts.now (ready client.new)) }
{
    match update_path(&commit.task.request) {
        Some(path) => leave_under(alloc, client, path, commit, revision, parts),
        None => Ok(()),
    }
}
