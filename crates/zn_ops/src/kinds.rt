//! Which requests are decided here, which of them change the tree, and which read it; and how long their data may be.

ghost use Rattle.std.specs.Prelude.{◌≡◌, ◌≤◌, ◌↔◌, length, IsTrue};
ghost use Rattle.zk_model.specs.Limits.{max_frame};
ghost use Rattle.zn_ops.specs.Forms.{is_single};
ghost use Rattle.zn_reads.specs.Deciding.{is_read};
ghost use Rattle.zk_model.specs.Kinds.{is_update};
ghost use Rattle.zn_updates.specs.Deciding.{content_in};

use zk_model::Request;
use zk_model::limit::MAX_FRAME;

/// Whether [`decide`](crate::decide) takes this request: any but a multi and a closeSession.
pub fn is_single(request: &Request) -> bool
    ensures { result ≡ is_single request.now }
{
    match request {
        Request::Multi { .. } | Request::Close => false,
        Request::Create { .. }
        | Request::Create2 { .. }
        | Request::Delete { .. }
        | Request::Exists { .. }
        | Request::GetData { .. }
        | Request::SetData { .. }
        | Request::GetAcl { .. }
        | Request::GetChildren { .. }
        | Request::GetChildren2 { .. }
        | Request::Sync { .. }
        | Request::Ping
        | Request::Check { .. }
        | Request::Auth { .. }
        | Request::SetWatches { .. }
        | Request::CheckWatches { .. }
        | Request::RemoveWatches { .. } => true,
    }
}

/// Whether the data of a create, with or without Stat, or of a setData has at most 1,048,575 bytes, as
/// [`decide`](crate::decide) requires. Any other request
/// is short.
pub fn is_short(request: &Request) -> bool
    ensures { IsTrue result ↔ length (content_in request.now) ≤ max_frame }
{
    match request {
        Request::Create { content, .. }
        | Request::Create2 { content, .. }
        | Request::SetData { content, .. } => content.len() <= MAX_FRAME,
        Request::Delete { .. }
        | Request::Exists { .. }
        | Request::GetData { .. }
        | Request::GetAcl { .. }
        | Request::GetChildren { .. }
        | Request::GetChildren2 { .. }
        | Request::Sync { .. }
        | Request::Ping
        | Request::Check { .. }
        | Request::Multi { .. }
        | Request::Auth { .. }
        | Request::SetWatches { .. }
        | Request::Close
        | Request::CheckWatches { .. }
        | Request::RemoveWatches { .. } => true,
    }
}

/// Whether this is a create, with or without Stat, a delete or a setData.
pub(crate) fn is_update(request: &Request) -> bool
    ensures { result ≡ is_update request.now }
{
    match request {
        Request::Create { .. }
        | Request::Create2 { .. }
        | Request::Delete { .. }
        | Request::SetData { .. } => true,
        Request::Exists { .. }
        | Request::GetData { .. }
        | Request::GetAcl { .. }
        | Request::GetChildren { .. }
        | Request::GetChildren2 { .. }
        | Request::Sync { .. }
        | Request::Ping
        | Request::Check { .. }
        | Request::Multi { .. }
        | Request::Auth { .. }
        | Request::SetWatches { .. }
        | Request::Close
        | Request::CheckWatches { .. }
        | Request::RemoveWatches { .. } => false,
    }
}

/// Whether this is an exists, getData, getACL, getChildren with or without Stat, check, sync or setWatches.
pub(crate) fn is_read(request: &Request) -> bool
    ensures { result ≡ is_read request.now }
{
    match request {
        Request::Exists { .. }
        | Request::GetData { .. }
        | Request::GetAcl { .. }
        | Request::GetChildren { .. }
        | Request::GetChildren2 { .. }
        | Request::Sync { .. }
        | Request::Check { .. }
        | Request::SetWatches { .. } => true,
        Request::Create { .. }
        | Request::Create2 { .. }
        | Request::Delete { .. }
        | Request::SetData { .. }
        | Request::Ping
        | Request::Multi { .. }
        | Request::Auth { .. }
        | Request::Close
        | Request::CheckWatches { .. }
        | Request::RemoveWatches { .. } => false,
    }
}
