//! The decision on a request that reads.

ghost use Rattle.std.specs.Prelude.{◌≡◌, true, IfOk};
ghost use Rattle.zn_reads.specs.Deciding.{is_read, IsReadDecision};

use crate::acl::get_acl;
use crate::check::check;
use crate::children::{get_children, get_children2};
use crate::data::get_data;
use crate::exists::exists;
use crate::set_watches::set_watches;
use crate::sync::sync;
use std::alloc::Global;
use zk_model::Request;
use zn_view::{Decision, View};
use zx_base::Memory;

/// Decides a request that reads: exists, getData, getACL, getChildren with or without Stat, check, sync or setWatches. Where the
/// view lacks nothing that the request looks up, the reply is the one by the tree of each sound state that the view is of. A
/// request whose path is not valid is refused with -8. A setWatches arms nothing here (see [`seen_paths`](crate::seen_paths)).
pub fn decide_read(alloc: Global, request: &Request, view: &View) -> Result<Decision, Memory>
    requires { is_read request.now ≡ true }
    ensures { IfOk result (IsReadDecision request.now view.now) }
{
    match request {
        Request::Exists { path, watch } => exists(alloc, path.as_slice(), *watch, view),
        Request::GetData { path, watch } => get_data(alloc, path.as_slice(), *watch, view),
        Request::GetAcl { path } => get_acl(alloc, path.as_slice(), view),
        Request::GetChildren { path, watch } => get_children(alloc, path.as_slice(), *watch, view),
        Request::GetChildren2 { path, watch } => get_children2(
            alloc,
            path.as_slice(),
            *watch,
            view,
        ),
        Request::Check { path, version } => check(alloc, path.as_slice(), *version, view),
        Request::Sync { path } => sync(alloc, path.as_slice()),
        _ => Ok(set_watches()),
    }
}
