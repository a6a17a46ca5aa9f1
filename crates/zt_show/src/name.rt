//! The names of requests (ZooKeeper's API; `ZooDefs.OpCode`, release 3.5).

ghost use Rattle.std.specs.Prelude.{◌≡◌};
ghost use Rattle.zk_jute.specs.Numbers.{opcode_of, part_kind};
ghost use Rattle.zt_show.specs.FrameLines.{request_name as request_name_of, part_name as part_name_of};

use zk_model::{Part, Request};

/// A request's name in a line.
pub(crate) fn request_name(request: &Request) -> &'static [u8]
    ensures { result.now ≡ request_name_of (opcode_of request.now) }
{
    match request {
        Request::Create { .. } => b"create",
        Request::Delete { .. } => b"delete",
        Request::Exists { .. } => b"exists",
        Request::GetData { .. } => b"getData",
        Request::SetData { .. } => b"setData",
        Request::GetAcl { .. } => b"getACL",
        Request::GetChildren { .. } => b"getChildren",
        Request::GetChildren2 { .. } => b"getChildren2",
        Request::Sync { .. } => b"sync",
        Request::Ping => b"ping",
        Request::Check { .. } => b"check",
        Request::Multi { .. } => b"multi",
        Request::Auth { .. } => b"auth",
        Request::SetWatches { .. } => b"setWatches",
        Request::Close => b"closeSession",
        Request::Create2 { .. } => b"create2",
        Request::CheckWatches { .. } => b"checkWatches",
        Request::RemoveWatches { .. } => b"removeWatches",
    }
}

/// The name of a part of a multi in a line.
pub(crate) fn part_name(part: &Part) -> &'static [u8]
    ensures { result.now ≡ part_name_of (part_kind part.now) }
{
    match part {
        Part::Create { .. } => b"create",
        Part::Delete { .. } => b"delete",
        Part::SetData { .. } => b"setData",
        Part::Check { .. } => b"check",
    }
}
