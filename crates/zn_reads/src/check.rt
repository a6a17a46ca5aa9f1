//! A check outside a multi (ZooKeeper API, `Op.check`): a read of the version of a node's data.

ghost use Rattle.std.specs.Prelude.{IsTrue, ◌≡◌, IfOk};
ghost use Rattle.zk_model.specs.Paths.{is_path};
ghost use Rattle.zk_model.specs.declared.request.Request.TheVariants as req;
ghost use Rattle.zn_reads.specs.Deciding.{IsAnsweredBy, IsReadDecision};
ghost use Rattle.zn_reads.specs.Replies.{check_reply};

use crate::answer::bad_path;
use crate::stat::version_at;
use std::alloc::Global;
use zk_model::code::{BAD_VERSION, NO_NODE};
use zk_model::version::matches;
use zk_model::{Body, Path, Reply};
use zn_layout::valid_path;
use zn_view::{Decision, View};
use zx_base::Memory;

fn check_reply(asked: i32, version: Option<i32>) -> Reply
    ensures { result ≡ check_reply asked version }
{
    match version {
        Some(version) if matches(asked, version) => Reply::Good(Body::Empty),
        Some(_) => Reply::Refused(BAD_VERSION),
        None => Reply::Refused(NO_NODE),
    }
}

fn check_at(alloc: Global, path: &Path, version: i32, view: &View) -> Result<Decision, Memory>
    requires { IsTrue (is_path path.now) }
    ensures { IfOk result (IsAnsweredBy (req.Check path.now version) view.now) }
{
    Ok(Decision::Answered {
        reply: check_reply(version, version_at(alloc, path, view)?),
        arm: None,
    })
}

pub(crate) fn check(
    alloc: Global,
    text: &[u8],
    version: i32,
    view: &View,
) -> Result<Decision, Memory>
    ensures { IfOk result (IsReadDecision (req.Check text.now version) view.now) }
{
    match valid_path(alloc, text)? {
        Some(path) => check_at(alloc, &path, version, view),
        None => Ok(bad_path()),
    }
}
