//! GetACL (ZooKeeper API, `getACL`): every node has the one access list.

ghost use Rattle.std.specs.Prelude.{IsTrue, ◌≡◌, IfOk};
ghost use Rattle.zk_model.specs.Paths.{is_path};
ghost use Rattle.zk_model.specs.declared.request.Request.TheVariants as req;
ghost use Rattle.zn_reads.specs.Deciding.{IsAnsweredBy, IsReadDecision};
ghost use Rattle.zn_reads.specs.Replies.{acl_reply};

use crate::answer::bad_path;
use crate::stat::stat_at;
use std::alloc::Global;
use zk_model::code::NO_NODE;
use zk_model::{Body, Path, Reply, Stat};
use zn_layout::valid_path;
use zn_view::{Decision, View};
use zx_base::Memory;

fn acl_reply(stat: Option<Stat>) -> Reply
    ensures { result ≡ acl_reply stat }
{
    match stat {
        Some(stat) => Reply::Good(Body::OpenAcl(stat)),
        None => Reply::Refused(NO_NODE),
    }
}

fn get_acl_at(alloc: Global, path: &Path, view: &View) -> Result<Decision, Memory>
    requires { IsTrue (is_path path.now) }
    ensures { IfOk result (IsAnsweredBy (req.GetAcl path.now) view.now) }
{
    Ok(Decision::Answered {
        reply: acl_reply(stat_at(alloc, path, view)?),
        arm: None,
    })
}

pub(crate) fn get_acl(alloc: Global, text: &[u8], view: &View) -> Result<Decision, Memory>
    ensures { IfOk result (IsReadDecision (req.GetAcl text.now) view.now) }
{
    match valid_path(alloc, text)? {
        Some(path) => get_acl_at(alloc, &path, view),
        None => Ok(bad_path()),
    }
}
