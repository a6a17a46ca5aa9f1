//! Exists (ZooKeeper API, `exists`).

ghost use Rattle.std.specs.Prelude.{IsTrue, ◌≡◌, IfOk};
ghost use Rattle.zk_model.specs.Paths.{is_path};
ghost use Rattle.zk_model.specs.declared.request.Request.TheVariants as req;
ghost use Rattle.zn_reads.specs.Deciding.{IsAnsweredBy, IsReadDecision};
ghost use Rattle.zn_reads.specs.Replies.{exists_reply};

use crate::answer::{bad_path, watch_if};
use crate::stat::stat_at;
use std::alloc::Global;
use zk_model::code::NO_NODE;
use zk_model::{Body, Path, Reply, Stat};
use zn_layout::valid_path;
use zn_view::{Decision, View};
use zx_base::Memory;

fn exists_reply(stat: Option<Stat>) -> Reply
    ensures { result ≡ exists_reply stat }
{
    match stat {
        Some(stat) => Reply::Good(Body::Stat(stat)),
        None => Reply::Refused(NO_NODE),
    }
}

/// Arms a data watch whether the node is there or not.
fn exists_at(alloc: Global, path: &Path, watch: bool, view: &View) -> Result<Decision, Memory>
    requires { IsTrue (is_path path.now) }
    ensures { IfOk result (IsAnsweredBy (req.Exists path.now watch) view.now) }
{
    let reply = exists_reply(stat_at(alloc, path, view)?);
    let arm = watch_if(alloc, watch, false, path)?;
    Ok(Decision::Answered { reply, arm })
}

pub(crate) fn exists(
    alloc: Global,
    text: &[u8],
    watch: bool,
    view: &View,
) -> Result<Decision, Memory>
    ensures { IfOk result (IsReadDecision (req.Exists text.now watch) view.now) }
{
    match valid_path(alloc, text)? {
        Some(path) => exists_at(alloc, &path, watch, view),
        None => Ok(bad_path()),
    }
}
