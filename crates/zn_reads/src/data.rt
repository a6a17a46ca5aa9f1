//! GetData (ZooKeeper API, `getData`).

ghost use Rattle.std.specs.Prelude.{IsTrue, ◌≡◌, IfOk};
ghost use Rattle.zk_model.specs.Paths.{is_path};
ghost use Rattle.zk_model.specs.declared.request.Request.TheVariants as req;
ghost use Rattle.zn_reads.specs.Deciding.{IsAnsweredBy, IsReadDecision};
ghost use Rattle.zn_reads.specs.Replies.{data_reply};

use crate::answer::{bad_path, watch_if_good};
use crate::stat::{content_at, stat_at};
use std::alloc::Global;
use zk_model::code::NO_NODE;
use zk_model::{Body, Path, Reply, Stat};
use zn_layout::valid_path;
use zn_view::{Decision, View};
use zx_base::{Bytes, Memory};

fn data_reply(content: Bytes, stat: Option<Stat>) -> Reply
    ensures { result ≡ data_reply content stat }
{
    match stat {
        Some(stat) => Reply::Good(Body::Content(content, stat)),
        None => Reply::Refused(NO_NODE),
    }
}

/// Arms a data watch where the node is there.
fn get_data_at(alloc: Global, path: &Path, watch: bool, view: &View) -> Result<Decision, Memory>
    requires { IsTrue (is_path path.now) }
    ensures { IfOk result (IsAnsweredBy (req.GetData path.now watch) view.now) }
{
    let stat = stat_at(alloc, path, view)?;
    let reply = data_reply(content_at(alloc, path, view)?, stat);
    let arm = watch_if_good(alloc, &reply, watch, false, path)?;
    Ok(Decision::Answered { reply, arm })
}

pub(crate) fn get_data(
    alloc: Global,
    text: &[u8],
    watch: bool,
    view: &View,
) -> Result<Decision, Memory>
    ensures { IfOk result (IsReadDecision (req.GetData text.now watch) view.now) }
{
    match valid_path(alloc, text)? {
        Some(path) => get_data_at(alloc, &path, watch, view),
        None => Ok(bad_path()),
    }
}
