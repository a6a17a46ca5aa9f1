//! GetChildren, with the node's stat or without (ZooKeeper API, `getChildren`).

ghost use Rattle.std.specs.Prelude.{IsTrue, ◌≡◌, is_some, IfOk};
ghost use Rattle.zk_model.specs.Paths.{is_path};
ghost use Rattle.zk_model.specs.declared.request.Request.TheVariants as req;
ghost use Rattle.zn_reads.specs.Deciding.{IsAnsweredBy, IsReadDecision};
ghost use Rattle.zn_reads.specs.Replies.{names_reply, names_stat_reply};

use crate::answer::{bad_path, watch_if_good};
use crate::fit::{names_and_stat_in_frame, names_in_frame};
use crate::names::names_at;
use crate::stat::{stat_at, version_at};
use std::alloc::Global;
use zk_model::code::NO_NODE;
use zk_model::{Path, Reply, Stat};
use zn_layout::valid_path;
use zn_view::{Decision, View};
use zx_base::{Memory, Seq, Text};

fn names_reply(names: Seq<Text>, is_there: bool) -> Reply
    ensures { result ≡ names_reply names is_there }
{
    if is_there {
        names_in_frame(names)
    } else {
        Reply::Refused(NO_NODE)
    }
}

fn names_stat_reply(names: Seq<Text>, stat: Option<Stat>) -> Reply
    ensures { result ≡ names_stat_reply names stat }
{
    match stat {
        Some(stat) => names_and_stat_in_frame(names, stat),
        None => Reply::Refused(NO_NODE),
    }
}

fn is_there(version: Option<i32>) -> bool
    ensures { result ≡ is_some version }
{
    matches!(version, Some(_))
}

/// Arms a child watch where the node is there and its names fit a frame.
fn get_children_at(alloc: Global, path: &Path, watch: bool, view: &View) -> Result<Decision, Memory>
    requires { IsTrue (is_path path.now) }
    ensures { IfOk result (IsAnsweredBy (req.GetChildren path.now watch) view.now) }
{
    let is_there = is_there(version_at(alloc, path, view)?);
    let reply = names_reply(names_at(alloc, path, view)?, is_there);
    let arm = watch_if_good(alloc, &reply, watch, true, path)?;
    Ok(Decision::Answered { reply, arm })
}

pub(crate) fn get_children(
    alloc: Global,
    text: &[u8],
    watch: bool,
    view: &View,
) -> Result<Decision, Memory>
    ensures { IfOk result (IsReadDecision (req.GetChildren text.now watch) view.now) }
{
    match valid_path(alloc, text)? {
        Some(path) => get_children_at(alloc, &path, watch, view),
        None => Ok(bad_path()),
    }
}

/// Arms a child watch where the node is there and its names fit a frame.
fn get_children2_at(
    alloc: Global,
    path: &Path,
    watch: bool,
    view: &View,
) -> Result<Decision, Memory>
    requires { IsTrue (is_path path.now) }
    ensures { IfOk result (IsAnsweredBy (req.GetChildren2 path.now watch) view.now) }
{
    let stat = stat_at(alloc, path, view)?;
    let reply = names_stat_reply(names_at(alloc, path, view)?, stat);
    let arm = watch_if_good(alloc, &reply, watch, true, path)?;
    Ok(Decision::Answered { reply, arm })
}

pub(crate) fn get_children2(
    alloc: Global,
    text: &[u8],
    watch: bool,
    view: &View,
) -> Result<Decision, Memory>
    ensures { IfOk result (IsReadDecision (req.GetChildren2 text.now watch) view.now) }
{
    match valid_path(alloc, text)? {
        Some(path) => get_children2_at(alloc, &path, watch, view),
        None => Ok(bad_path()),
    }
}
