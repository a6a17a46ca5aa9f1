//! Reads, and the watches that they arm (Programmer's Guide, "ZooKeeper Watches").

ghost use Rattle.std.specs.Prelude.{◌≡◌, Some, IfOk, IfErr};
ghost use Rattle.std.specs.FinMap.{get};
ghost use Rattle.zk_model.specs.declared.reply.Body.TheVariants as body;
ghost use Rattle.zk_service.specs.Answers.{about, armed_data, armed_children};
ghost use Rattle.zk_model.specs.Znodes.{stat_of};
ghost use Rattle.zk_machine.specs.Faults.{BeyondUnless, IsWithin};
ghost use Rattle.zk_answers.specs.Outcomes.{told_of};
ghost use Rattle.zk_answers.specs.Reads.{told_of_children, told_of_children2, told_of_data, told_of_exists};

use crate::told::{Told, good, refused};
use crate::watches::Watches;
use std::alloc::Global;
use zk_machine::{Fault, Tree, stat};
use zk_model::code::{NO_NODE, SYSTEM_ERROR};
use zk_model::{Body, Node, Stat};
use zk_service::{names_and_stat_fit, names_fit};
use zx_base::{Bytes, Memory, Text};

/// The watches, with a data watch on the path where one is asked for.
fn armed_data(
    alloc: Global,
    is_watched: bool,
    path: &[u8],
    watches: &Watches,
) -> Result<Watches, Memory>
    ensures { IfOk result (λ w. w ≡ armed_data is_watched path.now watches.now) }
{
    let kept = watches.copy()?;
    if is_watched {
        kept.arm_data(alloc, path)
    } else {
        Ok(kept)
    }
}

/// The watches, with a child watch on the path where one is asked for.
fn armed_children(
    alloc: Global,
    is_watched: bool,
    path: &[u8],
    watches: &Watches,
) -> Result<Watches, Memory>
    ensures { IfOk result (λ w. w ≡ armed_children is_watched path.now watches.now) }
{
    let kept = watches.copy()?;
    if is_watched {
        kept.arm_children(alloc, path)
    } else {
        Ok(kept)
    }
}

/// The Stat of the node at a path of the tree.
fn stat_at(tree: &Tree, path: &[u8], node: &Node) -> Result<Stat, Fault>
    requires { get tree.now path.now ≡ Some node.now }
    ensures ok { IfOk result (λ s. s ≡ stat_of tree.now path.now node.now) }
    ensures beyond { IfErr result (BeyondUnless (IsWithin tree.now)) }
{
    stat(node, tree.num_children(path))
}

/// The answer to an exists, which arms its data watch also where there is no node.
pub fn exists(
    alloc: Global,
    tree: &Tree,
    watches: &Watches,
    path: &Text,
    is_watched: bool,
) -> Result<Told, Fault>
    ensures ok { IfOk result (λ t. Some (told_of t) ≡ told_of_exists tree.now watches.now path.now is_watched) }
    ensures beyond { IfErr result (BeyondUnless (IsWithin tree.now)) }
{
    let armed = armed_data(alloc, is_watched, path.as_slice(), watches)?;
    match tree.get(path.as_slice()) {
        None => Ok(refused(alloc, armed, NO_NODE)),
        Some(node) => Ok(good(
            alloc,
            armed,
            Body::Stat(stat_at(tree, path.as_slice(), node)?),
        )),
    }
}

/// The answer to a getData, which arms its data watch only where there is a node.
pub fn get_data(
    alloc: Global,
    tree: &Tree,
    watches: &Watches,
    path: &Text,
    is_watched: bool,
) -> Result<Told, Fault>
    ensures ok { IfOk result (λ t. Some (told_of t) ≡ told_of_data tree.now watches.now path.now is_watched) }
    ensures beyond { IfErr result (BeyondUnless (IsWithin tree.now)) }
{
    let Some(node) = tree.get(path.as_slice()) else {
        return Ok(refused(alloc, watches.copy()?, NO_NODE));
    };
    let content = Bytes::copy_of(alloc, node.content.as_slice())?;
    let armed = armed_data(alloc, is_watched, path.as_slice(), watches)?;
    let shown = stat_at(tree, path.as_slice(), node)?;
    Ok(good(alloc, armed, Body::Content(content, shown)))
}

/// The answer to a getACL: each node has the one access list.
pub fn get_acl(alloc: Global, tree: &Tree, watches: &Watches, path: &Text) -> Result<Told, Fault>
    ensures ok { IfOk result (λ t. Some (told_of t) ≡ about watches.now watches.now (get tree.now path.now) (λ n. body.OpenAcl (stat_of tree.now path.now n))) }
    ensures beyond { IfErr result (BeyondUnless (IsWithin tree.now)) }
{
    let Some(node) = tree.get(path.as_slice()) else {
        return Ok(refused(alloc, watches.copy()?, NO_NODE));
    };
    let shown = stat_at(tree, path.as_slice(), node)?;
    Ok(good(alloc, watches.copy()?, Body::OpenAcl(shown)))
}

/// The answer to a getChildren: the children's names in the order of their bytes. It arms its child watch where there is a node;
/// a reply that does not fit a frame is refused, and arms nothing.
pub fn get_children(
    alloc: Global,
    tree: &Tree,
    watches: &Watches,
    path: &Text,
    is_watched: bool,
) -> Result<Told, Memory>
    ensures { IfOk result (λ t. Some (told_of t) ≡ told_of_children tree.now watches.now path.now is_watched) }
{
    if tree.get(path.as_slice()).is_none() {
        return Ok(refused(alloc, watches.copy()?, NO_NODE));
    }
    let names = tree.child_names(alloc, path.as_slice())?;
    if !names_fit(names.as_slice()) {
        return Ok(refused(alloc, watches.copy()?, SYSTEM_ERROR));
    }
    let armed = armed_children(alloc, is_watched, path.as_slice(), watches)?;
    Ok(good(alloc, armed, Body::Names(names)))
}

/// The answer to a getChildren2, which is that to a getChildren with the node's Stat.
pub fn get_children2(
    alloc: Global,
    tree: &Tree,
    watches: &Watches,
    path: &Text,
    is_watched: bool,
) -> Result<Told, Fault>
    ensures ok { IfOk result (λ t. Some (told_of t) ≡ told_of_children2 tree.now watches.now path.now is_watched) }
    ensures beyond { IfErr result (BeyondUnless (IsWithin tree.now)) }
{
    let Some(node) = tree.get(path.as_slice()) else {
        return Ok(refused(alloc, watches.copy()?, NO_NODE));
    };
    let shown = stat_at(tree, path.as_slice(), node)?;
    let names = tree.child_names(alloc, path.as_slice())?;
    if !names_and_stat_fit(names.as_slice(), &shown) {
        return Ok(refused(alloc, watches.copy()?, SYSTEM_ERROR));
    }
    let armed = armed_children(alloc, is_watched, path.as_slice(), watches)?;
    Ok(good(alloc, armed, Body::NamesStat(names, shown)))
}
