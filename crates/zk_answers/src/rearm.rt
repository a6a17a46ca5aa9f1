//! setWatches: what a client that was away is told at once, and what is armed (zookeeper.jute, `SetWatches`).

ghost use Rattle.std.specs.Prelude.{◌≡◌, option_map, IfOk};
ghost use Rattle.zk_model.specs.Paths.{is_path};
ghost use Rattle.zk_model.specs.Watches.{tell, see_data, see_exist, see_children, see_all, set_watches, valid_at, arm_data, arm_children};
ghost use Rattle.zk_answers.specs.Outcomes.{seen_of};

use crate::watches::{Seen, Watches};
use std::alloc::Global;
use zk_machine::Tree;
use zk_model::event::{CHANGED, CHILDREN, CREATED, DELETED};
use zk_model::{Node, Notice, read_path};
use zx_base::{Memory, Seq, Text};

fn is_path(alloc: Global, text: &[u8]) -> Result<bool, Memory>
    ensures { IfOk result (λ b. b ≡ is_path text.now) }
{
    Ok(read_path(alloc, text, false)?.is_some())
}

/// The node at a text, or `None` where the text is not a valid path.
fn valid_at<'a>(alloc: Global, tree: &'a Tree, text: &[u8]) -> Result<Option<&'a Node>, Memory>
    ensures { IfOk result (λ o. option_map (λ n. n.now) o ≡ valid_at text.now tree.now) }
{
    if is_path(alloc, text)? {
        Ok(tree.get(text))
    } else {
        Ok(None)
    }
}

/// What was seen so far, with one more notice.
fn tell(alloc: Global, seen: Seen, kind: u8, path: &[u8]) -> Result<Seen, Memory>
    ensures { IfOk result (λ s. seen_of s ≡ tell (seen_of seen) kind path.now) }
{
    let mut notices = seen.notices;
    notices.push(Notice {
        kind: i32::from(kind),
        path: Text::copy_of(alloc, path)?,
    })?;
    Ok(Seen {
        watches: seen.watches,
        notices,
    })
}

fn armed_data(alloc: Global, seen: Seen, path: &[u8]) -> Result<Seen, Memory>
    ensures { IfOk result (λ s. seen_of s ≡ record (seen_of seen) { watches = arm_data seen.watches path.now }) }
{
    Ok(Seen {
        watches: seen.watches.arm_data(alloc, path)?,
        notices: seen.notices,
    })
}

fn armed_children(alloc: Global, seen: Seen, path: &[u8]) -> Result<Seen, Memory>
    ensures { IfOk result (λ s. seen_of s ≡ record (seen_of seen) { watches = arm_children seen.watches path.now }) }
{
    Ok(Seen {
        watches: seen.watches.arm_children(alloc, path)?,
        notices: seen.notices,
    })
}

/// Sees a data path: the client has a data watch on a node that was there.
fn see_data(alloc: Global, tree: &Tree, since: i64, seen: Seen, path: &[u8]) -> Result<Seen, Memory>
    ensures { IfOk result (λ s. seen_of s ≡ see_data since (seen_of seen) path.now (valid_at path.now tree.now)) }
{
    match valid_at(alloc, tree, path)? {
        None => tell(alloc, seen, DELETED, path),
        Some(node) if since < node.mzxid => tell(alloc, seen, CHANGED, path),
        Some(_) => armed_data(alloc, seen, path),
    }
}

/// Sees an exist path: the client has a data watch on a node that was not there.
fn see_exist(alloc: Global, tree: &Tree, seen: Seen, path: &[u8]) -> Result<Seen, Memory>
    ensures { IfOk result (λ s. seen_of s ≡ see_exist (is_path path.now) (seen_of seen) path.now (valid_at path.now tree.now)) }
{
    match valid_at(alloc, tree, path)? {
        Some(_) => tell(alloc, seen, CREATED, path),
        None if is_path(alloc, path)? => armed_data(alloc, seen, path),
        None => Ok(seen),
    }
}

/// Sees a child path: the client has a child watch on it.
fn see_children(
    alloc: Global,
    tree: &Tree,
    since: i64,
    seen: Seen,
    path: &[u8],
) -> Result<Seen, Memory>
    ensures { IfOk result (λ s. seen_of s ≡ see_children since (seen_of seen) path.now (valid_at path.now tree.now)) }
{
    match valid_at(alloc, tree, path)? {
        None => tell(alloc, seen, DELETED, path),
        Some(node) if since < node.pzxid => tell(alloc, seen, CHILDREN, path),
        Some(_) => armed_children(alloc, seen, path),
    }
}

fn see_all_data(
    alloc: Global,
    tree: &Tree,
    since: i64,
    first: Seen,
    paths: &[Text],
) -> Result<Seen, Memory>
    ensures { IfOk result (λ s. seen_of s ≡ see_all (λ s p. see_data since s p (valid_at p tree.now)) (seen_of first) paths.now) }
{
    let mut seen = first;
    for path in paths {
        seen = see_data(alloc, tree, since, seen, path.as_slice())?;
    }
    Ok(seen)
}

fn see_all_exists(alloc: Global, tree: &Tree, first: Seen, paths: &[Text]) -> Result<Seen, Memory>
    ensures { IfOk result (λ s. seen_of s ≡ see_all (λ s p. see_exist (is_path p) s p (valid_at p tree.now)) (seen_of first) paths.now) }
{
    let mut seen = first;
    for path in paths {
        seen = see_exist(alloc, tree, seen, path.as_slice())?;
    }
    Ok(seen)
}

fn see_all_children(
    alloc: Global,
    tree: &Tree,
    since: i64,
    first: Seen,
    paths: &[Text],
) -> Result<Seen, Memory>
    ensures { IfOk result (λ s. seen_of s ≡ see_all (λ s p. see_children since s p (valid_at p tree.now)) (seen_of first) paths.now) }
{
    let mut seen = first;
    for path in paths {
        seen = see_children(alloc, tree, since, seen, path.as_slice())?;
    }
    Ok(seen)
}

/// Goes over the data paths, then the exist paths, then the child paths: each is told or armed. Of a data or child path it is told
/// that its node changed since the relative zxid, or is not there; of an exist path, that its node is there. A path that is not
/// valid counts as absent, and arms nothing.
#[tactic(auto, unfolding(zk_model::specs::Watches::set_watches))]
pub fn set_watches(
    alloc: Global,
    tree: &Tree,
    since: i64,
    datas: &[Text],
    exists: &[Text],
    children: &[Text],
    watches: &Watches,
) -> Result<Seen, Memory>
    ensures { IfOk result (λ s. seen_of s ≡ set_watches tree.now since datas.now exists.now children.now watches.now) }
{
    let before = Seen {
        watches: watches.copy()?,
        notices: Seq::new(alloc),
    };
    let first = see_all_data(alloc, tree, since, before, datas)?;
    let second = see_all_exists(alloc, tree, first, exists)?;
    Ok(see_all_children(alloc, tree, since, second, children)?)
}
