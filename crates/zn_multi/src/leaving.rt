//! What the parts of a multi leave, as far as later parts look at it. It tells, before all is looked up, whether the parts are
//! carried out and which number a sequence node gets.

ghost use Rattle.std.specs.Prelude.{◌≡◌, ◌&&◌, not, if◌then◌else◌, ◌≤◌, ◌<◌, ◌+◌, ◌^◌, ◌≤ℤ◌, pos, nat_abs, length, option_map, ◌<ℤ◌, Option, Some, None, IfOk, IfSome, IsTrue};
ghost use Rattle.std.specs.Ordering.{int_eq};
ghost use Rattle.zk_model.specs.Limits.{max_parts, max_path, max_version};
ghost use Rattle.zk_model.specs.Paths.{is_path};
ghost use Rattle.zn_layout.specs.Counts.{one_less, one_more as one_more_of};
ghost use Rattle.zn_layout.specs.Keys.{DataKey, CountsKey, SessionKey, key_bytes};
ghost use Rattle.zk_model.specs.Single.{matches as matches_version};
ghost use Rattle.zn_layout.specs.Records.{IsCountRec};
ghost use Rattle.zn_view.specs.declared.leaving.NodeNow.{NodeNow as AnyNode};
ghost use Rattle.zn_view.specs.declared.leaving.TreeChange.TheVariants as changed;
ghost use Rattle.zn_multi.specs.Reading.{AreSmall, IfLeft};
ghost use Rattle.zn_view.specs.Leaving.{counted as counted_as, set_once as set_once_more, node_with as node_with_change, counts_with as counts_with_change, room_with as room_with_change, node_after as node_after_all, counts_after as counts_after_all, room_after as room_after_all, with_change as with_one_change, create_change as change_of_create, delete_change as change_of_delete, set_change as change_of_set, is_checked as is_checked_in, IsNodeShown, AreCountsShown, IsRoomShown, IsNodeNow, AreCountsNow, IsRoomNow, IsRoomFor, NodeLeaves, DeleteLeaves, SetLeaves, CheckLeaves};
ghost use Rattle.zn_view.specs.Lookups.{HasSeen, sees};
ghost use Rattle.zn_view.specs.Seen.{seen};

use crate::creator::{Creator, creator_id};
use crate::looked::{are_counts_seen, is_owner_seen, is_parent_seen};
use std::alloc::Global;
use zk_model::Path;
use zk_model::limit::{MAX_CREATES, MAX_VERSION};
use zn_layout::{CountRec, FIRST_COUNTS, counts_key, data_key, fewer, one_more, session_key};
use zn_view::{NodeNow, TreeChange, View};
use zx_base::{Memory, Seq};

/// The changes of the tree that the parts so far make, in turn: none where one of them is not carried out, or where the view does
/// not show yet whether it is.
pub(crate) type Left = Option<Seq<TreeChange>>;

/// The node with its data set once more.
fn set_once(node: Option<Option<NodeNow>>) -> Option<Option<NodeNow>>
    requires { IfSome node (λ o. IfSome o (λ n. n.version <ℤ pos (2 ^ 62))) }
    ensures { result ≡ option_map (option_map set_once_more) node }
{
    match node {
        Some(Some(node)) => Some(Some(NodeNow {
            version: node.version + 1,
            owner: node.owner,
        })),
        Some(None) => Some(None),
        None => None,
    }
}

/// The node at a path after one change more.
fn node_with(
    node: Option<Option<NodeNow>>,
    path: &Path,
    change: &TreeChange,
) -> Option<Option<NodeNow>>
    requires { IfSome node (λ o. IfSome o (λ n. n.version <ℤ pos (2 ^ 62))) }
    ensures { result ≡ node_with_change path.now node change.now }
{
    match change {
        TreeChange::Created { path: other, owner } => {
            if other.bytes() != path.bytes() {
                return node;
            }
            Some(Some(NodeNow {
                version: 0,
                owner: *owner,
            }))
        }
        TreeChange::Deleted { path: other, .. } => {
            if other.bytes() != path.bytes() {
                return node;
            }
            Some(None)
        }
        TreeChange::DataSet(other) => {
            if other.bytes() != path.bytes() {
                return node;
            }
            set_once(node)
        }
    }
}

/// The node at a path after these changes.
fn node_after(
    changes: &[TreeChange],
    path: &Path,
    node: Option<Option<NodeNow>>,
) -> Option<Option<NodeNow>>
    requires few { length changes.now ≤ max_parts }
    requires within { IfSome node (λ o. IfSome o (λ n. n.version ≤ℤ max_version)) }
    ensures { result ≡ node_after_all changes.now path.now node }
{
    let mut node = node;
    for change in changes {
        node = node_with(node, path, change);
    }
    node
}

/// Counts with one child more.
fn one_child_more(counts: Option<Option<CountRec>>) -> Option<Option<CountRec>>
    requires { IfSome counts (λ o. IfSome o AreSmall) }
    ensures { result ≡ option_map (option_map one_more_of) counts }
{
    match counts {
        Some(Some(counts)) => Some(Some(one_more(&counts))),
        Some(None) => Some(None),
        None => None,
    }
}

/// Counts with one child less.
fn one_child_less(counts: Option<Option<CountRec>>) -> Option<Option<CountRec>>
    requires { IfSome counts (λ o. IfSome o AreSmall) }
    ensures { result ≡ option_map (option_map one_less) counts }
{
    match counts {
        Some(Some(counts)) => Some(Some(fewer(&counts, 1))),
        Some(None) => Some(None),
        None => None,
    }
}

/// The counts of the node at a path after one change more.
fn counts_with(
    counts: Option<Option<CountRec>>,
    path: &Path,
    change: &TreeChange,
) -> Option<Option<CountRec>>
    requires { IfSome counts (λ o. IfSome o AreSmall) }
    ensures { result ≡ counts_with_change path.now counts change.now }
{
    match change {
        TreeChange::Created { path: other, .. } => {
            if other.bytes() == path.bytes() {
                return Some(Some(FIRST_COUNTS));
            }
            if !other.is_child_of(path.bytes()) {
                return counts;
            }
            one_child_more(counts)
        }
        TreeChange::Deleted { path: other, .. } => {
            if other.bytes() == path.bytes() {
                return Some(None);
            }
            if !other.is_child_of(path.bytes()) {
                return counts;
            }
            one_child_less(counts)
        }
        TreeChange::DataSet(_) => counts,
    }
}

/// The counts of the node at a path after these changes.
fn counts_after(
    changes: &[TreeChange],
    path: &Path,
    counts: Option<Option<CountRec>>,
) -> Option<Option<CountRec>>
    requires few { length changes.now ≤ max_parts }
    requires within { IfSome counts (λ o. IfSome o IsCountRec) }
    ensures { result ≡ counts_after_all changes.now path.now counts }
{
    let mut counts = counts;
    for change in changes {
        counts = counts_with(counts, path, change);
    }
    counts
}

/// How many nodes more a session may own after one change more.
fn room_with(room: usize, session: i64, change: &TreeChange) -> usize
    requires { room < 2 ^ 62 }
    ensures { result ≡ room_with_change session room change.now }
{
    match change {
        TreeChange::Created { owner, .. } => {
            if *owner == session {
                room.saturating_sub(1)
            } else {
                room
            }
        }
        TreeChange::Deleted { owner, .. } => { if *owner == session { room + 1 } else { room } }
        TreeChange::DataSet(_) => room,
    }
}

/// How many nodes more a session may own after these changes.
fn room_after(changes: &[TreeChange], session: i64, room: usize) -> usize
    requires few { length changes.now ≤ max_parts }
    requires within { room < 2 ^ 31 }
    ensures { result ≡ room_after_all changes.now session room }
{
    let mut room = room;
    for change in changes {
        room = room_with(room, session, change);
    }
    room
}

/// The node that the view shows. Its key was looked up.
fn node_shown(view: &View, path: &Path) -> Result<Option<NodeNow>, Memory>
    requires valid { IsTrue (is_path path.now) }
    requires seen { HasSeen view.now (DataKey path.now) }
    ensures is { IfOk result (λ n. IsNodeShown (sees view.now (DataKey path.now)) (Some n)) }
    ensures within { IfOk result (λ o. IfSome o (λ n. n.version ≤ℤ max_version)) }
{
    let Some((node, _)) = view.node_at(path.bytes())? else {
        return Ok(None);
    };
    Ok(Some(NodeNow {
        version: i64::from(node.version),
        owner: node.owner,
    }))
}

/// The node that the view shows; none where its record was not looked up.
fn shown_node(alloc: Global, view: &View, path: &Path) -> Result<Option<Option<NodeNow>>, Memory>
    requires { IsTrue (is_path path.now) }
    ensures is { IfOk result (IsNodeShown (seen view.now (key_bytes (DataKey path.now)))) }
    ensures within { IfOk result (λ x. IfSome x (λ o. IfSome o (λ n. n.version ≤ℤ max_version))) }
{
    let key = data_key(alloc, path.bytes())?;
    match view.found(key.as_slice()) {
        Some(_) => Ok(Some(node_shown(view, path)?)),
        None => Ok(None),
    }
}

/// The node at a path after these changes; none where neither they nor the view tell.
fn node_now(
    alloc: Global,
    view: &View,
    changes: &[TreeChange],
    path: &Path,
) -> Result<Option<Option<NodeNow>>, Memory>
    requires valid { IsTrue (is_path path.now) }
    requires few { length changes.now ≤ max_parts }
    ensures { IfOk result (IsNodeNow view.now changes.now path.now) }
{
    let shown = shown_node(alloc, view, path)?;
    Ok(node_after(changes, path, shown))
}

/// The counts that the view shows. Their key was looked up.
fn counts_shown(view: &View, path: &Path) -> Result<Option<CountRec>, Memory>
    requires valid { IsTrue (is_path path.now) }
    requires seen { HasSeen view.now (CountsKey path.now) }
    ensures is { IfOk result (λ c. AreCountsShown (sees view.now (CountsKey path.now)) (Some c)) }
    ensures within { IfOk result (λ o. IfSome o IsCountRec) }
{
    match view.counts_at(path.bytes())? {
        Some((counts, _)) => Ok(Some(counts)),
        None => Ok(None),
    }
}

/// The counts of a node, by the record of them: without one it has none, if it is there.
fn counted(
    node: &Option<Option<NodeNow>>,
    counts: Option<Option<CountRec>>,
) -> Option<Option<CountRec>>
    requires { IfSome counts (λ o. IfSome o IsCountRec) }
    ensures is { result ≡ counted_as node.now counts }
    ensures within { IfSome result (λ o. IfSome o IsCountRec) }
{
    match counts {
        Some(None) => match node {
            Some(Some(_)) => Some(Some(FIRST_COUNTS)),
            Some(None) => Some(None),
            None => None,
        },
        counts => counts,
    }
}

/// The counts of the node at a path after these changes; none where neither they nor the view tell.
pub(crate) fn counts_now(
    alloc: Global,
    view: &View,
    changes: &[TreeChange],
    path: &Path,
) -> Result<Option<Option<CountRec>>, Memory>
    requires valid { IsTrue (is_path path.now) }
    requires few { length changes.now ≤ max_parts }
    ensures { IfOk result (AreCountsNow view.now changes.now path.now) }
{
    let key = counts_key(alloc, path.bytes())?;
    let shown = match view.found(key.as_slice()) {
        Some(_) => Some(counts_shown(view, path)?),
        None => None,
    };
    let node = shown_node(alloc, view, path)?;
    Ok(counts_after(changes, path, counted(&node, shown)))
}

/// How many nodes more a session may own, as the view shows it. The key of their list was looked up.
fn room_shown(view: &View, session: i64) -> Result<usize, Memory>
    requires real { pos 1 ≤ℤ session }
    requires seen { HasSeen view.now (SessionKey (nat_abs session)) }
    ensures is { IfOk result (λ n. IsRoomShown (sees view.now (SessionKey (nat_abs session))) (Some n)) }
    ensures within { IfOk result (λ n. n < 2 ^ 31) }
{
    match view.nodes_of(session)? {
        Some(nodes) => Ok(nodes.layout.max_owned().saturating_sub(nodes.paths.len())),
        None => Ok(0),
    }
}

/// How many nodes more a session may own after these changes; none where the view does not show it.
fn room_now(
    alloc: Global,
    view: &View,
    changes: &[TreeChange],
    session: i64,
) -> Result<Option<usize>, Memory>
    requires real { pos 1 ≤ℤ session }
    requires few { length changes.now ≤ max_parts }
    ensures { IfOk result (IsRoomNow view.now changes.now session) }
{
    let key = session_key(alloc, session)?;
    if view.found(key.as_slice()).is_none() {
        return Ok(None);
    }
    Ok(Some(room_after(changes, session, room_shown(view, session)?)))
}

/// How many nodes more the session may own, if a new node is to be one of them; 1 otherwise.
fn room_for(
    alloc: Global,
    view: &View,
    changes: &[TreeChange],
    by: &Creator,
) -> Result<Option<usize>, Memory>
    requires real { pos 1 ≤ℤ by.now.session }
    requires few { length changes.now ≤ max_parts }
    ensures { IfOk result (IsRoomFor view.now changes.now by.now.ephemeral by.now.session) }
{
    if !by.ephemeral {
        return Ok(Some(1));
    }
    room_now(alloc, view, changes, by.session)
}

/// The changes with one more; none where that is none.
fn with_change(changes: Seq<TreeChange>, change: Option<TreeChange>) -> Result<Left, Memory>
    ensures { IfOk result (λ next. next ≡ with_one_change changes change) }
{
    let Some(change) = change else {
        return Ok(None);
    };
    let mut changes = changes;
    changes.push(change)?;
    Ok(Some(changes))
}

/// A create's change.
fn create_change(
    path: Path,
    owner: i64,
    up: Option<Option<NodeNow>>,
    counts: Option<Option<CountRec>>,
    there: Option<Option<NodeNow>>,
    room: Option<usize>,
) -> Option<TreeChange>
    ensures { result ≡ change_of_create path owner up counts there room }
{
    let Some(Some(up)) = up else {
        return None;
    };
    let Some(Some(counts)) = counts else {
        return None;
    };
    let Some(None) = there else {
        return None;
    };
    let Some(room) = room else {
        return None;
    };
    if up.owner == 0 && (counts.creates != MAX_CREATES && 0 < room) {
        return Some(TreeChange::Created { path, owner });
    }
    None
}

/// What a create below a parent leaves, by the path of its node, if that is known.
pub(crate) fn create_leaves(
    alloc: Global,
    view: &View,
    changes: Seq<TreeChange>,
    by: &Creator,
    parent: &Path,
    counts: Option<Option<CountRec>>,
    node: Option<Path>,
) -> Result<Left, Memory>
    requires real { pos 1 ≤ℤ by.now.session }
    requires parent { IsTrue (is_path parent.now) }
    requires valid { IfSome node (λ p. IsTrue (is_path p)) }
    requires few { length changes ≤ max_parts }
    ensures { IfOk result (λ next. (up : Option (Option AnyNode)) × IsNodeNow view.now changes parent.now up × NodeLeaves view.now changes by.now.ephemeral by.now.session up counts node next) }
{
    let up = node_now(alloc, view, changes.as_slice(), parent)?;
    let Some(node) = node else {
        return Ok(None);
    };
    let there = node_now(alloc, view, changes.as_slice(), &node)?;
    let room = room_for(alloc, view, changes.as_slice(), by)?;
    let owner = creator_id(by);
    with_change(changes, create_change(node, owner, up, counts, there, room))
}

/// Whether a version that was asked for is this one; -1 is any.
fn matches(asked: i32, version: i64) -> bool
    ensures { result ≡ matches_version asked version }
{
    asked == -1 || i64::from(asked) == version
}

/// Whether a node is in the version that a delete asks for and has no children.
fn is_deletable(version: i32, node: NodeNow, counts: CountRec) -> bool
    ensures { result ≡ (matches_version version node.version && int_eq counts.children (pos 0)) }
{
    matches(version, node.version) && counts.children == 0
}

/// The change of a delete that passes, once what it writes besides was looked up.
fn deleted(path: Path, node: NodeNow, passes: bool, parent: bool, owner: bool) -> Option<TreeChange>
    ensures { result ≡ (if passes && (parent && owner) then Some (changed.Deleted path node.owner) else None) }
{
    if passes && (parent && owner) {
        return Some(TreeChange::Deleted {
            path,
            owner: node.owner,
        });
    }
    None
}

/// A delete's change.
fn delete_change(
    alloc: Global,
    view: &View,
    path: Path,
    version: i32,
    node: Option<Option<NodeNow>>,
    counts: Option<Option<CountRec>>,
) -> Result<Option<TreeChange>, Memory>
    requires { length path ≤ max_path }
    ensures { IfOk result (λ change. change ≡ change_of_delete view.now path version node counts) }
{
    let Some(Some(node)) = node else {
        return Ok(None);
    };
    let Some(Some(counts)) = counts else {
        return Ok(None);
    };
    let passes = is_deletable(version, node, counts);
    let parent = is_parent_seen(alloc, view, &path)?;
    let owner = is_owner_seen(alloc, view, node)?;
    Ok(deleted(path, node, passes, parent, owner))
}

/// What a delete of a valid path leaves.
pub(crate) fn delete_leaves(
    alloc: Global,
    view: &View,
    left: Left,
    path: Path,
    version: i32,
) -> Result<Left, Memory>
    requires { IfSome left (λ changes. length changes ≤ max_parts) }
    ensures { IfOk result (IfLeft left (λ changes next. DeleteLeaves view.now changes path version next)) }
{
    let Some(changes) = left else {
        return Ok(None);
    };
    let node = node_now(alloc, view, changes.as_slice(), &path)?;
    let counts = counts_now(alloc, view, changes.as_slice(), &path)?;
    let change = delete_change(alloc, view, path, version, node, counts)?;
    with_change(changes, change)
}

/// Whether a node is in the version that a setData asks for, and this is not the greatest.
fn is_settable(version: i32, node: NodeNow) -> bool
    ensures { result ≡ (matches_version version node.version && not (int_eq node.version max_version)) }
{
    matches(version, node.version) && node.version != i64::from(MAX_VERSION)
}

/// The change of a setData that passes, once what it writes besides was looked up.
fn data_set(path: Path, passes: bool, looked: bool) -> Option<TreeChange>
    ensures { result ≡ (if passes && looked then Some (changed.DataSet path) else None) }
{
    if passes && looked {
        return Some(TreeChange::DataSet(path));
    }
    None
}

/// A setData's change.
fn set_change(
    alloc: Global,
    view: &View,
    path: Path,
    version: i32,
    node: Option<Option<NodeNow>>,
) -> Result<Option<TreeChange>, Memory>
    requires { length path ≤ max_path }
    ensures { IfOk result (λ change. change ≡ change_of_set view.now path version node) }
{
    let Some(Some(node)) = node else {
        return Ok(None);
    };
    let passes = is_settable(version, node);
    let looked = are_counts_seen(alloc, view, &path)?;
    Ok(data_set(path, passes, looked))
}

/// What a setData of a valid path leaves.
pub(crate) fn set_leaves(
    alloc: Global,
    view: &View,
    left: Left,
    path: Path,
    version: i32,
) -> Result<Left, Memory>
    requires { IfSome left (λ changes. length changes ≤ max_parts) }
    ensures { IfOk result (IfLeft left (λ changes next. SetLeaves view.now changes path version next)) }
{
    let Some(changes) = left else {
        return Ok(None);
    };
    let node = node_now(alloc, view, changes.as_slice(), &path)?;
    let change = set_change(alloc, view, path, version, node)?;
    with_change(changes, change)
}

/// Whether a check passes.
fn is_checked(version: i32, node: Option<Option<NodeNow>>) -> bool
    ensures { result ≡ is_checked_in version node }
{
    match node {
        Some(Some(node)) => matches(version, node.version),
        Some(None) | None => false,
    }
}

/// What a check of a valid path leaves.
pub(crate) fn check_leaves(
    alloc: Global,
    view: &View,
    left: Left,
    path: &Path,
    version: i32,
) -> Result<Left, Memory>
    requires valid { IsTrue (is_path path.now) }
    requires few { IfSome left (λ changes. length changes ≤ max_parts) }
    ensures { IfOk result (IfLeft left (λ changes next. CheckLeaves view.now changes path.now version next)) }
{
    let Some(changes) = left else {
        return Ok(None);
    };
    let node = node_now(alloc, view, changes.as_slice(), path)?;
    if is_checked(version, node) {
        return Ok(Some(changes));
    }
    Ok(None)
}
