//! delete (ZooKeeper API, `delete`), decided on the records of the node, of its parent and of its owner.

ghost use Rattle.std.specs.Prelude.{◌^◌, ◌<◌, ◌≡◌, ◌≤◌, ◌≤ℤ◌, pos, true, option_copied, IfOk, IfSome, IsTrue};
ghost use Rattle.zk_model.specs.Paths.{is_path};
ghost use Rattle.zk_model.specs.declared.reply.PartResult.TheVariants as results;
ghost use Rattle.zn_layout.specs.Changes.{acts_of};
ghost use Rattle.zn_layout.specs.Records.{IsCountRec, IsSessionRec};
ghost use Rattle.zn_updates.specs.Choices.{Make, delete_choice, delete_here as deletes_here, delete_owned as deletes_owned, delete_changes as changes_of_delete, delete_triggers as triggers_of_delete};
ghost use Rattle.zn_updates.specs.Making.{chosen_of};
ghost use Rattle.zn_updates.specs.Seen.{IsDataWithin};
ghost use Rattle.std.specs.Prelude.{ℤ, Option, Some};
ghost use Rattle.zk_model.specs.Paths.{parent as parent_of};
ghost use Rattle.zk_model.specs.declared.request.Request.TheVariants as req;
ghost use Rattle.zn_layout.specs.Keys.{CountsKey, DataKey};
ghost use Rattle.zn_view.specs.Lookups.{HasSeen, sees};
ghost use Rattle.zn_view.specs.Needs.{AreNeeds, IsWhole};
ghost use Rattle.zn_view.specs.Deciding.{IfPlanned, IsToldByForm, is_by_tree};
ghost use Rattle.zn_updates.specs.Deciding.{IsBySound, IsDelete, IsGuarded, IsOwnerLookedUp, AreOwnerNodes, owner_seen};
ghost use Rattle.zn_updates.specs.Making.{IsDataSeen};
ghost use Rattle.zn_updates.specs.declared.seen.SeenData.{SeenData as AnySeenData};
ghost use Rattle.zn_updates.specs.Writing.{WritesAs};

use crate::changes::put_owned;
use crate::chosen::{Chosen, Update};
use crate::form::inner_path;
use crate::keys::{delete_keys, delete_wants};
use crate::owned::without_node;
use crate::plan::decision;
use crate::seen::{SeenCounts, SeenData, SeenNode, counts_seen, data_seen, nodes_seen};
use ev_types::Act;
use std::alloc::Global;
use zk_model::code::{BAD_ARGUMENTS, BAD_VERSION, NO_NODE, NOT_EMPTY, SYSTEM_ERROR};
use zk_model::version::matches;
use zk_model::{PartResult, Path, Trigger};
use zn_layout::{CountRec, SessionRec, delete_counts, delete_node, fewer, put_counts};
use zn_view::{Decision, View, Want, Who, refused};
use zx_base::{Memory, Seq};

/// Deletes the node's record, that of its counts where it `has_counts`, and puts the parent's counts with one child less.
fn delete_acts(
    alloc: Global,
    path: &Path,
    parent: &Path,
    has_counts: bool,
    above: &CountRec,
) -> Result<Seq<Act>, Memory>
    requires valid { IsTrue (is_path path.now) }
    requires parent { IsTrue (is_path parent.now) }
    requires counted { IsCountRec above.now }
    ensures { IfOk result (λ acts. acts ≡ acts_of (changes_of_delete path.now parent.now has_counts above.now)) }
{
    let mut acts = Seq::new(alloc);
    acts.push(delete_node(alloc, path.bytes())?)?;
    if has_counts {
        acts.push(delete_counts(alloc, path.bytes())?)?;
    }
    acts.push(put_counts(alloc, parent.bytes(), &fewer(above, 1))?)?;
    Ok(acts)
}

/// What watches see of the delete.
fn delete_triggers(alloc: Global, path: &Path, parent: &Path) -> Result<Seq<Trigger>, Memory>
    ensures { IfOk result (λ ts. ts ≡ triggers_of_delete path.now parent.now) }
{
    let mut triggers = Seq::new(alloc);
    triggers.push(Trigger::Deleted(path.copy(alloc)?))?;
    triggers.push(Trigger::Children(parent.copy(alloc)?))?;
    Ok(triggers)
}

/// Deletes a node without an owner.
fn delete_plain(
    alloc: Global,
    path: &Path,
    parent: &Path,
    has_counts: bool,
    above: &CountRec,
) -> Result<Update, Memory>
    requires valid { IsTrue (is_path path.now) }
    requires parent { IsTrue (is_path parent.now) }
    requires counted { IsCountRec above.now }
    ensures { IfOk result (λ u. Chosen.Made u ≡ chosen_of (Make (changes_of_delete path.now parent.now has_counts above.now) (triggers_of_delete path.now parent.now) results.Deleted)) }
{
    Ok(Update {
        acts: delete_acts(alloc, path, parent, has_counts, above)?,
        triggers: delete_triggers(alloc, path, parent)?,
        draft: PartResult::Deleted,
    })
}

/// Deletes a session's node, which goes from the session's list too.
fn delete_owned(
    alloc: Global,
    path: &Path,
    parent: &Path,
    has_counts: bool,
    above: &CountRec,
    owner: i64,
    nodes: Option<SessionRec>,
) -> Result<Chosen, Memory>
    requires valid { IsTrue (is_path path.now) }
    requires parent { IsTrue (is_path parent.now) }
    requires counted { IsCountRec above.now }
    requires real { pos 1 ≤ℤ owner }
    requires listed { IfSome nodes IsSessionRec }
    ensures { IfOk result (λ c. c ≡ chosen_of (deletes_owned path.now parent.now has_counts above.now owner nodes)) }
{
    let Some(nodes) = nodes else {
        return Ok(Chosen::Refused(SYSTEM_ERROR));
    };
    let mut update = delete_plain(alloc, path, parent, has_counts, above)?;
    let nodes = without_node(nodes, path);
    update.acts.push(put_owned(alloc, owner, &nodes)?)?;
    Ok(Chosen::Made(update))
}

fn delete_here(
    alloc: Global,
    path: &Path,
    parent: &Path,
    node: &SeenData,
    has_counts: bool,
    above: Option<&SeenCounts>,
    nodes: Option<SessionRec>,
) -> Result<Chosen, Memory>
    requires valid { IsTrue (is_path path.now) }
    requires parent { IsTrue (is_path parent.now) }
    requires within { IsDataWithin node.now }
    requires counted { IfSome (option_copied above) (λ c. IsCountRec c.counts) }
    requires listed { IfSome nodes IsSessionRec }
    ensures { IfOk result (λ c. c ≡ chosen_of (deletes_here path.now parent.now node.now has_counts (option_copied above.entry) nodes)) }
{
    let Some(above) = above else {
        return Ok(Chosen::Refused(SYSTEM_ERROR));
    };
    if node.owner == 0 {
        return Ok(Chosen::Made(delete_plain(alloc, path, parent, has_counts, &above.counts)?));
    }
    delete_owned(
        alloc,
        path,
        parent,
        has_counts,
        &above.counts,
        node.owner,
        nodes,
    )
}

/// Decides a delete by the node's record and counts, by its parent's counts, and where it has an owner by the paths of the owner's
/// nodes. Refused with NoNode where the node's record or counts are missing, with BadVersion, with NotEmpty, and with SystemError
/// where the parent's counts or the owner's paths are missing, as in no sound state.
#[tactic(auto, unfolding(crate::specs::Choices::delete_choice))]
pub fn choose_delete(
    alloc: Global,
    path: &Path,
    parent: &Path,
    version: i32,
    node: &SeenNode,
    above: Option<&SeenCounts>,
    nodes: Option<SessionRec>,
) -> Result<Chosen, Memory>
    requires valid { IsTrue (is_path path.now) }
    requires parent { IsTrue (is_path parent.now) }
    requires within { IfSome node.now.data IsDataWithin }
    requires counted { IfSome (option_copied above) (λ c. IsCountRec c.counts) }
    requires listed { IfSome nodes IsSessionRec }
    ensures { IfOk result (λ c. c ≡ chosen_of (delete_choice path.now parent.now version node.now.data node.now.counts (option_copied above.entry) nodes)) }
{
    let Some(data) = &node.data else {
        return Ok(Chosen::Refused(NO_NODE));
    };
    let Some(counts) = &node.counts else {
        return Ok(Chosen::Refused(NO_NODE));
    };
    if !matches(version, data.version) {
        return Ok(Chosen::Refused(BAD_VERSION));
    }
    if counts.counts.children != 0 {
        return Ok(Chosen::Refused(NOT_EMPTY));
    }
    delete_here(alloc, path, parent, data, counts.is_stored, above, nodes)
}

/// The record of the nodes of a node's owner, none where it has no owner.
fn owner_nodes(view: &View, node: &Option<SeenData>) -> Result<Option<SessionRec>, Memory>
    requires within { IfSome node.now IsDataWithin }
    requires seen { IsOwnerLookedUp view.now node.now }
    ensures is { IfOk result (AreOwnerNodes view.now node.now) }
    ensures within { IfOk result (λ o. IfSome o IsSessionRec) }
{
    match node {
        Some(node) if node.owner != 0 => nodes_seen(view, node.owner),
        Some(_) | None => Ok(None),
    }
}

/// The owner of a node, 0 where it has none.
fn node_owner(node: &Option<SeenData>) -> i64
    requires { IfSome node.now IsDataWithin }
    ensures is { result ≡ owner_seen node.now }
    ensures least { pos 0 ≤ℤ result }
{
    match node {
        Some(node) => node.owner,
        None => 0,
    }
}

/// Decides a delete below a parent.
fn delete_at(
    alloc: Global,
    path: &Path,
    parent: &Path,
    version: i32,
    session: i64,
    view: &View,
) -> Result<Decision, Memory>
    requires real { pos 1 ≤ℤ session }
    requires valid { IsTrue (is_path path.now) }
    requires parent { IsTrue (is_path parent.now) }
    requires node { HasSeen view.now (DataKey path.now) }
    requires counts { HasSeen view.now (CountsKey path.now) }
    requires above { HasSeen view.now (CountsKey parent.now) }
    requires owner { (x : Option AnySeenData) → IsDataSeen (sees view.now (DataKey path.now)) x → IsOwnerLookedUp view.now x }
    ensures { IfOk result (IsDelete view.now path.now version session (Some parent.now)) }
{
    let node = data_seen(view, path)?;
    let counts = counts_seen(view, path, node.as_ref())?;
    let above = counts_seen(view, parent, None)?;
    let nodes = owner_nodes(view, &node)?;
    let keys = delete_keys(alloc, session, path, parent, node_owner(&node))?;
    let here = SeenNode { data: node, counts };
    let chosen = choose_delete(alloc, path, parent, version, &here, above.as_ref(), nodes)?;
    decision(alloc, view, keys.as_slice(), chosen)
}

/// Decides a delete of a valid path that is not the root. A path without a parent has no node.
fn delete_below(
    alloc: Global,
    path: &Path,
    version: i32,
    session: i64,
    view: &View,
) -> Result<Decision, Memory>
    requires real { pos 1 ≤ℤ session }
    requires valid { IsTrue (is_path path.now) }
    requires node { HasSeen view.now (DataKey path.now) }
    requires counts { HasSeen view.now (CountsKey path.now) }
    requires above { IfSome (parent_of path.now) (λ q. HasSeen view.now (CountsKey q)) }
    requires owner { (x : Option AnySeenData) → IsDataSeen (sees view.now (DataKey path.now)) x → IsOwnerLookedUp view.now x }
    ensures { IfOk result (IsDelete view.now path.now version session (parent_of path.now)) }
{
    match path.parent(alloc)? {
        Some(parent) => delete_at(alloc, path, &parent, version, session, view),
        None => Ok(refused(NO_NODE)),
    }
}

/// Decides a delete.
pub(crate) fn decide_delete(
    alloc: Global,
    path: &[u8],
    version: i32,
    who: Who,
    now: u64,
    view: &View,
) -> Result<Decision, Memory>
    requires real { pos 1 ≤ℤ who.session }
    requires time { now < 2 ^ 62 }
    requires whole { IsWhole (req.Delete path.now version) who view.now }
    ensures form { IfOk result (IsToldByForm (req.Delete path.now version)) }
    ensures sound { IfOk result (IsBySound (req.Delete path.now version) who view.now) }
    ensures tree { IfOk result (λ d. is_by_tree d ≡ true) }
    ensures plan { IfOk result (IfPlanned (IsGuarded (req.Delete path.now version) who now view.now)) }
    ensures writes { IfOk result (IfPlanned (WritesAs (req.Delete path.now version) who view.now)) }
{
    match inner_path(alloc, path)? {
        Some(path) => delete_below(alloc, &path, version, who.session, view),
        None => Ok(refused(BAD_ARGUMENTS)),
    }
}

/// What a delete still has to look up: nothing where its form is refused.
pub(crate) fn delete_needs(
    alloc: Global,
    path: &[u8],
    who: Who,
    view: &View,
) -> Result<Seq<Want>, Memory>
    requires real { pos 1 ≤ℤ who.session }
    ensures { IfOk result (λ ws. (version : ℤ) → AreNeeds (req.Delete path.now version) who view.now ws) }
{
    match inner_path(alloc, path)? {
        Some(path) => delete_wants(alloc, view, who.session, &path, &path.parent(alloc)?),
        None => Ok(Seq::new(alloc)),
    }
}
