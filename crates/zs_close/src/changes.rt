//! The operations at the end of a session, and what watches see of it.

ghost use Rattle.std.specs.Prelude.{◌≡◌, ◌≤◌, ◌≤ℤ◌, ◌∷◌, ◌++◌, [], List, Option, All, pos, IfOk, IsTrue, OnOk};
ghost use Rattle.std.specs.List.{count_by};
ghost use Rattle.zk_model.specs.Paths.{is_child, is_path};
ghost use Rattle.zn_layout.specs.declared.record.CountRec.{CountRec as AnyCounts};
ghost use Rattle.zn_layout.specs.Changes.{act_of, acts_of, put_key};
ghost use Rattle.zn_layout.specs.Keys.{CountsKey};
ghost use Rattle.zn_layout.specs.Records.{counts_value, IsCountRec};
ghost use Rattle.zx_base.specs.Maps.{Bytes as ByteList};
ghost use Rattle.zn_view.specs.Lookups.{HasSeen};
ghost use Rattle.zs_close.specs.Closing.{AreWritesAfter, PutsParent, TellsCounts};
ghost use Rattle.zn_layout.specs.Counts.{fewer as fewer_of};
ghost use Rattle.zs_close.specs.Ending.{delete_nodes, delete_session, end_changes, end_triggers as triggers_of_end, parents as parents_once, put_parents};

use crate::parents::{children_among, parents};
use ev_types::Act;
use std::alloc::Global;
use zk_model::{Layout, Path, Trigger};
use zn_layout::{
    CountRec, SessionRec, delete_counts, delete_node, fewer, has_counts, lease_key, put_counts,
    session_key,
};
use zn_view::View;
use zx_base::{Memory, Seq};

/// Deletes the session's own keys: the list of its nodes, and the record of its life if it is alive.
fn delete_own(alloc: Global, alive: bool, session: i64) -> Result<Seq<Act>, Memory>
    requires { pos 1 ≤ℤ session }
    ensures { IfOk result (λ acts. acts ≡ acts_of (delete_session alive session)) }
{
    let mut acts = Seq::new(alloc);
    if alive {
        acts.push(Act::Delete {
            key: lease_key(alloc, session)?,
        })?;
    }
    acts.push(Act::Delete {
        key: session_key(alloc, session)?,
    })?;
    Ok(acts)
}

/// Deletes the keys of a node of a session of this layout.
fn push_node(acts: &mut Seq<Act>, alloc: Global, layout: Layout, path: &Path) -> Result<(), Memory>
    requires { IsTrue (is_path path.now) }
    ensures { OnOk result ((rest : List ByteList) → acts.new ++ acts_of (delete_nodes layout rest) ≡ acts.old ++ acts_of (delete_nodes layout (path.now ∷ rest))) }
{
    acts.push(delete_node(alloc, path.bytes())?)?;
    if has_counts(layout) {
        acts.push(delete_counts(alloc, path.bytes())?)?;
    }
    Ok(())
}

fn push_nodes(
    acts: &mut Seq<Act>,
    alloc: Global,
    layout: Layout,
    paths: &[Path],
) -> Result<(), Memory>
    requires { All (λ p. IsTrue (is_path p)) paths.now }
    ensures { OnOk result (acts.new ≡ acts.old ++ acts_of (delete_nodes layout paths.now)) }
{
    for path in paths {
        push_node(acts, alloc, layout, path)?;
    }
    Ok(())
}

/// Puts a parent's counts without these nodes.
fn push_fewer(
    acts: &mut Seq<Act>,
    alloc: Global,
    paths: &[Path],
    parent: &Path,
    counts: CountRec,
) -> Result<(), Memory>
    requires valid { IsTrue (is_path parent.now) }
    requires within { IsCountRec counts }
    ensures { OnOk result (acts.new ≡ acts.old ++ act_of (put_key (CountsKey parent.now) (counts_value (fewer_of counts (count_by (is_child parent.now) paths.now)))) ∷ []) }
{
    let left = fewer(&counts, children_among(paths, parent.bytes()));
    acts.push(put_counts(alloc, parent.bytes(), &left)?)
}

/// Puts the counts that the view saw of a parent, without these nodes. A parent without counts is not there: nothing is put.
fn push_counts(
    acts: &mut Seq<Act>,
    alloc: Global,
    view: &View,
    paths: &[Path],
    parent: &Path,
) -> Result<(), Memory>
    requires valid { IsTrue (is_path parent.now) }
    requires seen { HasSeen view.now (CountsKey parent.now) }
    ensures after { OnOk result (AreWritesAfter acts.old acts.new) }
    ensures told { OnOk result (PutsParent view.now paths.now parent.now acts.old acts.new) }
{
    let Some((counts, _)) = view.counts_at(parent.bytes())? else {
        return Ok(());
    };
    push_fewer(acts, alloc, paths, parent, counts)?;
    Ok(())
}

fn push_parents(
    acts: &mut Seq<Act>,
    alloc: Global,
    view: &View,
    paths: &[Path],
    parents: &[Path],
) -> Result<(), Memory>
    requires valid { All (λ q. IsTrue (is_path q)) parents.now }
    requires seen { All (λ q. HasSeen view.now (CountsKey q)) parents.now }
    ensures after { OnOk result (AreWritesAfter acts.old acts.new) }
    ensures told { OnOk result ((counts : ByteList → Option AnyCounts) → TellsCounts view.now counts parents.now → acts.new ≡ acts.old ++ acts_of (put_parents counts paths.now parents.now)) }
{
    for parent in parents {
        push_counts(acts, alloc, view, paths, parent)?;
    }
    Ok(())
}

/// The operations at the end of a session with these nodes, but for the head's. The counts of the nodes' parents were looked up.
#[tactic(auto, unfolding(crate::specs::Ending::end_changes))]
pub(crate) fn end_acts(
    alloc: Global,
    view: &View,
    alive: bool,
    session: i64,
    nodes: &SessionRec,
) -> Result<Seq<Act>, Memory>
    requires real { pos 1 ≤ℤ session }
    requires valid { All (λ p. IsTrue (is_path p)) nodes.now.paths }
    requires seen { All (λ q. HasSeen view.now (CountsKey q)) (parents_once nodes.now.paths) }
    ensures written { IfOk result (AreWritesAfter []) }
    ensures told { IfOk result (λ acts. (counts : ByteList → Option AnyCounts) → TellsCounts view.now counts (parents_once nodes.now.paths) → acts ≡ acts_of (end_changes alive session counts nodes.now)) }
{
    let paths = nodes.paths.as_slice();
    let parents = parents(alloc, paths)?;
    let mut acts = delete_own(alloc, alive, session)?;
    push_nodes(&mut acts, alloc, nodes.layout, paths)?;
    push_parents(&mut acts, alloc, view, paths, parents.as_slice())?;
    Ok(acts)
}

/// What watches see of a node's delete.
fn push_removal(triggers: &mut Seq<Trigger>, alloc: Global, path: &Path) -> Result<(), Memory>
    ensures { OnOk result ((rest : List ByteList) → triggers.new ++ triggers_of_end rest ≡ triggers.old ++ triggers_of_end (path.now ∷ rest)) }
{
    triggers.push(Trigger::Deleted(path.copy(alloc)?))?;
    match path.parent(alloc)? {
        Some(parent) => triggers.push(Trigger::Children(parent)),
        None => Ok(()),
    }
}

/// What watches see of the end of a session with these nodes.
pub(crate) fn end_triggers(alloc: Global, paths: &[Path]) -> Result<Seq<Trigger>, Memory>
    ensures { IfOk result (λ ts. ts ≡ triggers_of_end paths.now) }
{
    let mut triggers = Seq::new(alloc);
    for path in paths {
        push_removal(&mut triggers, alloc, path)?;
    }
    Ok(triggers)
}
