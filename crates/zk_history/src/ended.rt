//! Sessions that end: their ephemeral nodes are removed (Programmer's Guide, "Ephemeral Nodes").

ghost use Rattle.std.specs.Prelude.{◌≡◌, ◌++◌, flat_map, IfOk, IfErr, OnOk};
ghost use Rattle.zk_model.specs.Single.{removal};
ghost use Rattle.zk_service.specs.States.{removed_all, session_ended};
ghost use Rattle.zk_machine.specs.Faults.{BeyondUnless};
ghost use Rattle.zk_history.specs.Fits.{IsCountable};

use crate::state::State;
use std::alloc::Global;
use zk_machine::{Fault, Tree};
use zk_model::{Path, Trigger};
use zx_base::{Memory, Seq};

/// The tree without these nodes, removed one by one at one zxid.
pub fn removed_all(alloc: Global, tree: Tree, paths: &[Path], zxid: i64) -> Result<Tree, Memory>
    ensures { IfOk result (λ t. t ≡ removed_all tree paths.now zxid) }
{
    let mut rest = tree;
    for path in paths {
        rest.remove(alloc, path, zxid)?;
    }
    Ok(rest)
}

/// Adds what watches see of the removal of a node.
fn add_removal(alloc: Global, triggers: &mut Vec<Trigger>, path: &Path) -> Result<(), Memory>
    ensures { OnOk result (triggers.new.items ≡ triggers.old.items ++ removal path.now) }
{
    triggers.push(Trigger::Deleted(path.copy(alloc)?))?;
    if let Some(parent) = path.parent(alloc)? {
        triggers.push(Trigger::Children(parent))?;
    }
    Ok(())
}

/// What watches see of the removal of these nodes.
fn removals(alloc: Global, paths: &[Path]) -> Result<Seq<Trigger>, Memory>
    ensures { IfOk result (λ triggers. triggers ≡ flat_map removal paths.now) }
{
    let mut triggers = Vec::new(alloc);
    for path in paths {
        add_removal(alloc, &mut triggers, path)?;
    }
    Ok(Seq::from_vec(triggers))
}

/// The state after the update that ends a session.
pub fn session_ended(alloc: Global, state: State, zxid: i64, id: i64) -> Result<State, Fault>
    ensures ok { IfOk result (λ s. s ≡ session_ended state zxid id) }
    ensures beyond { IfErr result (BeyondUnless (IsCountable state)) }
{
    let paths = state.tree().owned(alloc, id)?;
    let triggers = removals(alloc, &paths)?;
    state
        .without_session(id)
        .without_nodes(alloc, &paths, zxid)?
        .advanced(zxid, triggers)
}
