//! Deletes (Programmer's Guide, "ZNodes", "ZooKeeper Watches").

ghost use Rattle.std.specs.Prelude.{◌≡◌, IfOk};
ghost use Rattle.std.specs.FinMap.{get};
ghost use Rattle.zk_model.specs.Single.{delete, removal};
ghost use Rattle.zk_machine.specs.Outcomes.{outcome_of};

use crate::draft::Draft;
use crate::edit::Edit;
use crate::outcome::Outcome;
use std::alloc::Global;
use zk_model::code::{BAD_VERSION, NO_NODE, NOT_EMPTY};
use zk_model::version::matches;
use zk_model::{PartResult, Path, Trigger};
use zx_base::{Memory, Seq};

/// What watches see of the removal of the node at a path.
fn removal(alloc: Global, path: &Path) -> Result<Seq<Trigger>, Memory>
    ensures { IfOk result (λ triggers. triggers ≡ removal path.now) }
{
    let parent = path.parent(alloc)?;
    let mut triggers = Seq::new(alloc);
    triggers.push(Trigger::Deleted(path.copy(alloc)?))?;
    if let Some(parent) = parent {
        triggers.push(Trigger::Children(parent))?;
    }
    Ok(triggers)
}

/// A delete, once its path has been read.
pub fn delete(
    alloc: Global,
    tree: &Draft,
    path: Path,
    version: i32,
    zxid: i64,
) -> Result<Outcome, Memory>
    ensures { IfOk result (λ o. outcome_of tree.now o ≡ delete tree.now path version zxid (get tree.now path)) }
{
    let Some(node) = tree.get(path.bytes()) else {
        return Ok(Outcome::Refused(NO_NODE));
    };
    if !matches(version, node.version) {
        return Ok(Outcome::Refused(BAD_VERSION));
    }
    if tree.num_children(path.bytes()) != 0 {
        return Ok(Outcome::Refused(NOT_EMPTY));
    }
    Ok(Outcome::Done {
        result: PartResult::Deleted,
        triggers: removal(alloc, &path)?,
        edit: Some(Edit::Removed { path, zxid }),
    })
}
