//! Checks of versions and writes of data (Programmer's Guide, "ZNodes").

ghost use Rattle.std.specs.Prelude.{◌≡◌, ◌≢◌, ◌∷◌, [], ◌+ℤ◌, ◌≤◌, pos, length, IfOk, IfErr};
ghost use Rattle.std.specs.FinMap.{get, insert};
ghost use Rattle.zk_model.specs.declared.reply.PartResult.TheVariants as results;
ghost use Rattle.zk_model.specs.declared.node.Trigger.TheVariants as trigger;
ghost use Rattle.zk_model.specs.Znodes.{num_children, stat_of};
ghost use Rattle.zk_model.specs.Single.{Done, set_data, check, with_content};
ghost use Rattle.zk_machine.specs.Faults.{BeyondUnless, IsCounted, IsWithin};
ghost use Rattle.zk_machine.specs.Outcomes.{outcome_of};
ghost use Rattle.zk_model.specs.Limits.{max_frame};

use crate::draft::Draft;
use crate::edit::Edit;
use crate::fault::Fault;
use crate::outcome::Outcome;
use crate::stats::stat;
use crate::turn::Turn;
use std::alloc::Global;
use zk_model::code::{BAD_VERSION, NO_NODE, SYSTEM_ERROR};
use zk_model::version::matches;
use zk_model::{Node, PartResult, Path, Trigger};
use zx_base::{Bytes, Memory, Seq};

fn next_version(version: i32) -> i32
    requires { version ≢ pos 2147483647 }
    ensures { result ≡ version +ℤ pos 1 }
{
    version + 1
}

/// The node with these data, set at this zxid and time.
fn with_content(alloc: Global, node: &Node, content: &[u8], turn: &Turn) -> Result<Node, Memory>
    requires { node.now.version ≢ pos 2147483647 }
    ensures { IfOk result (λ n. n ≡ with_content node.now content.now turn.now.zxid turn.now.time) }
{
    Ok(Node {
        content: Bytes::copy_of(alloc, content)?,
        czxid: node.czxid,
        mzxid: turn.zxid,
        pzxid: node.pzxid,
        ctime: node.ctime,
        mtime: turn.time as i64,
        version: next_version(node.version),
        creates: node.creates,
        owner: node.owner,
    })
}

/// The outcome of a write that nothing refuses.
fn written(alloc: Global, tree: &Draft, path: Path, node: Node) -> Result<Outcome, Fault>
    ensures ok { IfOk result (λ o. outcome_of tree.now o ≡ Done (results.Set (stat_of tree.now path node)) (insert tree.now path node) (trigger.Changed path ∷ [])) }
    ensures beyond { IfErr result (BeyondUnless (IsCounted node (num_children tree.now path))) }
{
    let shown = stat(&node, tree.num_children(path.bytes()))?;
    let mut triggers = Seq::new(alloc);
    triggers.push(Trigger::Changed(path.copy(alloc)?))?;
    Ok(Outcome::Done {
        result: PartResult::Set(shown),
        edit: Some(Edit::Written { path, node }),
        triggers,
    })
}

/// A setData, once its path has been read.
pub fn set_data(
    alloc: Global,
    tree: &Draft,
    turn: &Turn,
    path: Path,
    content: &[u8],
    version: i32,
) -> Result<Outcome, Fault>
    ensures ok { IfOk result (λ o. outcome_of tree.now o ≡ set_data tree.now path content.now version turn.now.zxid turn.now.time (get tree.now path)) }
    ensures beyond { IfErr result (BeyondUnless (IsWithin tree.now × (length content.now ≤ max_frame))) }
{
    let Some(node) = tree.get(path.bytes()) else {
        return Ok(Outcome::Refused(NO_NODE));
    };
    if !matches(version, node.version) {
        return Ok(Outcome::Refused(BAD_VERSION));
    }
    if node.version == i32::MAX {
        return Ok(Outcome::Refused(SYSTEM_ERROR));
    }
    let changed = with_content(alloc, node, content, turn)?;
    Ok(written(alloc, tree, path, changed)?)
}

/// A check, once its path has been read.
pub fn check(alloc: Global, tree: &Draft, path: Path, version: i32) -> Result<Outcome, Memory>
    ensures { IfOk result (λ o. outcome_of tree.now o ≡ check tree.now version (get tree.now path)) }
{
    let Some(node) = tree.get(path.bytes()) else {
        return Ok(Outcome::Refused(NO_NODE));
    };
    if !matches(version, node.version) {
        return Ok(Outcome::Refused(BAD_VERSION));
    }
    Ok(Outcome::Done {
        result: PartResult::Checked,
        edit: None,
        triggers: Seq::new(alloc),
    })
}
