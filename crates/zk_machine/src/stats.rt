//! What a client is shown of a node (Programmer's Guide, "ZooKeeper Stat Structure").

ghost use Rattle.std.specs.Prelude.{◌≡◌, ◌≤◌, ◌≤ℤ◌, ◌*ℤ◌, ◌-ℤ◌, pos, IfOk, IfErr};
ghost use Rattle.zk_machine.specs.Faults.{BeyondUnless, IsCounted};
ghost use Rattle.zk_model.specs.Znodes.{stat};
ghost use Rattle.zk_model.specs.Limits.{max_creates};

use crate::fault::Fault;
use zk_model::{Node, Stat};

/// A length or a count as a number of the protocol.
fn count(number: usize) -> Result<i32, Fault>
    ensures ok { IfOk result (λ n. n ≡ pos number) }
    ensures beyond { IfErr result (BeyondUnless (number ≤ 2147483647)) }
{
    match i32::try_from(number) {
        Ok(number) => Ok(number),
        Err(_) => Err(Fault::Beyond),
    }
}

/// The `cversion` of a node: each create and each delete of a child counts one, so it is twice the creates less the children left.
fn child_version(creates: i32, children: i32) -> Result<i32, Fault>
    ensures ok { IfOk result (λ n. n ≡ (pos 2 *ℤ creates) -ℤ children) }
    ensures beyond { IfErr result (BeyondUnless ((pos 0 ≤ℤ children) × (children ≤ℤ creates) × (creates ≤ℤ max_creates))) }
{
    match i32::try_from(2 * i64::from(creates) - i64::from(children)) {
        Ok(number) => Ok(number),
        Err(_) => Err(Fault::Beyond),
    }
}

/// The Stat of a node with so many children; `Beyond` where one of its numbers does not fit an `int`.
pub fn stat(node: &Node, children: usize) -> Result<Stat, Fault>
    ensures ok { IfOk result (λ s. s ≡ stat node.now children) }
    ensures beyond { IfErr result (BeyondUnless (IsCounted node.now children)) }
{
    let num_children = count(children)?;
    let data_length = count(node.content.len())?;
    let cversion = child_version(node.creates, num_children)?;
    Ok(Stat {
        czxid: node.czxid,
        mzxid: node.mzxid,
        ctime: node.ctime,
        mtime: node.mtime,
        version: node.version,
        cversion,
        aversion: 0,
        ephemeral_owner: node.owner,
        data_length,
        num_children,
        pzxid: node.pzxid,
    })
}
