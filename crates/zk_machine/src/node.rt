//! Copies of nodes.

ghost use Rattle.std.specs.Prelude.{◌≡◌, IfOk};

use std::alloc::Global;
use zk_model::{Node, Path};
use zx_base::{Bytes, Memory};

/// A copy of a node, its data included.
pub fn copy_node(alloc: Global, node: &Node) -> Result<Node, Memory>
    ensures { IfOk result (λ n. n ≡ node.now) }
{
    Ok(Node {
        content: Bytes::copy_of(alloc, node.content.as_slice())?,
        czxid: node.czxid,
        mzxid: node.mzxid,
        pzxid: node.pzxid,
        ctime: node.ctime,
        mtime: node.mtime,
        version: node.version,
        creates: node.creates,
        owner: node.owner,
    })
}
