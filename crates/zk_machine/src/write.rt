//! Writes: single nodes that are put into a tree or taken out.

use zk_model::{Node, Path};

/// A node that is put at a path, in place of the one that was there, or the removal of the node at a path.
#[derive(Drop)]
pub struct Write {
    pub path: Path,
    /// The node that is put there; `None` takes out the one that is there.
    pub node: Option<Node>,
    /// The owner of the node that was there before, 0 if no session owned it; `None` if there was no node.
    pub before: Option<i64>,
}
