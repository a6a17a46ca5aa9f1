//! What the parts of a multi leave, as far as later parts look at it.

use zk_model::Path;

/// A change of the tree that a part of a multi makes.
#[derive(Drop)]
pub enum TreeChange {
    /// A node is created. Its owner is 0 where it is not ephemeral.
    Created { path: Path, owner: i64 },
    /// A node with this owner is deleted.
    Deleted { path: Path, owner: i64 },
    /// A node's data is set.
    DataSet(Path),
}

/// What the parts of a multi test of a node.
#[derive(Clone, Copy)]
pub struct NodeNow {
    /// How often its data was set.
    pub version: i64,
    /// The session that owns it, 0 where it is not ephemeral.
    pub owner: i64,
}
