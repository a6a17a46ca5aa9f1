//! Znodes, what a client is shown of them, and how they change (Programmer's Guide, "ZNodes", "ZooKeeper Stat
//! Structure").

use crate::path::Path;
use zx_base::Bytes;

/// What a client is shown of a znode (zookeeper.jute, `Stat`). Times are readings of the service's clock in milliseconds.
#[derive(Clone, Copy)]
pub struct Stat {
    /// The zxid of the update that made the node.
    pub czxid: i64,
    /// The zxid of the update that set its data last, or made the node.
    pub mzxid: i64,
    /// When the node was made.
    pub ctime: i64,
    /// When its data was set last, or the node was made.
    pub mtime: i64,
    /// How often its data was set since it was made.
    pub version: i32,
    /// How often its children changed: twice the creates, less the children that are there.
    pub cversion: i32,
    /// Always 0: access lists do not change.
    pub aversion: i32,
    /// The session of an ephemeral node, otherwise 0.
    pub ephemeral_owner: i64,
    /// The bytes of its data.
    pub data_length: i32,
    pub num_children: i32,
    /// The zxid of the update that made or removed a child last, or made the node.
    pub pzxid: i64,
}

/// A znode. Fields as in [`Stat`].
#[derive(Drop)]
pub struct Node {
    /// Its data, at most 1,048,575 bytes.
    pub content: Bytes,
    pub czxid: i64,
    pub mzxid: i64,
    pub pzxid: i64,
    pub ctime: i64,
    pub mtime: i64,
    pub version: i32,
    /// How many children were made under it so far, at most 1,073,741,823.
    pub creates: i32,
    /// The session that owns it, or 0.
    pub owner: i64,
}

/// A change of one znode, by which watches fire (Programmer's Guide, "ZooKeeper Watches").
#[derive(Drop)]
pub enum Trigger {
    Created(Path),
    Deleted(Path),
    /// This node's data was set.
    Changed(Path),
    /// A child of this node was made or removed.
    Children(Path),
}
