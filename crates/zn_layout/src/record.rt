//! The records that are stored.

use zk_model::{Layout, Path, Trigger};
use zx_base::{Bytes, Seq};

/// A znode's data, and the fields of its Stat that no key's revision gives.
#[derive(Drop)]
pub struct NodeRec {
    /// The zxid of its create, or 0 where that is the revision of this record.
    pub czxid: i64,
    /// How often its data was set, at least 0.
    pub version: i32,
    /// The time of its create, in milliseconds.
    pub ctime: i64,
    /// The time of the last setData, or of its create, in milliseconds.
    pub mtime: i64,
    /// The session that owns it, 0 where it is not ephemeral.
    pub owner: i64,
    /// At most 1,048,575 bytes.
    pub content: Bytes,
}

/// How many children of a znode were created so far, and how many there are now.
#[derive(Clone, Copy)]
pub struct CountRec {
    /// At most 1,073,741,823.
    pub creates: i32,
    /// At most `creates`.
    pub children: i32,
}

/// The counts of a new node.
pub const FIRST_COUNTS: CountRec = CountRec {
    creates: 0,
    children: 0,
};

/// The nodes that a session owns.
#[derive(Drop)]
pub struct SessionRec {
    /// That of the session, which tells how its nodes are kept.
    pub layout: Layout,
    /// Strictly rising by bytes.
    pub paths: Seq<Path>,
}

/// A session's life. Its key is attached to the session's lease, and goes when the lease lapses.
#[derive(Clone, Copy)]
pub struct LeaseRec {
    /// Milliseconds, 4,000 to 40,000.
    pub timeout: i32,
    /// How often the session was begun or resumed, at least 1.
    pub attaches: i64,
    pub passwd: [u8; 16],
}

/// The last update, as watches see it.
#[derive(Drop)]
pub struct HeadRec {
    /// In the order in which they fire.
    pub triggers: Seq<Trigger>,
}
