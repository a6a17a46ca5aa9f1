//! Error codes of replies (`KeeperException.Code`, release 3.5).

/// No error. In the reply to a refused multi: a part before the one that was refused.
pub const OK: i32 = 0;

/// A limit is reached: a node's creates or version, a session's ephemeral nodes, or the length of a reply. Also where the
/// keys in etcd contradict each other.
pub const SYSTEM_ERROR: i32 = -1;

/// In the reply to a refused multi: a part after the one that was refused.
pub const RUNTIME_INCONSISTENCY: i32 = -2;

/// The body of the request cannot be read.
pub const MARSHALLING_ERROR: i32 = -5;

/// No request that is served has this type.
pub const UNIMPLEMENTED: i32 = -6;

/// The path is not valid, the flags are not 0 to 3, the type of a watch is not 1 to 3, a delete names the root, or a multi has
/// too many parts or too great a load.
pub const BAD_ARGUMENTS: i32 = -8;

/// The node is not there, or for a create its parent.
pub const NO_NODE: i32 = -101;

/// The node has another version than the request asks for.
pub const BAD_VERSION: i32 = -103;

/// The parent of a create is an ephemeral node.
pub const NO_CHILDREN_FOR_EPHEMERALS: i32 = -108;

/// The node that a create makes is there.
pub const NODE_EXISTS: i32 = -110;

/// The node of a delete has children.
pub const NOT_EMPTY: i32 = -111;

/// The session has ended or has lapsed. The connection is closed then.
pub const SESSION_EXPIRED: i32 = -112;

/// The access list is not the one entry (31, `world`, `anyone`).
pub const INVALID_ACL: i32 = -114;

/// The scheme of an `auth` is not `digest`. The connection is closed then.
pub const AUTH_FAILED: i32 = -115;

/// The session is attached to another connection since. This one is closed then.
pub const SESSION_MOVED: i32 = -118;

/// No watch that a checkWatches or removeWatches names is armed.
pub const NO_WATCHER: i32 = -121;
