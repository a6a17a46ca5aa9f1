//! Requests (zookeeper.jute, the records of package `org.apache.zookeeper.proto`).
//!
//! A version of -1 in a request matches any. Flags are those of `CreateMode`: 0 persistent, 1 ephemeral, 2 persistent
//! sequential, 3 ephemeral sequential. A request is what a client sent: its paths need not be valid, nor its flags.

use zx_base::{Bytes, Seq, Text};

/// An entry of an access control list (zookeeper.jute, `ACL` with its `Id`).
#[derive(Drop)]
pub struct Acl {
    /// The sum of what is allowed (`ZooDefs.Perms`): 1 read, 2 write, 4 create, 8 delete, 16 admin.
    pub perms: i32,
    pub scheme: Text,
    /// Whom it is allowed to, in the words of the scheme.
    pub id: Text,
}

/// A request that may be part of a multi, with the fields that it has as a [`Request`].
#[derive(Drop)]
pub enum Part {
    Create {
        path: Text,
        content: Bytes,
        acl: Seq<Acl>,
        flags: i32,
    },
    Delete {
        path: Text,
        version: i32,
    },
    SetData {
        path: Text,
        content: Bytes,
        version: i32,
    },
    Check {
        path: Text,
        version: i32,
    },
}

/// A request of a client, by its type in `ZooDefs.OpCode`. A `watch` that is true arms a watch of the connection.
#[derive(Drop)]
pub enum Request {
    Create {
        path: Text,
        content: Bytes,
        acl: Seq<Acl>,
        flags: i32,
    },
    Delete {
        path: Text,
        version: i32,
    },
    Exists {
        path: Text,
        watch: bool,
    },
    GetData {
        path: Text,
        watch: bool,
    },
    SetData {
        path: Text,
        content: Bytes,
        version: i32,
    },
    GetAcl {
        path: Text,
    },
    GetChildren {
        path: Text,
        watch: bool,
    },
    /// As `GetChildren`, and the reply has the node's Stat too.
    GetChildren2 {
        path: Text,
        watch: bool,
    },
    Sync {
        path: Text,
    },
    Ping,
    /// Whether the node is there and has this version.
    Check {
        path: Text,
        version: i32,
    },
    /// All parts as one transaction, or none.
    Multi {
        parts: Seq<Part>,
    },
    /// `AuthPacket`. The service looks at the scheme alone.
    Auth {
        kind: i32,
        scheme: Text,
        auth: Bytes,
    },
    /// The watches of a client that has connected again. On the wire the lists stand in the order data, exist, child.
    SetWatches {
        /// The greatest zxid that the client has seen: changes above it are told at once.
        relative: i64,
        exists: Seq<Text>,
        datas: Seq<Text>,
        children: Seq<Text>,
    },
    /// `closeSession`: the session ends, with its ephemeral nodes.
    Close,
    /// As `Create`, and the reply has the new node's Stat too.
    Create2 {
        path: Text,
        content: Bytes,
        acl: Seq<Acl>,
        flags: i32,
    },
    /// Whether this connection has a watch of this type armed on the path. The types are those of `Watcher.WatcherType`: 1
    /// child watches, 2 data watches, 3 both.
    CheckWatches {
        path: Text,
        kind: i32,
    },
    /// Takes away the watches of this type that this connection has armed on the path: 1 child watches, 2 data watches, 3 both.
    RemoveWatches {
        path: Text,
        kind: i32,
    },
}
