//! What an update of the service is.
//!
//! Connections have numbers, and their frames too, from 0, which is the connect. A zxid is the revision of etcd that the
//! update made. Times are in milliseconds.

/// What an update was.
#[derive(Clone, Copy)]
pub enum UpdateKind {
    /// The first update of a store, at time `now`: the root is made.
    Begin {
        now: u64,
    },
    /// The connection began a new session.
    Session {
        id: i64,
        connection: u32,
    },
    /// The connection resumed a session, which leaves the one that it was attached to.
    Attach {
        id: i64,
        connection: u32,
    },
    /// A create, create2, delete, setData or multi: the frame `index` of the connection. `now` is the time at which it was planned.
    Asked {
        connection: u32,
        index: u64,
        now: u64,
    },
    /// The client closed its session by the frame `index` of the connection; its ephemeral nodes went with it.
    Closed {
        id: i64,
        connection: u32,
        index: u64,
    },
    /// A lapsed session was removed, and its ephemeral nodes with it.
    Reaped {
        id: i64,
    },
}

/// An update and its zxid.
#[derive(Clone, Copy)]
pub struct UpdateRec {
    pub zxid: i64,
    pub kind: UpdateKind,
}
