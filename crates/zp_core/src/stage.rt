//! How far a connection has come.

use crate::round::Round;
use zk_model::{Reply, Request};
use zk_service::Cause;
use zn_view::{Arm, Plan, View, Want};
use zp_step::Fresh;
use zs_session::Connecting;
use zw_watch::SeenPath;
use zx_base::{Bytes, Seq};

/// What a reply does to the watches.
#[derive(Drop)]
pub enum WatchChange {
    /// The watch that a read asks for, if any.
    Adds(Option<Arm>),
    /// Arms the watches of a setWatches by what was seen at their paths, or tells at once that they fired. `since` is the zxid
    /// that the client has seen.
    Sets { since: i64, seen: Seq<SeenPath> },
}

/// A reply that is ready, and is sent once the entries up to its number were told.
#[derive(Drop)]
pub struct Pending {
    /// The number of the last update in the state that the reply is computed at.
    pub number: i64,
    /// The zxid of that update, which is the reply's.
    pub zxid: i64,
    pub xid: i32,
    pub answer: Reply,
    pub change: WatchChange,
    /// The cause for which the connection is closed after it, if any.
    pub ends: Option<Cause>,
}

/// A request that was taken up, and what was looked up for it.
#[derive(Drop)]
pub struct Task {
    pub xid: i32,
    pub request: Request,
    pub view: View,
    /// What is out, to be added to the view; nothing where no round is.
    pub asked: Seq<Want>,
}

/// A plan whose transaction is out.
#[derive(Drop)]
pub struct Commit {
    /// The request, with the view that the plan was made on.
    pub task: Box<Task>,
    pub plan: Plan,
    /// When the plan was made, in milliseconds.
    pub time: u64,
}

/// How far a connection has come, and what is out. The ask that is out in each stage is `asked_of` in `zp_step`.
#[derive(Drop)]
pub enum Stage {
    /// No frame has come yet.
    Unconnected { fresh: Fresh },
    /// An ask of the connect is out.
    Connecting(Box<Connecting>),
    /// No ask is out and no reply waits.
    Ready,
    /// A keepalive is out, before this frame is answered.
    KeepingAlive { frame: Bytes },
    /// The keepalive found no seconds left: a look at the session is out.
    Checking { frame: Bytes },
    /// A round of this request is out.
    Reading(Box<Round>),
    /// The transaction of this request's plan is out.
    Committing(Box<Commit>),
    /// A reply waits for its entries.
    Waiting(Box<Pending>),
    /// The connection is closed.
    Shut,
}
