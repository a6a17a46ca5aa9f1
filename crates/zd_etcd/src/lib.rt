//! The etcd in memory as a server: [`etcd`] listens at an address and serves each connection as etcd's JSON gateway does.
//!
//! A job of its own serves each connection. All jobs share one store, which is new at the call and gone after it. If the spawner hands
//! a job back, it is run in place, before the next connection is accepted.
//!
//! # The end
//!
//! A call ends once `limit` connections have been accepted and have ended. A watch does not end by itself: once the last connection
//! has been accepted and every one that is still open watches, all watches are ended. If the door breaks, the watches are ended too,
//! but nobody is waited for.
//!
//! If a watch's client goes away, or sends more, the watch ends once its key has not been put for a second or two. If the key is put
//! more often, a client that went away is noticed because lines can no longer be sent to it.
//!
//! # What is proved
//!
//! The counts of the net and the sink show why a call ended, and the way in which it ended says which bytes were written
//! (`specs/Serving`). The gateway's contracts say what a connection is answered. No contract says when a job runs, or that a call ends.
#![tactic(auto)]

mod serving;
mod writing;

pub use serving::{EtcdEnd, etcd};
