//! What the service answers, as a program over a tree and the watches of one connection.
//!
//! Each function's contract is the definition of `zk_service` that it computes. The judge of transcripts stands on this crate;
//! the service, which keeps its tree as keys of etcd, does not.
#![tactic(auto)]

mod plain;
mod reads;
mod rearm;
mod told;
mod updates;
mod watches;

pub use plain::{plain_request, watcher_answer};
pub use rearm::set_watches;
pub use told::Told;
pub use updates::tree_reply;
pub use watches::{Seen, Watches};
