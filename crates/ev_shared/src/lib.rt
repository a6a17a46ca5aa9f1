//! An etcd in memory that many threads share, and links to etcds in memory.
//!
//! A [`SharedStore`] stands under one lock. What is locked keeps in its type that its state is what the history of its asks and
//! lapses leads to (`specs/History`), so it holds each time the lock is taken. Leases lapse by the clock: each call first lapses all
//! those whose seconds have passed, whoever they belong to (`specs/Terms`). A watch of one key waits for the next revision that puts
//! it (`specs/Watching`).
//!
//! A [`SharedLink`] is a link to such a store. A [`StoreLink`] owns its store, which nobody else uses.
//!
//! The store counts those who use it, so that who ends it can wait for the others ([`SharedStore::wait_for_watches`]).
//!
//! No contract says what a call did to the shared store, nor that a waiting watch is woken: that is left to tests.
#![tactic(auto)]

mod crowd;
mod event;
mod kept;
mod shared_link;
mod shared_store;
mod store_link;
mod term;
mod watch;

pub use ev_call::{CallFault, Cluster, Etcd};
pub use shared_link::SharedLink;
pub use shared_store::{SharedStore, Watched};
pub use store_link::StoreLink;
