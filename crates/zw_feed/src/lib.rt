//! Entries from the lines of etcd's watch on the head, for a hub that tells them to connections.
//!
//! Each update puts the head `zk/head`: the put's version is the update's number, its revision the update's zxid, and its value has
//! the changes by which watches fire (`zn_layout`). A [`Follower`] begins after an update whose number is known, and turns each
//! [`Line`](ev_json::Line) of a watch from there on into the entries of its puts, with consecutive numbers. So an update that
//! the watch has left out is told ([`FeedFault::Gap`]) and never passed over. Whoever dials the watch again after a fault begins
//! with a new follower.
//!
//! `specs/Following` says what each line gives (`Gives`), and what becomes of the follower (`Takes`); `specs/Gathering` is the loop
//! over the puts of one line.
//!
//! A line takes time in proportion to its bytes. Nothing is copied but the triggers of each head and the key and value of a head that
//! is no record.
#![tactic(auto)]

mod fault;
mod follower;
mod found;

pub use fault::FeedFault;
pub use follower::Follower;
