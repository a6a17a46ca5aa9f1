//! Follows the head of a cluster, and publishes an entry for each update at a hub.
//!
//! [`follow`] dials etcd's JSON gateway and asks for a watch of the head, from a known revision on. It takes the stream's lines, one
//! after the other, and publishes their entries ([`zw_feed`] says which these are). Where the stream is over it dials the next address,
//! and asks for what comes after the revision up to which everything was told: that of the last entry, or of a later line without events,
//! by which etcd tells of its progress. So each update is published once, in order, over however many streams, and a quiet proxy asks for
//! nothing that was compacted long ago. [`follow_and_ring`] rings besides, after each line that gave entries, for those who wait for them.
//!
//! # The end
//!
//! It ends where it is told to stop, and then the hub is open. Otherwise it goes on until the updates can no longer be followed,
//! closes the hub and gives the cause: the revisions to go on from were compacted, an update is missing, the head's value is no
//! record, memory was refused, or ten dials in a row gave no line. A line that says only that the watch was created, with a line
//! after it that cannot be read, counts as none, and so does one that says that the watch was created at a revision below the one up to
//! which everything was told: that member has forgotten updates. A dial for which no descriptor was left is none of the ten. A stream is
//! over, too, once nothing came for 25 minutes; a cluster that is quiet ends nothing but that.
//!
//! Each stream that was over, and the end, are told on standard error.
#![tactic(auto)]

mod following;
mod place;
mod rings;
mod stream;

pub use following::{follow, follow_and_ring};
pub use place::Place;
pub use rings::{NoBells, Rings};
