//! The watches of one connection: which are armed, what a change fires, and what a setWatches arms again (Programmer's
//! Guide, "ZooKeeper Watches").
//!
//! Each connection keeps an [`Armed`]. A read that asks for a watch calls [`Armed::arm`], each change of the tree
//! [`Armed::fire`], and a setWatches [`Armed::rearm`], with what was seen at each of its paths ([`SeenPath`]). A checkWatches
//! asks [`Armed::has`], and a removeWatches [`Armed::remove`].
//!
//! The paths stand in two ordered sets, so a call takes time in proportion to the logarithm of the number of armed paths, and a
//! setWatches that for each of its paths. Arming copies the path; firing copies the path that it tells, and takes no other memory.
//!
//! [`Armed::bits`] and [`bits_of`] tell whether an update may fire any of the watches, without a look at them: by 64 bits, one for a path's
//! data watch and another for its child watch, each by a hash of the path. Counts of the paths of each bit keep them as the watches come and go.
#![tactic(auto)]

mod armed;
mod bits;
mod counts;
mod marked;
mod noted;
mod notices;
mod rearm;
mod seen_path;
mod sets;

pub use armed::Armed;
pub use bits::bits_of;
pub use seen_path::{SeenPath, WatchList};
