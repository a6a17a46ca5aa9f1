//! Requests that read: what each looks up, and what it is answered by what was found.
//!
//! [`read_needs`] names what a request still has to look up, and [`decide_read`] decides it on a view that lacks nothing: the
//! reply is the one by the tree of each sound state that the view is of, with the watch that it arms. The decision on a
//! setWatches is its reply alone; what was found at its paths is given by [`seen_paths`].
//!
//! A node's data is copied once, into the reply. Each look-up goes over what the view saw; a setWatches, which has many, makes
//! an index of it first.
#![tactic(auto)]

mod acl;
mod answer;
mod check;
mod children;
mod data;
mod decide;
mod exists;
mod fit;
mod found;
mod keys;
mod names;
mod needs;
mod set_watches;
mod stat;
mod sync;

pub use decide::decide_read;
pub use needs::read_needs;
pub use set_watches::seen_paths;
