//! Finds the sessions whose lease has lapsed, and ends them with their ephemeral nodes.
//!
//! Where a session's lease lapses, etcd removes the record of its life alone, and its nodes are still there. [`reap`] is the work of one
//! of [`REAPERS`] workers. It makes a turn every few seconds, and soon again while there is work. A turn lists the keys of all open sessions
//! and of those that live, a thousand of each at a time and without their values: from the place of a number that it draws on, and then
//! from the first one on to that place. It steps a [`Reaper`](zs_reap::Reaper) for each session that is open and does not live. The list is
//! only a hint: the reaper looks again, and ends a session by one guarded transaction, so any number of workers of any number of proxies
//! may do this at once. A turn ends where another had ended a session since it was listed, and the next one begins elsewhere: workers
//! that meet part, and each session is looked at by few of them.
//!
//! In `specs/`: `Listing` (what is asked, and which sessions an answer shows as lapsed), `Reaping` (the calls of one reap), `Turning`
//! (the calls of a turn, over a link that is kept or dialled anew) and `Working` (what the worker does for as long as it runs).
//! `Calling` has the words for the calls of a link.
//!
//! A turn holds one list at a time, however many sessions there are.
#![tactic(auto)]

mod calling;
mod failure;
mod laws;
mod listing;
mod pace;
mod reaping;
mod turning;
mod working;

pub use failure::fault_of;
pub use laws::{a_list_begins_after_the_last_key, no_living_session_is_shown, who_has_lapsed};
pub use pace::pause_of;
pub use working::{REAPERS, reap};
