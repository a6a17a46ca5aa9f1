//! One connection's run in worlds, and one connection alone: laws without code.
//!
//! A run of a connection's steps (`zp_run`) says what was handed in and what came of it. Here each step is taken in a world
//! (`zp_script`) that gives its input, and whatever else may happen stands between two steps. So what holds of every world of which
//! all is accounted for holds of whoever drives a connection: its conversation is an answer to its connect and then a walk of one
//! history, fresh and in turn ([`connections_live_in_worlds`]).
//!
//! Where nobody else acts there is always such a world: the run's steps alone, answers that one store gives to its asks in order,
//! and entries of updates that the store had made by then are enough ([`one_connection_alone_is_served`]).
//!
//! In `specs/`, in reading order:
//!
//! - `Events`: the steps of a connection, and what happens beside them;
//! - `Lives`: how a step is taken in a world (`Takes`), and what holds after a run there;
//! - `Feeding`: answers of one store, and entries of its updates (`IsFedBy`);
//! - `Followed`: what a follower (`zw_feed`) makes of an honest watch of such a store;
//! - `Showing`: what a transcript shows of a connection, and what its steps would have it show;
//! - `Alone`: one connection alone.
//!
//! In `proofs/`: `Events` (what each event keeps is kept by all of them: the one law of which worlds are a use), `Keeping` (a
//! step), `Entries` (an entry of a store is the world's), `Followed` (the lines of a watch), `Executing` (an ask can be carried out),
//! `Telling` (lines), `Stepping` (each kind of step has its world), `Living` (a whole run).
#![tactic(auto)]

mod laws;

pub use laws::{
    connections_live_in_worlds, followers_give_the_stores_entries, one_connection_alone_is_served,
};
