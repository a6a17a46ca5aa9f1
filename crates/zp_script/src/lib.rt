//! What one line of a script does to a world: one etcd, a clock, and the connections and reapers of all proxies, with the
//! transcript of what happened. These are definitions alone: `zp_world` meets them in code, and `zp_world_laws` says what holds of
//! every world that a script leads to.
//!
//! In `specs/`, in reading order:
//!
//! - `Worlds`: what a world is made of;
//! - `Kinds`: which update the ask of a connection or of a reaper is;
//! - `Entries`: what a connection is told of each update, and when it lags;
//! - `Faults`: the first test of a line that fails (`fault`);
//! - `StepOutcomes`, `Handing`: what a step leaves, and handing something to a connection or a reaper;
//! - `Carrying`: the store carries out an ask;
//! - `Arriving`: bytes of a client arrive;
//! - `Effects`: what each line but settle does (`Does`);
//! - `Happens`: settle, and any line of a script;
//! - `Runs`: the first world, and whole scripts;
//! - `Conversing`: the lines of each connection, apart.
//!
//! The store is etcd's as `ev_types` defines it, and a connection is `zp_step`'s. Whenever something happens that the transcript
//! shows, its line is added at the end.
#![tactic(auto)]

mod flight;
mod laws;

pub use flight::{Asking, Flight};
pub use laws::{numbers_are_used_once, restarts_are_always_possible};
