//! The service: its state, what an update makes of it, and what a request is answered in it.
//!
//! In `specs/`, in reading order: `States` (trees with their sessions, what an update does to them, and when a state is sound),
//! `Answers` (what a frame is answered in a state, and what its client is told of watches). Transcripts, whose lines lead from state
//! to state, stand above (`zk_transcript`).
#![tactic(auto)]

mod body;
mod cause;
mod connect;
mod fits;
mod form;
mod fresh;
mod update;

pub use body::{body_with_stat, response_of};
pub use cause::{Cause, Ended, copy_of_cause};
pub use connect::answered_read_only;
pub use fits::{names_and_stat_fit, names_fit};
pub use form::has_valid_form;
pub use fresh::Fresh;
pub use update::{UpdateKind, UpdateRec};
