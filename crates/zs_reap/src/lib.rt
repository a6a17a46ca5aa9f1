//! The end of a session that has lapsed, step by step.
//!
//! When a session's lease expires, etcd removes the record of the session's life, and nothing else. A [`Reaper`] then ends the
//! session, one ask a step. It reads the record of the session's life and the list of its nodes. If the record is there, the
//! session lives, and this answer decides: [`ReapStep::Kept`]. If neither is there, it is not open: [`ReapStep::Gone`]. Otherwise
//! the reaper reads the counts of the nodes' parents at the same revision, and asks for a transaction by which the session and all
//! its nodes go at one zxid, or nothing changes: [`ReapStep::Reaped`]. If a guard of it fails, its answer shows what is there now,
//! and the reaper goes on from that.
//!
//! A step does no IO and reads no clock: the caller has the ask carried out, and makes the next step with the answer.
//!
//! In `specs/`: `Steps` (what is asked in each phase, and what a step does: `ReaperSteps`). What a view decides, and what a plan is worth,
//! are `zs_close`'s definitions.
//!
//! A step takes memory for its ask, and copies what a look shows once. It keeps no view between two steps: the second look
//! reads three keys once more.
#![tactic(auto)]

mod laws;
mod looks;
mod moves;
mod reap;
mod reaper;

pub use laws::a_sound_session_has_few_nodes;
pub use reap::{Phase, Reap, ReapStep};
pub use reaper::Reaper;
