//! The transcript of every run of a script is judged lawful (`every_replay_is_lawful`), and so is its text, which is read back
//! (`every_written_replay_is_lawful`).
//!
//! `zp_world_laws` says that a run is one history, in which each connection is served. What a verdict asks besides is that the lines are
//! formed: each number is opened once, what it receives and is sent stands between its open and its close, and its frames are
//! numbered 0, 1, 2 and so on. Each line of a script keeps that, for each number apart.
//!
//! What is read of a line besides is that each of its numbers is in its field's range. What the types do not say of a run's lines is
//! that no zxid, revision or number of an update is below 0, and no session's number below 1: each line of a script keeps that too.
//!
//! In `specs/`: `Lawful`, what the laws of lines say; `Written`, what those of texts say.
//!
//! In `proofs/`: `Progress` (how far the lines of one number have come: unused, open after so many frames, ended, or broken by a
//! line that may not stand there), `Meaning` (what that says of look-ups in the lines), `Stored`, `Shown`, `Connecting`, `Reaping`,
//! `Stepping`, `Naturals` (no number falls below 0: in what a store answers and a view shows, in a step of a connect, a reaper and a
//! connection, and in a world), `Tidy` (a world whose lines agree with what it knows of each number), `Handing`, `Arriving`,
//! `Delivering`, `Restarting` (what happens leaves it so), `Running` (each line of a script, settle, and whole scripts), `Formed`
//! (each line of a run may stand where it does), `Verdict`, `Fitting` (each line of a run is read back).
#![tactic(auto)]

mod laws;
mod lines;

pub use laws::{
    every_replay_is_lawful, every_written_replay_is_lawful, frames_are_counted_by_their_lines,
};
pub use lines::lines_are_typed;
