//! The verdict on a transcript: lawful, or the first thing that shows that the service could not have made it.
//!
//! `specs/Verdicts.antt` defines it. The crate `zk_legal` finds faults of the history and of the order; [`judge`] then looks at the
//! conversations. Each is judged by its least walk, reply by reply. A reply that needs no tree needs no state, and any other is tried
//! as of two moments at most.
//!
//! # Cost
//!
//! All conversations are judged in one pass over the states: each is listed under the moment that its next reply waits for, and at
//! each moment only the conversations listed there are looked at. Look-ups use tables, and what each update did is kept. So the time
//! grows with the lines, the packets and the notices, however many connections there are; the tree and watches come on top. A
//! connection that has watches goes through the updates up to each of its replies by itself. Its watches are handed on from reply to
//! reply, so what an update fires and what a reply arms takes the logarithm of their number. Two replies copy the watches that are
//! armed before them: the one to a setWatches, and the one that says that the session has expired, which is the last.
#![tactic(auto)]

mod agenda;
mod answers;
mod arming;
mod bodies;
mod connects;
mod conversations;
mod firing;
mod frames;
mod index;
mod judging;
mod laws;
mod next_frame;
mod packets;
mod places;
mod queues;
mod sent;
mod steps;
mod verdict;
mod waits;
mod walker;
mod walks;

pub use judging::judge;
pub use laws::{a_verdict_exists, lawful_transcripts_are_runs, one_verdict};
pub use verdict::Verdict;
