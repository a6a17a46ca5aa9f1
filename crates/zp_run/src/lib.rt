//! What one connection did, from its first frame on: a run of steps of `zp_step`, what is told of it, and what shows why it ended.
//!
//! Whoever drives a connection notes each input before it hands it in, and each packet before it writes it, as an [`Event`] for a
//! [`Trace`]. [`ListTrace`] keeps them, and [`NoTrace`] keeps nothing. A trace tells an entry by its value, since who else owns
//! the entry makes no difference.
//!
//! The laws say of every run what a person who asks why a connection was closed wants to know. Each cause is shown: by the input
//! that was handed in last, or by a frame of the client or answers of etcd that came before ([`causes_are_shown`]). A place in
//! the client's stream is the number of bytes of the frames before it ([`bytes_are_counted`]).
//!
//! In `specs/`, in reading order:
//!
//! - `Runs`: steps in order, what they took in, and what they gave;
//! - `Notes`: what a trace tells of them;
//! - `Heard`: the frames and the answers that came, and what a connection holds because of them;
//! - `Causes`: what shows each cause (`Shows`);
//! - `Laws`: what the laws say, of a step and of a run.
//!
//! In `proofs/`: `Hearing` (what was heard stays heard), `Looking` (what was asked for is seen), `Asking` (what is out was asked),
//! `Showing` (replies and ends), `Steps` (each kind of step), `Running` (runs), `Counting` (bytes).
#![tactic(auto)]

mod copy;
mod event;
mod laws;
mod list;
mod trace;

pub use event::Event;
pub use laws::{bytes_are_counted, causes_are_shown};
pub use list::ListTrace;
pub use trace::{NoTrace, Trace};
