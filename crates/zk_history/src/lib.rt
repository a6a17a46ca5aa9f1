//! The state of the service after the lines of a transcript.
//!
//! [`change`] takes one line, in place, and a [`Cursor`] goes over them; their contracts are the definitions in `zk_service` and `zk_transcript`.
//! What a line needs of the lines before it is looked up in the tables of [`Past`]. The judge of transcripts stands on this
//! crate, the service does not.
#![tactic(auto)]

mod attachments;
mod cursor;
mod ended;
mod firsts;
mod lines;
mod outcome;
mod past;
mod requests;
mod session;
mod sessions;
mod shown;
mod state;
mod zxids;

pub use cursor::Cursor;
pub use lines::{Applied, apply, change, planned_commit};
pub use outcome::{Change, Commit};
pub use past::{Past, own_mark};
pub use requests::commit;
pub use session::Session;
pub use state::State;
pub use zk_machine::Fault;
