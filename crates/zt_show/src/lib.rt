//! What a client says to a ZooKeeper server, line by line: the text that `show` writes for the bytes of one stream.
//!
//! [`Show`] takes a stream in whatever pieces it comes and adds the lines of its frames to [`Lines`], each once its frame
//! is whole, and a last line that says how the stream ended. The format is this project's own and stands in `specs/Shown`
//! and below it. It is defined over the whole stream, by the rows that the wire protocol's records have, so a record of
//! the protocol adds no more than its name here.
//!
//! # Cost
//!
//! Time in proportion to the stream and its text. What is kept is the front of a frame that is not whole yet, and while a
//! piece is taken the frames in it; each frame is read as a record, one after the other. The lines of a piece are made apart
//! and copied to the caller's text all at once, so that a call that is refused memory adds none; each later call is refused.
#![tactic(auto)]

mod draft;
mod ending;
mod frame_line;
mod laws;
mod lines;
mod name;
mod progress;
mod show;

pub use ending::Ending;
pub use laws::one_text;
pub use lines::Lines;
pub use show::Show;
