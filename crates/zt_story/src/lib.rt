//! Scripts and transcripts in words: what the frames and packets in them say, for a person who reads or writes one.
//!
//! [`in_words`] puts a script or a transcript into words, line for line, and [`script_of`] makes a script from such words. A frame
//! is put into words only where the same frame is made from them, so that the script is the same again. What has no words stays in
//! hex digits. `docs/FORMATS.md` has the words.
//!
//! This is a tool for tests and documents. It is proved to be safe; that its words are right is shown by the stories in `examples/`.
//!
//! # Cost
//!
//! Time in proportion to the text, but for the request that a packet answers, which is looked for among all that came before it.
#![tactic(auto)]

mod fault;
mod frames;
mod packets;
mod requests;
mod stories;
mod words;

pub use stories::{Unmade, in_words, script_of};
