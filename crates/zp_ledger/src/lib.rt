//! What is written down in a world: the lines of its transcript, and an entry for each update.
//!
//! [`Transcript`] keeps the lines in the order in which things happen, and beside them a list of the updates; the text of its lines
//! has one reading. [`Transcript::conversations`] gives the lines of each connection apart. [`Entries`] keeps what watches are told
//! of each update, by its number, and shares an entry with each connection that takes it. What a line of a script writes is
//! defined in `zp_script`.
//!
//! Adding a line takes amortized constant time, adding an entry the time to read the triggers of its head. Only `conversations`
//! copies what was written.
#![tactic(auto)]

mod conversations;
mod entries;
mod transcript;

pub use entries::Entries;
pub use transcript::Transcript;
