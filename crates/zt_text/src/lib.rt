//! The text of scripts, which tell what is to happen in a run of the service, and of transcripts, which show what did.
//!
//! A script is read line by line: [`read_line`] says what a line means, without its line feed. It reads each form exactly:
//! a line that it answers None for is of no form. A transcript is written line by line by
//! [`push_line`], and its last line by [`push_done`], [`push_fault`] or [`push_unread`].
//!
//! Both formats are this project's own; they stand in `specs/Scripts` and `specs/Transcripts`. Reading a line takes
//! time in proportion to its bytes, and memory for the bytes that its hex digits spell; writing one grows the buffer and
//! takes no other memory. That a transcript's text has one reading is said by [`one_reading`], and that a line ends in its only
//! line feed by [`one_line_feed`].
#![tactic(auto)]

mod argument;
mod cuts;
mod ending;
mod form;
mod laws;
mod script;
mod script_line;
mod transcript_line;
mod word;
mod words;

pub use argument::{decimal_digit, hex, number, password, session_id};
pub use cuts::cut;
pub use ending::{push_done, push_fault, push_unread};
pub use laws::{one_line_feed, one_reading};
pub use script::{Happening, Unread, Why};
pub use script_line::{MAX_LINE, MAX_SCRIPT, read_line};
pub use transcript_line::push_line;
pub use word::{push_hex, push_number, push_signed};
pub use words::{Words, first_word, four_words, one_word, three_words, two_words};
