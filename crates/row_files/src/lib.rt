//! Files of rows, which a program tries one after the other.
//!
//! A row is LEFT = RIGHT: what comes of the left side has to be the right side. A line that is empty or begins with `#` is
//! passed over. Each row that differs is told on standard error, with its line.
#![tactic(auto)]

mod hexes;
mod pieces;
mod tries;
mod words;

pub use hexes::{bytes_of, hex_of};
pub use pieces::{Piece, joined, push, push_at, push_number, push_unless_zero, push_word, said};
pub use tries::{
    Rows, Steps, argument_or, found_in_steps, status_of, try_file, try_file_in, try_files_in,
};
pub use words::{Words, word_of};
