//! Reads the text of transcripts, which show what happened in a run of the service.
//!
//! [`read_transcript`] reads all lines of a transcript, or names the first that is of no form. It takes time in proportion to
//! the bytes, and memory for the lines that it gives. The forms of lines stand in `specs/Lines.antt`, and the whole text in
//! `specs/Transcripts.antt`. The crate `zt_text` writes the same format: that what it writes is read as the same lines is said
//! by [`a_written_line_is_read`] and [`a_written_transcript_is_read`], and that what is read as lines is what it writes of them by
//! [`a_read_line_is_written`] and [`a_read_transcript_is_written`].
#![tactic(auto)]

mod ends;
mod last;
mod laws;
mod lines;
mod numbers;
mod transcript;
mod updates;

pub use laws::{
    a_read_line_is_written, a_read_transcript_is_written, a_written_line_is_read,
    a_written_transcript_is_read,
};
pub use lines::read_line;
pub use transcript::{TranscriptFault, read_transcript};
