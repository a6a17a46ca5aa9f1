//! Transcripts of the service and what they mean: the lines as Rust types, and in `specs/` the definitions that the
//! statement about a run is made of.
//!
//! In reading order: `History` (the state of the service at each moment of a transcript), `Legal` (the updates are one run
//! of the machine), `Walks` (what a connection is sent after its attachment),
//! `Conversations` (all that it is sent).
#![tactic(auto)]

mod laws;
mod transcript;

pub use laws::{
    alive_since_own_line, attached_by_own_line, attached_last, attached_since_own_line,
    attached_to_own_line, attaches_show_the_password, begin_comes_after_an_open_line,
    begin_comes_before_lapses, legal_histories_are_bounded, legal_histories_are_sound,
    reaped_sessions_had_lapsed, requests_are_carried_out_in_order, sessions_begin_as_offered,
    updates_are_counted, zxids_rise,
};
pub use transcript::{Conversation, TranscriptLine};
