//! What is expected at a place of a line.

use std::fmt;
use std::fmt::{Display, Formatter, Write};

/// What is expected at a place of a line.
#[derive(Debug, Clone, Copy, PartialEq, Eq)]
pub enum Expected {
    /// The first word of a line of a script.
    ScriptLine,
    /// The first word of a line of a transcript.
    TranscriptLine,
    /// What an update was.
    Update,
    /// Why a connection or a reaper ended.
    Cause,
    /// Why a line of a script was refused.
    Reason,
    /// The number of a connection or a reaper.
    Connection,
    Proxy,
    Stray,
    /// How long a tick is.
    Millis,
    /// The number of a frame in its connection, from 0.
    Frame,
    Zxid,
    Revision,
    /// A time of the script's clock.
    Time,
    /// A place in a client's stream.
    Place,
    /// The length of a frame, as its client said.
    Length,
    /// How many updates there were.
    Updates,
    /// The number of a line, from 1.
    Line,
    Session,
    Password,
    Bytes,
    /// No further word.
    End,
    /// No further byte, since the line is as long as one may be.
    LongestEnd,
    /// No further line, since the one before is the last of a transcript.
    LastLine,
}

impl Display for Expected {
    fn fmt<W: Write>(&self, f: &mut Formatter<W>) -> fmt::Result {
        f.write_str(words(*self))
    }
}

fn words(expected: Expected) -> &'static str {
    match expected {
        Expected::ScriptLine => "the first word of a script's line, such as open or frame",
        Expected::TranscriptLine => "the first word of a transcript's line, such as open or send",
        Expected::Update => "what an update was, such as session or asked",
        Expected::Cause => "the cause of an end, such as closed or client",
        Expected::Reason => "why a line was refused, such as no such connection",
        Expected::Connection => {
            "the number of a connection or a reaper: decimal, up to 4294967295, no leading zero"
        }
        Expected::Proxy => "the number of a proxy: decimal, up to 4294967295, no leading zero",
        Expected::Stray => "the number of a stray: decimal, up to 4294967295, no leading zero",
        Expected::Millis => "milliseconds: decimal, up to 4294967295, no leading zero",
        Expected::Frame => "the number of a frame, from 0: decimal, no leading zero",
        Expected::Zxid => "a zxid: decimal, up to 9223372036854775807, no leading zero",
        Expected::Revision => "a revision: decimal, up to 9223372036854775807, no leading zero",
        Expected::Time => "a time in milliseconds: decimal, no leading zero",
        Expected::Place => "a count of bytes: decimal, no leading zero",
        Expected::Length => "a length of 32 bits: decimal, no leading zero",
        Expected::Updates => {
            "a count of updates: decimal, up to 9223372036854775807, no leading zero"
        }
        Expected::Line => "the number of a line, from 1: decimal, no leading zero",
        Expected::Session => {
            "a session's number: 16 lower-case hex digits, from 0000000000000001 to 7fffffffffffffff"
        }
        Expected::Password => "a password: 32 lower-case hex digits",
        Expected::Bytes => "bytes: two lower-case hex digits each, or - for none",
        Expected::End => "the end of the line",
        Expected::LongestEnd => "the end of the line, which has at most 2200000 bytes",
        Expected::LastLine => "nothing, since the line before is the last",
    }
}
