//! The messages of etcd's JSON gateway as texts, both ways (etcd API reference, "gRPC gateway"; RFC 8259, RFC 4648).
//!
//! A client writes asks with [`write_ask`] and [`write_watch`], and reads what comes back with [`read_answer`] and
//! [`read_line`]. A gateway reads asks with [`read_ask`] and [`read_watch`], and answers with [`write_answer`] and
//! [`write_line`], or, where the revision to watch from was compacted, with [`write_canceled`]. Cutting HTTP messages into bodies,
//! and streams into lines, is left to the caller.
//!
//! # Writing
//!
//! Each message has one text, that of `specs/Messages`: compact, members sorted by name, numbers of 64 bits as strings of
//! digits, bytes in base64 with padding. Lists are left out where they are empty, flags where they are false, and most other
//! members where they are empty or 0; `specs/Messages` says which. A request to watch allows the member to split a long line into
//! several, and asks for notices of progress. No text has a line feed, so a stream can end each with one.
//! Within the ranges of `specs/Ranges` a text reads back as the message.
//!
//! # Reading
//!
//! `specs/Asks` and `specs/Answers` say what is read, a line for each member, in the words of `ev_fields`: whether it must be
//! there, its kind, and its range. Unknown members are passed over, but for a `range_end` in a compare or a delete: those are of one
//! key here, so an end that is given is a fault. Of two members with one name the last counts. A name is
//! looked up in snake case, and otherwise in camel case. A number may be a string of digits or a JSON integer. What cannot be
//! read gives a [`JsonFault`]: the body is not JSON, or a member is at fault and named. The line of a watch that was canceled,
//! or that etcd ended with an error, needs no header.
//!
//! # Cost
//!
//! Writing allocates the text once, with room estimated from the lengths of keys and values, and writes each member straight
//! into it: a name as one literal, a key or a value in base64, 1,024 bytes at a time. The answer to a transaction is
//! read in one pass over the body where it is spelled as etcd spells it: no list of tokens, and each key and value decoded once.
//! Any other body is parsed into a list of its tokens, in time in proportion to its bytes, builds no value of JSON, and gives its
//! keys and values by one decoding each. A member is looked up by passing over the members of its object. The list takes most of
//! the memory: some 6 times an honest answer's bytes, and up to 22 times those of a hostile one with many empty objects.
#![tactic(auto)]

mod answer_text;
mod answer_value;
mod ask_text;
mod ask_value;
mod laws;
mod line;
mod line_text;
mod line_value;
mod list;
mod message;
mod reading;
mod room;
mod straight;
mod writing;

pub use ev_fields::fault::JsonFault;
pub use ev_fields::field::Field;
pub use laws::{
    messages_come_back, named_members_break_rules, texts_are_json, texts_are_lines,
    what_is_read_fits,
};
pub use line::Line;
pub use reading::{read_answer, read_ask, read_line, read_watch};
pub use writing::{write_answer, write_ask, write_canceled, write_line, write_watch};
