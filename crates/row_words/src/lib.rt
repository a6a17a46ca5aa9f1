//! The words of rows about requests, nodes and watches: how they are read, and how what comes of them is spelled.
//!
//! A request is spelled `create PATH DATA FLAGS`, `create_closed PATH DATA FLAGS` with an access list that is not the open one,
//! `delete PATH VERSION`, `set PATH DATA VERSION`, `check PATH VERSION`, `exists`, `get`, `children` and `children2 PATH WATCH`
//! where a WATCH is 1 or 0, `acl PATH`, `sync PATH`, `ping`, `auth SCHEME`, `watches SINCE DATA EXIST CHILD` with commas between
//! the paths of a list, `multi PART + PART + ..`, and `close`. A text is `-` for no bytes, and `ab*3` for `abbb`.
#![tactic(auto)]

mod notices;
mod requests;
mod texts;

pub use notices::{notice_texts, push_trigger, trigger_of, trigger_word};
pub use requests::request;
pub use texts::{content, data_word, read_path, text};
