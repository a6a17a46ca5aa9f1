//! Reads and writes the messages of the files in `data/json`, and says on standard error where a row differs.
//!
//! A row is LEFT = RIGHT ([`row_files`]); `forms.rt` says what its forms are. A new row needs no proof.
//!
//! `message_rows time SIZE COUNT` writes an answer with a value of SIZE bytes, and reads it, COUNT times each, and prints the
//! microseconds of both, and of the kit's parser into values and its decoder alone. `message_rows hostile HEAD PIECE` reads a
//! body of some 8,388,608 bytes, the text HEAD and then PIECE again and again, and prints what it is refused for.
//! `bench/messages.sh` runs both.
#![tactic(auto)]

mod forms;
mod many;

use crate::many::{print_refusal, print_times};
use anyhow::Result;
use row_files::{Rows, status_of, try_files_in};
use std::alloc::Global;
use std::env;
use std::process::ExitCode;
use zx_base::Memory;

/// Rows of JSON texts.
#[derive(Clone, Copy)]
struct Messages;

impl Rows for Messages {
    fn found(&mut self, alloc: Global, left: &str) -> Result<Option<String>, Memory> {
        forms::found(alloc, left)
    }
}

const FILES: [(&'static str, Messages); 4] = [
    ("answers.rows", Messages),
    ("asks.rows", Messages),
    ("hostile.rows", Messages),
    ("lines.rows", Messages),
];

/// Looks in the folder that the first argument names, and without one in `json`.
fn main(rt: HostRuntime) -> Result<ExitCode> {
    let mut words = env::args(&rt)?;
    let _program = words.next();
    let Some(first) = words.next() else {
        return try_all(&rt, "json");
    };
    let (Some(second), Some(third)) = (words.next(), words.next()) else {
        return try_all(&rt, first.as_str());
    };
    match first.as_str() {
        "time" => print_times(&rt, second.as_str(), third.as_str()),
        "hostile" => print_refusal(&rt, second.as_str(), third.as_str()),
        other => try_all(&rt, other),
    }
}

fn try_all(rt: &HostRuntime, folder: &str) -> Result<ExitCode> {
    Ok(status_of(try_files_in(rt, folder, &FILES)?))
}
