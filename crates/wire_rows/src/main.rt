//! Reads and writes the rows of the files in `data/vectors`, and says on standard error where a row differs.
//!
//! A row is LEFT = RIGHT ([`row_files`]): what is on the left is given to the wire, and what comes of it has to be what is on
//! the right; each file says in its first lines what its rows are. A packet is hex, spelled by hand from zookeeper.jute, and
//! stands beside its fields; what can be read is written again too, and the packet has to be the same, in no more room than it
//! needs. A new row needs no proof.
//!
//! `wire_rows time COUNT` prints the microseconds in which COUNT frames are cut and read, and those in which COUNT replies are
//! written. `bench/wire.sh` runs it beside the same work in plain Rust.
#![tactic(auto)]

mod connects;
mod frames;
mod many;
mod packets;
mod replies;
mod requests;

use crate::many::print_times;
use anyhow::Result;
use row_files::{Rows, status_of, try_files_in};
use std::alloc::Global;
use std::env;
use std::process::ExitCode;
use zx_base::Memory;

/// What the rows of a file are, by its name.
#[derive(Clone, Copy)]
enum Kind {
    Requests,
    Spellings,
    Connects,
    Replies,
    Notices,
    ConnectResponses,
    Frames,
    Many,
}

impl Rows for Kind {
    fn found(&mut self, alloc: Global, left: &str) -> Result<Option<String>, Memory> {
        match self {
            Kind::Requests => requests::read(alloc, left),
            Kind::Spellings => requests::written_again(alloc, left),
            Kind::Connects => connects::read(alloc, left),
            Kind::Replies => replies::read(alloc, left),
            Kind::Notices => connects::notice(alloc, left),
            Kind::ConnectResponses => connects::answer(alloc, left),
            Kind::Frames => frames::cut(alloc, left),
            Kind::Many => many::counted(alloc, left),
        }
    }
}

const FILES: [(&'static str, Kind); 8] = [
    ("requests", Kind::Requests),
    ("spellings", Kind::Spellings),
    ("connects", Kind::Connects),
    ("replies", Kind::Replies),
    ("notices", Kind::Notices),
    ("connect_responses", Kind::ConnectResponses),
    ("frames", Kind::Frames),
    ("many", Kind::Many),
];

/// Tries the files in the folder that the first argument names, or in `vectors` without one.
fn main(rt: HostRuntime) -> Result<ExitCode> {
    let mut words = env::args(&rt)?;
    let _program = words.next();
    let Some(first) = words.next() else {
        return try_all(&rt, "vectors");
    };
    match words.next() {
        Some(count) if first.as_str() == "time" => print_times(&rt, count.as_str()),
        _ => try_all(&rt, first.as_str()),
    }
}

fn try_all(rt: &HostRuntime, folder: &str) -> Result<ExitCode> {
    Ok(status_of(try_files_in(rt, folder, &FILES)?))
}
