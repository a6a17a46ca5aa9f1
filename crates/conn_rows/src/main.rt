//! Tries the rows of the file `rows` on one connection over streams in memory, and reports on standard error which rows differ.
//!
//! The link is to a store of its own, on which the tree was begun at time 0. The feed is a reader of an open hub, without entries
//! unless the row gives some. The clock stands at 1,000. A new session gets the number 17 and a password of 16 bytes aa. Bytes are in
//! hex. A row is LEFT = RIGHT:
//!
//! | Left side | Right side |
//! |---|---|
//! | `serve PIECE BYTES` | why the connection ended, as in a transcript's `close` line, and all that it wrote, if these bytes come in pieces of PIECE bytes (0: as many as fit) |
//! | `alone PIECE BYTES` | the same, by the call that begins the tree of an etcd of its own |
//! | `closed PIECE BYTES` | as `serve`, with a feed that was closed before, and a client that is idle for a turn after its pieces |
//! | `fed FIRST COUNT RECORD PIECE BYTES` | the same, with COUNT entries in the feed: the first has the number after FIRST, and each is made from RECORD, a value of the head |
//! | `trace PIECE BYTES` | what a trace was told: the time and the kind of each input, and the length of each packet |
//! | `ticks STEP PIECE BYTES` | the same, with a clock that goes on by STEP milliseconds at each reading |
//! | `fail WHAT PIECE BYTES` | the same stream is served again and again. In each run a later call of WHAT fails (`reads` of the source, `writes` of the sink or `calls` of the link), until a run ends as it does without a failure. The cause of the runs before it and their number; and how many whole packets were written, from which run on. Each run has to write a front of what is written without a failure |
//! | `cut PIECE BYTES` | the same, with the stream cut before each of its bytes in turn, and at its end |
//! | `follow NUMBER LINE ..` | what a follower from this number answers to these lines: `head VERSION VALUE` and `other VERSION VALUE` put the head, and another key; the others are `created`, `compacted` (up to revision 9) and `ended`. An entry is shown as its number, its zxid and how many triggers it has |
//!
//! `conn_rows time COUNT` serves COUNT pings and then COUNT getDatas that come together, and prints the microseconds of each.
//! `bench/conn.sh` makes a table of it.
#![tactic(auto)]

mod failing;
mod feeding;
mod following;
mod serving;
mod ticking;
mod timing;
mod tracing;

use crate::feeding::{CLOSED, Entered, OPEN};
use crate::timing::print_times;
use anyhow::Result;
use row_files::{Rows, Words, bytes_of, status_of, try_file};
use std::alloc::Global;
use std::env;
use std::process::ExitCode;
use std::sync::Wait;
use zx_base::Memory;

/// The rows of the file.
#[derive(Drop)]
struct Connections<'a, R> {
    rt: &'a R,
}

impl<R: Wait> Rows for Connections<'_, R> {
    fn found(&mut self, alloc: Global, left: &str) -> Result<Option<String>, Memory> {
        let mut words = Words::new(left);
        let Some(word) = words.word() else {
            return Ok(None);
        };
        match word {
            "follow" => following::followed(alloc, words),
            "fed" => found_with_entries(self.rt, alloc, words),
            "ticks" => found_by_ticks(self.rt, alloc, words),
            "fail" => {
                let Some(what) = words.word() else {
                    return Ok(None);
                };
                found_of(self.rt, alloc, what, words)
            }
            _ => found_of(self.rt, alloc, word, words),
        }
    }
}

/// What comes of a stream that is served in this way.
fn found_of<R: Wait>(
    rt: &R,
    alloc: Global,
    what: &str,
    mut words: Words<'_>,
) -> Result<Option<String>, Memory> {
    let (Some(piece), Some(digits)) = (words.number(), words.word()) else {
        return Ok(None);
    };
    let Some(bytes) = bytes_of(alloc, digits)? else {
        return Ok(None);
    };
    let bytes = bytes.as_slice();
    match what {
        "serve" => Ok(Some(serving::shown(rt, alloc, bytes, piece, OPEN)?)),
        "closed" => Ok(Some(serving::shown(rt, alloc, bytes, piece, CLOSED)?)),
        "alone" => Ok(Some(serving::shown_alone(rt, alloc, bytes, piece)?)),
        "trace" => Ok(Some(tracing::traced(rt, alloc, bytes, piece, 0)?)),
        _ => failing::told(rt, alloc, what, bytes, piece),
    }
}

/// What a trace is told of a stream that is served by a clock which goes on.
fn found_by_ticks<R: Wait>(
    rt: &R,
    alloc: Global,
    mut words: Words<'_>,
) -> Result<Option<String>, Memory> {
    let (Some(step), Some(piece), Some(digits)) = (words.place(), words.number(), words.word())
    else {
        return Ok(None);
    };
    let Some(bytes) = bytes_of(alloc, digits)? else {
        return Ok(None);
    };
    Ok(Some(tracing::traced(rt, alloc, bytes.as_slice(), piece, step)?))
}

/// What comes of a stream that is served while the feed has entries.
fn found_with_entries<R: Wait>(
    rt: &R,
    alloc: Global,
    mut words: Words<'_>,
) -> Result<Option<String>, Memory> {
    let (Some(first), Some(count), Some(record), Some(piece), Some(digits)) = (
        words.number(),
        words.number(),
        words.word(),
        words.number(),
        words.word(),
    ) else {
        return Ok(None);
    };
    let (Some(record), Some(bytes)) = (bytes_of(alloc, record)?, bytes_of(alloc, digits)?) else {
        return Ok(None);
    };
    let entered = Entered {
        first,
        count,
        record: record.as_slice(),
        closed: false,
    };
    Ok(Some(serving::shown(rt, alloc, bytes.as_slice(), piece, entered)?))
}

fn main(rt: HostRuntime) -> Result<ExitCode> {
    let mut words = env::args(&rt)?;
    let _program = words.next();
    if let (Some(word), Some(count)) = (words.next(), words.next()) {
        if word.as_str() == "time" {
            return print_times(&rt, rt.alloc(), count.as_str());
        }
    }
    let mut connections = Connections { rt: &rt };
    let failed = try_file(&rt, "rows", &mut connections)?;
    Ok(status_of(failed))
}
