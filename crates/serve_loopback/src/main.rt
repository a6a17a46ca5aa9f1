//! Tries the rows of the file `rows` on `serve` and on the follower of its watch worker, and reports on standard error which rows
//! differ. Faults of an etcd are there too, as `serve` and the follower write them.
//!
//! A row is LEFT = RIGHT:
//!
//! | Left side | Right side |
//! |---|---|
//! | `follow FROM` | the end of a follower whose dials give streams without a byte. The word to stop is set from reading number FROM on |
//! | `follow FROM LINE` | the same, with a first dial that gives a watch's stream of this one line |
//! | `memory CALL LIMIT` | the end of a server over a net in memory, whose clients end at once and whose dials give streams without a byte, and over an etcd in memory whose call number CALL fails, 0 for none; then the first and the last line that it wrote |
//! | `line LINE` | the end of a server over the loopback to which nobody connects. Its etcd is new; after the first ask, which makes the root, it gives this line to everybody who asks. Then `listening`, if that is the server's first line, and its other lines in order |
//! | `late LINE` | the same for a server of one client, which connects and sends nothing; the etcd gives the line once a worker serves it |
//! | `gone 2` | the same for a server whose etcd is gone after the first ask, and to which two clients connect, one after the other |
//! | `play SERVER \| SERVER ..` | as `two`, for servers that run one after the other on one etcd. A SERVER is `LIMIT WORD ..: STEP; STEP; ..`: how many clients it serves, its random words, and the steps. After the lines comes, for each client, the session and the password of its welcome in hex, and how many packets it received |
//! | `turn FRAME ..` | as `two`, but the second client connects once the stream of the first has ended, and the gate holds nobody |
//! | `two FRAME ..` | the end of a server over the loopback, with an etcd in memory in the same process, to which two clients each send these frames, in hex and without their lengths; then `listening`, if that is its first line, and its other lines in order. `alone` if the worker of connection 1 waited in vain at the gate, which holds it until the worker of connection 2 has passed. `no gate` if each worker did not come to the gate exactly once. `other bytes` if a connection says that it sent something else than its client received |
//!
//! A STEP is one of these; C is the number of a client. One that has no stream yet connects first:
//!
//! | Step | Means |
//! |---|---|
//! | `C FRAME ..` | it sends these frames, and waits for as many packets |
//! | `C +N` | it waits for N packets more |
//! | `C soon FRAME ..`, `C soon +N` | the same, in less than 0.9 seconds by the clock |
//! | `C end` | it waits for the end of its stream |
//! | `C cut` | it cuts its stream |
//! | `shut` | somebody tries to connect until nobody listens |
//!
//! Every wait has an end: if something does not come within some half a minute of idle time, that is reported in place of the right
//! side.
#![tactic(auto)]

mod clients;
mod deserted;
mod follows;
mod loopback;
mod memory;
mod plays;
mod turns;

use crate::deserted::Later;
use anyhow::{Context, Result, bail};
use row_files::status_of;
use std::alloc::Global;
use std::fs;
use std::net::{Net, TcpListener, TcpStream};
use std::process::ExitCode;
use std::random::RandomSource;
use std::sync::Wait;
use std::thread::Threads;
use std::time::Clock;
use zp_server::ServeEnd;
use zx_base::Memory;

/// What comes of the left side of a row; `None` where it cannot be read.
fn found<
    R: Net<Listener = TcpListener, Stream = TcpStream>
        + Clock
        + Threads
        + Wait
        + Eprint
        + RandomSource
        + AllocGlobal
        + Copy
        + Send
        + Drop
        + 'static,
>(rt: R, alloc: Global, left: &str) -> Result<Option<String>, Memory> {
    let Some((kind, given)) = left.split_once(' ') else {
        return Ok(None);
    };
    if kind == "follow" {
        return follows::followed(&rt, alloc, given);
    }
    if kind == "memory" {
        return memory::served(rt, alloc, given);
    }
    if kind == "two" {
        return loopback::served(rt, alloc, given, false);
    }
    if kind == "turn" {
        return loopback::served(rt, alloc, given, true);
    }
    if kind == "play" {
        return plays::served(rt, alloc, given);
    }
    if kind == "line" {
        return deserted::served(rt, alloc, Later::Says(given));
    }
    if kind == "late" {
        return deserted::served(rt, alloc, Later::SaysLate(given));
    }
    if left == "gone 2" {
        return deserted::served(rt, alloc, Later::Gone);
    }
    Ok(None)
}

/// Whether a row passes. If it does not, says on standard error what came of its left side.
fn passes<
    R: Net<Listener = TcpListener, Stream = TcpStream>
        + Clock
        + Threads
        + Wait
        + Eprint
        + RandomSource
        + AllocGlobal
        + Copy
        + Send
        + Drop
        + 'static,
>(rt: R, row: &str) -> Result<bool> {
    let Some((left, right)) = row.split_once(" = ") else {
        eprintln!(rt; "no row: {row}")?;
        return Ok(false);
    };
    match found(rt, rt.alloc(), left) {
        Ok(Some(found)) => {
            let same = found.as_str() == right;
            if !same {
                eprintln!(rt; "differs: {row}: {found}")?;
            }
            Ok(same)
        }
        Ok(None) => {
            eprintln!(rt; "unreadable: {row}")?;
            Ok(false)
        }
        Err(Memory) => bail!("out of memory"),
    }
}

/// How many rows of a text differ, and one more where there is none.
fn differing<
    R: Net<Listener = TcpListener, Stream = TcpStream>
        + Clock
        + Threads
        + Wait
        + Eprint
        + RandomSource
        + AllocGlobal
        + Copy
        + Send
        + Drop
        + 'static,
>(rt: R, text: &str) -> Result<u64> {
    let (mut tried, mut failed) = (0u64, 0u64);
    for line in text.lines() {
        if line.is_empty() || line.starts_with('#') {
            continue;
        }
        tried = tried.saturating_add(1);
        if !passes(rt, line)? {
            failed = failed.saturating_add(1);
        }
    }
    if tried == 0 {
        eprintln!(rt; "there is no row")?;
        return Ok(1);
    }
    Ok(failed)
}

/// The word for how a server ended.
fn word_of(end: &ServeEnd) -> &'static str {
    match end {
        ServeEnd::Done => "done",
        ServeEnd::WriteFault => "write",
        ServeEnd::Net => "net",
        ServeEnd::Memory => "memory",
        ServeEnd::Feed(_) => "feed",
    }
}

fn main(rt: HostRuntime) -> Result<ExitCode> {
    let text = fs::read_to_string(&rt, "rows").context("reading the rows")?;
    Ok(status_of(differing(rt, text.as_str())?))
}
