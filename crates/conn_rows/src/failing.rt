//! Serves a stream again and again, with one failure or cut after the other.

use crate::serving::{Failing, NONE, Served, serve, words_of};
use row_files::{push, push_number};
use std::alloc::Global;
use std::sync::Wait;
use zp_conn::Cause;
use zx_base::Memory;

/// How many runs are made at most.
const MOST_RUNS: u64 = 10_000;

/// What fails.
#[derive(Clone, Copy)]
enum What {
    Reads,
    Writes,
    Calls,
    Cut,
}

fn what_of(word: &str) -> Option<What> {
    match word {
        "reads" => Some(What::Reads),
        "writes" => Some(What::Writes),
        "calls" => Some(What::Calls),
        "cut" => Some(What::Cut),
        _ => None,
    }
}

/// One run, in which the call of this number fails, or so many bytes come.
fn run<R: Wait>(
    rt: &R,
    alloc: Global,
    what: What,
    bytes: &[u8],
    piece: u32,
    number: u64,
) -> Result<Served, Memory> {
    let failing = match what {
        What::Reads => Failing {
            read: number,
            ..NONE
        },
        What::Writes => Failing {
            write: number,
            ..NONE
        },
        What::Calls => Failing {
            call: number,
            ..NONE
        },
        What::Cut => {
            let end = (number as usize).min(bytes.len());
            return serve(rt, alloc, &bytes[..end], piece, NONE);
        }
    };
    serve(rt, alloc, bytes, piece, failing)
}

/// How many whole packets these bytes are; `None` where they are none.
fn packets_in(bytes: &[u8]) -> Option<i64> {
    let mut rest = bytes;
    let mut count = 0i64;
    for _ in 0..bytes.len() {
        if rest.is_empty() {
            break;
        }
        let (length, later) = rest.split_first_chunk::<4>()?;
        let length = u32::from_be_bytes(*length) as usize;
        rest = later.get(length..)?;
        count = count.saturating_add(1);
    }
    Some(count)
}

/// Whether the run ended by this failure. A stream that is cut ends where it was cut.
fn is_failed(what: What, cause: &Cause, number: u64) -> bool {
    match what {
        What::Reads => matches!(cause, Cause::ReadFault),
        What::Writes => matches!(cause, Cause::WriteFault),
        What::Calls => matches!(cause, Cause::LinkFault),
        What::Cut => matches!(cause, Cause::ClientEnd { place } if *place == number),
    }
}

fn name_of(what: What) -> &'static str {
    match what {
        What::Reads => "read",
        What::Writes => "write",
        What::Calls => "link",
        What::Cut => "client",
    }
}

/// The number of the first run.
fn first_of(what: What) -> u64 {
    match what {
        What::Cut => 0,
        _ => 1,
    }
}

/// What the runs came to.
pub fn told<R: Wait>(
    rt: &R,
    alloc: Global,
    word: &str,
    bytes: &[u8],
    piece: u32,
) -> Result<Option<String>, Memory> {
    let Some(what) = what_of(word) else {
        return Ok(None);
    };
    let whole = serve(rt, alloc, bytes, piece, NONE)?;
    let mut found = String::new(alloc);
    let mut before = None;
    for number in first_of(what)..MOST_RUNS {
        let served = run(rt, alloc, what, bytes, piece, number)?;
        if !is_failed(what, &served.cause, number) {
            push(&mut found, "; then ")?;
            push(&mut found, words_of(alloc, served.cause)?.as_str())?;
            break;
        }
        let packets = if whole.sink.bytes().starts_with(served.sink.bytes()) {
            packets_in(served.sink.bytes())
        } else {
            None
        };
        if packets != before || number == first_of(what) {
            push_change(alloc, &mut found, what, number, packets)?;
            before = packets;
        }
    }
    Ok(Some(found))
}

/// From this run on so many packets were written.
fn push_change(
    alloc: Global,
    found: &mut String,
    what: What,
    number: u64,
    packets: Option<i64>,
) -> Result<(), Memory> {
    if found.is_empty() {
        push(found, name_of(what))?;
        push(found, ": ")?;
    } else {
        push(found, ", ")?;
    }
    match packets {
        Some(packets) => push_number(alloc, found, "", packets)?,
        None => push(found, "no front")?,
    }
    push_number(
        alloc,
        found,
        " from ",
        i64::try_from(number).unwrap_or(i64::MAX),
    )
}
