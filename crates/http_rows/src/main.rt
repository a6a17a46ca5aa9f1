//! Reads and writes each message of the file `rows` and compares the outcome with what stands there.
//!
//! A line is `CALL WORDS = OUTCOME`; a line that is empty or begins with `#` is passed over. In words and outcomes `\r`,
//! `\n` and `\t` stand for those bytes, and `\(N)c` for N times the character c.
//!
//! | Line | Says |
//! |---|---|
//! | `response BYTES = OUTCOME` | what `read_response` gives: `ok BODY left REST`, with REST still in the source, or the fault |
//! | `request BYTES = OUTCOME` | what `read_request` gives: `ok ROUTE BODY left REST`, or the fault |
//! | `lines BYTES = OUTCOME` | the calls of `Lines::next` up to a fault but `Idle`: `LINE\n` for each line, `Idle\n`, the fault |
//! | `idle TURNS BYTES = OUTCOME` | as `response`, from a source that is idle for TURNS turns before its first byte |
//! | `paused ONES NEXT BYTES = OUTCOME` | as `lines`: ONES bytes come one by one, then NEXT at once, then 6,000 idle turns |
//! | `ask ROUTE HOST BODY = BYTES` | what `send_request` writes |
//! | `torn ROUTE HOST BODY = OUTCOME` | the same, to a sink whose second write fails: the bytes, or the fault |
//! | `answer STATUS BODY = BYTES` | what `send_response` writes |
//!
//! The first three are read in pieces of 1, 2 and 7 bytes, with an idle turn before each of the first 500, and in pieces as
//! large as fit. The outcome must be the same each time. More than 100,000 bytes are read only in pieces as large as fit.
#![tactic(auto)]

mod calls;
mod marks;
mod sources;

use crate::calls::outcome;
use crate::marks::{escaped, unescaped};
use anyhow::{Context, Result};
use std::alloc::{AllocError, Global};
use std::fs;
use std::process::ExitCode;

/// The sizes in bytes of the pieces that each message is read in; 0: as large as fit.
const CUTS: [u32; 4] = [1, 2, 7, 0];

/// A message with more bytes is not cut.
const MAX_CUT: usize = 100_000;

fn main(rt: HostRuntime) -> Result<ExitCode> {
    let text = fs::read_to_string(&rt, "rows").context("rows")?;
    let mut counts = Counts {
        passed: 0,
        failed: 0,
    };
    for (index, line) in text.lines().enumerate() {
        counts.add(&rt, index, line)?;
    }
    let (passed, failed) = (counts.passed, counts.failed);
    eprintln!(rt; "{passed} passed, {failed} failed")?;
    Ok(if failed == 0 && passed != 0 {
        ExitCode::SUCCESS
    } else {
        ExitCode::FAILURE
    })
}

/// How many lines passed, and how many differ.
#[derive(Clone, Copy)]
struct Counts {
    passed: u64,
    failed: u64,
}

impl Counts {
    /// Counts a line, and says on standard error what is wrong with it.
    fn add(&mut self, rt: &HostRuntime, index: usize, line: &str) -> Result<()> {
        if line.is_empty() || line.starts_with('#') {
            return Ok(());
        }
        match problem_in(rt.alloc(), line)? {
            None => self.passed = self.passed.saturating_add(1),
            Some(problem) => {
                let number = index.saturating_add(1);
                eprintln!(rt; "differs line {number}: {problem}")?;
                self.failed = self.failed.saturating_add(1);
            }
        }
        Ok(())
    }
}

/// What is wrong with a line, or what came out instead; `None` where it is right.
fn problem_in(alloc: Global, line: &str) -> Result<Option<String>, AllocError> {
    let Some((words, wanted)) = line.split_once(" = ") else {
        return Ok(Some(String::from_str(alloc, "no outcome")?));
    };
    let Some((call, given)) = words.split_once(' ') else {
        return Ok(Some(String::from_str(alloc, "no words")?));
    };
    let wanted = unescaped(alloc, wanted.as_bytes())?;
    let size = unescaped(alloc, given.as_bytes())?.len();
    for cut in &CUTS {
        if *cut > 0 && size > MAX_CUT {
            continue;
        }
        let problem = problem_at(alloc, call, given, *cut, wanted.as_slice())?;
        if problem.is_some() {
            return Ok(problem);
        }
    }
    Ok(None)
}

/// What is wrong where the words are read in pieces of this size.
fn problem_at(
    alloc: Global,
    call: &str,
    given: &str,
    cut: u32,
    wanted: &[u8],
) -> Result<Option<String>, AllocError> {
    let Some(found) = outcome(alloc, call, given, cut)? else {
        return Ok(Some(String::from_str(alloc, "no such call")?));
    };
    if found.as_slice() == wanted {
        return Ok(None);
    }
    let shown = escaped(alloc, found.as_slice())?;
    Ok(Some(format!(in alloc; "in pieces of {cut}: {shown}")?))
}
