//! Runs schedules twice each, and says on standard error where a row of the file `rows` differs.
//!
//! A row is LEFT = RIGHT ([`row_files`]). The left side is `NUMBER CONNECTIONS STEPS`, and the right side the summary that both runs
//! give, with `; ` in place of the line feeds between its lines.
#![tactic(auto)]

use anyhow::Result;
use row_files::{Rows, Words, push, said, status_of, try_file};
use std::alloc::Global;
use std::process::ExitCode;
use zp_stress::{MAX_CONNECTIONS, push_summary, stress};
use zx_base::Memory;

/// The rows of the file.
#[derive(Clone, Copy)]
struct Schedules;

impl Rows for Schedules {
    fn found(&mut self, alloc: Global, left: &str) -> Result<Option<String>, Memory> {
        let mut words = Words::new(left);
        let (Some(number), Some(connections), Some(steps)) = (
            words.number(),
            words.number(),
            words.number(),
        ) else {
            return Ok(None);
        };
        if connections == 0 || connections > MAX_CONNECTIONS {
            return Ok(None);
        }
        let first = stress(alloc, u64::from(number), connections, steps)?;
        let second = stress(alloc, u64::from(number), connections, steps)?;
        if first != second {
            return said(alloc, "two runs differ");
        }
        let mut text = Vec::new(alloc);
        push_summary(&mut text, &first)?;
        in_one_line(alloc, text.as_slice())
    }
}

/// The lines of a text, with `; ` between two of them; `None` where it is no UTF-8.
fn in_one_line(alloc: Global, text: &[u8]) -> Result<Option<String>, Memory> {
    let Ok(text) = str::from_utf8(text) else {
        return Ok(None);
    };
    let mut found = String::new(alloc);
    for line in text.lines() {
        if !found.is_empty() {
            push(&mut found, "; ")?;
        }
        push(&mut found, line)?;
    }
    Ok(Some(found))
}

fn main(rt: HostRuntime) -> Result<ExitCode> {
    let failed = try_file(&rt, "rows", &mut Schedules)?;
    Ok(status_of(failed))
}
