//! Rows of lines that cannot be read.

use std::alloc::Global;
use zt_faults::{LineFault, fault_at_line, fault_in_script};
use zx_base::Memory;

/// Why a line of a script cannot be read; `can be read` if it can.
pub fn of_script(alloc: Global, line: &str) -> Result<Option<String>, Memory> {
    said(alloc, fault_in_script(alloc, line.as_bytes())?)
}

/// Why the last of these lines of a transcript, with `|` after each other one, cannot be read.
pub fn of_transcript(alloc: Global, lines: &str) -> Result<Option<String>, Memory> {
    let mut text = Vec::new(alloc);
    let mut number: u64 = 0;
    for line in lines.split("|") {
        text.extend_from_slice(line.as_bytes())?;
        text.push(b'\n')?;
        number = number.saturating_add(1);
    }
    said(alloc, fault_at_line(alloc, text.as_slice(), number)?)
}

fn said(alloc: Global, fault: Option<LineFault>) -> Result<Option<String>, Memory> {
    match fault {
        Some(fault) => Ok(Some(format!(in alloc; "{fault}")?)),
        None => Ok(Some(String::from_str(alloc, "can be read")?)),
    }
}
