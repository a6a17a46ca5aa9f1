//! Tries the rows of the files `decisions` and `multis`, and says on standard error where a row differs.
//!
//! A row is LEFT = RIGHT ([`row_files`]); the file says in its first lines what its rows are. Expected values were worked out by
//! hand from the Programmer's Guide, `KeeperException.Code` and the layout's tables in `docs/FORMATS.md`. A new row needs no proof.
//!
//! `ops_rows time COUNT` prints the microseconds in which a getChildren of a node with COUNT children and a setData of 1,048,575
//! bytes are decided, and those in which the COUNT paths of a setWatches are looked through, each on a view that has what it
//! reads. `bench/listing.sh` runs it.
#![tactic(auto)]

mod asked;
mod found;
mod looking;
mod many;
mod plans;
mod replies;
mod values;
mod watched;

use crate::looking::Looking;
use crate::many::print_times;
use anyhow::Result;
use row_files::{status_of, try_file};
use std::env;
use std::process::ExitCode;

/// Tries the file that its first argument names, and without one `decisions` and `multis`. It fails where a row differs.
fn main(rt: HostRuntime) -> Result<ExitCode> {
    let mut words = env::args(&rt)?;
    let _program = words.next();
    let Some(first) = words.next() else {
        return try_all(&rt);
    };
    match words.next() {
        Some(count) if first.as_str() == "time" => print_times(&rt, count.as_str()),
        _ => Ok(status_of(try_rows(&rt, first.as_str())?)),
    }
}

fn try_all(rt: &HostRuntime) -> Result<ExitCode> {
    let singles = try_rows(rt, "decisions")?;
    let multis = try_rows(rt, "multis")?;
    Ok(status_of(singles.saturating_add(multis)))
}

/// How many rows of a file differ.
fn try_rows(rt: &HostRuntime, file: &str) -> Result<u64> {
    let mut rows = Looking::new(rt.alloc());
    try_file(rt, file, &mut rows)
}
