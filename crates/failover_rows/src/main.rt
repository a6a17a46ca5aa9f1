//! Tries the rows of the file `rows` on a link over several endpoints, and reports on standard error which rows differ.
//!
//! A row is LEFT = RIGHT. The right side was worked out by hand from the rule: an ask that only reads is tried at each endpoint until
//! one answers; any other goes on to the next endpoint only if it was not sent.
//!
//! | Left side | Right side |
//! |---|---|
//! | `mem SIZE UNSENT FAILING ASK ..` | what came of these asks, one after the other, over SIZE endpoints of one new store: `ok` with the revision, `failed` or `memory`, and then each try, as its endpoint's number with `ok`, `unsent`, `failed` or `memory`; at last `next` and the endpoint that is asked next. UNSENT and FAILING list the calls that are not sent, and the calls that fail, by their numbers from 1, with commas; `-` for none |
//! | `dial LIST ASK ..` | the same over addresses that are dialled, and `dialled` with each address that was dialled, in order. An address that begins with `u` answers three asks for the head, one that begins with `e` ends its stream at once, and any other cannot be dialled. If LIST is `-`, no address is named |
//! | `after LIST NUMBER` | the number of the address that is dialled after the one with this number, both from 0 |
//!
//! An ask is `head` (a transaction that reads one key), `begin` (the first transaction of a new store), `range`, `alive`, `grant`, or
//! `else` (a transaction whose failure list puts).
#![tactic(auto)]

mod asks;
mod dialling;
mod hosts;
mod memory;
mod noted;

use anyhow::Result;
use row_files::{Rows, status_of, try_file};
use std::alloc::Global;
use std::process::ExitCode;
use zx_base::Memory;

/// The rows of the file.
#[derive(Clone, Copy)]
struct Calls;

impl Rows for Calls {
    fn found(&mut self, alloc: Global, left: &str) -> Result<Option<String>, Memory> {
        let Some((kind, given)) = left.split_once(' ') else {
            return Ok(None);
        };
        if kind == "mem" {
            return memory::called(alloc, given);
        }
        if kind == "dial" {
            return dialling::called(alloc, given);
        }
        if kind == "after" {
            return dialling::after(alloc, given);
        }
        Ok(None)
    }
}

fn main(rt: HostRuntime) -> Result<ExitCode> {
    let mut calls = Calls;
    let failed = try_file(&rt, "rows", &mut calls)?;
    Ok(status_of(failed))
}
