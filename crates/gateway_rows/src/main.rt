//! Tries the rows of the file `rows` on the gateway of an etcd in memory and on a link over HTTP, and reports on standard error which
//! rows differ.
//!
//! A row is LEFT = RIGHT; in both, `\r` and `\n` stand for those bytes. The texts were written by hand from etcd's API reference,
//! RFC 9112 and RFC 4648.
//!
//! | Left side | Right side |
//! |---|---|
//! | `gateway LIMIT STEP BYTES` | how the gateway ended, and what it sent, given these bytes. Its store is new and closed, so that no watch waits, and its clock goes STEP milliseconds further at each reading |
//! | `compacted FLOOR BYTES` | the same, of a store in which the key `a` was put at the revisions 2, 3 and 4, and which was then compacted to revision FLOOR |
//! | `open BYTES` | the same of a new store that is open, whose client is gone once it has sent these bytes |
//! | `link CALLS BYTES` | what came of CALLS calls of a link that asked for the key `zk/head` and was given these bytes; then why it failed (with the status, if it was one), or `open` |
//! | `dial FAILING CALLS BYTES` | the same of a link that dials. Its first connection gives these bytes and each later one none, and the dial with the number FAILING fails, 0 for none. Then `anew`, what came of one more call after the link was told its address anew, and `end` |
//! | `named ADDRESS BYTES` | what came of two calls of a link that dials, if only this address can be dialled, which gives these bytes: one before it was told an address; `anew`; one after it was told `x`; `end` |
//! | `lease STEP SECONDS BEFORE AFTER` | for a lease of SECONDS seconds that the store had before it was shared: the seconds in the answers to two keepalives over a link, one after BEFORE asks of another lease and one after AFTER more. The clock goes STEP milliseconds further at each ask |
#![tactic(auto)]

mod calls;
mod hosts;
mod leases;
mod marks;
mod serving;
mod ticking;

use anyhow::Result;
use row_files::{Rows, status_of, try_file};
use std::alloc::Global;
use std::process::ExitCode;
use std::sync::Wait;
use std::time::Clock;
use zx_base::Memory;

/// The rows of the file.
#[derive(Drop)]
struct Messages<'a, R> {
    rt: &'a R,
}

impl<R: Wait + Clock + Copy + Drop> Rows for Messages<'_, R> {
    fn found(&mut self, alloc: Global, left: &str) -> Result<Option<String>, Memory> {
        let Some((call, given)) = left.split_once(' ') else {
            return Ok(None);
        };
        if call == "gateway" {
            return serving::served(self.rt, alloc, given);
        }
        if call == "compacted" {
            return serving::compacted(self.rt, alloc, given);
        }
        if call == "open" {
            return serving::open(self.rt, alloc, given);
        }
        if call == "link" {
            return calls::made(alloc, given);
        }
        if call == "dial" {
            return calls::dialled(alloc, given);
        }
        if call == "named" {
            return calls::named(alloc, given);
        }
        if call == "lease" {
            return leases::kept(*self.rt, alloc, given);
        }
        Ok(None)
    }
}

fn main(rt: HostRuntime) -> Result<ExitCode> {
    let mut messages = Messages { rt: &rt };
    let failed = try_file(&rt, "rows", &mut messages)?;
    Ok(status_of(failed))
}
