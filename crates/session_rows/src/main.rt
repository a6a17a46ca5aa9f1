//! Reads the rows of the file `sessions`, and says on standard error where a row differs.
//!
//! A row is LEFT = RIGHT ([`row_files`]), done to the etcd in memory that the rows before left; the file says in its first
//! lines what its rows are. Expected values are by hand from the Programmer's Guide ("ZooKeeper Sessions", "Ephemeral Nodes"),
//! zookeeper.jute and the layout's tables in `docs/FORMATS.md`. A new row needs no proof.
#![tactic(auto)]

mod answers;
mod changes;
mod closing;
mod connects;
mod reaps;
mod waiting;
mod words;

use crate::changes::{delete, grant, lapse, put};
use crate::closing::close;
use crate::connects::{alive, begin};
use crate::reaps::begin_reap;
use crate::waiting::Waiting;
use anyhow::{Result, bail};
use ev_store::Store;
use row_files::{Rows, Words, argument_or, push_number, status_of, try_file};
use std::alloc::Global;
use std::mem;
use std::process::ExitCode;
use zx_base::Memory;

/// The etcd, and what asks it.
#[derive(Drop)]
struct Sessions {
    store: Store,
    waiting: Waiting,
}

impl Rows for Sessions {
    fn found(&mut self, alloc: Global, left: &str) -> Result<Option<String>, Memory> {
        let mut text = String::new(alloc);
        Ok(if self.carry_out(alloc, &mut text, left)? {
            Some(text)
        } else {
            None
        })
    }
}

impl Sessions {
    /// Does what a row says, and adds what comes of it; false where the row cannot be read.
    fn carry_out(&mut self, alloc: Global, text: &mut String, row: &str) -> Result<bool, Memory> {
        let mut words = Words::new(row);
        let Some(kind) = words.word() else {
            return Ok(false);
        };
        Ok(self.of_kind(alloc, text, kind, &mut words)? && words.word().is_none())
    }

    /// Adds what a row of this kind comes to, by its other words.
    fn of_kind(
        &mut self,
        alloc: Global,
        text: &mut String,
        kind: &str,
        words: &mut Words,
    ) -> Result<bool, Memory> {
        match kind {
            "new" => self.renew(alloc, text),
            "put" => put(alloc, text, &mut self.store, words),
            "delete" => delete(alloc, text, &mut self.store, words),
            "grant" => grant(alloc, text, &mut self.store, words),
            "lapse" => lapse(alloc, text, &mut self.store, words),
            "alive" => alive(text, words),
            "connect" => Ok(self.wait(begin(alloc, text, words)?)),
            "reap" => Ok(self.wait(begin_reap(alloc, text, words)?)),
            "step" => self.step(alloc, text),
            "close" => close(alloc, text, &mut self.store, words),
            _ => Ok(false),
        }
    }

    /// A new etcd, which nothing asks.
    fn new(alloc: Global) -> Result<Sessions, Memory> {
        Ok(Sessions {
            store: Store::new(alloc)?,
            waiting: Waiting::Nothing,
        })
    }

    fn renew(&mut self, alloc: Global, text: &mut String) -> Result<bool, Memory> {
        *self = Sessions::new(alloc)?;
        push_number(alloc, text, "", self.store.revision())?;
        Ok(true)
    }

    /// This waits now; false where nothing was begun.
    fn wait(&mut self, begun: Option<Waiting>) -> bool {
        match begun {
            Some(waiting) => {
                self.waiting = waiting;
                true
            }
            None => false,
        }
    }

    /// Has what was asked carried out, and makes the next step.
    fn step(&mut self, alloc: Global, text: &mut String) -> Result<bool, Memory> {
        self.waiting = match mem::replace(&mut self.waiting, Waiting::Nothing) {
            Waiting::Nothing => return Ok(false),
            Waiting::Connect(begun) => begun.go_on(alloc, text, &mut self.store)?,
            Waiting::Reap(begun) => begun.go_on(alloc, text, &mut self.store)?,
        };
        Ok(true)
    }
}

/// Looks in the file that its first argument names, and without one in `sessions`.
fn main(rt: HostRuntime) -> Result<ExitCode> {
    let file = argument_or(&rt, "sessions")?;
    Ok(status_of(failed_in(&rt, file.as_str())?))
}

/// How many rows of a file differ.
fn failed_in(rt: &HostRuntime, file: &str) -> Result<u64> {
    let Ok(mut rows) = Sessions::new(rt.alloc()) else {
        bail!("out of memory");
    };
    try_file(rt, file, &mut rows)
}
