//! Reads the rows of the files `machine`, `paths` and `watches`, and says on standard error where a row differs.
//!
//! A row is LEFT = RIGHT ([`row_files`]); each file says in its first lines what its rows are. A new row needs no proof.
#![tactic(auto)]

mod paths;
mod service;
mod texts;
mod watches;

use crate::service::Service;
use anyhow::Result;
use row_files::{Rows, argument_or, found_in_steps, status_of, try_files_in};
use std::alloc::Global;
use std::process::ExitCode;
use zw_watch::Armed;
use zx_base::Memory;

/// A file's rows are of the kind that it is named for.
#[derive(Clone, Copy)]
enum Kind {
    Machine,
    Paths,
    Watches,
}

impl Rows for Kind {
    fn found(&mut self, alloc: Global, left: &str) -> Result<Option<String>, Memory> {
        match self {
            Kind::Machine => serve(alloc, left),
            Kind::Paths => paths::found(alloc, left),
            Kind::Watches => watch(alloc, left),
        }
    }
}

/// What comes of the steps that a new service takes.
fn serve(alloc: Global, left: &str) -> Result<Option<String>, Memory> {
    let mut service = Service::new(alloc)?;
    found_in_steps(alloc, &mut service, left)
}

/// What comes of the steps that the watches of a new connection take.
fn watch(alloc: Global, left: &str) -> Result<Option<String>, Memory> {
    let mut watches = watches::Watching {
        armed: Armed::new(alloc),
    };
    found_in_steps(alloc, &mut watches, left)
}

const FILES: [(&'static str, Kind); 3] = [
    ("machine", Kind::Machine),
    ("paths", Kind::Paths),
    ("watches", Kind::Watches),
];

/// Looks in the folder that its first argument names, and without one in the current one.
fn main(rt: HostRuntime) -> Result<ExitCode> {
    let folder = argument_or(&rt, ".")?;
    Ok(status_of(try_files_in(&rt, folder.as_str(), &FILES)?))
}
