//! Tries the rows of the files in `data/vectors` on the etcd in memory and on the stored layout, and says on standard error
//! where a row differs.
//!
//! A row is LEFT = RIGHT ([`row_files`]); each file says in its first lines what its rows are. Expected values are by hand from
//! etcd's API reference and from the layout's tables in `docs/FORMATS.md`. A new row needs no proof.
#![tactic(auto)]

mod asks;
mod changes;
mod keys;
mod records;
mod time;
mod words;

use anyhow::{Result, bail};
use ev_store::Store;
use row_files::{Rows, argument_or, status_of, try_file_in};
use std::alloc::Global;
use std::process::ExitCode;
use zx_base::Memory;

/// A file's rows are of the kind that it is named for.
#[derive(Clone, Copy)]
enum Kind {
    Keys,
    Records,
    /// Done to one store, one after the other.
    Asks,
}

/// The files. Each of the last three has a store of its own, to which its rows are done.
const FILES: [(&'static str, Kind); 5] = [
    ("keys", Kind::Keys),
    ("records", Kind::Records),
    ("asks", Kind::Asks),
    ("leases", Kind::Asks),
    ("events", Kind::Asks),
];

/// The rows of one file, and the store that they are done to.
#[derive(Drop)]
struct Vectors {
    kind: Kind,
    store: Store,
}

impl Rows for Vectors {
    fn found(&mut self, alloc: Global, left: &str) -> Result<Option<String>, Memory> {
        match self.kind {
            Kind::Keys => keys::written(alloc, left),
            Kind::Records => records::read(alloc, left),
            Kind::Asks => asks::carried_out(alloc, &mut self.store, left),
        }
    }
}

/// Looks in the folder that its first argument names, and without one in `vectors`. The argument `time` measures the store.
fn main(rt: HostRuntime) -> Result<ExitCode> {
    let folder = argument_or(&rt, "vectors")?;
    if folder.as_str() == "time" {
        time::run(&rt)?;
        return Ok(ExitCode::SUCCESS);
    }
    let mut failed = 0u64;
    for (name, kind) in FILES {
        failed = failed.saturating_add(tried(&rt, folder.as_str(), name, kind)?);
    }
    Ok(status_of(failed))
}

/// How many rows of a file differ.
fn tried(rt: &HostRuntime, folder: &str, name: &str, kind: Kind) -> Result<u64> {
    let Ok(store) = Store::new(rt.alloc()) else {
        bail!("out of memory");
    };
    let mut rows = Vectors { kind, store };
    try_file_in(rt, folder, name, &mut rows)
}
