//! Tries the rows of the files in `data/vectors` on the lines of scripts and transcripts, on what is said of those that cannot be read,
//! and on `show`, and says on standard error where a row differs.
//!
//! A row is LEFT = RIGHT ([`row_files`]); each file says in its first lines what its rows are. A new row needs no proof.
#![tactic(auto)]

mod faults;
mod longest;
mod scripts;
mod shows;
mod transcripts;

use anyhow::Result;
use row_files::{Rows, argument_or, status_of, try_files_in};
use std::alloc::Global;
use std::process::ExitCode;
use zx_base::Memory;

/// A file's rows are of the kind that it is named for.
#[derive(Clone, Copy)]
enum Kind {
    Shows,
    Scripts,
    Transcripts,
    ScriptFaults,
    TranscriptFaults,
}

impl Rows for Kind {
    fn found(&mut self, alloc: Global, left: &str) -> Result<Option<String>, Memory> {
        match self {
            Kind::Shows => shows::shown(alloc, left),
            Kind::Scripts => scripts::read(alloc, left),
            Kind::Transcripts => transcripts::written(alloc, left),
            Kind::ScriptFaults => faults::of_script(alloc, left),
            Kind::TranscriptFaults => faults::of_transcript(alloc, left),
        }
    }
}

const FILES: [(&'static str, Kind); 5] = [
    ("shows", Kind::Shows),
    ("scripts", Kind::Scripts),
    ("transcripts", Kind::Transcripts),
    ("script-faults", Kind::ScriptFaults),
    ("transcript-faults", Kind::TranscriptFaults),
];

/// Looks in the folder that its first argument names, and without one in `vectors`.
fn main(rt: HostRuntime) -> Result<ExitCode> {
    let folder = argument_or(&rt, "vectors")?;
    let mut failed = try_files_in(&rt, folder.as_str(), &FILES)?;
    if longest::problem(rt.alloc()) != Ok(false) {
        eprintln!(rt; "differs: the longest line of a script")?;
        failed = failed.saturating_add(1);
    }
    Ok(status_of(failed))
}
