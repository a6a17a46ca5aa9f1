//! Judges transcripts, and compares each verdict with the one that stands beside it.
//!
//! `transcripts/NAME.transcript` is a transcript, and `transcripts/NAME.verdict` its verdict, in the words of the command `judge`.
//! Each is spelled from the records of zookeeper.jute and the rules of the Programmer's Guide, without this project's code. A name
//! that begins with another name is that one's transcript with one thing spoiled. If there is a `transcripts/NAME.script`, the
//! transcript tells of that script; nearly all of these scripts are examples of `replay` too, which runs them. `count` says how
//! many transcripts there are, so that none gets lost.
//!
//! Nothing is written to standard output. What differs is told on standard error. The status is 1 if a verdict differs, or if
//! `count` gives another number of transcripts.
#![tactic(auto)]

use anyhow::{Context, Result, bail};
use std::alloc::Global;
use std::process::ExitCode;
use std::rt::Files;
use std::{env, fs};
use zk_judge::{Verdict, judge};
use zk_transcript::TranscriptLine;
use zt_lines::{TranscriptFault, read_transcript};
use zx_base::Memory;

/// Looks in the folder that the first argument names, or in the present one without one.
fn main(rt: HostRuntime) -> Result<ExitCode> {
    let given = env::args(&rt)?.nth(1);
    let root = match &given {
        Some(folder) => folder.as_str(),
        None => ".",
    };
    let folder = format!(in rt.alloc(); "{root}/transcripts")?;
    let (mut passed, mut failed) = (0u64, 0u64);
    for name in &names_in(&rt, folder.as_str())? {
        if is_passed(&rt, folder.as_str(), name.as_str())? {
            passed = passed.saturating_add(1);
        } else {
            failed = failed.saturating_add(1);
        }
    }
    let wanted = text_of(&rt, format!(in rt.alloc(); "{root}/count")?.as_str())?;
    status_of(&rt, passed, failed, wanted.trim())
}

/// Says how many passed, failed and are wanted.
fn status_of(rt: &HostRuntime, passed: u64, failed: u64, wanted: &str) -> Result<ExitCode> {
    eprintln!(rt; "{passed} passed, {failed} failed, {wanted} wanted")?;
    Ok(if failed == 0 && wanted.parse::<u64>() == Ok(passed) {
        ExitCode::SUCCESS
    } else {
        ExitCode::FAILURE
    })
}

/// Whether the verdict on a transcript is the one that stands beside it; if not, says what differs.
fn is_passed(rt: &HostRuntime, folder: &str, name: &str) -> Result<bool> {
    let path = format!(in rt.alloc(); "{folder}/{name}")?;
    match problem_of(rt, path.as_str()) {
        Ok(None) => return Ok(true),
        Ok(Some(found)) => eprintln!(rt; "{name} is judged {found}")?,
        Err(error) => eprintln!(rt; "{name}: {error}")?,
    }
    Ok(false)
}

/// The names in a folder without their endings, each once and in order.
fn names_in<R: Files + AllocGlobal + Clone + Drop>(rt: &R, folder: &str) -> Result<Vec<String>> {
    let mut names = Vec::new(rt.alloc());
    for entry in fs::read_dir(rt, folder).context(format_args!("listing {folder}"))? {
        let entry = entry?;
        names.push(String::from_str(rt.alloc(), stem(entry.file_name()))?)?;
    }
    names.sort()?;
    names.dedup();
    Ok(names)
}

/// A file's name without its ending.
fn stem(name: &str) -> &str {
    match name.rsplit_once('.') {
        Some((stem, _)) => stem,
        None => name,
    }
}

/// The text of a file.
fn text_of<R: Files + AllocGlobal>(rt: &R, path: &str) -> Result<String> {
    let text = fs::read_to_string(rt, path).context(format_args!("reading {path}"))?;
    Ok(text)
}

/// The verdict on a transcript, if it is not the one that stands beside it.
fn problem_of<R: Files + AllocGlobal>(rt: &R, path: &str) -> Result<Option<String>> {
    let alloc = rt.alloc();
    let transcript = text_of(rt, format!(in alloc; "{path}.transcript")?.as_str())?;
    let verdict = text_of(rt, format!(in alloc; "{path}.verdict")?.as_str())?;
    let Ok(found) = verdict_on(alloc, transcript.as_bytes()) else {
        bail!("out of memory");
    };
    let wanted = verdict.trim();
    Ok(if found.as_str() == wanted {
        None
    } else {
        Some(found)
    })
}

/// The verdict on a transcript's text, in the words of the command `judge`.
fn verdict_on(alloc: Global, text: &[u8]) -> Result<String, Memory> {
    match read_transcript(alloc, text) {
        Ok(lines) => verdict_of(alloc, lines.as_slice()),
        Err(TranscriptFault::Unreadable { line }) => {
            Ok(format!(in alloc; "fault {line} unreadable line")?)
        }
        Err(TranscriptFault::Memory) => Err(Memory),
    }
}

fn verdict_of(alloc: Global, lines: &[TranscriptLine]) -> Result<String, Memory> {
    Ok(match judge(alloc, lines)? {
        Verdict::Lawful => String::from_str(alloc, "lawful")?,
        Verdict::History { line } => format!(in alloc; "unlawful history {line}")?,
        Verdict::Order { line } => format!(in alloc; "unlawful order {line}")?,
        Verdict::Conversation { connection } => format!(in alloc;
            "unlawful connection {connection}"
        )?,
    })
}
