//! Runs zetcd's commands on worked examples, and compares their output and status with what each example expects.
//!
//! The examples are files of `data/examples`, so a new one needs no proof:
//!
//! - `replay/NAME.script` with `NAME.transcript`, `show/NAME.stream` with `NAME.lines`, and `judge/NAME.transcript` with
//!   `NAME.verdict`: an input and its whole output, with `NAME.status` if the status is not 0, and `NAME.told` with what a person is
//!   told of a line that cannot be read. The input is handed over whole, and in pieces of several sizes.
//! - `stories/NAME.script` with `NAME.transcript`, as in `replay`, and both in words ([`zt_story`]): `NAME.transcript.words`, and
//!   `NAME.script.words`, which has to make the same script. Lines that begin with `#` are for the reader.
//! - `runs/NAME.run`: any other run, with other words, faults, idle turns, or an input that is too long for a file and is made by a
//!   rule ([`Run`](crate::run::Run) has its lines).
//!
//! The transcript of each script, and of each run of a whole script, has to be judged lawful too. `count` is how many comparisons
//! there are, so that none gets lost.
//!
//! Nothing is written to standard output. Standard error has what differs, and then the status is 1; `serve` names faults of its etcd
//! there too.
#![tactic(auto)]

mod compare;
mod files;
mod made;
mod run;
mod stories;
mod unread;

use crate::compare::first_difference;
use crate::files::{bytes_beside, bytes_of, exists, names_in, number_of, text_of};
use crate::run::{Failing, Run};
use crate::stories::{script_problem, words_problem};
use crate::unread::Told;
use anyhow::{Result, bail};
use ev_shared::StoreLink;
use ev_store::Store;
use std::alloc::Global;
use std::env;
use std::process::ExitCode;
use std::rt::Files;
use std::sync::Wait;
use std::thread::Threads;
use std::time::Clock;
use zetcd_cmd::{plain, zetcd};
use zx_net::{InlineSpawner, MemClock, MemNet};
use zx_outside::{MemSink, MemSource};
use zx_random::MemRandom;

/// The sizes of the pieces in which an input is handed over, in bytes: the least, a prime, and the most that one read takes.
const SIZES: [u32; 3] = [1, 7, 65_536];

/// What the runs of one folder came to.
#[derive(Drop)]
struct Tally {
    passed: u64,
    failed: u64,
}

impl Tally {
    /// Counts a comparison, and says on standard error what was found where it does not pass.
    fn add<R: Eprint>(
        &mut self,
        rt: &R,
        word: &str,
        name: &str,
        verb: &str,
        outcome: Result<Option<String>>,
    ) -> Result<()> {
        match outcome {
            Ok(None) => self.passed = self.passed.saturating_add(1),
            Ok(Some(problem)) => {
                eprintln!(rt; "{word}/{name} {verb} {problem}")?;
                self.failed = self.failed.saturating_add(1);
            }
            Err(error) => {
                eprintln!(rt; "{word}/{name}: {error}")?;
                self.failed = self.failed.saturating_add(1);
            }
        }
        Ok(())
    }
}

/// Looks in the folder that its first argument names, and without one in `examples`.
fn main(rt: HostRuntime) -> Result<ExitCode> {
    let given = env::args(&rt)?.nth(1);
    let root = match &given {
        Some(folder) => folder.as_str(),
        None => "examples",
    };
    let mut tally = Tally {
        passed: 0,
        failed: 0,
    };
    for folder in ["replay", "stories"] {
        let replay = ("replay", "script", "transcript");
        files_of(&rt, root, folder, replay, &mut tally)?;
        judged(&rt, root, folder, &mut tally)?;
    }
    told(&rt, root, &mut tally)?;
    let show = ("show", "stream", "lines");
    files_of(&rt, root, "show", show, &mut tally)?;
    let judge = ("judge", "transcript", "verdict");
    files_of(&rt, root, "judge", judge, &mut tally)?;
    runs_of(&rt, root, &mut tally)?;
    let wanted = number_of(&rt, format!(in rt.alloc(); "{root}/count")?.as_str())?;
    let (passed, failed) = (tally.passed, tally.failed);
    eprintln!(rt; "{passed} passed, {failed} failed, {wanted} wanted")?;
    Ok(if failed == 0 && passed == wanted {
        ExitCode::SUCCESS
    } else {
        ExitCode::FAILURE
    })
}

/// Runs a command on each input of a folder: its word, and the endings of its inputs and of what is written of them.
fn files_of(
    rt: &HostRuntime,
    root: &str,
    folder: &str,
    command: (&str, &str, &str),
    tally: &mut Tally,
) -> Result<()> {
    let (word, from, to) = command;
    let all = format!(in rt.alloc(); "{root}/{folder}")?;
    for name in &names_in(rt, all.as_str())? {
        let path = format!(in rt.alloc(); "{all}/{name}")?;
        let problem = problem_of(rt, word, path.as_str(), from, to);
        tally.add(rt, folder, name.as_str(), "differs", problem)?;
    }
    Ok(())
}

/// Runs a command on one input, in pieces of each size, and says where the output differs.
fn problem_of<R: Files + AllocGlobal>(
    rt: &R,
    word: &str,
    path: &str,
    from: &str,
    to: &str,
) -> Result<Option<String>> {
    let input = bytes_beside(rt, path, from)?;
    let wanted = Wanted {
        output: bytes_beside(rt, path, to)?,
        status: status_beside(rt, path)?,
        told: told_beside(rt, path)?,
    };
    problem_with(rt.alloc(), word, input.as_slice(), &wanted)
}

/// What has to come of an input.
#[derive(Drop)]
struct Wanted {
    output: Vec<u8>,
    status: u64,
    /// What a person is told of a line that cannot be read; empty if each can be.
    told: String,
}

/// What a person is told: nothing where no file says it.
fn told_beside<R: Files + AllocGlobal>(rt: &R, path: &str) -> Result<String> {
    let file = format!(in rt.alloc(); "{path}.told")?;
    if exists(rt, file.as_str())? {
        text_of(rt, file.as_str())
    } else {
        Ok(String::new(rt.alloc()))
    }
}

/// The status that is wanted: 0 where no file says it.
fn status_beside<R: Files + AllocGlobal>(rt: &R, path: &str) -> Result<u64> {
    let file = format!(in rt.alloc(); "{path}.status")?;
    if exists(rt, file.as_str())? {
        number_of(rt, file.as_str())
    } else {
        Ok(0)
    }
}

/// Runs a command on an input, in pieces of each size, and says where the output differs.
fn problem_with(
    alloc: Global,
    word: &str,
    input: &[u8],
    wanted: &Wanted,
) -> Result<Option<String>> {
    for size in SIZES {
        let problem = problem_in_pieces(alloc, word, input, size, wanted)?;
        if problem.is_some() {
            return Ok(problem);
        }
    }
    Ok(None)
}

/// Runs a command on an input in pieces of one size, and says where the output differs.
fn problem_in_pieces(
    alloc: Global,
    word: &str,
    input: &[u8],
    size: u32,
    wanted: &Wanted,
) -> Result<Option<String>> {
    let mut source = source_of(alloc, input, size)?;
    let mut out = MemSink::new(alloc, Vec::new(alloc));
    let mut told = Told::nothing();
    let status = plain_status(alloc, word, &mut source, &mut out, &mut told)?;
    if let Some(at) = first_difference(out.bytes(), wanted.output.as_slice()) {
        return other_bytes(alloc, at, size);
    }
    if u64::from(status) != wanted.status {
        return other_status(alloc, u64::from(status), wanted.status);
    }
    told_otherwise(alloc, &told, wanted.told.trim_end(), size)
}

/// Says that a person is told something else, if so.
fn told_otherwise(alloc: Global, told: &Told, wanted: &str, size: u32) -> Result<Option<String>> {
    let text = told.text(alloc)?;
    if text.as_str() == wanted {
        return Ok(None);
    }
    let problem = format!(in alloc; "in what is told, in pieces of {size}: {text}")?;
    Ok(Some(problem))
}

/// The number of the status of a command that does not listen.
fn plain_status(
    alloc: Global,
    word: &str,
    source: &mut MemSource,
    out: &mut MemSink,
    told: &mut Told,
) -> Result<u8> {
    match plain(alloc, &[word], source, out, told) {
        Some(status) => Ok(status.number()),
        None => bail!("{word} listens"),
    }
}

/// An input in pieces of one size.
fn source_of(alloc: Global, input: &[u8], size: u32) -> Result<MemSource> {
    let pieces = vec![in alloc; size; input.len()]?;
    let bytes = Vec::from_slice(alloc, input)?;
    Ok(MemSource::new(bytes, pieces, Vec::new(alloc)))
}

/// Says that the output differs.
fn other_bytes(alloc: Global, at: usize, size: u32) -> Result<Option<String>> {
    let problem = format!(in alloc; "at byte {at}, in pieces of {size}")?;
    Ok(Some(problem))
}

/// Says that the status differs.
fn other_status(alloc: Global, status: u64, wanted: u64) -> Result<Option<String>> {
    let problem = format!(in alloc; "in its status, {status} for {wanted}")?;
    Ok(Some(problem))
}

/// Judges the transcript of each script of a folder.
fn judged(rt: &HostRuntime, root: &str, folder: &str, tally: &mut Tally) -> Result<()> {
    let all = format!(in rt.alloc(); "{root}/{folder}")?;
    for name in &names_in(rt, all.as_str())? {
        let path = format!(in rt.alloc(); "{all}/{name}.transcript")?;
        let verdict = verdict_in(rt, path.as_str());
        tally.add(rt, folder, name.as_str(), "is judged", verdict)?;
    }
    Ok(())
}

/// Puts each story's script and transcript into words, and makes the script from its words.
fn told(rt: &HostRuntime, root: &str, tally: &mut Tally) -> Result<()> {
    let all = format!(in rt.alloc(); "{root}/stories")?;
    for name in &names_in(rt, all.as_str())? {
        let script = format!(in rt.alloc(); "{all}/{name}.script")?;
        let transcript = format!(in rt.alloc(); "{all}/{name}.transcript")?;
        let problem = words_problem(rt, script.as_str());
        tally.add(
            rt,
            "stories",
            name.as_str(),
            "script in words differs",
            problem,
        )?;
        let problem = script_problem(rt, script.as_str());
        tally.add(
            rt,
            "stories",
            name.as_str(),
            "script from words differs",
            problem,
        )?;
        let problem = words_problem(rt, transcript.as_str());
        tally.add(
            rt,
            "stories",
            name.as_str(),
            "transcript in words differs",
            problem,
        )?;
    }
    Ok(())
}

/// The verdict on a file's transcript. None: it is lawful.
fn verdict_in<R: Files + AllocGlobal>(rt: &R, path: &str) -> Result<Option<String>> {
    let text = bytes_of(rt, path)?;
    verdict_on(rt.alloc(), text)
}

/// The verdict on a transcript. None: it is lawful.
fn verdict_on(alloc: Global, text: Vec<u8>) -> Result<Option<String>> {
    let mut source = MemSource::new(text, Vec::new(alloc), Vec::new(alloc));
    let mut out = MemSink::new(alloc, Vec::new(alloc));
    let mut told = Told::nothing();
    let status = plain_status(alloc, "judge", &mut source, &mut out, &mut told)?;
    verdict_of(alloc, status, out.bytes())
}

/// The verdict that was written. None: the transcript is lawful.
fn verdict_of(alloc: Global, status: u8, written: &[u8]) -> Result<Option<String>> {
    if status == 0 && first_difference(written, b"lawful\n").is_none() {
        return Ok(None);
    }
    match str::from_utf8(written) {
        Ok(verdict) => Ok(Some(format!(in alloc; "{verdict}, with status {status}")?)),
        Err(_) => bail!("the verdict is no text"),
    }
}

/// Carries out each run of the folder `runs`.
fn runs_of<R: Files + Eprint + AllocGlobal + Clock + Threads + Wait + Copy + Send + Drop + 'static>(
    rt: &R,
    root: &str,
    tally: &mut Tally,
) -> Result<()> {
    let folder = format!(in rt.alloc(); "{root}/runs")?;
    for name in &names_in(rt, folder.as_str())? {
        let path = format!(in rt.alloc(); "{folder}/{name}.run")?;
        let problem = outcome_of(rt, path.as_str());
        tally.add(rt, "runs", name.as_str(), "differs", problem)?;
    }
    Ok(())
}

/// Carries out one run, and says where its outcome differs.
fn outcome_of<
    R: Files + Eprint + AllocGlobal + Clock + Threads + Wait + Copy + Send + Drop + 'static,
>(rt: &R, path: &str) -> Result<Option<String>> {
    let alloc = rt.alloc();
    let text = bytes_of(rt, path)?;
    let Run {
        words: owned,
        input,
        pieces,
        failing,
        status: wanted,
        output,
    } = Run::read(alloc, text.as_slice())?;
    let words = words_of(alloc, owned.as_slice())?;
    let (status, out) = carry_out(rt, words.as_slice(), input, pieces, failing)?;
    if let Some(at) = first_difference(out.bytes(), output.as_slice()) {
        return Ok(Some(format!(in alloc; "at byte {at}")?));
    }
    if status != wanted {
        return other_status(alloc, status, wanted);
    }
    if wanted != 0 || words.first() != Some(&"replay") {
        return Ok(None);
    }
    match verdict_on(alloc, output)? {
        Some(verdict) => Ok(Some(format!(in alloc; "in its verdict, {verdict}")?)),
        None => Ok(None),
    }
}

fn words_of<'a>(alloc: Global, owned: &'a [String]) -> Result<Vec<&'a str>> {
    let mut words = Vec::new(alloc);
    for word in owned {
        words.push(word.as_str())?;
    }
    Ok(words)
}

/// Runs the top call on these words and this input. Gives its status, and what it wrote.
fn carry_out<
    R: Files + Eprint + AllocGlobal + Clock + Threads + Wait + Copy + Send + Drop + 'static,
>(
    rt: &R,
    words: &[&str],
    input: Vec<u8>,
    pieces: Vec<u32>,
    failing: Failing,
) -> Result<(u64, MemSink)> {
    let alloc = rt.alloc();
    let Failing {
        reads,
        writes,
        net: turns,
        starts,
        calls,
    } = failing;
    let Ok(store) = Store::new(alloc) else {
        bail!("no store");
    };
    let mut source = MemSource::new(input, pieces, reads);
    let mut out = MemSink::new(alloc, writes);
    let mut net = MemNet::new(alloc, turns, Vec::new(alloc));
    let mut cluster = StoreLink::new(store, calls);
    let mut spawner = InlineSpawner::<R>::new(starts);
    let status = zetcd(
        rt,
        alloc,
        words,
        &mut source,
        &mut out,
        &mut net,
        &mut cluster,
        &mut spawner,
        &mut MemClock::new(0),
        &mut MemRandom::new(Vec::new(alloc)),
    )
    .number();
    Ok((u64::from(status), out))
}
