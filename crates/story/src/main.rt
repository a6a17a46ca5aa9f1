//! Says scripts and transcripts in words, and makes scripts from words ([`zt_story`]).
//!
//! - `story words` reads a script or a transcript, and writes it in words.
//! - `story script` reads words, and writes the script that they say.
//!
//! Both read standard input to its end before they write. The status is 0; or 1 where a line cannot be read, the input or the output
//! failed, or memory ran out, which a line on standard error says; or 2 with a usage line for other arguments.
#![tactic(auto)]

use anyhow::{Result, bail};
use std::env;
use std::io::{self, Write};
use std::process::ExitCode;
use zt_story::{Unmade, in_words, script_of};
use zx_base::Memory;

fn main(rt: HostRuntime) -> Result<ExitCode> {
    let mut given = env::args(&rt)?;
    let _program = given.next();
    let (word, more) = (given.next(), given.next());
    match (&word, &more) {
        (Some(word), None) => converted(&rt, word.as_str()),
        _ => usage(&rt),
    }
}

/// Converts the input as the word says.
fn converted(rt: &HostRuntime, word: &str) -> Result<ExitCode> {
    match word {
        "words" => words(rt),
        "script" => script(rt),
        _ => usage(rt),
    }
}

/// Says how the program is called.
fn usage(rt: &HostRuntime) -> Result<ExitCode> {
    eprintln!(rt; "usage: story words < SCRIPT or TRANSCRIPT, story script < WORDS")?;
    Ok(ExitCode::from(2))
}

/// Writes a script or a transcript in words.
fn words(rt: &HostRuntime) -> Result<ExitCode> {
    let text = io::read_to_string(rt.alloc(), rt.reader())?;
    match in_words(rt.alloc(), text.as_str()) {
        Ok(made) => written(rt, made.as_slice()),
        Err(Memory) => bail!("out of memory"),
    }
}

/// Writes the script that words say.
fn script(rt: &HostRuntime) -> Result<ExitCode> {
    let text = io::read_to_string(rt.alloc(), rt.reader())?;
    match script_of(rt.alloc(), text.as_str()) {
        Ok(made) => written(rt, made.as_slice()),
        Err(Unmade::Memory) => bail!("out of memory"),
        Err(Unmade::Line { line, byte }) => unreadable(text.as_str(), line, byte),
    }
}

fn written(rt: &HostRuntime, made: &[u8]) -> Result<ExitCode> {
    rt.stdout().write_all(made)?;
    Ok(ExitCode::SUCCESS)
}

/// Says which line cannot be read, and from where on.
fn unreadable(text: &str, line: usize, byte: usize) -> Result<ExitCode> {
    let it = text.split('\n').nth(line.saturating_sub(1));
    match it.and_then(|it| it.get(byte.saturating_sub(1)..)) {
        Some("") | None => bail!("line {line} ends too early"),
        Some(rest) => bail!("line {line} cannot be read from byte {byte} on: {rest}"),
    }
}
