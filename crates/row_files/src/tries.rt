//! The rows of one file, in order.

ghost use Rattle.std.specs.Prelude.{◌≡◌, ◌↔◌, None, string_bytes};
ghost use Rattle.std.specs.Process.{exit_status};

use crate::pieces::push;
use anyhow::{Context, Result, bail};
use std::alloc::Global;
use std::process::ExitCode;
use std::{env, fs};
use zx_base::Memory;

/// Rows of one kind, by what their left sides come to.
pub trait Rows {
    /// What comes of the left side of a row; `None` where it cannot be read.
    fn found(&mut self, alloc: Global, left: &str) -> Result<Option<String>, Memory>;
}

/// The first argument of the program, or this text where it has none.
pub fn argument_or(rt: &HostRuntime, without: &str) -> Result<String> {
    match env::args(rt)?.nth(1) {
        Some(given) => Ok(given),
        None => Ok(String::from_str(rt.alloc(), without)?),
    }
}

/// The status of a program that found so many rows to differ: success where it is none.
pub fn status_of(failed: u64) -> ExitCode
    ensures { exit_status result ≡ 0 ↔ failed ≡ 0 }
{
    if failed == 0 {
        ExitCode::SUCCESS
    } else {
        ExitCode::FAILURE
    }
}

/// What comes of a row of steps, with `; ` between them, as the text of what comes of each.
pub trait Steps {
    /// What comes of a step; `None` where it cannot be read.
    fn step(&mut self, alloc: Global, step: &str) -> Result<Option<String>, Memory>;
}

/// What comes of the steps of a row, with `; ` between them; `None` where one cannot be read.
pub fn found_in_steps<T: Steps>(
    alloc: Global,
    steps: &mut T,
    left: &str,
) -> Result<Option<String>, Memory> {
    let mut found = String::new(alloc);
    for step in left.split("; ") {
        let Some(said) = steps.step(alloc, step)? else {
            return Ok(None);
        };
        if !found.is_empty() {
            push(&mut found, "; ")?;
        }
        push(&mut found, said.as_str())?;
    }
    Ok(Some(found))
}

/// How many rows differ in the files of these names in a folder, each of its own kind of rows.
pub fn try_files_in<T: Rows + Copy>(
    rt: &HostRuntime,
    folder: &str,
    files: &[(&'static str, T)],
) -> Result<u64> {
    let mut failed = 0u64;
    for (name, kind) in files {
        let mut rows = *kind;
        failed = failed.saturating_add(try_file_in(rt, folder, name, &mut rows)?);
    }
    Ok(failed)
}

/// How many rows differ in the file of this name in a folder, as [`try_file`] counts them.
pub fn try_file_in<T: Rows>(
    rt: &HostRuntime,
    folder: &str,
    name: &str,
    rows: &mut T,
) -> Result<u64> {
    let path = format!(in rt.alloc(); "{folder}/{name}")?;
    try_file(rt, path.as_str(), rows)
}

/// How many rows of a file differ, and one more where no row passes. Fails where the file cannot be read, standard error
/// cannot be written, or memory is refused.
pub fn try_file<T: Rows>(rt: &HostRuntime, path: &str, rows: &mut T) -> Result<u64> {
    let text = fs::read_to_string(rt, path).context(format_args!("reading {path}"))?;
    let (mut passed, mut failed) = (0u64, 0u64);
    for (index, line) in text.lines().enumerate() {
        if line.is_empty() || line.starts_with('#') {
            continue;
        }
        match problem_in(rt.alloc(), rows, line) {
            Ok(None) => passed = passed.saturating_add(1),
            Ok(Some(problem)) => {
                let number = index.saturating_add(1);
                eprintln!(rt; "differs {path} line {number}: {problem}")?;
                failed = failed.saturating_add(1);
            }
            Err(Memory) => bail!("out of memory"),
        }
    }
    if passed == 0 {
        eprintln!(rt; "differs {path}: no row passed")?;
        failed = failed.saturating_add(1);
    }
    Ok(failed)
}

/// What is wrong with a row, or what comes of its left side in place of the right one; `None` where the row passes.
fn problem_in<T: Rows>(alloc: Global, rows: &mut T, line: &str) -> Result<Option<String>, Memory> {
    let Some((left, right)) = line.split_once(" = ") else {
        return Ok(Some(String::from_str(alloc, "no row")?));
    };
    match rows.found(alloc, left)? {
        Some(found) => Ok(unless_same(found, right)),
        None => Ok(Some(String::from_str(alloc, "the left side is unreadable")?)),
    }
}

/// What was found, unless it is exactly what is wanted.
fn unless_same(found: String, wanted: &str) -> Option<String>
    ensures { result ≡ None → string_bytes found ≡ wanted.now }
{
    if found.as_str() == wanted {
        return None;
    }
    Some(found)
}
