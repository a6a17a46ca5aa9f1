//! Runs hubs as the lines of standard input say, and writes what their readers are answered.
//!
//! | Line | What happens |
//! |---|---|
//! | `hub FIRST` | a new hub with one reader replaces the one before; its first entry has the number FIRST + 1 |
//! | `publish COUNT` | COUNT entries are published |
//! | `forget` | what was published so far is forgotten |
//! | `close END` | the hub is closed: `compacted REV`, `gap EXPECTED FOUND`, `no line` or `memory` |
//! | `next CURSOR` | the reader reads at this cursor |
//! | `orphan` | a hub publishes two entries, is closed and is gone; then its reader reads at 0, at 1 and at 2, and at 2 again once the keeper is gone too |
//! | `race READERS COUNT` | READERS threads read what another publishes, COUNT entries, until it closes |
//! | `lock READERS COUNT` | the same through a ring under one lock, with which hubs are compared |
//!
//! In a race each reader takes every entry once and in order, or is told that it lagged and goes on at the floor. If all goes well,
//! the output is the same whatever the schedule.
//!
//! `hub_rows time COUNT` publishes COUNT entries to 1, 8 and 64 readers, through a hub and through a ring under one lock, and
//! writes of each: `hub` or `lock`, how many readers and entries, the microseconds from the first publish to the last and to the
//! end of the last reader, and how many reads were made and entries taken. `bench/hub.sh` makes a table of it.
#![tactic(auto)]

mod lock;
mod publisher;
mod race;
mod trial;
mod words;

use crate::race::{Raced, race};
use crate::trial::{Trial, orphan};
use crate::words::{end_of, number_of, print_fed};
use std::rt::Clock;
use std::sync::Wait;
use std::thread::Threads;
use std::{env, io};
use zw_hub::Feed;

/// How many threads read, race by race, if they are timed.
const READERS: [usize; 3] = [1, 8, 64];

fn main(rt: HostRuntime) -> io::Result<()> {
    let mut words = env::args(&rt)?;
    let _program = words.next();
    if let (Some(word), Some(count)) = (words.next(), words.next()) {
        if word.as_str() == "time" {
            return print_times(&rt, number_of(count.as_str())?);
        }
    }
    let alloc = rt.alloc();
    let mut trial = Trial::new(&rt, alloc, 0)?;
    for line in rt.lines(alloc) {
        let line = line?;
        let (word, rest) = words::split(line.as_str());
        match word {
            "hub" => trial = Trial::new(&rt, alloc, number_of(rest)?)?,
            "orphan" => print_orphan(&rt)?,
            "race" => run_race(&rt, rest)?,
            "lock" => run_lock(&rt, rest)?,
            _ => run(&rt, &mut trial, word, rest)?,
        }
    }
    Ok(())
}

/// Runs a line about the present hub.
fn run<R: Print + Wait + Drop + AllocGlobal>(
    rt: &R,
    trial: &mut Trial<&R>,
    word: &str,
    rest: &str,
) -> io::Result<()> {
    match word {
        "publish" => trial.publisher.publish_all(rt.alloc(), number_of(rest)?),
        "forget" => trial.publisher.forget(),
        "close" => trial.publisher.close(end_of(rest)?),
        "next" => {
            let cursor = number_of(rest)?;
            print_fed(rt, rest, &trial.reader.next(cursor))
        }
        _ => Err(io::Error::from(io::ErrorKind::InvalidInput)),
    }
}

/// What a reader is answered whose hub is gone.
fn print_orphan<R: Print + Wait + Drop + AllocGlobal>(rt: &R) -> io::Result<()> {
    let [first, second, end, alone] = orphan(rt, rt.alloc())?;
    print_fed(rt, "orphan 0", &first)?;
    print_fed(rt, "orphan 1", &second)?;
    print_fed(rt, "orphan 2", &end)?;
    print_fed(rt, "alone 2", &alone)
}

/// How many readers and entries a race has.
fn race_of(rest: &str) -> io::Result<(usize, i64)> {
    let (readers, count) = words::split(rest);
    let readers = number_of(readers)?.unsigned_abs() as usize;
    Ok((readers, number_of(count)?))
}

fn run_race<R: Threads + Wait + Clock + Print + AllocGlobal + Send + Clone + Drop + 'static>(
    rt: &R,
    rest: &str,
) -> io::Result<()> {
    let (readers, count) = race_of(rest)?;
    let raced = race(rt, rt.alloc(), readers, count)?;
    let mut reader: u64 = 0;
    for one in &raced.taken {
        reader = reader.saturating_add(1);
        if one.is_whole(count) {
            println!(rt;
                "reader {reader} of {readers}: each of {count} entries once and in order, or passed over by a lag; then closed"
            )?;
        } else {
            println!(rt; "reader {reader} of {readers}: {one:?}")?;
        }
    }
    Ok(())
}

fn run_lock<R: Threads + Wait + Clock + Print + AllocGlobal + Send + Clone + Drop + 'static>(
    rt: &R,
    rest: &str,
) -> io::Result<()> {
    let (readers, count) = race_of(rest)?;
    let raced = lock::race(rt, rt.alloc(), readers, count)?;
    let mut whole: u64 = 0;
    for one in &raced.taken {
        if one.is_whole(count) {
            whole = whole.saturating_add(1);
        }
    }
    println!(rt;
        "lock: {whole} of {readers} readers took each of {count} entries, or passed over it by a lag"
    )
}

fn print_times<R: Threads + Wait + Clock + Print + AllocGlobal + Send + Clone + Drop + 'static>(
    rt: &R,
    count: i64,
) -> io::Result<()> {
    for readers in READERS {
        print_time(
            rt,
            "hub",
            readers,
            count,
            &race(rt, rt.alloc(), readers, count)?,
        )?;
        print_time(
            rt,
            "lock",
            readers,
            count,
            &lock::race(rt, rt.alloc(), readers, count)?,
        )?;
    }
    Ok(())
}

fn print_time<R: Print>(
    rt: &R,
    name: &str,
    readers: usize,
    count: i64,
    raced: &Raced,
) -> io::Result<()> {
    let (published, ended) = (raced.published, raced.ended);
    let (mut reads, mut taken) = (0u64, 0i64);
    for one in &raced.taken {
        reads = reads.saturating_add(one.reads);
        taken = taken.saturating_add(one.entries);
    }
    println!(rt; "{name} {readers} {count} {published} {ended} {reads} {taken}")
}
