//! How long a store takes: a transaction for each key that puts it, then one for each key that reads it, the events since the
//! first half, and last a range of all keys at the revision that had half of them. `bench/store.sh` makes a table of it.

use anyhow::{Result, bail};
use ev_store::{Store, StoreFault};
use ev_types::{Act, ActAns, Answer, Ask, RangeReq, TxnReq};
use std::alloc::Global;
use std::env;
use std::time::{Duration, Instant};
use zx_base::{Bytes, Memory, Seq};

/// How many keys, if no number is given.
const COUNT: u32 = 100_000;

fn key_of(alloc: Global, number: u32) -> Result<Bytes, Memory> {
    let text = format!(in alloc; "key/{number:08}")?;
    Bytes::copy_of(alloc, text.as_bytes())
}

/// A transaction of this one operation.
fn ask_of(alloc: Global, act: Act) -> Result<Ask, Memory> {
    let mut success = Seq::new(alloc);
    success.push(act)?;
    Ok(Ask::Txn(TxnReq {
        guards: Seq::new(alloc),
        success,
        failure: Seq::new(alloc),
    }))
}

fn put(alloc: Global, number: u32) -> Result<Ask, Memory> {
    let act = Act::Put {
        key: key_of(alloc, number)?,
        value: Bytes::copy_of(alloc, b"value")?,
        lease: 0,
    };
    ask_of(alloc, act)
}

/// The read of one key, at the present.
fn read(alloc: Global, number: u32) -> Result<Ask, Memory> {
    let act = Act::Range(RangeReq {
        key: key_of(alloc, number)?,
        end: Seq::new(alloc),
        revision: 0,
        limit: 0,
        keys_only: false,
    });
    ask_of(alloc, act)
}

/// The read of all keys at a revision.
fn read_all(alloc: Global, revision: i64) -> Result<Ask, Memory> {
    let act = Act::Range(RangeReq {
        key: Seq::new(alloc),
        end: Bytes::copy_of(alloc, &[0])?,
        revision,
        limit: 0,
        keys_only: false,
    });
    ask_of(alloc, act)
}

/// How many keys the first operation of a transaction read.
fn keys_read(answer: &Answer) -> usize {
    match answer {
        Answer::Txn { parts, .. } => match parts.as_slice().first() {
            Some(ActAns::Range(found)) => found.kvs.len(),
            _ => 0,
        },
        _ => 0,
    }
}

/// Carries out the transaction, and says how many keys its first operation read.
fn carried_out(store: &mut Store, ask: Result<Ask, Memory>) -> Result<usize> {
    let Ok(ask) = ask else {
        bail!("out of memory");
    };
    let Ask::Txn(txn) = ask else {
        bail!("no transaction");
    };
    match store.carry_out(&Ask::Txn(txn)) {
        Ok(answer) => Ok(keys_read(&answer)),
        Err(StoreFault::Denied(_)) => bail!("denied"),
        Err(StoreFault::Memory) => bail!("out of memory"),
    }
}

/// How many puts there were above a revision.
fn events_since(store: &Store, revision: i64) -> Result<usize> {
    match store.events_since(revision, usize::MAX) {
        Ok(puts) => Ok(puts.len()),
        Err(_) => bail!("no events"),
    }
}

fn print(rt: &HostRuntime, name: &str, count: usize, time: Duration) -> Result<()> {
    let micros = time.as_micros();
    println!(rt; "{name} {count} {micros}")?;
    Ok(())
}

/// Prints for each kind of call how many keys it met, and the microseconds of all its calls together. The number of keys is the
/// second argument.
pub fn run(rt: &HostRuntime) -> Result<()> {
    let alloc = rt.alloc();
    let count = match env::args(rt)?.nth(2) {
        Some(word) => word.as_str().parse::<u32>().unwrap_or(0),
        None => COUNT,
    };
    let Ok(mut store) = Store::new(alloc) else {
        bail!("out of memory");
    };
    put_all(rt, &mut store, count)?;
    read_each(rt, &mut store, count)?;
    let half = i64::from(count / 2) + 1;
    let start = Instant::now(rt)?;
    let found = events_since(&store, half)?;
    print(rt, "events", found, start.elapsed(rt)?)?;
    let start = Instant::now(rt)?;
    let found = carried_out(&mut store, read_all(alloc, half))?;
    print(rt, "range", found, start.elapsed(rt)?)
}

fn put_all(rt: &HostRuntime, store: &mut Store, count: u32) -> Result<()> {
    let start = Instant::now(rt)?;
    for number in 0..count {
        carried_out(store, put(rt.alloc(), number))?;
    }
    print(rt, "puts", count as usize, start.elapsed(rt)?)
}

fn read_each(rt: &HostRuntime, store: &mut Store, count: u32) -> Result<()> {
    let start = Instant::now(rt)?;
    for number in 0..count {
        carried_out(store, read(rt.alloc(), number))?;
    }
    print(rt, "reads", count as usize, start.elapsed(rt)?)
}
