//! Servers over a net in memory.

use crate::word_of;
use ev_shared::StoreLink;
use ev_store::Store;
use row_files::{Words, push, said};
use std::alloc::Global;
use std::sync::Wait;
use std::thread::Threads;
use std::time::Clock;
use zp_server::{NoBook, OpenGate, serve};
use zx_base::Memory;
use zx_net::{MemClock, MemNet};
use zx_outside::MemSink;
use zx_random::MemRandom;
use zx_sockets::ThreadSpawner;

/// The end, and the first and the last line of what was written.
fn text_of(alloc: Global, end: &str, written: &[u8]) -> Result<Option<String>, Memory> {
    let Ok(written) = str::from_utf8(written) else {
        return said(alloc, "what was written is no text");
    };
    let mut text = String::from_str(alloc, end)?;
    let mut lines = written.lines();
    if let Some(first) = lines.next() {
        push(&mut text, "; ")?;
        push(&mut text, first)?;
    }
    if let Some(last) = lines.last() {
        push(&mut text, "; ")?;
        push(&mut text, last)?;
    }
    Ok(Some(text))
}

/// What a server came to whose etcd fails at the call of this number.
fn run<R: Clock + Threads + Wait + Eprint + Copy + Send + Drop + 'static>(
    rt: R,
    alloc: Global,
    call: u64,
    limit: u64,
) -> Result<Option<String>, Memory> {
    let mut out = MemSink::new(alloc, Vec::new(alloc));
    let mut net = MemNet::new(alloc, Vec::new(alloc), Vec::new(alloc));
    let mut failing = Vec::new(alloc);
    failing.push(call)?;
    let Ok(store) = Store::new(alloc) else {
        return Err(Memory);
    };
    let mut cluster = StoreLink::new(store, failing);
    let end = serve(
        &rt,
        alloc,
        &mut net,
        &mut cluster,
        &mut ThreadSpawner::new(rt),
        &mut MemClock::new(0),
        &mut MemRandom::new(Vec::new(alloc)),
        &mut out,
        OpenGate,
        &mut NoBook,
        "127.0.0.1:2181",
        "127.0.0.1:2379",
        limit,
    );
    text_of(alloc, word_of(&end), out.bytes())
}

/// What a server came to, by the number of the call that fails and the limit of clients.
pub fn served<R: Clock + Threads + Wait + Eprint + Copy + Send + Drop + 'static>(
    rt: R,
    alloc: Global,
    given: &str,
) -> Result<Option<String>, Memory> {
    let mut words = Words::new(given);
    let (Some(call), Some(limit)) = (words.place(), words.place()) else {
        return Ok(None);
    };
    run(rt, alloc, call, limit)
}
