//! Serves a stream in memory.

use crate::feeding::{Entered, OPEN, feed_of};
use ev_shared::StoreLink;
use ev_store::Store;
use ev_types::Ask;
use row_files::{hex_of, push_word};
use std::alloc::Global;
use std::sync::{Arc, Wait};
use zk_model::Layout;
use zk_service::Ended;
use zk_transcript::TranscriptLine;
use zn_layout::begin_ask;
use zp_conn::{Belled, Cause, Fresh, NoTrace, Trace, serve_connection};
use zp_served::{BegunLink, serve_alone};
use zt_text::push_line;
use zx_base::Memory;
use zx_net::{Clock, MemClock, NoBell};
use zx_outside::{MemSink, MemSource};

/// What a new session is made with.
const FRESH: Fresh = Fresh {
    id: 17,
    passwd: [0xaa; 16],
    layout: Layout::Two,
};

/// Which calls fail, counted from 1: 0 for none.
#[derive(Clone, Copy)]
pub struct Failing {
    pub read: u64,
    pub write: u64,
    pub call: u64,
}

/// Nothing fails.
pub const NONE: Failing = Failing {
    read: 0,
    write: 0,
    call: 0,
};

/// A connection that ended.
#[derive(Drop)]
pub struct Served {
    pub cause: Cause,
    pub sink: MemSink,
}

/// A list of this number alone.
fn listed(alloc: Global, number: u64) -> Result<Vec<u64>, Memory> {
    let mut numbers = Vec::new(alloc);
    numbers.push(number)?;
    Ok(numbers)
}

/// A link to a store on which the tree was begun.
pub fn begun(alloc: Global, failing: u64) -> Result<StoreLink, Memory> {
    let mut store = Store::new(alloc)?;
    // It is a transaction.
    let Ask::Txn(first) = begin_ask(alloc, 0)? else {
        return Err(Memory);
    };
    match store.carry_out(&Ask::Txn(first)) {
        Ok(_answer) => Ok(StoreLink::new(store, listed(alloc, failing)?)),
        Err(_fault) => Err(Memory),
    }
}

/// The stream, in pieces of so many bytes; then, if that is wanted, an idle turn.
pub fn stream_of(
    alloc: Global,
    bytes: &[u8],
    piece: u32,
    is_idle: bool,
    failing: u64,
) -> Result<MemSource, Memory> {
    let mut copy = Vec::new(alloc);
    copy.extend_from_slice(bytes)?;
    let mut pieces = Vec::new(alloc);
    if piece > 0 {
        for _ in bytes.chunks(piece as usize) {
            pieces.push(piece)?;
        }
    }
    if is_idle {
        pieces.push(0)?;
    }
    Ok(MemSource::new(copy, pieces, listed(alloc, failing)?))
}

/// Serves a stream to its end by this clock, with what the feed has by then. If the feed was closed, the client is idle for a turn
/// after its pieces.
pub fn serve_by<R: Wait, C: Clock, T: Trace>(
    rt: &R,
    alloc: Global,
    bytes: &[u8],
    piece: u32,
    failing: Failing,
    entered: Entered<'_>,
    clock: &mut C,
    trace: &mut T,
) -> Result<Served, Memory> {
    let mut link = begun(alloc, failing.call)?;
    let mut source = stream_of(alloc, bytes, piece, entered.closed, failing.read)?;
    let mut sink = MemSink::new(alloc, listed(alloc, failing.write)?);
    let bell = Arc::new(alloc, NoBell)?;
    let (reader, _keeper) = feed_of(rt, alloc, entered)?;
    let mut feed = Belled::new(reader, bell);
    let cause = serve_connection(
        rt,
        alloc,
        FRESH,
        &mut link,
        &mut feed,
        &mut source,
        &mut sink,
        clock,
        trace,
    );
    Ok(Served { cause, sink })
}

/// The same, by a clock that stands at 1,000.
pub fn serve_over<R: Wait, T: Trace>(
    rt: &R,
    alloc: Global,
    bytes: &[u8],
    piece: u32,
    failing: Failing,
    entered: Entered<'_>,
    trace: &mut T,
) -> Result<Served, Memory> {
    let mut clock = MemClock::new(1000);
    serve_by(rt, alloc, bytes, piece, failing, entered, &mut clock, trace)
}

/// The same, over an open feed without entries.
pub fn serve<R: Wait>(
    rt: &R,
    alloc: Global,
    bytes: &[u8],
    piece: u32,
    failing: Failing,
) -> Result<Served, Memory> {
    serve_over(rt, alloc, bytes, piece, failing, OPEN, &mut NoTrace)
}

/// A cause, by the words after `close 1` in a transcript.
pub fn words_of(alloc: Global, cause: Cause) -> Result<String, Memory> {
    let mut line = Vec::new(alloc);
    let close = TranscriptLine::Close {
        connection: 1,
        end: Ended::Cause(cause),
    };
    push_line(&mut line, &close)?;
    let text = str::from_utf8(line.as_slice()).unwrap_or("");
    let words = text.trim_end_matches('\n');
    Ok(String::from_str(alloc, words.strip_prefix("close 1 ").unwrap_or(words))?)
}

/// Why the connection of a stream ended, and what it wrote.
pub fn shown<R: Wait>(
    rt: &R,
    alloc: Global,
    bytes: &[u8],
    piece: u32,
    entered: Entered<'_>,
) -> Result<String, Memory> {
    let served = serve_over(rt, alloc, bytes, piece, NONE, entered, &mut NoTrace)?;
    let mut found = words_of(alloc, served.cause)?;
    push_word(&mut found, hex_of(alloc, served.sink.bytes())?.as_str())?;
    Ok(found)
}

/// The same, by the call that begins the tree of an etcd of its own.
pub fn shown_alone<R: Wait>(
    rt: &R,
    alloc: Global,
    bytes: &[u8],
    piece: u32,
) -> Result<String, Memory> {
    let mut link = BegunLink::new(alloc)?;
    let mut source = stream_of(alloc, bytes, piece, false, 0)?;
    let mut sink = MemSink::new(alloc, Vec::new(alloc));
    let (mut feed, _keeper) = feed_of(rt, alloc, OPEN)?;
    let cause = serve_alone(
        rt,
        alloc,
        FRESH,
        &mut link,
        &mut feed,
        &mut source,
        &mut sink,
        &mut MemClock::new(1000),
        &mut NoTrace,
    );
    let mut found = words_of(alloc, cause)?;
    push_word(&mut found, hex_of(alloc, sink.bytes())?.as_str())?;
    Ok(found)
}
