//! The stream that a watch is answered by.

ghost use Rattle.std.specs.Prelude.{◌≡◌, ◌<◌, ◌≤◌, ◌+◌, ◌≤ℤ◌, ◌<ℤ◌, ◌^◌, ◌++◌, ◌∷◌, [], pos, nat_abs, IfOk};
ghost use Rattle.ev_http.specs.Chunked.{last_chunk};
ghost use Rattle.ev_http.specs.Taking.{told};
ghost use Rattle.ev_json.specs.Messages.{canceled_text, line_text};
ghost use Rattle.ev_http.specs.Sinks.{OfBothEnds, sink_told};
ghost use Rattle.ev_gateway.specs.Looking.{Looks, is_quiet};
ghost use Rattle.ev_gateway.specs.Streaming.{Watches, WroteFront, begun, line_chunk, put_line, told_whole};

use ev_http::{HttpFault, send_chunk, send_last_chunk, send_stream_head};
use ev_json::{write_canceled, write_line};
use ev_shared::{SharedStore, Watched};
use ev_types::Kv;
use std::alloc::Global;
use std::sync::Wait;
use std::time::Clock as SystemClock;
use zx_base::Memory;
use zx_outside::{Got, Sink, Source};

/// The line with a line feed after it.
fn with_feed(line: Vec<u8>) -> Result<Vec<u8>, Memory>
    ensures { IfOk result (λ text. text.items ≡ line.items ++ 10 ∷ []) }
{
    let mut text = line;
    text.push(b'\n')?;
    Ok(text)
}

/// Sends a line as one chunk.
#[tactic(auto, using(crate::proofs::Streaming::by_sent, crate::proofs::Streaming::starves))]
fn send_line<K: Sink>(alloc: Global, sink: &mut K, line: Vec<u8>) -> Result<(), HttpFault>
    ensures { WroteFront result (line_chunk line.items) (sink_told K.taken K.counts K.name sink.old) (sink_told K.taken K.counts K.name sink.new) }
{
    match with_feed(line) {
        Ok(text) => send_chunk(alloc, sink, text.as_slice()),
        Err(_) => Err(HttpFault::Memory),
    }
}

/// Sends the line of one put.
#[tactic(auto, using(crate::proofs::Streaming::starves))]
fn send_put<K: Sink>(alloc: Global, sink: &mut K, kv: Kv) -> Result<(), HttpFault>
    ensures { WroteFront result (put_line kv) (sink_told K.taken K.counts K.name sink.old) (sink_told K.taken K.counts K.name sink.new) }
{
    let revision = kv.mod_revision;
    let puts = [kv];
    match write_line(alloc, puts.as_slice(), revision) {
        Ok(line) => send_line(alloc, sink, line),
        Err(_) => Err(HttpFault::Memory),
    }
}

/// Sends the line that says that the watch was created.
#[tactic(auto, using(crate::proofs::Streaming::starves))]
fn send_created<K: Sink>(alloc: Global, sink: &mut K, revision: i64) -> Result<(), HttpFault>
    ensures { WroteFront result (line_chunk (line_text [] revision)) (sink_told K.taken K.counts K.name sink.old) (sink_told K.taken K.counts K.name sink.new) }
{
    match write_line(alloc, &[], revision) {
        Ok(line) => send_line(alloc, sink, line),
        Err(_) => Err(HttpFault::Memory),
    }
}

/// Sends the head of the stream, and the line that says that the watch was created.
#[tactic(auto, using(crate::proofs::Streaming::by_wrote, crate::proofs::Streaming::both, crate::proofs::Streaming::cut))]
fn begin<K: Sink>(alloc: Global, sink: &mut K, revision: i64) -> Result<(), HttpFault>
    ensures { WroteFront result (begun revision) (sink_told K.taken K.counts K.name sink.old) (sink_told K.taken K.counts K.name sink.new) }
{
    match send_stream_head(sink) {
        Ok(()) => send_created(alloc, sink, revision),
        Err(fault) => Err(fault),
    }
}

/// Says that the revision to go on from was compacted.
#[tactic(auto, using(crate::proofs::Streaming::starves))]
fn send_canceled<K: Sink>(
    alloc: Global,
    sink: &mut K,
    floor: i64,
    revision: i64,
) -> Result<(), HttpFault>
    ensures { WroteFront result (line_chunk (canceled_text floor revision)) (sink_told K.taken K.counts K.name sink.old) (sink_told K.taken K.counts K.name sink.new) }
{
    match write_canceled(alloc, floor, revision) {
        Ok(line) => send_line(alloc, sink, line),
        Err(_) => Err(HttpFault::Memory),
    }
}

/// Says that the revision to go on from was compacted, and ends the stream.
#[tactic(auto, using(crate::proofs::Streaming::by_wrote, crate::proofs::Streaming::both, crate::proofs::Streaming::cut))]
fn cancel<K: Sink>(alloc: Global, sink: &mut K, floor: i64, revision: i64) -> Result<(), HttpFault>
    ensures { WroteFront result (line_chunk (canceled_text floor revision) ++ last_chunk) (sink_told K.taken K.counts K.name sink.old) (sink_told K.taken K.counts K.name sink.new) }
{
    match send_canceled(alloc, sink, floor, revision) {
        Ok(()) => send_last_chunk(sink),
        Err(fault) => Err(fault),
    }
}

/// The revision after a put.
fn after(revision: i64) -> u64
    requires first { pos 1 ≤ℤ revision }
    requires small { revision <ℤ pos (2 ^ 62) }
    ensures exact { result ≡ nat_abs revision + 1 }
    ensures most { result ≤ 2 ^ 62 }
{
    revision.unsigned_abs() + 1
}

/// How a watch ended, where nothing failed.
#[derive(Clone, Copy, PartialEq, Eq)]
pub enum WatchEnd {
    /// The store was closed, or the revision to go on from was compacted: the stream was sent to its end.
    Told,
    /// The client went away, or sent more before the stream had ended.
    Left,
}

/// Whether a read found neither a byte nor an end. A fault may say no more than that the peer has been silent for long, as one is
/// that watches.
fn is_quiet(found: &Got) -> bool
    ensures { result ≡ is_quiet found.now }
{
    match found {
        Got::Nothing | Got::Failed => true,
        Got::Bytes(_) | Got::End => false,
    }
}

/// Looks once whether the client of a watch is still there and quiet.
#[tactic(auto, using(crate::proofs::Looking::looked))]
fn waits<S: Source>(source: &mut S) -> bool
    ensures { Looks result (told S.given S.left S.counts S.ended S.name source.old) (told S.given S.left S.counts S.ended S.name source.new) }
{
    let mut one = [0u8; 1];
    let found = source.read(&mut one);
    is_quiet(&found)
}

/// How a watch ended whose stream was sent to its end.
fn told_whole(sent: Result<(), HttpFault>) -> Result<WatchEnd, HttpFault>
    ensures { result ≡ told_whole sent }
{
    match sent {
        Ok(()) => Ok(WatchEnd::Told),
        Err(fault) => Err(fault),
    }
}

/// Answers a request to watch a key from a revision on: a line that says that the watch was created, and then a line for each
/// revision that puts the key, until the store is closed or the client goes away. About once a second it looks whether it did.
#[tactic(auto, using(crate::proofs::Streaming::by_wrote, crate::proofs::Streaming::began, crate::proofs::Streaming::more, crate::proofs::Streaming::closed, crate::proofs::Streaming::canceled, crate::proofs::Streaming::unbegun, crate::proofs::Streaming::broken, crate::proofs::Streaming::starved, crate::proofs::Streaming::left, crate::proofs::Streaming::further, crate::proofs::Looking::no_look, crate::proofs::Looking::one_look_more))]
pub fn watch<R: Wait + SystemClock, S: Source, K: Sink>(
    rt: &R,
    alloc: Global,
    store: &SharedStore,
    source: &mut S,
    sink: &mut K,
    key: &[u8],
    from: u64,
) -> Result<WatchEnd, HttpFault>
    requires first { 1 ≤ from }
    requires small { from ≤ 2 ^ 62 }
    ensures { OfBothEnds (Watches result key.now from) S.given S.left S.counts S.ended S.name K.taken K.counts K.name source.old source.new sink.old sink.new }
{
    if let Err(fault) = begin(alloc, sink, store.revision(rt)) {
        return Err(fault);
    }
    let mut next = from;
    'puts: for _ in rt.forever() {
        match store.next_put(rt, alloc, key, next) {
            Watched::Put(kv) => {
                let revision = kv.mod_revision;
                if let Err(fault) = send_put(alloc, sink, kv) {
                    return Err(fault);
                }
                next = after(revision);
            }
            Watched::Waits(revision) => {
                if !waits(source) {
                    return Ok(WatchEnd::Left);
                }
                next = revision;
            }
            Watched::Compacted(floor) => {
                return told_whole(cancel(alloc, sink, floor, store.revision(rt)));
            }
            Watched::Closed => return told_whole(send_last_chunk(sink)),
            Watched::Memory => return Err(HttpFault::Memory),
        }
    }
    unreachable!()
}
