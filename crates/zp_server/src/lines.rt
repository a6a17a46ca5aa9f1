//! What a server writes.

ghost use Rattle.std.specs.Prelude.{◌≡◌, IfOk};
ghost use Rattle.zk_service.specs.declared.cause.Ended.TheVariants.{Cause as OfCause};
ghost use Rattle.zk_transcript.specs.declared.transcript.TranscriptLine.TheVariants.{Close};
ghost use Rattle.zt_text.specs.Transcripts.{line_text};
ghost use Rattle.zw_hub.specs.declared.feed.FeedEnd.TheVariants.{Compacted, Gap, Damaged};
ghost use Rattle.zp_server.specs.Lines.{closed_text, feed_text, listening_text, no_link_text};
ghost use Rattle.zp_server.specs.Telling.{OutputSays, WritesAll};

use crate::ends::Stop;
use std::alloc::Global;
use zk_service::{Cause, Ended, copy_of_cause};
use zk_transcript::TranscriptLine;
use zt_text::{push_hex, push_line, push_number, push_signed};
use zw_hub::FeedEnd;
use zx_base::{Bytes, Memory};
use zx_outside::Sink;

/// What is written where the net has a fault.
pub const NET_FAULT: &[u8] = b"net fault\n";

/// How many bytes stand before the cause in the line of connection 0: `close 0`.
const BEFORE_CAUSE: usize = 7;

/// The line that says that the server listens.
#[tactic(auto, unfolding(crate::specs::Lines::listening_text))]
pub fn listening(alloc: Global, listen: &str) -> Result<Vec<u8>, Memory>
    ensures { IfOk result (λ text. text.items ≡ listening_text listen.now) }
{
    let mut text = Vec::from_slice(alloc, b"listening ")?;
    text.extend_from_slice(listen.as_bytes())?;
    text.push(b'\n')?;
    Ok(text)
}

/// The line of a connection for which no link could be dialled.
#[tactic(auto, unfolding(crate::specs::Lines::no_link_text))]
fn no_link(alloc: Global, number: u64) -> Result<Vec<u8>, Memory>
    ensures { IfOk result (λ text. text.items ≡ no_link_text number) }
{
    let mut text = Vec::from_slice(alloc, b"closed ")?;
    push_number(&mut text, number)?;
    text.extend_from_slice(b" no link\n")?;
    Ok(text)
}

/// A transcript's line for the end of connection 0.
fn close_line(alloc: Global, cause: &Cause) -> Result<Vec<u8>, Memory>
    ensures { IfOk result (λ text. text.items ≡ line_text (Close 0 (OfCause cause.now))) }
{
    let line = TranscriptLine::Close {
        connection: 0,
        end: Ended::Cause(copy_of_cause(alloc, cause)?),
    };
    let mut text = Vec::new(alloc);
    push_line(&mut text, &line)?;
    Ok(text)
}

/// The line of a connection that has ended. Its cause is told as in a transcript.
#[tactic(auto, using(crate::proofs::Texts::long_enough))]
fn closed(alloc: Global, number: u64, cause: &Cause) -> Result<Vec<u8>, Memory>
    ensures { IfOk result (λ text. text.items ≡ closed_text number cause.now) }
{
    let line = close_line(alloc, cause)?;
    let mut text = Vec::from_slice(alloc, b"closed ")?;
    push_number(&mut text, number)?;
    text.extend_from_slice(&line.as_slice()[BEFORE_CAUSE..])?;
    Ok(text)
}

/// The line of a compacted watch.
#[tactic(auto, unfolding(crate::specs::Lines::feed_text))]
fn compacted(alloc: Global, rev: i64) -> Result<Vec<u8>, Memory>
    ensures { IfOk result (λ text. text.items ≡ feed_text (Compacted rev)) }
{
    let mut text = Vec::from_slice(alloc, b"feed compacted ")?;
    push_signed(&mut text, rev)?;
    text.push(b'\n')?;
    Ok(text)
}

/// The line of a missing update.
#[tactic(auto, unfolding(crate::specs::Lines::feed_text))]
fn gap(alloc: Global, expected: i64, found: i64) -> Result<Vec<u8>, Memory>
    ensures { IfOk result (λ text. text.items ≡ feed_text (Gap expected found)) }
{
    let mut text = Vec::from_slice(alloc, b"feed gap ")?;
    push_signed(&mut text, expected)?;
    text.push(b' ')?;
    push_signed(&mut text, found)?;
    text.push(b'\n')?;
    Ok(text)
}

/// The line of a head that is no record.
#[tactic(auto, unfolding(crate::specs::Lines::feed_text))]
fn damaged(alloc: Global, key: &Bytes, value: &Bytes) -> Result<Vec<u8>, Memory>
    ensures { IfOk result (λ text. text.items ≡ feed_text (Damaged key.now value.now)) }
{
    let mut text = Vec::from_slice(alloc, b"feed damaged ")?;
    push_hex(&mut text, key.as_slice())?;
    text.push(b' ')?;
    push_hex(&mut text, value.as_slice())?;
    text.push(b'\n')?;
    Ok(text)
}

/// The line of another end.
fn plain(alloc: Global, text: &[u8]) -> Result<Vec<u8>, Memory>
    ensures { IfOk result (λ copy. copy.items ≡ text.now) }
{
    let copy = Vec::from_slice(alloc, text)?;
    Ok(copy)
}

/// The line that says why the hub was closed.
#[tactic(auto, unfolding(crate::specs::Lines::feed_text))]
pub fn feed(alloc: Global, end: &FeedEnd) -> Result<Vec<u8>, Memory>
    ensures { IfOk result (λ text. text.items ≡ feed_text end.now) }
{
    match end {
        FeedEnd::Compacted { rev } => compacted(alloc, *rev),
        FeedEnd::Gap { expected, found } => gap(alloc, *expected, *found),
        FeedEnd::Damaged { key, value } => damaged(alloc, key, value),
        FeedEnd::NoLine => plain(alloc, b"feed no line\n"),
        FeedEnd::Memory => plain(alloc, b"feed memory\n"),
    }
}

/// Writes all of the bytes, and says whether the sink took them all. After a fault it took some front of them.
pub fn write_all<O: Sink>(out: &mut O, bytes: &[u8]) -> bool
    ensures { WritesAll result bytes.now (record { taken = O.taken out.old; counts = O.counts out.old }) (record { taken = O.taken out.new; counts = O.counts out.new }) }
{
    zx_outside::write_all(out, bytes)
}

/// Writes a line.
fn say<O: Sink>(out: &mut O, text: &[u8]) -> Result<(), Stop>
    ensures { OutputSays result text.now (record { taken = O.taken out.old; counts = O.counts out.old }) (record { taken = O.taken out.new; counts = O.counts out.new }) }
{
    if write_all(out, text) {
        Ok(())
    } else {
        Err(Stop::Write)
    }
}

/// Says that a connection has ended, and why.
pub fn say_closed<O: Sink>(
    alloc: Global,
    number: u64,
    cause: &Cause,
    out: &mut O,
) -> Result<(), Stop>
    ensures { OutputSays result (closed_text number cause.now) (record { taken = O.taken out.old; counts = O.counts out.old }) (record { taken = O.taken out.new; counts = O.counts out.new }) }
{
    match closed(alloc, number, cause) {
        Ok(text) => say(out, text.as_slice()),
        Err(_refused) => Err(Stop::Memory),
    }
}

/// Says that there is no link for a connection.
pub fn say_no_link<O: Sink>(alloc: Global, number: u64, out: &mut O) -> Result<(), Stop>
    ensures { OutputSays result (no_link_text number) (record { taken = O.taken out.old; counts = O.counts out.old }) (record { taken = O.taken out.new; counts = O.counts out.new }) }
{
    match no_link(alloc, number) {
        Ok(text) => say(out, text.as_slice()),
        Err(_refused) => Err(Stop::Memory),
    }
}
