//! Serves one connection.

ghost use Rattle.std.specs.Prelude.{◌≡◌, ◌≤ℤ◌, pos, []};
ghost use Rattle.zp_conn.specs.Serving.{Serves};
ghost use Rattle.zp_conn.specs.Turning.{Ends, ended_by as cause_by, goes_on as asked_next};
ghost use Rattle.zp_conn.specs.Writing.{FlushesIf};

use crate::handing::hand;
use crate::inbox::Inbox;
use crate::inputs::{Next, take_in};
use crate::outbox::{LONGEST_HELD, Outbox};
use crate::speaking::Rest;
use crate::telling::TellsAll;
use crate::writing::WriteFault;
use ev_call::Etcd;
use ev_types::Ask;
use std::alloc::Global;
use std::sync::Wait;
use zk_service::Cause;
use zp_core::{Core, Fresh, Input, Wants};
use zp_run::Trace;
use zp_turns::{NoTurns, Turns};
use zw_hub::Feed;
use zx_base::Memory;
use zx_net::Clock;
use zx_outside::{Sink, Source};

/// How many bytes of the client are read at a time.
const PIECE: usize = 8192;

/// Whether no whole frame is left, or the next may wait for its turn.
fn may_wait<U: Turns>(turns: &U, inbox: &Inbox) -> bool {
    match inbox.first() {
        Some(frame) => !turns.is_next(frame),
        None => true,
    }
}

/// Whether what is held goes out now, `held` milliseconds after the first of it: before an ask, an entry or a turn is waited for too.
fn is_due<U: Turns>(
    core: &Core,
    asked: &Option<Ask>,
    inbox: &Inbox,
    turns: &U,
    outbox: &Outbox,
    held: u64,
) -> bool {
    asked.is_some()
        || outbox.is_full()
        || held >= LONGEST_HELD
        || matches!(core.wants(), Wants::Entry { .. })
        || may_wait(turns, inbox)
}

/// Waits for its turn if an input is a frame.
fn wait_with<U: Turns>(turns: &mut U, input: &Input) {
    if let Input::Frame(frame) = input {
        turns.wait(frame.as_slice());
    }
}

/// What is asked next; or why the connection ends.
fn goes_on(handed: Result<Rest, Memory>) -> Result<Option<Ask>, Cause>
    ensures { result ≡ asked_next handed }
{
    match handed {
        Ok(Rest::Nothing) => Ok(None),
        Ok(Rest::Ask(ask)) => Ok(Some(ask)),
        Ok(Rest::Close(why)) => Err(why),
        Err(_refused) => Err(Cause::Memory),
    }
}

/// Writes what is held, where that is due.
fn flush_if<K: Sink>(due: bool, outbox: &mut Outbox, sink: &mut K) -> Result<(), WriteFault>
    ensures flushes { FlushesIf due result outbox.old outbox.new (K.taken sink.old) (K.taken sink.new) (K.counts sink.old) (K.counts sink.new) }
    ensures named { K.name sink.new ≡ K.name sink.old }
{
    if due { outbox.flush(sink) } else { Ok(()) }
}

/// When the first of what is held then was held.
fn since_of(outbox: &Outbox, since: u64, now: u64) -> u64 {
    if outbox.is_empty() { now } else { since }
}

/// Serves one connection to its end, but for the last write, and gives the cause.
fn run<W: Wait, L: Etcd, F: Feed, S: Source, K: Sink, C: Clock, T: Trace, U: Turns>(
    rt: &W,
    alloc: Global,
    fresh: Fresh,
    outbox: &mut Outbox,
    link: &mut L,
    feed: &mut F,
    source: &mut S,
    sink: &mut K,
    clock: &mut C,
    trace: &mut T,
    turns: &mut U,
) -> Cause
    requires real { pos 1 ≤ℤ fresh.id }
    requires none { outbox.old ≡ [] }
    ensures ends { let t = ⟦<(S, K, L, F, T) as TellsAll>⟧.told in
        Ends fresh (t (source.old, sink.old, link.old, feed.old, trace.old))
        (t (source.new, sink.new, link.new, feed.new, trace.new)) outbox.new result }
    ensures source { S.name source.new ≡ S.name source.old }
    ensures sink { K.name sink.new ≡ K.name sink.old }
{
    let mut core = Core::new(alloc, fresh);
    let mut inbox = Inbox::new(alloc);
    let mut room = [0u8; PIECE];
    let mut asked: Option<Ask> = None;
    let mut since = 0;
    'turns: for _ in rt.forever() {
        let input = match take_in(&core, asked, link, feed, &mut inbox, source, &mut room) {
            Next::Input(input) => input,
            Next::Idle => {
                asked = None;
                continue 'turns;
            }
            Next::Ended(why) => return why,
        };
        wait_with(turns, &input);
        let now = clock.now();
        since = since_of(outbox, since, now);
        asked = match goes_on(hand(&mut core, outbox, trace, input, now)) {
            Ok(asked) => asked,
            Err(why) => return why,
        };
        turns.go_on(asked.is_some());
        let due = is_due(
            &core,
            &asked,
            &inbox,
            turns,
            outbox,
            now.saturating_sub(since),
        );
        match flush_if(due, outbox, sink) {
            Ok(()) => {}
            Err(_fault) => return Cause::WriteFault,
        }
    }
    unreachable!()
}

/// Why the connection ended, where the last write came to this.
fn ended_by(flushed: Result<(), WriteFault>, why: Cause) -> Cause
    ensures { result ≡ cause_by flushed why }
{
    match flushed {
        Ok(()) => why,
        Err(_fault) => match why {
            // Out of memory stays the cause.
            Cause::Memory => Cause::Memory,
            _ => Cause::WriteFault,
        },
    }
}

/// Serves one connection to its end, and gives the cause, as [`serve_connection`] does, where a frame may wait for its turn before it
/// is handed in. What is held for the client goes out before that. The turn is over once no ask is out.
pub fn serve_in_turn<W: Wait, L: Etcd, F: Feed, S: Source, K: Sink, C: Clock, T: Trace, U: Turns>(
    rt: &W,
    alloc: Global,
    fresh: Fresh,
    link: &mut L,
    feed: &mut F,
    source: &mut S,
    sink: &mut K,
    clock: &mut C,
    trace: &mut T,
    turns: &mut U,
) -> Cause
    requires { pos 1 ≤ℤ fresh.id }
    ensures serves { let t = ⟦<(S, K, L, F, T) as TellsAll>⟧.told in
        Serves fresh (t (source.old, sink.old, link.old, feed.old, trace.old))
        (t (source.new, sink.new, link.new, feed.new, trace.new)) result }
    ensures source { S.name source.new ≡ S.name source.old }
    ensures sink { K.name sink.new ≡ K.name sink.old }
{
    let mut outbox = Outbox::new(alloc);
    let why = run(
        rt,
        alloc,
        fresh,
        &mut outbox,
        link,
        feed,
        source,
        sink,
        clock,
        trace,
        turns,
    );
    turns.end();
    let result = outbox.flush(sink);
    ended_by(result, why)
}

/// Serves one connection to its end, and gives the cause. `fresh` is what a new session would be made with. The causes:
///
/// - `ClientEnd`, `BadLength` and `ReadFault`: the source ended, a length out of range stands there, the source failed;
/// - `WriteFault`: the sink failed, and took a front of what was sent;
/// - `LinkFault`: a call of the link failed; `Lagged`: the feed answered so;
/// - `FeedClosed`: the feed answered so, where an entry is awaited, or where no watch is armed and no frame is there;
/// - `Memory`: memory was refused, by the trace, the link or the feed too;
/// - each other: what the client sent, or what an answer of etcd showed.
pub fn serve_connection<W: Wait, L: Etcd, F: Feed, S: Source, K: Sink, C: Clock, T: Trace>(
    rt: &W,
    alloc: Global,
    fresh: Fresh,
    link: &mut L,
    feed: &mut F,
    source: &mut S,
    sink: &mut K,
    clock: &mut C,
    trace: &mut T,
) -> Cause
    requires { pos 1 ≤ℤ fresh.id }
    ensures serves { let t = ⟦<(S, K, L, F, T) as TellsAll>⟧.told in
        Serves fresh (t (source.old, sink.old, link.old, feed.old, trace.old))
        (t (source.new, sink.new, link.new, feed.new, trace.new)) result }
    ensures source { S.name source.new ≡ S.name source.old }
    ensures sink { K.name sink.new ≡ K.name sink.old }
{
    serve_in_turn(
        rt,
        alloc,
        fresh,
        link,
        feed,
        source,
        sink,
        clock,
        trace,
        &mut NoTurns,
    )
}
