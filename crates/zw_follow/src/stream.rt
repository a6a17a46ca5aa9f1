//! One stream of a watch.

ghost use Rattle.std.specs.Prelude.{◌≡◌, ◌≤ℤ◌, ◌<ℤ◌, ◌^◌, pos, None, [], true, false, List, OnOk, IfOk, IfErr, IfSome};
ghost use Rattle.std.specs.Int.{int_max};
ghost use Rattle.ev_http.specs.Stream.{IsAt};
ghost use Rattle.ev_http.specs.Taking.{told};
ghost use Rattle.ev_json.specs.Ranges.{LineFits};
ghost use Rattle.zw_hub.specs.Lists.{last_number};
ghost use Rattle.zw_follow.specs.Dials.{IsUndialledBy, Opens, telling};
ghost use Rattle.zw_follow.specs.Publishing.{IsBehind, IsNotBehind, IsPlaced, IsRun, Means, PublishesAll, Said, Stands, TakesLine, greatest, told_by};
ghost use Rattle.zw_follow.specs.Streams.{GoesOn, IsBrokenBy, IsMissed, IsReadTo, IsUnsentBy, ReadsOn, ReadsStream};
ghost use Rattle.zw_follow.specs.Streams.{has_no_events, is_nothing, spelled, taken_after};

use crate::place::Place;
use crate::rings::Rings;
use ev_faults::Fault;
use ev_http::{HttpFault, Lines, send_request};
use ev_json::{JsonFault, Line, read_line, what_is_read_fits, write_watch};
use ev_types::Route;
use std::alloc::Global;
use std::collections::VecDeque;
use std::sync::{Arc, Wait};
use zn_layout::{Entry, HEAD_NAME};
use zw_feed::{FeedFault, Follower};
use zw_hub::{FeedEnd, Hub};
use zw_watch::bits_of;
use zx_base::Memory;
use zx_net::{Net, NetFault};
use zx_outside::Source;
use zx_random::StopWord;

/// How many minutes without a line end a stream. An etcd that has nothing else to tell sends a line of progress every ten minutes, and leaves
/// one out after an update.
const MAX_SILENCE: u32 = 25;

/// Why a stream is read no further.
#[derive(Drop)]
pub enum StreamEnd {
    /// The worker was told to stop.
    Stopped,
    /// The stream is over, and may be dialled again. `is_barren`: it gave no line, or none but that it was created and one that
    /// cannot be read, or its member is behind what was told already.
    Over { fault: Fault, is_barren: bool },
    /// The updates cannot be followed any further.
    Closes(FeedEnd),
}

/// What a stream gave so far.
#[derive(Clone, Copy)]
pub(crate) enum Taken {
    Nothing,
    /// That the watch was created, and nothing else.
    Created,
    /// Any other line.
    Events,
}

fn barren(fault: Fault) -> StreamEnd
    ensures { result ≡ StreamEnd.Over fault true }
{
    StreamEnd::Over {
        fault,
        is_barren: true,
    }
}

fn not_barren(fault: Fault) -> StreamEnd
    ensures { result ≡ StreamEnd.Over fault false }
{
    StreamEnd::Over {
        fault,
        is_barren: false,
    }
}

/// What it means that a dial failed. One for which no descriptor was left says nothing of its member.
fn undialled(fault: NetFault) -> StreamEnd
    ensures { IsUndialledBy fault result }
{
    match fault {
        NetFault::NoRoom => not_barren(Fault::NoRoom),
        NetFault::InUse | NetFault::NoAddress | NetFault::Denied | NetFault::Failed => {
            barren(Fault::Dial)
        }
    }
}

/// What it means that the request was not sent.
fn unsent(fault: HttpFault) -> StreamEnd
    ensures { IsUnsentBy fault result }
{
    match fault {
        HttpFault::Memory => StreamEnd::Closes(FeedEnd::Memory),
        HttpFault::Head
        | HttpFault::Status(_)
        | HttpFault::Route
        | HttpFault::Body { .. }
        | HttpFault::TooLong { .. }
        | HttpFault::Ended { .. }
        | HttpFault::Idle
        | HttpFault::ReadFault
        | HttpFault::WriteFault => barren(Fault::Http(fault)),
    }
}

/// Dials, and asks for the head's puts from the revision after this one on, which is below 2^62.
pub(crate) fn open<N: Net>(
    alloc: Global,
    net: &mut N,
    endpoint: &str,
    revision: i64,
) -> Result<Lines<N::In>, StreamEnd>
    requires least { pos 0 ≤ℤ revision }
    requires most { revision <ℤ pos (2 ^ 62) }
    ensures { Opens
        (telling N.In.given N.In.left N.In.counts N.In.ended N.In.name N.Out.taken N.Out.counts N.Out.name)
        result endpoint.now revision
        (record { counts = N.counts net.old; no_room = N.no_room net.old; streams = N.streams net.old })
        (record { counts = N.counts net.new; no_room = N.no_room net.new; streams = N.streams net.new }) }
{
    let (source, mut sink) = match net.dial(endpoint) {
        Ok(ends) => ends,
        Err(fault) => return Err(undialled(fault)),
    };
    let Ok(text) = write_watch(alloc, revision + 1, HEAD_NAME.as_slice()) else {
        return Err(StreamEnd::Closes(FeedEnd::Memory));
    };
    match send_request(alloc, &mut sink, endpoint, Route::Watch, text.as_slice()) {
        Ok(()) => Ok(Lines::new(alloc, source)),
        Err(fault) => Err(unsent(fault)),
    }
}

/// What it means that no line came: that it did not come in time is no fault.
fn missed(why: HttpFault) -> Result<Option<Line>, Fault>
    ensures { IsMissed why result }
{
    match why {
        HttpFault::Idle => Ok(None),
        HttpFault::Head
        | HttpFault::Status(_)
        | HttpFault::Route
        | HttpFault::Body { .. }
        | HttpFault::TooLong { .. }
        | HttpFault::Ended { .. }
        | HttpFault::ReadFault
        | HttpFault::WriteFault
        | HttpFault::Memory => Err(Fault::Http(why)),
    }
}

/// The next line of a stream; `None` where none came within a minute.
fn next_line<S: Source>(alloc: Global, lines: &mut Lines<S>) -> Result<Option<Line>, Fault>
    ensures fits { IfOk result (λ found. IfSome found LineFits) }
    ensures reads { (dialled : S) (said : List Said)
        → IsReadTo (told S.given S.left S.counts S.ended S.name) dialled lines.old (spelled said)
        → ReadsOn (told S.given S.left S.counts S.ended S.name) dialled result lines.old lines.new said }
{
    let text = match lines.next() {
        Ok(text) => text,
        Err(fault) => return missed(fault),
    };
    // Proof only: the numbers of a line that was read are in an etcd's range.
    what_is_read_fits();
    match read_line(alloc, text.as_slice()) {
        Ok(line) => Ok(Some(line)),
        Err(fault) => Err(Fault::Json(fault)),
    }
}

fn is_nothing(taken: Taken) -> bool
    ensures { result ≡ is_nothing taken }
{
    match taken {
        Taken::Nothing => true,
        Taken::Created | Taken::Events => false,
    }
}

fn has_no_events(taken: Taken) -> bool
    ensures { result ≡ has_no_events taken }
{
    match taken {
        Taken::Nothing | Taken::Created => true,
        Taken::Events => false,
    }
}

/// What it means that no line came, where the stream gave this before.
fn broken_at(why: HttpFault, taken: Taken) -> StreamEnd
    ensures { IsBrokenBy (Fault.Http why) taken result }
{
    match why {
        HttpFault::Memory => StreamEnd::Closes(FeedEnd::Memory),
        HttpFault::TooLong { .. } => StreamEnd::Over {
            fault: Fault::Http(why),
            is_barren: has_no_events(taken),
        },
        HttpFault::Head
        | HttpFault::Status(_)
        | HttpFault::Route
        | HttpFault::Body { .. }
        | HttpFault::Ended { .. }
        | HttpFault::Idle
        | HttpFault::ReadFault
        | HttpFault::WriteFault => StreamEnd::Over {
            fault: Fault::Http(why),
            is_barren: is_nothing(taken),
        },
    }
}

/// What it means that a line cannot be read, where the stream gave this before.
fn broken_before(why: JsonFault, taken: Taken) -> StreamEnd
    ensures { IsBrokenBy (Fault.Json why) taken result }
{
    match why {
        JsonFault::Memory => StreamEnd::Closes(FeedEnd::Memory),
        JsonFault::NotJson | JsonFault::Unreadable { .. } => StreamEnd::Over {
            fault: Fault::Json(why),
            is_barren: has_no_events(taken),
        },
    }
}

/// What a line that did not come, or cannot be read, means, where the stream gave this before.
fn broken(fault: Fault, taken: Taken) -> StreamEnd
    ensures { IsBrokenBy fault taken result }
{
    match fault {
        Fault::Http(why) => broken_at(why, taken),
        Fault::Json(why) => broken_before(why, taken),
        Fault::Memory => StreamEnd::Closes(FeedEnd::Memory),
        Fault::Silent => StreamEnd::Over {
            fault,
            is_barren: is_nothing(taken),
        },
        Fault::First
        | Fault::Undialled(_)
        | Fault::Dial
        | Fault::Ended
        | Fault::Compacted(_)
        | Fault::Gap(..)
        | Fault::Damaged
        | Fault::NoLine
        | Fault::Behind(_)
        | Fault::NoRoom
        | Fault::Listen(_)
        | Fault::Thread
        | Fault::Scheme => not_barren(fault),
    }
}

/// What a stream gave, with this line too.
fn taken_after(line: &Line, before: Taken) -> Taken
    ensures { result ≡ taken_after line.now before }
{
    match line {
        Line::Created { .. } => match before {
            Taken::Nothing | Taken::Created => Taken::Created,
            Taken::Events => Taken::Events,
        },
        Line::Events { .. } | Line::Compacted { .. } | Line::Ended => Taken::Events,
    }
}

/// The revision at which the member is that created the watch, if it is below this one, up to which everything was told.
fn behind(line: &Line, told: i64) -> Option<i64>
    ensures behind { IfSome result (λ _. IsBehind told line.now) }
    ensures not_behind { result ≡ None → IsNotBehind told line.now }
{
    match line {
        Line::Created { revision } => {
            if *revision < told {
                Some(*revision)
            } else {
                None
            }
        }
        Line::Events { .. } | Line::Compacted { .. } | Line::Ended => None,
    }
}

/// The greater one of two revisions.
fn later(revision: i64, other: i64) -> i64
    ensures { result ≡ int_max revision other }
{
    if revision < other { other } else { revision }
}

/// Moves the place on to the revision up to which everything was told, with this line too. Only a line without events says so of its own.
fn move_on(place: &mut Place, line: &Line)
    ensures { place.new ≡ record place.old { revision = greatest place.old.revision (told_by line.now) } }
{
    match line {
        Line::Events { revision, kvs } => {
            if kvs.len() == 0 {
                place.revision = later(place.revision, *revision);
            }
        }
        Line::Created { .. } | Line::Compacted { .. } | Line::Ended => {}
    }
}

/// Publishes these entries, in order. Where memory is refused, a front of them is published.
#[tactic(auto, using(crate::proofs::Growing::next_number, crate::proofs::Growing::published_all, crate::proofs::Growing::published_front))]
fn publish<R: Wait + Drop>(
    alloc: Global,
    hub: &mut Hub<R>,
    entries: Vec<Entry>,
    place: &mut Place,
) -> Result<(), Memory>
    requires run { IsRun (last_number hub.old.list) entries.items }
    requires placed { IsPlaced hub.old.list place.old }
    ensures { PublishesAll result entries.items hub.old.list hub.new.list place.old place.new }
{
    let mut queue = VecDeque::from(entries);
    'entries: while let Some(entry) = queue.pop_front() {
        let next = Place {
            number: entry.number,
            revision: later(place.revision, entry.zxid),
        };
        hub.publish(Arc::new(alloc, entry)?)?;
        *place = next;
    }
    Ok(())
}

/// What a fault of the follower means.
fn end_of(fault: FeedFault) -> StreamEnd
    ensures { Means fault result }
{
    match fault {
        FeedFault::Ended => not_barren(Fault::Ended),
        FeedFault::Compacted { rev } => StreamEnd::Closes(FeedEnd::Compacted { rev }),
        FeedFault::Gap { expected, found } => StreamEnd::Closes(FeedEnd::Gap { expected, found }),
        FeedFault::Damaged { key, value } => StreamEnd::Closes(FeedEnd::Damaged { key, value }),
        FeedFault::Memory => StreamEnd::Closes(FeedEnd::Memory),
    }
}

/// The bits of these entries.
fn bits_of_all(entries: &[Entry]) -> u64 {
    let mut bits = 0;
    for entry in entries {
        bits |= bits_of(entry.triggers.as_slice());
    }
    bits
}

/// Takes a line of a watch that was asked for after this revision, publishes its entries, and notes their bits.
fn take_line<R: Wait + Drop>(
    alloc: Global,
    follower: &mut Follower,
    line: &Line,
    asked: i64,
    hub: &mut Hub<R>,
    place: &mut Place,
    bits: &mut u64,
) -> Result<(), StreamEnd>
    requires line { LineFits line.now }
    requires stands { Stands hub.old.list follower.old place.old }
    ensures takes { TakesLine result line.now asked hub.old.list hub.new.list place.old.revision place.new.revision }
    ensures stands { OnOk result (Stands hub.new.list follower.new place.new) }
    ensures goes_on { IfErr result (λ end. GoesOn end hub.new.list place.new) }
{
    match behind(line, asked) {
        Some(revision) => return Err(barren(Fault::Behind(revision))),
        None => {}
    }
    move_on(place, line);
    let entries = match follower.take(line) {
        Ok(entries) => entries,
        Err(fault) => return Err(end_of(fault)),
    };
    *bits = bits_of_all(entries.as_slice());
    match publish(alloc, hub, entries, place) {
        Ok(()) => Ok(()),
        Err(_refused) => Err(StreamEnd::Closes(FeedEnd::Memory)),
    }
}

/// Rings for the entries with these bits that a line gave, if it gave any.
fn ring_for<R: Wait, B: Rings>(rt: &R, bells: &B, bits: u64, before: i64, after: i64) {
    if after != before {
        bells.ring_for(rt, bits, before, after);
    }
}

/// Publishes the entries of a stream, line by line, until it is over or the word to stop is set. A stream that is silent for 25 minutes is
/// over.
pub(crate) fn read_stream<R: Wait, H: Wait + Drop, S: Source, Q: StopWord, B: Rings>(
    rt: &R,
    alloc: Global,
    lines: &mut Lines<S>,
    place: &mut Place,
    hub: &mut Hub<H>,
    stop: &mut Q,
    bells: &B,
) -> StreamEnd
    requires first { IsAt lines.old (told S.given S.left S.counts S.ended S.name lines.old.source) [] [] }
    requires placed { IsPlaced hub.old.list place.old }
    ensures goes_on { GoesOn result hub.new.list place.new }
    ensures reads { ReadsStream (told S.given S.left S.counts S.ended S.name) lines.old.source result
        hub.old.list hub.new.list place.old.revision place.new.revision
        (Q.set_readings stop.old) (Q.set_readings stop.new) }
{
    let asked = place.revision;
    let mut follower = Follower::new(alloc, place.number);
    let mut taken = Taken::Nothing;
    let mut minutes = 0;
    'lines: for _ in rt.forever() {
        if stop.is_set() {
            return StreamEnd::Stopped;
        }
        let found = match next_line(alloc, lines) {
            Ok(found) => found,
            Err(fault) => return broken(fault, taken),
        };
        let line = match found {
            Some(line) => line,
            None => {
                minutes += 1;
                if minutes >= MAX_SILENCE {
                    return broken(Fault::Silent, taken);
                }
                continue 'lines;
            }
        };
        minutes = 0;
        taken = taken_after(&line, taken);
        let before = place.number;
        let mut bits = 0;
        match take_line(alloc, &mut follower, &line, asked, hub, place, &mut bits) {
            Ok(()) => {}
            Err(end) => return end,
        }
        ring_for(rt, bells, bits, before, place.number);
    }
    unreachable!()
}
