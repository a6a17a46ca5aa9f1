//! The watch worker's work.

ghost use Rattle.std.specs.Prelude.{◌≡◌, ◌<◌, ◌≤◌, None, IfOk, IsTrue, OnErr, OnOk, false};
ghost use Rattle.zw_hub.specs.Ends.{IsProper};
ghost use Rattle.zw_hub.specs.Lists.{forgetting, with_end};
ghost use Rattle.zw_follow.specs.Dials.{DialsOnce, Follows, Stops, barren_after, left_after, telling};
ghost use Rattle.zw_follow.specs.Publishing.{IsPlaced};
ghost use Rattle.zw_follow.specs.Streams.{GoesOn};

use crate::place::Place;
use crate::rings::{NoBells, Rings};
use crate::stream::{StreamEnd, open, read_stream};
use ev_addresses::{address_at, next_of};
use ev_faults::{Fault, tell};
use std::alloc::Global;
use std::sync::Wait;
use zw_hub::{FeedEnd, Hub};
use zx_base::{Bytes, Memory};
use zx_net::Net;
use zx_random::StopWord;

/// How many dials in a row may give no line.
const MAX_BARREN: u32 = 10;

/// Follows the head after this revision, at which the last update has this number, and publishes an entry for each later one
/// (etcd API reference, "Watch"). `endpoint` names JSON gateways: the first five addresses in it that are not empty, with commas between
/// them, each `HOST:PORT`; `localhost` where there is none. They are dialled in turn, one more for each stream that is over. Both numbers
/// are from 0 to 2^62 - 1; `number` is that of the hub's last entry, and the hub is open.
///
/// After a dial that gave no line, the hub forgets what was published so far. Etcd may have been restored from a backup meanwhile, and may then
/// show clients a time before those updates, whose watches must not be told of them.
///
/// `None`: the word to stop was found set, and the hub is open. Otherwise the hub is closed for the end that is given:
///
/// - `Compacted`: etcd no longer has the revisions to go on from;
/// - `Gap`: the next update is missing; `Damaged`: the head's value is no record;
/// - `NoLine`: ten dials in a row failed, though descriptors were left, or gave a stream that could not be asked or gave no line, or one of
///   a member that is behind what was told already;
/// - `Memory`: memory was refused. Some of the entries of the last line may be published then.
pub fn follow<R: Wait + Eprint, H: Wait + Drop, N: Net, Q: StopWord>(
    rt: &R,
    alloc: Global,
    net: &mut N,
    endpoint: &str,
    number: i64,
    revision: i64,
    hub: &mut Hub<H>,
    stop: &mut Q,
) -> Option<FeedEnd>
    // The hub is open, its last number is this one, and both numbers are from 0 to below 2 ^ 62.
    requires { IsPlaced hub.old.list (record { number = number; revision = revision }) }
    // It has published the entries of the lines that its streams gave, each once and in order.
    ensures { Follows
        (telling N.In.given N.In.left N.In.counts N.In.ended N.In.name N.Out.taken N.Out.counts N.Out.name)
        endpoint.now result
        (record { counts = N.counts net.old; no_room = N.no_room net.old; streams = N.streams net.old })
        (record { counts = N.counts net.new; no_room = N.no_room net.new; streams = N.streams net.new })
        revision hub.old.list hub.new.list (Q.set_readings stop.old) (Q.set_readings stop.new) }
{
    follow_and_ring(
        rt,
        alloc,
        net,
        endpoint,
        Place { number, revision },
        hub,
        stop,
        &NoBells,
    )
}

/// As [`follow`], from this place on; after each line that was taken, and once the hub is closed, the bells are rung.
pub fn follow_and_ring<R: Wait + Eprint, H: Wait + Drop, N: Net, Q: StopWord, B: Rings>(
    rt: &R,
    alloc: Global,
    net: &mut N,
    endpoint: &str,
    place: Place,
    hub: &mut Hub<H>,
    stop: &mut Q,
    bells: &B,
) -> Option<FeedEnd>
    requires { IsPlaced hub.old.list place }
    ensures { Follows
        (telling N.In.given N.In.left N.In.counts N.In.ended N.In.name N.Out.taken N.Out.counts N.Out.name)
        endpoint.now result
        (record { counts = N.counts net.old; no_room = N.no_room net.old; streams = N.streams net.old })
        (record { counts = N.counts net.new; no_room = N.no_room net.new; streams = N.streams net.new })
        place.revision hub.old.list hub.new.list (Q.set_readings stop.old) (Q.set_readings stop.new) }
{
    let mut place = place;
    let end = match follow_streams(rt, alloc, net, endpoint, &mut place, hub, stop, bells) {
        Some(end) => end,
        None => return None,
    };
    tell(rt, "watch of", endpoint, fault_of(&end));
    let end = close(rt, alloc, hub, end);
    bells.ring(rt);
    Some(end)
}

/// Tells the net that the stream was of use, if it is over and counts as one that gave a line.
fn settle<N: Net>(net: &mut N, end: &StreamEnd)
    ensures counts { N.counts net.new ≡ N.counts net.old }
    ensures no_room { N.no_room net.new ≡ N.no_room net.old }
    ensures streams { N.streams net.new ≡ N.streams net.old }
{
    match end {
        StreamEnd::Over { is_barren, .. } => {
            if !*is_barren {
                net.settle();
            }
        }
        StreamEnd::Stopped | StreamEnd::Closes(_) => {}
    }
}

/// Dials once, and follows the stream to its end.
fn follow_stream<R: Wait, H: Wait + Drop, N: Net, Q: StopWord, B: Rings>(
    rt: &R,
    alloc: Global,
    net: &mut N,
    endpoint: &str,
    place: &mut Place,
    hub: &mut Hub<H>,
    stop: &mut Q,
    bells: &B,
) -> StreamEnd
    requires placed { IsPlaced hub.old.list place.old }
    ensures goes_on { GoesOn result hub.new.list place.new }
    ensures dials { DialsOnce
        (telling N.In.given N.In.left N.In.counts N.In.ended N.In.name N.Out.taken N.Out.counts N.Out.name)
        endpoint.now result
        (record { counts = N.counts net.old; no_room = N.no_room net.old; streams = N.streams net.old })
        (record { counts = N.counts net.new; no_room = N.no_room net.new; streams = N.streams net.new })
        hub.old.list hub.new.list place.old.revision place.new.revision (Q.set_readings stop.old) (Q.set_readings stop.new) }
{
    let mut lines = match open(alloc, net, endpoint, place.revision) {
        Ok(lines) => lines,
        Err(end) => return end,
    };
    let end = read_stream(rt, alloc, &mut lines, place, hub, stop, bells);
    settle(net, &end);
    end
}

/// Whether so many dials in a row that gave no line are enough to give up.
fn is_enough(barren: u32) -> bool
    ensures yes { IsTrue result → 10 ≤ barren }
    ensures no { result ≡ false → barren < 10 }
{
    barren >= MAX_BARREN
}

/// How many dials in a row gave no line, with one more.
fn barren_after(is_barren: bool, barren: u32) -> u32
    requires { barren < 10 }
    ensures { result ≡ barren_after is_barren barren }
{
    if is_barren { barren + 1 } else { 0 }
}

/// Forgets what was published so far, if a dial gave no line. Where memory is refused it tries again.
fn forget_after<R: Wait, H: Wait + Drop>(rt: &R, hub: &mut Hub<H>, is_barren: bool)
    requires { hub.old.list.end ≡ None }
    ensures { hub.new.list ≡ left_after is_barren hub.old.list }
{
    if !is_barren {
        return;
    }
    'tries: for _ in rt.forever() {
        if let Ok(()) = hub.forget() {
            return;
        }
    }
    unreachable!()
}

/// Follows one stream after the other, at one endpoint after the other.
fn follow_streams<R: Wait + Eprint, H: Wait + Drop, N: Net, Q: StopWord, B: Rings>(
    rt: &R,
    alloc: Global,
    net: &mut N,
    endpoint: &str,
    place: &mut Place,
    hub: &mut Hub<H>,
    stop: &mut Q,
    bells: &B,
) -> Option<FeedEnd>
    requires { IsPlaced hub.old.list place.old }
    ensures { Stops
        (telling N.In.given N.In.left N.In.counts N.In.ended N.In.name N.Out.taken N.Out.counts N.Out.name)
        endpoint.now result
        (record { counts = N.counts net.old; no_room = N.no_room net.old; streams = N.streams net.old })
        (record { counts = N.counts net.new; no_room = N.no_room net.new; streams = N.streams net.new })
        place.old.revision hub.old.list hub.new.list (Q.set_readings stop.old) (Q.set_readings stop.new) }
{
    let mut barren = 0;
    let mut at = 0;
    'streams: for _ in rt.forever() {
        if is_enough(barren) {
            return Some(FeedEnd::NoLine);
        }
        let address = address_at(endpoint, at);
        match follow_stream(rt, alloc, net, address, place, hub, stop, bells) {
            StreamEnd::Stopped => return None,
            StreamEnd::Closes(end) => return Some(end),
            StreamEnd::Over { fault, is_barren } => {
                tell(rt, "watch of", address, fault);
                barren = barren_after(is_barren, barren);
                at = next_of(endpoint, at);
                forget_after(rt, hub, is_barren);
            }
        }
        if stop.is_set() {
            return None;
        }
    }
    unreachable!()
}

fn fault_of(end: &FeedEnd) -> Fault {
    match end {
        FeedEnd::Compacted { rev } => Fault::Compacted(*rev),
        FeedEnd::Gap { expected, found } => Fault::Gap(*expected, *found),
        FeedEnd::Damaged { .. } => Fault::Damaged,
        FeedEnd::NoLine => Fault::NoLine,
        FeedEnd::Memory => Fault::Memory,
    }
}

fn copy_of(alloc: Global, end: &FeedEnd) -> Result<FeedEnd, Memory>
    ensures { IfOk result (λ copy. copy ≡ end.now) }
{
    Ok(match end {
        FeedEnd::Compacted { rev } => FeedEnd::Compacted { rev: *rev },
        FeedEnd::Gap { expected, found } => FeedEnd::Gap {
            expected: *expected,
            found: *found,
        },
        FeedEnd::Damaged { key, value } => FeedEnd::Damaged {
            key: Bytes::copy_of(alloc, key.as_slice())?,
            value: Bytes::copy_of(alloc, value.as_slice())?,
        },
        FeedEnd::NoLine => FeedEnd::NoLine,
        FeedEnd::Memory => FeedEnd::Memory,
    })
}

/// Closes the hub. Where memory is refused it stays open.
fn try_close<H: Wait + Drop>(alloc: Global, hub: &mut Hub<H>, end: &FeedEnd) -> Result<(), Memory>
    requires is_open { hub.old.list.end ≡ None }
    requires proper { IsProper end.now }
    ensures ok { OnOk result (hub.new.list ≡ with_end hub.old.list end.now) }
    ensures err { OnErr result (hub.new.list ≡ hub.old.list) }
{
    let copy = copy_of(alloc, end)?;
    hub.close(copy)
}

/// Closes the hub, and tries again where memory is refused.
fn close<R: Wait, H: Wait + Drop>(rt: &R, alloc: Global, hub: &mut Hub<H>, end: FeedEnd) -> FeedEnd
    requires is_open { hub.old.list.end ≡ None }
    requires proper { IsProper end }
    ensures same { result ≡ end }
    ensures closed { hub.new.list ≡ with_end hub.old.list end }
{
    'tries: for _ in rt.forever() {
        match try_close(alloc, hub, &end) {
            Ok(()) => return end,
            Err(_refused) => {}
        }
    }
    unreachable!()
}
