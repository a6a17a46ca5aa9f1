//! Takes back what workers hand back.

ghost use Rattle.std.specs.Prelude.{◌≡◌, ℕ, [], OnOk, Contains};
ghost use Rattle.std.specs.Arc.{arc_value};
ghost use Rattle.zw_hub.specs.Ends.{MayBeTold};
ghost use Rattle.zx_net.specs.Nets.{NetCounts};
ghost use Rattle.zp_server.specs.Logs.{LogGoes, LogHalts, Rests};
ghost use Rattle.zw_hub.specs.Readers.{ReaderState};
ghost use Rattle.zp_server.specs.Looking.{Finds, IsFound, IsFoundClosed};

use crate::back::Returned;
use crate::book::Book;
use crate::desk::{Desk, broken_by, strike};
use crate::ends::Stop;
use crate::gate::Gate;
use crate::house::House;
use crate::lines::say_closed;
use crate::looking::closing_of;
use std::alloc::Global;
use std::sync::{Arc, Wait};
use zw_hub::FeedEnd;
use zx_net::Wakes;
use zx_outside::{Sink, Source};

/// Takes what a worker has handed back: writes its line, and gives it to the book. Its reader is free again.
pub fn take_back<I: Source + Drop, K: Sink + Drop, O: Sink, B: Book<I, K>>(
    alloc: Global,
    returned: Returned<I, K, B::T>,
    desk: &mut Desk,
    out: &mut O,
    book: &mut B,
) -> Result<(), Stop>
    ensures goes { (size : ℕ) (net : NetCounts) → LogGoes size result 0 [] desk.old.busy.items desk.new.busy.items
        (record { net = net; out = record { taken = O.taken out.old; counts = O.counts out.old }; book = B.told book.old })
        (record { net = net; out = record { taken = O.taken out.new; counts = O.counts out.new }; book = B.told book.new }) }
    ensures own { desk.new.own ≡ desk.old.own }
    ensures kept { (r : ReaderState) → Contains desk.old.free.items r → Contains desk.new.free.items r }
    ensures found { Finds result desk.new.own desk.new.free.items }
{
    let Returned { served, reader } = returned;
    // A worker hands back its own connection, and that once.
    if !strike(&mut desk.busy, served.number) {
        return Err(Stop::Memory);
    }
    desk.is_broken = broken_by(desk.is_broken, &served.cause);
    match say_closed(alloc, served.number, &served.cause, out) {
        Ok(()) => {}
        Err(stop) => return Err(stop),
    }
    let mut reader = reader;
    let closing = closing_of(&served.cause, &mut reader);
    match book.take(served) {
        Ok(()) => {}
        Err(_refused) => return Err(Stop::Memory),
    }
    match desk.free.push(reader) {
        Ok(()) => closing,
        Err(_refused) => Err(Stop::Memory),
    }
}

/// Takes all that came back, and then waits until a reader is free.
pub fn make_room<
    W: Wait + Eprint,
    I: Source + Wakes + Drop,
    K: Sink + Drop,
    O: Sink,
    G: Gate + Drop,
    B: Book<I, K>,
>(
    rt: &W,
    alloc: Global,
    house: &House<I, K, B::T, I::Bell, G>,
    desk: &mut Desk,
    out: &mut O,
    book: &mut B,
) -> Result<(), Stop>
    ensures goes { (size : ℕ) (net : NetCounts) → LogGoes size result 0 [] desk.old.busy.items desk.new.busy.items
        (record { net = net; out = record { taken = O.taken out.old; counts = O.counts out.old }; book = B.told book.old })
        (record { net = net; out = record { taken = O.taken out.new; counts = O.counts out.new }; book = B.told book.new }) }
    ensures own { desk.new.own ≡ desk.old.own }
    ensures found { Finds result desk.new.own desk.new.free.items }
{
    desk.tell_if_full(rt);
    'takes: for _ in rt.forever() {
        let returned = match house.back.next(rt, desk.free.is_empty()) {
            Ok(Some(returned)) => returned,
            Ok(None) => return Ok(()),
            Err(_refused) => return Err(Stop::Memory),
        };
        match take_back(alloc, returned, desk, out, book) {
            Ok(()) => {}
            Err(stop) => return Err(stop),
        }
    }
    unreachable!()
}

/// Takes one back where the hub is known to be closed: others may have found it closed too.
fn take_on<I: Source + Drop, K: Sink + Drop, O: Sink, B: Book<I, K>>(
    alloc: Global,
    returned: Returned<I, K, B::T>,
    desk: &mut Desk,
    out: &mut O,
    book: &mut B,
) -> Result<(), Stop>
    ensures rests { (size : ℕ) (net : NetCounts) → Rests size result desk.old.busy.items desk.new.busy.items
        (record { net = net; out = record { taken = O.taken out.old; counts = O.counts out.old }; book = B.told book.old })
        (record { net = net; out = record { taken = O.taken out.new; counts = O.counts out.new }; book = B.told book.new }) }
    ensures own { desk.new.own ≡ desk.old.own }
    ensures kept { (r : ReaderState) → Contains desk.old.free.items r → Contains desk.new.free.items r }
    ensures found { Finds result desk.new.own desk.new.free.items }
{
    match take_back(alloc, returned, desk, out, book) {
        Ok(()) => Ok(()),
        Err(Stop::Feed(_)) => Ok(()),
        Err(Stop::Net) => Err(Stop::Net),
        Err(Stop::Write) => Err(Stop::Write),
        Err(Stop::Memory) => Err(Stop::Memory),
    }
}

/// Waits until every worker has handed back, since the hub is closed for this end, as one of the server's readers found.
pub fn await_rest<
    W: Wait,
    I: Source + Wakes + Drop,
    K: Sink + Drop,
    O: Sink,
    G: Gate + Drop,
    B: Book<I, K>,
>(
    rt: &W,
    alloc: Global,
    house: &House<I, K, B::T, I::Bell, G>,
    end: Arc<FeedEnd, Global>,
    desk: &mut Desk,
    out: &mut O,
    book: &mut B,
) -> Stop
    ensures halts { (size : ℕ) (net : NetCounts) → MayBeTold (arc_value end) → LogHalts size result 0 [] desk.old.busy.items []
        (record { net = net; out = record { taken = O.taken out.old; counts = O.counts out.old }; book = B.told book.old })
        (record { net = net; out = record { taken = O.taken out.new; counts = O.counts out.new }; book = B.told book.new }) }
    ensures found { IsFoundClosed (arc_value end) desk.old.own desk.old.free.items → IsFound result desk.new.own desk.new.free.items }
{
    'takes: for _ in rt.forever() {
        if desk.is_idle() {
            return Stop::Feed(end);
        }
        let returned = match house.back.wait(rt) {
            Ok(returned) => returned,
            Err(_refused) => return Stop::Memory,
        };
        match take_on(alloc, returned, desk, out, book) {
            Ok(()) => {}
            Err(stop) => return stop,
        }
    }
    unreachable!()
}

/// Waits until every worker has handed back, or one found the hub closed.
fn await_first<
    W: Wait,
    I: Source + Wakes + Drop,
    K: Sink + Drop,
    O: Sink,
    G: Gate + Drop,
    B: Book<I, K>,
>(
    rt: &W,
    alloc: Global,
    house: &House<I, K, B::T, I::Bell, G>,
    desk: &mut Desk,
    out: &mut O,
    book: &mut B,
) -> Result<(), Stop>
    ensures goes { (size : ℕ) (net : NetCounts) → LogGoes size result 0 [] desk.old.busy.items desk.new.busy.items
        (record { net = net; out = record { taken = O.taken out.old; counts = O.counts out.old }; book = B.told book.old })
        (record { net = net; out = record { taken = O.taken out.new; counts = O.counts out.new }; book = B.told book.new }) }
    ensures idle { OnOk result (desk.new.busy.items ≡ []) }
    ensures found { Finds result desk.new.own desk.new.free.items }
{
    'takes: for _ in rt.forever() {
        if desk.is_idle() {
            return Ok(());
        }
        let returned = match house.back.wait(rt) {
            Ok(returned) => returned,
            Err(_refused) => return Err(Stop::Memory),
        };
        match take_back(alloc, returned, desk, out, book) {
            Ok(()) => {}
            Err(stop) => return Err(stop),
        }
    }
    unreachable!()
}

/// Waits until every worker has handed back. Where some found the hub closed, that is the stop; the others are waited for all the
/// same.
pub fn await_all<
    W: Wait,
    I: Source + Wakes + Drop,
    K: Sink + Drop,
    O: Sink,
    G: Gate + Drop,
    B: Book<I, K>,
>(
    rt: &W,
    alloc: Global,
    house: &House<I, K, B::T, I::Bell, G>,
    desk: &mut Desk,
    out: &mut O,
    book: &mut B,
) -> Result<(), Stop>
    ensures goes { (size : ℕ) (net : NetCounts) → LogGoes size result 0 [] desk.old.busy.items []
        (record { net = net; out = record { taken = O.taken out.old; counts = O.counts out.old }; book = B.told book.old })
        (record { net = net; out = record { taken = O.taken out.new; counts = O.counts out.new }; book = B.told book.new }) }
    ensures found { Finds result desk.new.own desk.new.free.items }
{
    match await_first(rt, alloc, house, desk, out, book) {
        Ok(()) => Ok(()),
        Err(Stop::Feed(end)) => Err(await_rest(rt, alloc, house, end, desk, out, book)),
        Err(Stop::Net) => Err(Stop::Net),
        Err(Stop::Write) => Err(Stop::Write),
        Err(Stop::Memory) => Err(Stop::Memory),
    }
}
