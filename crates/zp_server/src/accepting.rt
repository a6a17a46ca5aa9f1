//! The listener.

ghost use Rattle.std.specs.Prelude.{◌≡◌, ◌<◌, ◌+◌, ◌^◌, ◌≤ℤ◌, ◌∷◌, ◌++◌, [], length, pos, OnOk};
ghost use Rattle.ev_addresses.specs.Lists.{addresses_in};
ghost use Rattle.ev_call.specs.Addresses.{IsAddress};
ghost use Rattle.ev_call.specs.Calls.{calls_of};
ghost use Rattle.zx_net.specs.Nets.{IsFreshSink, IsFreshSource};
ghost use Rattle.zp_server.specs.Logs.{LogGoes, LogStops};
ghost use Rattle.zp_server.specs.Looking.{Finds, FindsOpenFor, FindsOpenTwice};

use crate::admitting::admit;
use crate::book::Book;
use crate::desk::{Desk, chosen};
use crate::ends::Stop;
use crate::fresh::fresh;
use crate::gate::Gate;
use crate::house::House;
use crate::lines::say_no_link;
use crate::ready::Ready;
use crate::turns::in_turn;
use crate::working::start_work;
use ev_faults::{Fault, tell_link};
use ev_link::{HttpLink, NoLink, link_to};
use std::alloc::Global;
use std::sync::{Arc, Wait};
use std::time::Clock as SystemClock;
use zp_core::Fresh;
use zx_base::Memory;
use zx_net::{Clock, Net, Spawner, Wakes};
use zx_outside::Sink;
use zx_random::{HangsUp, LetsGo, Random};

/// Has a client served over this link by a worker.
fn start_one<
    W: Wait + SystemClock + Eprint + Copy + Send + Drop + 'static,
    N: Net,
    P: Spawner,
    C: Clock + Send + Drop + 'static,
    G: Gate + Send + Sync + Drop + 'static,
    B: Book<N::In, N::Out>,
>(
    rt: &W,
    alloc: Global,
    house: &Arc<House<N::In, N::Out, B::T, <N::In as Wakes>::Bell, G>, Global>,
    number: u64,
    fresh: Fresh,
    ends: (N::In, N::Out),
    link: HttpLink<N::In, N::Out>,
    spawner: &mut P,
    clock: &C,
    desk: &mut Desk,
    book: &mut B,
) -> Result<(), Memory>
where
    N::In: Wakes + HangsUp,
    N::Out: LetsGo,
    requires real { pos 1 ≤ℤ fresh.id }
    requires source { IsFreshSource (N.In.given ends.0) (N.In.counts ends.0) (N.In.ended ends.0) (N.In.name ends.0) number }
    requires sink { IsFreshSink (N.Out.taken ends.1) (N.Out.counts ends.1) (N.Out.name ends.1) number }
    requires failures { link.failures ≡ 0 }
    requires asks { calls_of link.asks.items link.results.items ≡ [] }
    ensures busy { OnOk result (desk.new.busy.items ≡ desk.old.busy.items ++ number ∷ []) }
    ensures book { B.told book.new ≡ B.told book.old }
    ensures own { desk.new.own ≡ desk.old.own }
{
    let trace = match book.trace() {
        Ok(trace) => trace,
        Err(refused) => return Err(refused),
    };
    let reader = match desk.free.pop() {
        Some(reader) => reader,
        None => return Err(Memory),
    };
    let house = match Arc::try_clone(house) {
        Ok(house) => house,
        Err(_refused) => return Err(Memory),
    };
    let turns = match in_turn(*rt, alloc, &house.queues) {
        Ok(turns) => turns,
        Err(refused) => return Err(refused),
    };
    match desk.busy.push(number) {
        Ok(()) => {}
        Err(_refused) => return Err(Memory),
    }
    let ready = Ready::new(number, fresh, ends, link, trace, clock.another());
    start_work(*rt, alloc, spawner, house, ready, reader, turns);
    Ok(())
}

/// Serves one client that was accepted.
fn serve_one<
    W: Wait + SystemClock + Eprint + Copy + Send + Drop + 'static,
    N: Net,
    P: Spawner,
    C: Clock + Send + Drop + 'static,
    Q: Random,
    O: Sink,
    G: Gate + Send + Sync + Drop + 'static,
    B: Book<N::In, N::Out>,
>(
    rt: &W,
    alloc: Global,
    house: &Arc<House<N::In, N::Out, B::T, <N::In as Wakes>::Bell, G>, Global>,
    net: &mut N,
    endpoint: &str,
    number: u64,
    ends: (N::In, N::Out),
    spawner: &mut P,
    clock: &C,
    random: &mut Q,
    desk: &mut Desk,
    out: &mut O,
    book: &mut B,
) -> Result<(), Stop>
where
    N::In: Wakes + HangsUp,
    N::Out: LetsGo,
    requires address { IsAddress endpoint.now }
    requires source { IsFreshSource (N.In.given ends.0) (N.In.counts ends.0) (N.In.ended ends.0) (N.In.name ends.0) number }
    requires sink { IsFreshSink (N.Out.taken ends.1) (N.Out.counts ends.1) (N.Out.name ends.1) number }
    ensures goes { LogGoes (length (addresses_in endpoint.now)) result 0 (number ∷ []) desk.old.busy.items desk.new.busy.items
        (record { net = N.counts net.old; out = record { taken = O.taken out.old; counts = O.counts out.old }; book = B.told book.old })
        (record { net = N.counts net.new; out = record { taken = O.taken out.new; counts = O.counts out.new }; book = B.told book.new }) }
    ensures own { desk.new.own ≡ desk.old.own }
    ensures found { Finds result desk.new.own desk.new.free.items }
{
    desk.at = chosen(endpoint, desk.at, desk.is_broken);
    desk.is_broken = false;
    match link_to(alloc, net, endpoint, &mut desk.at) {
        Ok(link) => {
            let fresh = fresh(random);
            match start_one::<W, N, P, C, G, B>(
                rt, alloc, house, number, fresh, ends, link, spawner, clock, desk, book,
            ) {
                Ok(()) => Ok(()),
                Err(_refused) => Err(Stop::Memory),
            }
        }
        Err(NoLink::Dial) => {
            tell_link(rt, number, endpoint, Fault::Dial);
            say_no_link(alloc, number, out)
        }
        Err(NoLink::Memory) => Err(Stop::Memory),
    }
}

/// Accepts the next client after so many, and has it served.
fn accept_one<
    W: Wait + SystemClock + Eprint + Copy + Send + Drop + 'static,
    N: Net,
    P: Spawner,
    C: Clock + Send + Drop + 'static,
    Q: Random,
    O: Sink,
    G: Gate + Send + Sync + Drop + 'static,
    B: Book<N::In, N::Out>,
>(
    rt: &W,
    alloc: Global,
    house: &Arc<House<N::In, N::Out, B::T, <N::In as Wakes>::Bell, G>, Global>,
    net: &mut N,
    door: &mut N::Door,
    endpoint: &str,
    before: u64,
    spawner: &mut P,
    clock: &C,
    random: &mut Q,
    desk: &mut Desk,
    out: &mut O,
    book: &mut B,
) -> Result<(), Stop>
where
    N::In: Wakes + HangsUp,
    N::Out: LetsGo,
    requires address { IsAddress endpoint.now }
    requires accepted { (N.counts net.old).accepted ≡ before }
    requires few { before + 1 < 2 ^ 64 }
    ensures goes { LogGoes (length (addresses_in endpoint.now)) result 1 ((before + 1) ∷ []) desk.old.busy.items desk.new.busy.items
        (record { net = N.counts net.old; out = record { taken = O.taken out.old; counts = O.counts out.old }; book = B.told book.old })
        (record { net = N.counts net.new; out = record { taken = O.taken out.new; counts = O.counts out.new }; book = B.told book.new }) }
    ensures looked { OnOk result (FindsOpenTwice desk.old.own desk.new.own) }
    ensures found { Finds result desk.new.own desk.new.free.items }
{
    match admit(rt, alloc, house, net, door, desk, out, book) {
        Ok(ends) => serve_one(
            rt,
            alloc,
            house,
            net,
            endpoint,
            before + 1,
            ends,
            spawner,
            clock,
            random,
            desk,
            out,
            book,
        ),
        Err(stop) => Err(stop),
    }
}

/// Accepts as many clients as the limit allows, and has each served. The hub is looked at before and after each accept.
pub fn accept_all<
    W: Wait + SystemClock + Eprint + Copy + Send + Drop + 'static,
    N: Net,
    P: Spawner,
    C: Clock + Send + Drop + 'static,
    Q: Random,
    O: Sink,
    G: Gate + Send + Sync + Drop + 'static,
    B: Book<N::In, N::Out>,
>(
    rt: &W,
    alloc: Global,
    house: &Arc<House<N::In, N::Out, B::T, <N::In as Wakes>::Bell, G>, Global>,
    net: &mut N,
    door: &mut N::Door,
    endpoint: &str,
    limit: u64,
    spawner: &mut P,
    clock: &C,
    random: &mut Q,
    desk: &mut Desk,
    out: &mut O,
    book: &mut B,
) -> Result<(), Stop>
where
    N::In: Wakes + HangsUp,
    N::Out: LetsGo,
    requires address { IsAddress endpoint.now }
    requires fresh { (N.counts net.old).accepted ≡ 0 }
    requires idle { desk.old.busy.items ≡ [] }
    ensures stops { LogStops (length (addresses_in endpoint.now)) result limit desk.new.busy.items
        (record { net = N.counts net.old; out = record { taken = O.taken out.old; counts = O.counts out.old }; book = B.told book.old })
        (record { net = N.counts net.new; out = record { taken = O.taken out.new; counts = O.counts out.new }; book = B.told book.new }) }
    ensures looked { OnOk result (FindsOpenFor limit desk.old.own desk.new.own) }
    ensures found { Finds result desk.new.own desk.new.free.items }
{
    'clients: for before in 0..limit {
        match accept_one(
            rt, alloc, house, net, door, endpoint, before, spawner, clock, random, desk, out, book,
        ) {
            Ok(()) => {}
            Err(stop) => return Err(stop),
        }
    }
    Ok(())
}
