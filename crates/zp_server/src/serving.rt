//! The server.

ghost use Rattle.std.specs.Prelude.{◌≡◌, ℕ, [], length, IfOk, Err};
ghost use Rattle.ev_addresses.specs.Lists.{addresses_in};
ghost use Rattle.ev_call.specs.Addresses.{IsAddress};
ghost use Rattle.zp_server.specs.Beginning.{IsPlace};
ghost use Rattle.zp_server.specs.Ends.{Clients, ServeEnds, ServeFinishes, ServesFrom};
ghost use Rattle.zp_server.specs.Logs.{LogStops};
ghost use Rattle.zp_server.specs.Looking.{Finds, IsFound};
ghost use Rattle.zp_server.specs.Telling.{Seen, Starts};
ghost use Rattle.zx_net.specs.Nets.{NetCounts};

use crate::accepting::accept_all;
use crate::begin::begin;
use crate::bells::Bells;
use crate::book::Book;
use crate::desk::Desk;
use crate::ends::{ServeEnd, Stop};
use crate::explaining::{explain, tell_schemes};
use crate::gate::Gate;
use crate::house::House;
use crate::lines::{NET_FAULT, feed, listening, write_all};
use crate::starting::{Home, Opened, begin_at, start_reapers, start_watch};
use crate::taking::{await_all, await_rest};
use ev_call::Cluster;
use ev_faults::{Fault, tell};
use std::alloc::Global;
use std::sync::{Arc, Wait};
use std::time::Clock as SystemClock;
use zp_turns::Queues;
use zw_follow::Place;
use zw_hub::{FeedEnd, Keeper, hub};
use zx_base::Memory;
use zx_net::{Clock, Net, NetFault, Spawner, Wakes};
use zx_outside::{Sink, Source};
use zx_random::{HangsUp, LetsGo, Random, SharedStop};

/// How many clients are served at once.
const MAX_CLIENTS: usize = 256;

/// Says that the net had a fault.
#[tactic(auto, unfolding(crate::specs::Lines::fault_text))]
fn net_fault<O: Sink>(out: &mut O) -> ServeEnd
    ensures { ServeFinishes (Err Stop.Net) result (record { taken = O.taken out.old; counts = O.counts out.old }) (record { taken = O.taken out.new; counts = O.counts out.new }) }
{
    if write_all(out, NET_FAULT) {
        ServeEnd::Net
    } else {
        ServeEnd::WriteFault
    }
}

/// Says why the hub was closed.
fn feed_end<O: Sink>(alloc: Global, end: Arc<FeedEnd, Global>, out: &mut O) -> ServeEnd
    ensures { ServeFinishes (Err (Stop.Feed end)) result (record { taken = O.taken out.old; counts = O.counts out.old }) (record { taken = O.taken out.new; counts = O.counts out.new }) }
{
    let text = match feed(alloc, &end) {
        Ok(text) => text,
        Err(_refused) => return ServeEnd::Memory,
    };
    if write_all(out, text.as_slice()) {
        ServeEnd::Feed(end)
    } else {
        ServeEnd::WriteFault
    }
}

/// Ends a server that accepts no further client.
fn finish<O: Sink>(alloc: Global, stopped: Result<(), Stop>, out: &mut O) -> ServeEnd
    ensures { ServeFinishes stopped result (record { taken = O.taken out.old; counts = O.counts out.old }) (record { taken = O.taken out.new; counts = O.counts out.new }) }
{
    match stopped {
        Ok(()) => ServeEnd::Done,
        Err(Stop::Net) => net_fault(out),
        Err(Stop::Write) => ServeEnd::WriteFault,
        Err(Stop::Memory) => ServeEnd::Memory,
        Err(Stop::Feed(end)) => feed_end(alloc, end, out),
    }
}

/// Tells the operator why the first ask came to nothing.
fn tell_first<R: Eprint, N: Net + Drop>(rt: &R, net: &N, endpoint: &str, stop: &Stop) {
    match stop {
        Stop::Memory => tell(rt, "first ask of", endpoint, Fault::Memory),
        Stop::Net | Stop::Write | Stop::Feed(_) => explain(rt, net.another(), endpoint),
    }
}

/// Tells the operator if a worker's thread could not be started.
fn tell_unstarted<R: Eprint>(rt: &R, what: &str, endpoint: &str, stop: &Stop) {
    match stop {
        Stop::Net => tell(rt, what, endpoint, Fault::Thread),
        Stop::Memory | Stop::Write | Stop::Feed(_) => {}
    }
}

/// Tells the operator if the listening socket broke.
fn tell_broken<R: Eprint>(rt: &R, listen: &str, stopped: &Result<(), Stop>) {
    match stopped {
        Err(Stop::Net) => tell(rt, "accept at", listen, Fault::Listen(NetFault::Failed)),
        Ok(()) | Err(Stop::Memory | Stop::Write | Stop::Feed(_)) => {}
    }
}

/// Why no further client is accepted. Where the hub was found closed, every worker is waited for.
fn waited_for<
    W: Wait,
    I: Source + Wakes + Drop,
    K: Sink + Drop,
    O: Sink,
    G: Gate + Drop,
    B: Book<I, K>,
>(
    rt: &W,
    alloc: Global,
    house: &House<I, K, B::T, I::Bell, G>,
    stop: Stop,
    desk: &mut Desk,
    out: &mut O,
    book: &mut B,
) -> Stop
    ensures stops { (size : ℕ) (net : NetCounts) (limit : ℕ) (first : Seen) → LogStops size (Err stop) limit desk.old.busy.items first
        (record { net = net; out = record { taken = O.taken out.old; counts = O.counts out.old }; book = B.told book.old })
        → LogStops size (Err result) limit [] first
        (record { net = net; out = record { taken = O.taken out.new; counts = O.counts out.new }; book = B.told book.new }) }
    ensures found { IsFound stop desk.old.own desk.old.free.items → IsFound result desk.new.own desk.new.free.items }
{
    match stop {
        Stop::Feed(end) => await_rest(rt, alloc, house, end, desk, out, book),
        Stop::Net => Stop::Net,
        Stop::Write => Stop::Write,
        Stop::Memory => Stop::Memory,
    }
}

/// Accepts clients at a door and serves them, until the limit or a stop. Then nobody waits for this server any more.
fn serve_at<
    W: Wait + SystemClock + Eprint + Copy + Send + Drop + 'static,
    N: Net + Send + Drop + 'static,
    P: Spawner,
    C: Clock + Send + Drop + 'static,
    Q: Random,
    O: Sink,
    G: Gate + Send + Sync + Drop + 'static,
    B: Book<N::In, N::Out>,
>(
    rt: &W,
    alloc: Global,
    house: &Arc<Home<N, B, G>, Global>,
    net: &mut N,
    door: N::Door,
    endpoint: &str,
    limit: u64,
    spawner: &mut P,
    clock: &C,
    random: &mut Q,
    desk: &mut Desk,
    out: &mut O,
    book: &mut B,
) -> Result<(), Stop>
where
    N::In: Wakes + HangsUp,
    N::Out: LetsGo,
    requires address { IsAddress endpoint.now }
    requires fresh { (N.counts net.old).accepted ≡ 0 }
    requires idle { desk.old.busy.items ≡ [] }
    ensures found { Finds result desk.new.own desk.new.free.items }
    ensures stops { LogStops (length (addresses_in endpoint.now)) result limit []
        (record { net = N.counts net.old; out = record { taken = O.taken out.old; counts = O.counts out.old }; book = B.told book.old })
        (record { net = N.counts net.new; out = record { taken = O.taken out.new; counts = O.counts out.new }; book = B.told book.new }) }
{
    let mut door = door;
    let accepted = accept_all(
        rt, alloc, house, net, &mut door, endpoint, limit, spawner, clock, random, desk, out, book,
    );
    drop(door);
    match accepted {
        Ok(()) => await_all(rt, alloc, house, desk, out, book),
        Err(stop) => Err(waited_for(rt, alloc, house, stop, desk, out, book)),
    }
}

/// Listens, accepts clients and serves them, until the limit or a stop.
fn serve_clients<
    W: Wait + SystemClock + Eprint + Copy + Send + Drop + 'static,
    N: Net + Send + Drop + 'static,
    P: Spawner,
    C: Clock + Send + Drop + 'static,
    Q: Random,
    O: Sink,
    G: Gate + Send + Sync + Drop + 'static,
    B: Book<N::In, N::Out>,
>(
    rt: &W,
    alloc: Global,
    house: &Arc<Home<N, B, G>, Global>,
    net: &mut N,
    listen: &str,
    endpoint: &str,
    limit: u64,
    spawner: &mut P,
    clock: &C,
    random: &mut Q,
    desk: &mut Desk,
    out: &mut O,
    book: &mut B,
) -> Result<(), Stop>
where
    N::In: Wakes + HangsUp,
    N::Out: LetsGo,
    requires address { IsAddress endpoint.now }
    requires fresh { (N.counts net.old).accepted ≡ 0 }
    requires idle { desk.old.busy.items ≡ [] }
    // Where the updates could not be followed, one of the server's readers found the list closed by that end.
    ensures found { Finds result desk.new.own desk.new.free.items }
    ensures clients { Clients (length (addresses_in endpoint.now)) result listen.now limit
        (record { net = N.counts net.old; out = record { taken = O.taken out.old; counts = O.counts out.old }; book = B.told book.old })
        (record { net = N.counts net.new; out = record { taken = O.taken out.new; counts = O.counts out.new }; book = B.told book.new }) }
{
    let text = match listening(alloc, listen) {
        Ok(text) => text,
        Err(_refused) => return Err(Stop::Memory),
    };
    let door = match net.bind(listen) {
        Ok(door) => door,
        Err(why) => {
            tell(rt, "listen at", listen, Fault::Listen(why));
            return Err(Stop::Net);
        }
    };
    if !write_all(out, text.as_slice()) {
        return Err(Stop::Write);
    }
    let stopped = serve_at(
        rt, alloc, house, net, door, endpoint, limit, spawner, clock, random, desk, out, book,
    );
    tell_broken(rt, listen, &stopped);
    stopped
}

/// A hub whose next entry is that after this update, and a desk for its readers at which nobody is served. For the first client the
/// endpoint with this number is dialled first.
fn open<R: Wait + Copy + Drop>(
    rt: R,
    alloc: Global,
    place: Place,
    at: usize,
) -> Result<(Opened<R>, Desk, Keeper<R>), Memory>
    requires { IsPlace place }
    ensures { IfOk result (λ made. made.1.busy.items ≡ []) }
{
    let (list, readers, keeper) = hub(rt, alloc, place.number, MAX_CLIENTS + 1)?;
    let mut free = readers;
    let busy = Vec::with_capacity(alloc, MAX_CLIENTS)?;
    match free.pop() {
        Some(own) => {
            let desk = Desk {
                own,
                free,
                busy,
                is_full: false,
                at,
                is_broken: false,
            };
            Ok((begin_at(list, place), desk, keeper))
        }
        None => Err(Memory),
    }
}

/// What the workers share.
fn house_of<N: Net, G: Gate + Drop, B: Book<N::In, N::Out>>(
    alloc: Global,
    gate: G,
) -> Result<Arc<Home<N, B, G>, Global>, Memory>
where
    N::In: Wakes,
{
    let house = House::new(alloc, gate, MAX_CLIENTS)?;
    match Arc::new(alloc, house) {
        Ok(house) => Ok(house),
        Err(_refused) => Err(Memory),
    }
}

/// Starts the workers that serve no client. If a thread could not be started, the operator is told whose.
fn start_workers<
    W: Wait + SystemClock + Eprint + Copy + Send + Drop + 'static,
    N: Net + Send + Drop + 'static,
    P: Spawner,
    Q: Random,
>(
    rt: &W,
    alloc: Global,
    bells: &Arc<Bells<<N::In as Wakes>::Bell>, Global>,
    queues: &Arc<Queues, Global>,
    net: &N,
    endpoint: &str,
    at: usize,
    opened: Opened<W>,
    listen: &str,
    stop: &SharedStop,
    random: &mut Q,
    spawner: &mut P,
) -> Result<(), Stop>
where
    N::In: Wakes,
    N::Door: Send,
    requires { IsAddress endpoint.now }
    ensures { Starts result (P.refusals spawner.old) (P.refusals spawner.new) }
{
    match start_watch(
        *rt, alloc, bells, net, endpoint, opened, listen, stop, spawner,
    ) {
        Ok(()) => {}
        Err(refused) => {
            tell_unstarted(rt, "watch of", endpoint, &refused);
            return Err(refused);
        }
    }
    match start_reapers(*rt, alloc, queues, net, endpoint, at, random, stop, spawner) {
        Ok(()) => Ok(()),
        Err(refused) => {
            tell_unstarted(rt, "reaper at", endpoint, &refused);
            Err(refused)
        }
    }
}

/// Starts the workers that serve no client, and serves.
fn serve_from<
    W: Wait + SystemClock + Eprint + Copy + Send + Drop + 'static,
    N: Net + Send + Drop + 'static,
    P: Spawner,
    C: Clock + Send + Drop + 'static,
    Q: Random,
    O: Sink,
    G: Gate + Send + Sync + Drop + 'static,
    B: Book<N::In, N::Out>,
>(
    rt: &W,
    alloc: Global,
    place: Place,
    at: usize,
    stop: &SharedStop,
    net: &mut N,
    listen: &str,
    endpoint: &str,
    limit: u64,
    spawner: &mut P,
    clock: &C,
    random: &mut Q,
    gate: G,
    out: &mut O,
    book: &mut B,
) -> Result<(), Stop>
where
    N::In: Wakes + HangsUp,
    N::Out: LetsGo,
    N::Door: Send,
    requires address { IsAddress endpoint.now }
    requires place { IsPlace place }
    requires fresh { (N.counts net.old).accepted ≡ 0 }
    ensures { ServesFrom (length (addresses_in endpoint.now)) result listen.now limit (P.refusals spawner.old) (P.refusals spawner.new)
        (record { net = N.counts net.old; out = record { taken = O.taken out.old; counts = O.counts out.old }; book = B.told book.old })
        (record { net = N.counts net.new; out = record { taken = O.taken out.new; counts = O.counts out.new }; book = B.told book.new }) }
{
    let house = match house_of::<N, G, B>(alloc, gate) {
        Ok(house) => house,
        Err(_refused) => return Err(Stop::Memory),
    };
    let (list, mut desk, keeper) = match open(*rt, alloc, place, at) {
        Ok(made) => made,
        Err(_refused) => return Err(Stop::Memory),
    };
    match start_workers(
        rt,
        alloc,
        &house.bells,
        &house.queues,
        net,
        endpoint,
        at,
        list,
        listen,
        stop,
        random,
        spawner,
    ) {
        Ok(()) => {}
        Err(refused) => return Err(refused),
    }
    let stopped = serve_clients(
        rt, alloc, &house, net, listen, endpoint, limit, spawner, clock, random, &mut desk, out,
        book,
    );
    // The readers read what it keeps, also once the watch worker has ended.
    drop(keeper);
    stopped
}

/// Serves ZooKeeper clients at `listen`, `HOST:PORT`, until `limit` clients were accepted and have ended, from the etcd cluster whose
/// members have their JSON gateways at `endpoint`: the first five addresses in it that are not empty, with commas between them, each
/// `HOST:PORT`; `localhost` where there is none. `endpoint` is one or more bytes of visible ASCII, since each request to etcd names its
/// address as its host; [`is_address`](crate::is_address) tells. For each client the addresses are dialled in turn until one dial
/// succeeds: from the one on that answered the first ask, or was dialled last, and after a link that failed from the next one on.
/// The net has accepted no connection before, since it names the ends of a connection by how many it has accepted, and the lines count
/// connections from 1. The ends:
///
/// - `Done`: each of the connections 1 to `limit` has one line, and each that had a worker one [`Served`](crate::Served) in the
///   book;
/// - `Net`: a first ask failed, a worker could not be started, the address could not be listened on, or the door had a
///   fault. `net fault` is written after the lines so far;
/// - `Feed`: the hub was found closed. Each connection so far has its line, and `feed` with the cause is written after them. Where
///   it was found closed right after an accept, whom that let in is dropped, and has no number and no line;
/// - `WriteFault`: the sink had a fault, and took a front of what was to be written next. Where that is a line of a connection, it is
///   one that has none yet;
/// - `Memory`: memory was refused, here or to the watch worker. The lines so far are written, and perhaps that of one connection more.
pub fn serve<
    W: Wait + SystemClock + Eprint + Copy + Send + Drop + 'static,
    N: Net + Send + Drop + 'static,
    L: Cluster,
    P: Spawner,
    C: Clock + Send + Drop + 'static,
    Q: Random,
    O: Sink,
    G: Gate + Send + Sync + Drop + 'static,
    B: Book<N::In, N::Out>,
>(
    rt: &W,
    alloc: Global,
    net: &mut N,
    cluster: &mut L,
    spawner: &mut P,
    clock: &mut C,
    random: &mut Q,
    out: &mut O,
    gate: G,
    book: &mut B,
    listen: &str,
    endpoint: &str,
    limit: u64,
) -> ServeEnd
where
    N::In: Wakes + HangsUp,
    N::Out: LetsGo,
    N::Door: Send,
    requires address { IsAddress endpoint.now }
    requires fresh { (N.counts net.old).accepted ≡ 0 }
    // What was accepted, written and given to the book, by the end.
    ensures { ServeEnds (length (addresses_in endpoint.now)) result listen.now limit (L.failures cluster.old) (L.failures cluster.new) (P.refusals spawner.old) (P.refusals spawner.new)
        (record { net = N.counts net.old; out = record { taken = O.taken out.old; counts = O.counts out.old }; book = B.told book.old })
        (record { net = N.counts net.new; out = record { taken = O.taken out.new; counts = O.counts out.new }; book = B.told book.new }) }
{
    let place = match begin(alloc, cluster, clock.now(), endpoint) {
        Ok(place) => place,
        Err(stop) => {
            tell_first(rt, &*net, endpoint, &stop);
            return finish(alloc, Err(stop), out);
        }
    };
    tell_schemes(rt, endpoint);
    // The look of `begin` may have gone on to an endpoint that answers.
    let at = cluster.at() as usize;
    let stop = match SharedStop::new(alloc) {
        Ok(stop) => stop,
        Err(_refused) => return ServeEnd::Memory,
    };
    let stopped = serve_from(
        rt, alloc, place, at, &stop, net, listen, endpoint, limit, spawner, clock, random, gate,
        out, book,
    );
    stop.set();
    finish(alloc, stopped, out)
}
