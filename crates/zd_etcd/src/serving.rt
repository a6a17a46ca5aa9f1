//! The server.

ghost use Rattle.std.specs.Prelude.{◌≡◌};
ghost use Rattle.zd_etcd.specs.Serving.{EtcdEnds, Faults, EtcdFinishes, EtcdAccepts, EtcdStops, counts_at_end};

use crate::writing::listening;
use ev_gateway::gateway;
use ev_shared::SharedStore;
use ev_store::Store;
use std::alloc::Global;
use std::sync::{Arc, Wait};
use std::time::Clock as SystemClock;
use zx_base::Memory;
use zx_net::{Clock, Net, Spawner};
use zx_outside::{Sink, write_all};

/// How a server ended.
#[derive(Clone, Copy, PartialEq, Eq)]
pub enum EtcdEnd {
    /// As many connections as the limit allows were accepted, and have ended.
    Done,
    /// The address could not be listened on, or the door had a fault.
    Net,
    /// The sink had a fault.
    WriteFault,
    /// The allocator refused memory.
    Memory,
}

/// Why no further connection is accepted.
#[derive(Clone, Copy, PartialEq, Eq)]
pub enum Stop {
    /// The door had a fault.
    Door,
    /// The allocator refused memory.
    Memory,
}

/// So many messages are answered on one connection.
const MAX_MESSAGES: u64 = 4_294_967_295;

/// What is written where the net has a fault.
const NET_FAULT: &[u8] = b"net fault\n";

/// A new store to share.
fn new_store(alloc: Global) -> Result<Arc<SharedStore, Global>, Memory> {
    let store = SharedStore::new(alloc, Store::new(alloc)?);
    Ok(Arc::new(alloc, store)?)
}

/// Has a connection served by a job of its own, or in place where the job is handed back.
fn serve_one<
    W: Wait + SystemClock + Copy + Send + Drop + 'static,
    N: Net,
    P: Spawner,
    C: Clock + Send + Drop + 'static,
>(
    rt: W,
    alloc: Global,
    store: Arc<SharedStore, Global>,
    ends: (N::In, N::Out),
    spawner: &mut P,
    clock: C,
) {
    store.enter(&rt);
    let job = move || {
        let (mut source, mut sink) = ends;
        let mut clock = clock;
        let _end = gateway(
            &rt,
            alloc,
            &store,
            &mut source,
            &mut sink,
            &mut clock,
            MAX_MESSAGES,
        );
        store.leave(&rt);
    };
    if let Err(job) = spawner.start(job) {
        job();
    }
}

/// Accepts the next connection and has it served.
#[tactic(auto, using(crate::proofs::Counting::stopped_first))]
fn accept_one<
    W: Wait + SystemClock + Copy + Send + Drop + 'static,
    N: Net,
    P: Spawner,
    C: Clock + Send + Drop + 'static,
>(
    rt: W,
    alloc: Global,
    store: &Arc<SharedStore, Global>,
    net: &mut N,
    door: &mut N::Door,
    spawner: &mut P,
    clock: &C,
) -> Result<(), Stop>
    ensures { EtcdStops result 1 (N.counts net.old) (N.counts net.new) }
{
    let Ok(store) = Arc::try_clone(store) else {
        return Err(Stop::Memory);
    };
    match net.accept(door) {
        Ok(ends) => {
            serve_one::<W, N, P, C>(rt, alloc, store, ends, spawner, clock.another());
            Ok(())
        }
        Err(_) => Err(Stop::Door),
    }
}

/// Accepts as many connections as the limit allows.
#[tactic(auto, using(crate::proofs::Counting::accepts_none, crate::proofs::Counting::accepts_one, crate::proofs::Counting::stopped_later))]
fn accept_all<
    W: Wait + SystemClock + Copy + Send + Drop + 'static,
    N: Net,
    P: Spawner,
    C: Clock + Send + Drop + 'static,
>(
    rt: W,
    alloc: Global,
    store: &Arc<SharedStore, Global>,
    limit: u64,
    net: &mut N,
    door: &mut N::Door,
    spawner: &mut P,
    clock: &C,
) -> Result<(), Stop>
    ensures { EtcdStops result limit (N.counts net.old) (N.counts net.new) }
{
    'accepts: for accepted in 0..limit {
        if let Err(stop) = accept_one(rt, alloc, store, net, door, spawner, clock) {
            return Err(stop);
        }
    }
    Ok(())
}

/// Says that the net had a fault.
fn net_fault<O: Sink>(out: &mut O) -> EtcdEnd
    ensures told { Faults result (O.taken out.old) (O.taken out.new) }
    ensures counts { O.counts out.new ≡ counts_at_end result (O.counts out.old) }
{
    if write_all(out, NET_FAULT) {
        EtcdEnd::Net
    } else {
        EtcdEnd::WriteFault
    }
}

/// Ends a server that accepts no further connection.
fn finish<W: Wait, O: Sink>(
    rt: &W,
    store: &SharedStore,
    accepted: Result<(), Stop>,
    out: &mut O,
) -> EtcdEnd
    ensures told { EtcdFinishes accepted result (O.taken out.old) (O.taken out.new) }
    ensures counts { O.counts out.new ≡ counts_at_end result (O.counts out.old) }
{
    match accepted {
        Ok(()) => {
            store.wait_for_watches(rt);
            store.close(rt);
            store.wait_for_all(rt);
            EtcdEnd::Done
        }
        Err(Stop::Door) => {
            store.close(rt);
            net_fault(out)
        }
        Err(Stop::Memory) => {
            store.close(rt);
            EtcdEnd::Memory
        }
    }
}

/// Serves at a door that listens.
#[tactic(auto, using(crate::proofs::Ending::served))]
fn serve<
    W: Wait + SystemClock + Copy + Send + Drop + 'static,
    O: Sink,
    N: Net,
    P: Spawner,
    C: Clock + Send + Drop + 'static,
>(
    rt: &W,
    alloc: Global,
    store: Arc<SharedStore, Global>,
    limit: u64,
    out: &mut O,
    net: &mut N,
    door: N::Door,
    spawner: &mut P,
    clock: &C,
) -> EtcdEnd
    ensures told { EtcdAccepts result limit (N.counts net.old) (N.counts net.new) (O.taken out.old) (O.taken out.new) }
    ensures counts { O.counts out.new ≡ counts_at_end result (O.counts out.old) }
{
    let mut door = door;
    let accepted = accept_all(*rt, alloc, &store, limit, net, &mut door, spawner, clock);
    // Nobody else waits for a connection.
    drop(door);
    finish(rt, &store, accepted, out)
}

/// Serves a new etcd in memory at `listen`, `HOST:PORT`, for `limit` connections. Once it listens it writes `listening`, a blank,
/// `listen` and a line feed. If the net has a fault, it writes `net fault` and a line feed.
#[tactic(auto, using(crate::proofs::Ending::listened, crate::proofs::Ending::unbound, crate::proofs::Ending::unwritten, crate::proofs::Ending::refused))]
pub fn etcd<
    W: Wait + SystemClock + Copy + Send + Drop + 'static,
    O: Sink,
    N: Net,
    P: Spawner,
    C: Clock + Send + Drop + 'static,
>(
    rt: &W,
    alloc: Global,
    listen: &str,
    limit: u64,
    out: &mut O,
    net: &mut N,
    spawner: &mut P,
    clock: &C,
) -> EtcdEnd
    // What was accepted and written, by the end.
    ensures told { EtcdEnds result listen.now limit (N.counts net.old) (N.counts net.new) (O.taken out.old) (O.taken out.new) }
    // A write fault is one fault of the sink; with any other end it had none.
    ensures counts { O.counts out.new ≡ counts_at_end result (O.counts out.old) }
{
    let Ok(text) = listening(alloc, listen) else {
        return EtcdEnd::Memory;
    };
    let Ok(store) = new_store(alloc) else {
        return EtcdEnd::Memory;
    };
    let Ok(door) = net.bind(listen) else {
        return net_fault(out);
    };
    if !write_all(out, text.as_slice()) {
        return EtcdEnd::WriteFault;
    }
    serve(rt, alloc, store, limit, out, net, door, spawner, clock)
}
