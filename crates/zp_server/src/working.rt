//! The worker of a connection.

ghost use Rattle.std.specs.Prelude.{◌≡◌, ◌<◌};
ghost use Rattle.zk_service.specs.declared.cause.Cause.TheVariants.{FeedClosed};

use crate::attached::Attached;
use crate::back::Returned;
use crate::gate::Gate;
use crate::house::House;
use crate::ready::Ready;
use crate::served::Served;
use ev_faults::tell_link;
use std::alloc::Global;
use std::sync::{Arc, Wait};
use std::time::Clock as SystemClock;
use zk_service::Cause;
use zp_conn::{Belled, Turns, serve_in_turn};
use zp_run::Trace;
use zp_turns::InTurn;
use zs_reaper::fault_of;
use zw_hub::{Feed, HubReader};
use zx_net::{Bell, Clock, Spawner, Wakes};
use zx_outside::{Sink, Source};
use zx_random::{HangsUp, LetsGo};

/// Serves a connection over this feed, and ends its stream and that of its link.
fn serve_over<
    W: Wait + Eprint + Copy + Drop,
    I: Source + HangsUp + Drop,
    O: Sink + LetsGo + Drop,
    T: Trace + Drop,
    C: Clock + Drop,
    F: Feed,
    U: Turns,
>(rt: &W, alloc: Global, ready: Ready<I, O, T, C>, feed: &mut F, turns: &mut U) -> Served<I, O, T>
    ensures { result.cause ≡ FeedClosed → 0 < F.closings feed.new }
{
    let Ready {
        number,
        fresh,
        source,
        sink,
        link,
        trace,
        clock,
    } = ready;
    let (mut source, mut sink) = (source, sink);
    let (mut link, mut clock) = (link, clock);
    let mut told = Attached::new(*rt, number, trace);
    let cause = serve_in_turn(
        rt,
        alloc,
        fresh,
        &mut link,
        feed,
        &mut source,
        &mut sink,
        &mut clock,
        &mut told,
        turns,
    );
    // The listener may come to this connection much later. The client is to know now, and the descriptors are wanted now.
    source.hang_up();
    sink.let_go();
    link.hang_up();
    Served {
        number,
        fresh,
        source,
        sink,
        link,
        trace: told.into_trace(),
        cause,
    }
}

/// The bell of this connection's source, where there is one.
fn bell_of<I: Source + Wakes + Drop, O: Sink + Drop, T: Trace + Drop, C: Clock + Drop>(
    ready: &mut Ready<I, O, T, C>,
) -> Option<Arc<I::Bell, Global>> {
    ready.source.bell()
}

/// Hangs a bell for this connection, where there is one to be had.
fn hung<
    W: Wait,
    I: Source + Wakes + Drop,
    O: Sink + Drop,
    T: Trace + Drop,
    C: Clock + Drop,
    G: Gate + Drop,
>(
    rt: &W,
    house: &House<I, O, T, I::Bell, G>,
    ready: &mut Ready<I, O, T, C>,
) -> Option<Arc<I::Bell, Global>> {
    let bell = bell_of(ready)?;
    let Ok(rung) = Arc::try_clone(&bell) else {
        return None;
    };
    match house.bells.add(rt, ready.number, rung) {
        Ok(()) => Some(bell),
        Err(_) => None,
    }
}

/// Serves a connection, and hands back its reader too. Where it has no bell, whoever waits looks again and again.
fn serve_by<
    W: Wait + Eprint + Copy + Drop,
    I: Source + HangsUp + Drop,
    O: Sink + LetsGo + Drop,
    T: Trace + Drop,
    C: Clock + Drop,
    B: Bell + Drop,
    U: Turns,
>(
    rt: &W,
    alloc: Global,
    ready: Ready<I, O, T, C>,
    reader: HubReader,
    bell: Option<Arc<B, Global>>,
    turns: &mut U,
) -> Returned<I, O, T> {
    let Some(bell) = bell else {
        let mut reader = reader;
        let served = serve_over(rt, alloc, ready, &mut reader, turns);
        return Returned { served, reader };
    };
    let mut feed = Belled::new(reader, bell);
    let served = serve_over(rt, alloc, ready, &mut feed, turns);
    let reader = feed.into_feed();
    Returned { served, reader }
}

/// Tells the operator of a link that failed.
fn tell_of<R: Eprint, I: Source + Drop, O: Sink + Drop, T: Trace + Drop>(
    rt: &R,
    served: &Served<I, O, T>,
) {
    if let Cause::LinkFault = served.cause {
        tell_link(
            rt,
            served.number,
            served.link.host(),
            fault_of(&served.link),
        );
    }
}

/// Serves a connection to its end, and hands back what it served.
fn work<
    W: Wait + SystemClock + Eprint + Copy + Drop,
    I: Source + HangsUp + Drop,
    O: Sink + LetsGo + Drop,
    T: Trace + Drop,
    C: Clock + Drop,
    G: Gate + Drop,
    B: Bell + Drop,
>(
    rt: &W,
    alloc: Global,
    house: &House<I, O, T, B, G>,
    ready: Ready<I, O, T, C>,
    reader: HubReader,
    bell: Option<Arc<B, Global>>,
    turns: InTurn<W>,
) {
    let number = ready.number;
    house.gate.pass(number);
    let mut turns = turns;
    let returned = serve_by(rt, alloc, ready, reader, bell, &mut turns);
    house.bells.remove(rt, number);
    tell_of(rt, &returned.served);
    house.back.put(rt, returned);
}

/// Has a connection served by a worker of its own, or in place where the job is handed back. Its bell hangs before it is served.
pub fn start_work<
    W: Wait + SystemClock + Eprint + Copy + Send + Drop + 'static,
    I: Source + Wakes + HangsUp + Send + Drop + 'static,
    O: Sink + LetsGo + Send + Drop + 'static,
    T: Trace + Send + Drop + 'static,
    C: Clock + Send + Drop + 'static,
    G: Gate + Send + Sync + Drop + 'static,
    P: Spawner,
>(
    rt: W,
    alloc: Global,
    spawner: &mut P,
    house: Arc<House<I, O, T, I::Bell, G>, Global>,
    ready: Ready<I, O, T, C>,
    reader: HubReader,
    turns: InTurn<W>,
) {
    let mut ready = ready;
    let bell = hung(&rt, &house, &mut ready);
    let job = move || {
        let (ready, reader, bell, turns) = (ready, reader, bell, turns);
        work(&rt, alloc, &house, ready, reader, bell, turns);
    };
    if let Err(job) = spawner.start(job) {
        job();
    }
}
