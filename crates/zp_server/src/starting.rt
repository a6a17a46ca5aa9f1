//! Starts the workers that serve no client.

ghost use Rattle.std.specs.Prelude.{◌≡◌, string_bytes, IfOk};
ghost use Rattle.ev_call.specs.Addresses.{IsAddress};
ghost use Rattle.zw_follow.specs.Publishing.{IsPlaced};
ghost use Rattle.zw_hub.specs.Lists.{empty};
ghost use Rattle.zp_server.specs.Beginning.{IsPlace};
ghost use Rattle.zp_server.specs.Telling.{Starts};

use crate::bells::Bells;
use crate::book::Book;
use crate::ends::Stop;
use crate::gate::Gate;
use crate::house::House;
use crate::turns::in_turn;
use std::alloc::Global;
use std::sync::{Arc, Wait};
use std::time::Clock as SystemClock;
use zp_turns::Queues;
use zs_reaper::{REAPERS, reap};
use zw_follow::{Place, follow_and_ring};
use zw_hub::Hub;
use zx_base::Memory;
use zx_net::{Net, Spawner, Wakes};
use zx_random::{Random, SharedStop};

/// What the workers share, for a net and a book.
pub type Home<N, B, G> = House<
    <N as Net>::In,
    <N as Net>::Out,
    <B as Book<<N as Net>::In, <N as Net>::Out>>::T,
    <<N as Net>::In as Wakes>::Bell,
    G,
>;

/// A new hub, and the place where it begins.
#[derive(Drop)]
pub struct Opened<R: Wait + Drop> {
    pub list: Hub<R>,
    pub place: Place,
    pub ghost placed: { IsPlaced list.list place },
}

/// A hub that nothing was published at, and the place where it begins.
pub fn begin_at<R: Wait + Drop>(list: Hub<R>, place: Place) -> Opened<R>
    requires new { list.list ≡ empty place.number }
    requires at { IsPlace place }
{
    Opened { list, place }
}

/// Copies of two addresses, for a job of its own.
fn copies_of(alloc: Global, endpoint: &str, listen: &str) -> Result<(String, String), Memory>
    ensures { IfOk result (λ copies. (string_bytes copies.0 ≡ endpoint.now) × (string_bytes copies.1 ≡ listen.now)) }
{
    let endpoint = String::from_str(alloc, endpoint)?;
    let listen = String::from_str(alloc, listen)?;
    Ok((endpoint, listen))
}

/// Starts the watch worker. Where it cannot go on, it dials the proxy's own address, so that the listener looks at the hub.
pub fn start_watch<
    W: Wait + Eprint + Copy + Send + Drop + 'static,
    N: Net + Send + Drop + 'static,
    P: Spawner,
>(
    rt: W,
    alloc: Global,
    bells: &Arc<Bells<<N::In as Wakes>::Bell>, Global>,
    net: &N,
    endpoint: &str,
    opened: Opened<W>,
    listen: &str,
    stop: &SharedStop,
    spawner: &mut P,
) -> Result<(), Stop>
where
    N::In: Wakes,
    N::Door: Send,
    ensures { Starts result (P.refusals spawner.old) (P.refusals spawner.new) }
{
    let (endpoint, listen) = match copies_of(alloc, endpoint, listen) {
        Ok(copies) => copies,
        Err(_refused) => return Err(Stop::Memory),
    };
    let stop = match stop.another() {
        Ok(stop) => stop,
        Err(_refused) => return Err(Stop::Memory),
    };
    let bells = match Arc::try_clone(bells) {
        Ok(bells) => bells,
        Err(_refused) => return Err(Stop::Memory),
    };
    let net = net.another();
    // A job with a clause of its own is proved for whatever may be sent, as a function is.
    let job = move ||
        requires { Unit {0} }
    {
        let (mut net, opened, mut stop) = (net, opened, stop);
        let Opened { list, place } = opened;
        let mut list = list;
        let ended = follow_and_ring(
            &rt,
            alloc,
            &mut net,
            endpoint.as_str(),
            place,
            &mut list,
            &mut stop,
            &*bells,
        );
        if ended.is_some() {
            let _woken = net.dial(listen.as_str());
        }
    };
    match spawner.start(job) {
        Ok(()) => Ok(()),
        Err(_job) => Err(Stop::Net),
    }
}

/// Starts a reaper worker, whose word is a random one.
fn start_reaper<
    W: Wait + SystemClock + Eprint + Copy + Send + Drop + 'static,
    N: Net + Send + Drop + 'static,
    P: Spawner,
>(
    rt: W,
    alloc: Global,
    queues: &Arc<Queues, Global>,
    net: &N,
    endpoint: &str,
    at: usize,
    word: u64,
    stop: &SharedStop,
    spawner: &mut P,
) -> Result<(), Stop>
where
    N::Door: Send,
    requires { IsAddress endpoint.now }
    ensures { Starts result (P.refusals spawner.old) (P.refusals spawner.new) }
{
    let endpoint = match String::from_str(alloc, endpoint) {
        Ok(endpoint) => endpoint,
        Err(_refused) => return Err(Stop::Memory),
    };
    let stop = match stop.another() {
        Ok(stop) => stop,
        Err(_refused) => return Err(Stop::Memory),
    };
    let turns = match in_turn(rt, alloc, queues) {
        Ok(turns) => turns,
        Err(_refused) => return Err(Stop::Memory),
    };
    let net = net.another();
    let job = move ||
        requires { IsAddress (string_bytes endpoint) }
    {
        let (mut net, mut stop, mut turns) = (net, stop, turns);
        reap(
            &rt,
            alloc,
            &mut net,
            endpoint.as_str(),
            at,
            word,
            &mut stop,
            &mut turns,
        );
    };
    match spawner.start(job) {
        Ok(()) => Ok(()),
        Err(_job) => Err(Stop::Net),
    }
}

/// Starts the reaper workers, each with a random word of its own. They dial the address with this number first.
pub fn start_reapers<
    W: Wait + SystemClock + Eprint + Copy + Send + Drop + 'static,
    N: Net + Send + Drop + 'static,
    P: Spawner,
    Q: Random,
>(
    rt: W,
    alloc: Global,
    queues: &Arc<Queues, Global>,
    net: &N,
    endpoint: &str,
    at: usize,
    random: &mut Q,
    stop: &SharedStop,
    spawner: &mut P,
) -> Result<(), Stop>
where
    N::Door: Send,
    requires { IsAddress endpoint.now }
    ensures { Starts result (P.refusals spawner.old) (P.refusals spawner.new) }
{
    'reapers: for _ in 0..REAPERS {
        let word = random.word();
        match start_reaper(rt, alloc, queues, net, endpoint, at, word, stop, spawner) {
            Ok(()) => {}
            Err(refused) => return Err(refused),
        }
    }
    Ok(())
}
