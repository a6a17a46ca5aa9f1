//! The client.

ghost use Rattle.std.specs.Prelude.{IfOk};
ghost use Rattle.ev_call.specs.Addresses.{IsAddress};
ghost use Rattle.ev_call.specs.Asks.{IsGrantable};

use ev_http::{Lines, send_request};
use ev_json::{Line, read_line, write_watch};
use ev_link::{Etcd, HttpLink};
use ev_types::{Act, Answer, Ask, Route, TxnReq};
use std::alloc::Global;
use std::thread;
use std::time::{Clock, Duration};
use zx_base::{Bytes, Memory, Seq};
use zx_net::Net;
use zx_outside::Source;

/// What came of it.
#[derive(Clone, Copy, PartialEq, Eq)]
pub enum Tried {
    Well,
    NoConnection,
    NoMemory,
    NoWatch,
    NoAnswer,
    NoTransaction,
    StillListens,
    NotTold,
    NotEnded,
}

impl Tried {
    /// What went wrong, in words.
    pub fn words(self) -> &'static str {
        match self {
            Tried::Well => "all went well",
            Tried::NoConnection => "the server could not be dialled",
            Tried::NoMemory => "memory was refused",
            Tried::NoWatch => "the watch was not created",
            Tried::NoAnswer => "the first ask was not answered",
            Tried::NoTransaction =>
                "the transaction was not carried out as the first of a new store",
            Tried::StillListens => "the server listens after its last connection",
            Tried::NotTold => "the watch was not told of the transaction",
            Tried::NotEnded => "the watch was not ended",
        }
    }
}

impl From<Memory> for Tried {
    fn from(_refused: Memory) -> Tried {
        Tried::NoMemory
    }
}

/// The key that is put and watched.
const KEY: &[u8] = b"a";

/// The revision of the first transaction that changes a new store.
const FIRST: i64 = 2;

/// How often the server is dialled until it listens, and the pause before the next time, in milliseconds.
const DIALS: u32 = 500;

const PAUSE: u64 = 10;

/// How often the server is dialled until it listens no more, and the pause before the next time, in milliseconds. The system keeps this
/// many connections for a door at which nobody accepts (listen(2)); with more a dial fails too, as if nobody listened.
const LOOKS: u32 = 100;

const LOOK_PAUSE: u64 = 100;

/// How long the watch waits before the key is put, in milliseconds: so long that the server looks meanwhile whether its client is there.
const SILENCE: u64 = 2_500;

/// What each request names as its host.
#[tactic(auto, using(ev_link::proofs::Local::local))]
pub fn host() -> &'static str
    ensures { IsAddress result.now }
{
    "localhost"
}

/// Dials the server once it listens.
fn connect<R: Clock, N: Net>(rt: &R, net: &mut N, address: &str) -> Result<(N::In, N::Out), Tried> {
    for _ in 0..DIALS {
        if let Ok(ends) = net.dial(address) {
            return Ok(ends);
        }
        thread::sleep(rt, Duration::from_millis(PAUSE));
    }
    Err(Tried::NoConnection)
}

/// Whether the server goes on listening. Until it closes its door the system takes connections for it.
fn listens<R: Clock, N: Net>(rt: &R, net: &mut N, address: &str) -> bool {
    for _ in 0..LOOKS {
        if net.dial(address).is_err() {
            return false;
        }
        thread::sleep(rt, Duration::from_millis(LOOK_PAUSE));
    }
    true
}

/// The transaction that puts the key.
fn put(alloc: Global) -> Result<Ask, Memory>
    ensures { IfOk result (λ ask. IsGrantable ask) }
{
    let mut success = Seq::new(alloc);
    success.push(Act::Put {
        key: Bytes::copy_of(alloc, KEY)?,
        value: Bytes::copy_of(alloc, b"x".as_slice())?,
        lease: 0,
    })?;
    Ok(Ask::Txn(TxnReq {
        guards: Seq::new(alloc),
        success,
        failure: Seq::new(alloc),
    }))
}

/// Whether the next line says that the watch was created.
fn is_created<S: Source>(alloc: Global, lines: &mut Lines<S>) -> bool {
    match lines.next() {
        Ok(line) => matches!(read_line(alloc, line.as_slice()), Ok(Line::Created { .. })),
        Err(_) => false,
    }
}

/// Whether the next line tells of one put at this revision.
fn is_told<S: Source>(alloc: Global, lines: &mut Lines<S>, at: i64) -> bool {
    let Ok(line) = lines.next() else {
        return false;
    };
    match read_line(alloc, line.as_slice()) {
        Ok(Line::Events { revision, kvs }) => revision == at && kvs.len() == 1,
        _ => false,
    }
}

/// Carries out a transaction that puts the key, the first of the store, on a connection of its own that had an ask before. While that
/// connection, the server's last, is open, nobody else can connect.
fn put_it<R: Clock, N: Net>(
    rt: &R,
    alloc: Global,
    net: &mut N,
    address: &str,
) -> Result<(), Tried> {
    let (source, sink) = connect(rt, net, address)?;
    let mut link = HttpLink::new(alloc, source, sink, host())?;
    if link.call(&Ask::Alive { id: 1 }).is_err() {
        return Err(Tried::NoAnswer);
    }
    let ask = put(alloc)?;
    match link.call(&ask) {
        Ok(
            Answer::Txn {
                revision,
                succeeded: true,
                ..
            },
        ) if revision == FIRST => {}
        _ => return Err(Tried::NoTransaction),
    }
    if listens(rt, net, address) {
        return Err(Tried::StillListens);
    }
    Ok(())
}

/// Watches the key, puts it some seconds later, and sees that the watch is told and then ended.
fn watch_and_put<R: Clock, N: Net>(
    rt: &R,
    alloc: Global,
    net: &mut N,
    address: &str,
) -> Result<(), Tried> {
    let (source, mut sink) = connect(rt, net, address)?;
    let body = write_watch(alloc, 1, KEY)?;
    if send_request(alloc, &mut sink, host(), Route::Watch, body.as_slice()).is_err() {
        return Err(Tried::NoWatch);
    }
    let mut lines = Lines::new(alloc, source);
    if !is_created(alloc, &mut lines) {
        return Err(Tried::NoWatch);
    }
    thread::sleep(rt, Duration::from_millis(SILENCE));
    put_it(rt, alloc, net, address)?;
    if !is_told(alloc, &mut lines, FIRST) {
        return Err(Tried::NotTold);
    }
    if lines.next().is_ok() {
        return Err(Tried::NotEnded);
    }
    Ok(())
}

/// Tries the server at this address with two connections.
pub fn try_it<R: Clock, N: Net>(rt: &R, alloc: Global, net: &mut N, address: &str) -> Tried {
    match watch_and_put(rt, alloc, net, address) {
        Ok(()) => Tried::Well,
        Err(why) => why,
    }
}
