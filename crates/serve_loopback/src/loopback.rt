//! A server over the loopback, with an etcd in memory in the same process.

use crate::clients::{await_listener, talk, talk_in_turn};
use crate::turns::{Turns, Watched};
use crate::word_of;
use anyhow::{Result, bail};
use ev_call::Cluster;
use ev_link::DialCluster;
use row_files::bytes_of;
use std::alloc::Global;
use std::net::{Net, TcpListener, TcpStream};
use std::random::RandomSource;
use std::sync::{Arc, Wait};
use std::thread::{self, Threads};
use std::time::Clock;
use zd_etcd::etcd;
use zp_run::{Event, Trace};
use zp_server::{ListBook, is_address, serve};
use zx_base::Memory;
use zx_outside::MemSink;
use zx_random::{RandWord, Random};
use zx_sockets::{StdClock, StdNet, ThreadSpawner};

/// How many clients connect.
const CLIENTS: u64 = 2;

/// How many connections the etcd serves: more than come.
const CONNECTIONS: u64 = 1000;

/// How many ports are looked at for one at which nobody listens.
const MAX_PORTS: u32 = 100;

/// How many ports there are to choose from.
const PORTS: u64 = 6000;

/// An address of the loopback at which nobody listens: one of the ports from the first one on, of which none is given to a stream that
/// is dialled.
pub fn free_address<R: Net<Listener = TcpListener, Stream = TcpStream> + AllocGlobal>(
    rt: &R,
    random: &mut RandWord,
    first: u64,
) -> Result<String> {
    for _ in 0..MAX_PORTS {
        let port = first.saturating_add(random.word() % PORTS);
        let address = format!(in rt.alloc(); "127.0.0.1:{port}")?;
        if TcpListener::bind(rt, address.as_str()).is_ok() {
            return Ok(address);
        }
    }
    bail!("no port is free")
}

/// Runs an etcd in memory at this address, for whose end nobody waits.
fn run_etcd<
    R: Net<Listener = TcpListener, Stream = TcpStream>
        + Clock
        + Threads
        + Wait
        + AllocGlobal
        + Copy
        + Send
        + Drop
        + 'static,
>(rt: R, address: &str) {
    let alloc = rt.alloc();
    let mut out = MemSink::new(alloc, Vec::new(alloc));
    let mut net = StdNet::new(rt, alloc);
    let mut spawner = ThreadSpawner::new(rt);
    let clock = StdClock::new(rt);
    let _end = etcd(
        &rt,
        alloc,
        address,
        CONNECTIONS,
        &mut out,
        &mut net,
        &mut spawner,
        &clock,
    );
}

/// What a server did.
#[derive(Drop)]
pub struct Outcome {
    pub end: &'static str,
    pub written: Vec<u8>,
    /// What it says that it sent, by the connections' numbers.
    pub sent: Vec<(u64, Vec<u8>)>,
}

/// Serves so many clients. The first ask goes to this cluster.
pub fn run_serve<
    R: Net<Listener = TcpListener, Stream = TcpStream>
        + Clock
        + Threads
        + Wait
        + Eprint
        + RandomSource
        + AllocGlobal
        + Copy
        + Send
        + Drop
        + 'static,
    L: Cluster,
    Q: Random,
>(
    rt: R,
    cluster: &mut L,
    random: &mut Q,
    listen: &str,
    endpoint: &str,
    limit: u64,
    turns: Turns,
) -> Result<Outcome> {
    let alloc = rt.alloc();
    let mut out = MemSink::new(alloc, Vec::new(alloc));
    let mut net = StdNet::new(rt, alloc);
    let mut spawner = ThreadSpawner::new(rt);
    let mut clock = StdClock::new(rt);
    let mut book = ListBook::new(alloc);
    if !is_address(endpoint) {
        bail!("no address");
    }
    let end = serve(
        &rt,
        alloc,
        &mut net,
        cluster,
        &mut spawner,
        &mut clock,
        random,
        &mut out,
        turns,
        &mut book,
        listen,
        endpoint,
        limit,
    );
    let mut sent = Vec::new(alloc);
    for served in book.served() {
        sent.push((served.number, sent_of(alloc, served.trace.events())?))?;
    }
    Ok(Outcome {
        end: word_of(&end),
        written: Vec::from_slice(alloc, out.bytes())?,
        sent,
    })
}

/// The bytes that were sent, by what a connection noted.
fn sent_of(alloc: Global, events: &[Event]) -> Result<Vec<u8>> {
    let mut bytes = Vec::new(alloc);
    for event in events {
        if let Event::Out(packet) = event {
            bytes.extend_from_slice(packet.as_slice())?;
        }
    }
    Ok(bytes)
}

/// Whether what each connection says that it sent is what its client received.
fn are_same(sent: &[(u64, Vec<u8>)], received: &[Vec<u8>]) -> bool {
    for (number, bytes) in sent {
        let place = number.saturating_sub(1) as usize;
        match received.get(place) {
            Some(heard) if heard.as_slice() == bytes.as_slice() => {}
            _ => return false,
        }
    }
    sent.len() == received.len()
}

/// Adds `listening`, if that is the first line, and the other lines in order.
pub fn add_lines(alloc: Global, text: &mut String, written: &[u8], listen: &str) -> Result<()> {
    let first = format!(in alloc; "listening {listen}\n")?;
    let Some(later) = str::from_utf8(written)?.strip_prefix(first.as_str()) else {
        bail!("the first line is another");
    };
    let mut lines = Vec::new(alloc);
    for line in later.lines() {
        lines.push(line)?;
    }
    lines.sort()?;
    text.push_str("; listening")?;
    for line in &lines {
        text.push_str("; ")?;
        text.push_str(line)?;
    }
    Ok(())
}

/// What came of it.
fn text_of(
    alloc: Global,
    served: &Outcome,
    received: &[Vec<u8>],
    listen: &str,
    watched: &Watched,
) -> Result<String> {
    let mut text = String::from_str(alloc, served.end)?;
    add_lines(alloc, &mut text, served.written.as_slice(), listen)?;
    if !watched.both_came() {
        text.push_str("; no gate")?;
    }
    if watched.gave_up() {
        text.push_str("; alone")?;
    }
    if !are_same(served.sent.as_slice(), received) {
        text.push_str("; other bytes")?;
    }
    Ok(text)
}

/// Starts an etcd in memory at this address, and waits until it listens.
pub fn start_etcd<
    R: Net<Listener = TcpListener, Stream = TcpStream>
        + Clock
        + Threads
        + Wait
        + AllocGlobal
        + Copy
        + Send
        + Drop
        + 'static,
>(rt: R, address: &str) -> Result<()> {
    let at = String::from_str(rt.alloc(), address)?;
    let Ok(_etcd) = thread::spawn(&rt, move || run_etcd(rt, at.as_str())) else {
        bail!("no thread");
    };
    await_listener(&rt, address)
}

/// Serves the clients. The first ask goes to the same etcd.
fn serve_clients<
    R: Net<Listener = TcpListener, Stream = TcpStream>
        + Clock
        + Threads
        + Wait
        + Eprint
        + RandomSource
        + AllocGlobal
        + Copy
        + Send
        + Drop
        + 'static,
>(rt: R, listen: &str, endpoint: &str, turns: Turns) -> Result<Outcome> {
    let alloc = rt.alloc();
    let mut cluster = DialCluster::new(alloc, StdNet::new(rt, alloc));
    let mut random = RandWord::new(&rt)?;
    run_serve(
        rt,
        &mut cluster,
        &mut random,
        listen,
        endpoint,
        CLIENTS,
        turns,
    )
}

/// Has two clients send this to a server: both at once, or in turn.
fn run<
    R: Net<Listener = TcpListener, Stream = TcpStream>
        + Clock
        + Threads
        + Wait
        + Eprint
        + RandomSource
        + AllocGlobal
        + Copy
        + Send
        + Drop
        + 'static,
>(rt: R, asked: &[u8], is_in_turn: bool) -> Result<String> {
    let alloc = rt.alloc();
    let mut random = RandWord::new(&rt)?;
    let listen = free_address(&rt, &mut random, 20_000)?;
    let endpoint = free_address(&rt, &mut random, 26_000)?;
    start_etcd(rt, endpoint.as_str())?;
    let watched = Arc::new(alloc, Watched::new(!is_in_turn))?;
    let theirs = Arc::try_clone(&watched)?;
    let turns = Turns {
        watched: Arc::try_clone(&watched)?,
    };
    let at = listen.clone()?;
    let job = move || {
        let served = serve_clients(rt, at.as_str(), endpoint.as_str(), turns);
        theirs.end();
        served
    };
    let Ok(server) = thread::spawn(&rt, job) else {
        bail!("no thread");
    };
    let received = if is_in_turn {
        talk_in_turn(&rt, listen.as_str(), asked, CLIENTS)?
    } else {
        talk(&rt, listen.as_str(), asked)?
    };
    if !watched.await_end(&rt) {
        bail!("the server does not end");
    }
    let served = server.join(&rt)?;
    text_of(
        alloc,
        &served,
        received.as_slice(),
        listen.as_str(),
        &watched,
    )
}

/// Frames with their lengths; `None` where a word is no hex.
pub fn frames_of(alloc: Global, given: &str) -> Result<Option<Vec<u8>>, Memory> {
    let mut bytes = Vec::new(alloc);
    for word in given.split(' ') {
        let Some(frame) = bytes_of(alloc, word)? else {
            return Ok(None);
        };
        let Ok(length) = u32::try_from(frame.len()) else {
            return Ok(None);
        };
        bytes.extend_from_slice(&length.to_be_bytes())?;
        bytes.extend_from_slice(frame.as_slice())?;
    }
    Ok(Some(bytes))
}

/// What came of two clients that each send these frames, both at once or in turn.
pub fn served<
    R: Net<Listener = TcpListener, Stream = TcpStream>
        + Clock
        + Threads
        + Wait
        + Eprint
        + RandomSource
        + AllocGlobal
        + Copy
        + Send
        + Drop
        + 'static,
>(rt: R, alloc: Global, given: &str, is_in_turn: bool) -> Result<Option<String>, Memory> {
    let Some(asked) = frames_of(alloc, given)? else {
        return Ok(None);
    };
    match run(rt, asked.as_slice(), is_in_turn) {
        Ok(text) => Ok(Some(text)),
        Err(error) => Ok(Some(format!(in alloc; "{error}")?)),
    }
}
