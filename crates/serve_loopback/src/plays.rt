//! Servers over the loopback, one after the other on one etcd in memory, and clients that take steps.

use crate::clients::{ask, connect};
use crate::loopback::{Outcome, add_lines, frames_of, free_address, run_serve, start_etcd};
use crate::turns::{Turns, Watched};
use anyhow::{Result, bail};
use ev_link::DialCluster;
use row_files::hex_of;
use std::alloc::Global;
use std::net::{Net, TcpListener, TcpStream};
use std::random::RandomSource;
use std::sync::{Arc, Wait};
use std::thread::{self, Threads};
use std::time::{Clock, Duration, Instant};
use zx_base::Memory;
use zx_net::Net as Streams;
use zx_outside::{Got, Sink, Source};
use zx_random::{MemRandom, RandWord};
use zx_sockets::StdNet;

/// How many idle turns of some 10 milliseconds a client waits at most for what a step is to bring.
const MAX_TURNS: u32 = 3000;

/// In how many milliseconds has come what comes soon. A wait of the server's that no bell ends takes 1000.
const SOON: u64 = 900;

/// How often somebody tries to connect at most until nobody listens any more.
const MAX_DIALS: u32 = 9;

/// A client: both ends of its stream, until it cuts it, and what it received.
#[derive(Drop)]
struct Client<I: Source + Drop, O: Sink + Drop> {
    ends: Option<(I, O)>,
    heard: Vec<u8>,
}

/// What a client received, and whether it cut its stream.
#[derive(Drop)]
struct Heard {
    bytes: Vec<u8>,
    was_cut: bool,
}

/// How many whole packets stand at the front of these bytes.
fn packets_in(bytes: &[u8]) -> usize {
    let mut rest = bytes;
    let mut count = 0usize;
    for _ in 0..bytes.len() {
        if rest.len() < 4 {
            return count;
        }
        let length = u32::from_be_bytes([rest[0], rest[1], rest[2], rest[3]]) as usize;
        match rest.get(length.saturating_add(4)..) {
            Some(later) => rest = later,
            None => return count,
        }
        count = count.saturating_add(1);
    }
    count
}

/// Reads on until so many packets have come.
fn hear_packets<S: Source>(source: &mut S, heard: &mut Vec<u8>, count: usize) -> Result<()> {
    let mut room = [0u8; 256];
    for _ in 0..MAX_TURNS {
        if packets_in(heard.as_slice()) >= count {
            return Ok(());
        }
        match source.read(&mut room) {
            Got::Bytes(read) => heard.extend_from_slice(&room[..read])?,
            Got::Nothing => {}
            Got::End => bail!("a client's stream ended"),
            Got::Failed => bail!("a client's stream broke"),
        }
    }
    bail!("a client waits in vain")
}

/// Reads on to the end of the stream.
fn hear_end<S: Source>(source: &mut S, heard: &mut Vec<u8>) -> Result<()> {
    let mut room = [0u8; 256];
    for _ in 0..MAX_TURNS {
        match source.read(&mut room) {
            Got::Bytes(read) => heard.extend_from_slice(&room[..read])?,
            Got::Nothing => {}
            Got::End => return Ok(()),
            Got::Failed => bail!("a client's stream broke"),
        }
    }
    bail!("a client's stream does not end")
}

/// Has a client do this on its stream.
fn step_on<I: Source, O: Sink>(
    alloc: Global,
    source: &mut I,
    sink: &mut O,
    heard: &mut Vec<u8>,
    what: &str,
) -> Result<()> {
    if what == "end" {
        return hear_end(source, heard);
    }
    let before = packets_in(heard.as_slice());
    if let Some(more) = what.strip_prefix("+") {
        let Ok(more) = more.parse::<usize>() else {
            bail!("no such step");
        };
        return hear_packets(source, heard, before.saturating_add(more));
    }
    let Ok(Some(frames)) = frames_of(alloc, what) else {
        bail!("no such step");
    };
    ask(sink, frames.as_slice())?;
    let replies = what.split(' ').count();
    hear_packets(source, heard, before.saturating_add(replies))
}

/// Has a client do this on its stream, in time if it is to come soon.
fn step_in_time<R: Clock, I: Source, O: Sink>(
    rt: &R,
    alloc: Global,
    source: &mut I,
    sink: &mut O,
    heard: &mut Vec<u8>,
    what: &str,
) -> Result<()> {
    let Some(what) = what.strip_prefix("soon ") else {
        return step_on(alloc, source, sink, heard, what);
    };
    let start = Instant::now(rt)?;
    step_on(alloc, source, sink, heard, what)?;
    if start.elapsed(rt)? >= Duration::from_millis(SOON) {
        bail!("a client waits too long");
    }
    Ok(())
}

/// Has a client take a step.
fn take_step<R: Clock, I: Source + Drop, O: Sink + Drop>(
    rt: &R,
    alloc: Global,
    client: &mut Client<I, O>,
    what: &str,
) -> Result<()> {
    if what == "cut" {
        client.ends = None;
        return Ok(());
    }
    match &mut client.ends {
        Some((source, sink)) => step_in_time(rt, alloc, source, sink, &mut client.heard, what),
        None => bail!("a client is gone"),
    }
}

/// Tries to connect until nobody listens.
fn await_shut<N: Streams>(net: &mut N, address: &str) -> Result<()> {
    for _ in 0..MAX_DIALS {
        if net.dial(address).is_err() {
            return Ok(());
        }
    }
    bail!("somebody still listens")
}

/// Takes one step of a row. The client that comes next connects first.
fn act<R: Clock, N: Streams>(
    rt: &R,
    alloc: Global,
    net: &mut N,
    address: &str,
    clients: &mut Vec<Client<N::In, N::Out>>,
    step: &str,
) -> Result<()> {
    if step == "shut" {
        return await_shut(net, address);
    }
    let Some((number, what)) = step.split_once(' ') else {
        bail!("no such step");
    };
    let Ok(number) = number.parse::<usize>() else {
        bail!("no such step");
    };
    if number == clients.len().saturating_add(1) {
        let ends = Some(connect(net, address)?);
        let heard = Vec::new(alloc);
        clients.push(Client { ends, heard })?;
    }
    match clients.get_mut(number.saturating_sub(1)) {
        Some(client) => take_step(rt, alloc, client, what),
        None => bail!("no such client"),
    }
}

/// Has clients take these steps, and gives what each received.
fn act_all<R: Clock, N: Streams>(
    rt: &R,
    alloc: Global,
    net: &mut N,
    address: &str,
    steps: &str,
) -> Result<Vec<Heard>> {
    let mut clients = Vec::new(alloc);
    for step in steps.split("; ") {
        act(rt, alloc, net, address, &mut clients, step)?;
    }
    let mut all = Vec::new(alloc);
    for client in clients {
        let was_cut = client.ends.is_none();
        let bytes = client.heard;
        all.push(Heard { bytes, was_cut })?;
    }
    Ok(all)
}

/// Whether what each connection says that it sent is what its client received; of one that cut its stream, a front of that.
fn are_same(sent: &[(u64, Vec<u8>)], heard: &[Heard]) -> bool {
    for (number, bytes) in sent {
        let place = number.saturating_sub(1) as usize;
        let Some(client) = heard.get(place) else {
            return false;
        };
        if !bytes.as_slice().starts_with(client.bytes.as_slice()) {
            return false;
        }
        if !client.was_cut && client.bytes.len() != bytes.len() {
            return false;
        }
    }
    sent.len() == heard.len()
}

/// Adds the session and the password of each client's welcome, and how many packets it received.
fn add_clients(alloc: Global, text: &mut String, heard: &[Heard]) -> Result<()> {
    for client in heard {
        let bytes = client.bytes.as_slice();
        let Ok(session) = hex_of(alloc, bytes.get(12..20).unwrap_or(&[])) else {
            bail!("no memory");
        };
        let Ok(passwd) = hex_of(alloc, bytes.get(24..40).unwrap_or(&[])) else {
            bail!("no memory");
        };
        let count = packets_in(bytes);
        let line = format!(in alloc; "; {session} {passwd} {count}")?;
        text.push_str(line.as_str())?;
    }
    Ok(())
}

/// What came of a server and its clients.
fn text_of(
    alloc: Global,
    served: &Outcome,
    heard: &[Heard],
    listen: &str,
    passes: u64,
) -> Result<String> {
    let mut text = String::from_str(alloc, served.end)?;
    add_lines(alloc, &mut text, served.written.as_slice(), listen)?;
    add_clients(alloc, &mut text, heard)?;
    if passes != heard.len() as u64 {
        text.push_str("; no gate")?;
    }
    if !are_same(served.sent.as_slice(), heard) {
        text.push_str("; other bytes")?;
    }
    Ok(text)
}

/// Serves so many clients with these random words.
fn serve_by<
    R: Net<Listener = TcpListener, Stream = TcpStream>
        + Clock
        + Threads
        + Wait
        + Eprint
        + RandomSource
        + AllocGlobal
        + Copy
        + Send
        + Drop
        + 'static,
>(
    rt: R,
    words: Vec<u64>,
    listen: &str,
    endpoint: &str,
    limit: u64,
    turns: Turns,
) -> Result<Outcome> {
    let alloc = rt.alloc();
    let mut cluster = DialCluster::new(alloc, StdNet::new(rt, alloc));
    let mut random = MemRandom::new(words);
    run_serve(
        rt,
        &mut cluster,
        &mut random,
        listen,
        endpoint,
        limit,
        turns,
    )
}

/// What a server is given: how many clients it serves, and its random words.
fn given_in(alloc: Global, server: &str) -> Result<(u64, Vec<u64>)> {
    let Some((limit, words)) = server.split_once(' ') else {
        bail!("no such server");
    };
    let Ok(limit) = limit.parse::<u64>() else {
        bail!("no such server");
    };
    let mut all = Vec::new(alloc);
    for word in words.split(' ') {
        let Ok(word) = word.parse::<u64>() else {
            bail!("no such word");
        };
        all.push(word)?;
    }
    Ok((limit, all))
}

/// Runs one server, and has its clients take their steps.
fn play<
    R: Net<Listener = TcpListener, Stream = TcpStream>
        + Clock
        + Threads
        + Wait
        + Eprint
        + RandomSource
        + AllocGlobal
        + Copy
        + Send
        + Drop
        + 'static,
>(rt: R, listen: &str, endpoint: &str, given: &str) -> Result<String> {
    let alloc = rt.alloc();
    let Some((server, steps)) = given.split_once(": ") else {
        bail!("no such server");
    };
    let (limit, words) = given_in(alloc, server)?;
    let watched = Arc::new(alloc, Watched::new(false))?;
    let theirs = Arc::try_clone(&watched)?;
    let turns = Turns {
        watched: Arc::try_clone(&watched)?,
    };
    let at = String::from_str(alloc, listen)?;
    let endpoint = String::from_str(alloc, endpoint)?;
    let job = move || {
        let served = serve_by(rt, words, at.as_str(), endpoint.as_str(), limit, turns);
        theirs.end();
        served
    };
    let Ok(server) = thread::spawn(&rt, job) else {
        bail!("no thread");
    };
    let mut net = StdNet::new(rt, alloc).another();
    let heard = act_all(&rt, alloc, &mut net, listen, steps)?;
    if !watched.await_end(&rt) {
        bail!("the server does not end");
    }
    let served = server.join(&rt)?;
    text_of(alloc, &served, heard.as_slice(), listen, watched.passes())
}

/// Runs the servers of a row, one after the other.
fn run<
    R: Net<Listener = TcpListener, Stream = TcpStream>
        + Clock
        + Threads
        + Wait
        + Eprint
        + RandomSource
        + AllocGlobal
        + Copy
        + Send
        + Drop
        + 'static,
>(rt: R, given: &str) -> Result<String> {
    let alloc = rt.alloc();
    let mut random = RandWord::new(&rt)?;
    let endpoint = free_address(&rt, &mut random, 26_000)?;
    start_etcd(rt, endpoint.as_str())?;
    let mut text = String::new(alloc);
    for server in given.split(" | ") {
        let listen = free_address(&rt, &mut random, 20_000)?;
        if !text.is_empty() {
            text.push_str(" | ")?;
        }
        let played = play(rt, listen.as_str(), endpoint.as_str(), server)?;
        text.push_str(played.as_str())?;
    }
    Ok(text)
}

/// What came of these servers and their clients.
pub fn served<
    R: Net<Listener = TcpListener, Stream = TcpStream>
        + Clock
        + Threads
        + Wait
        + Eprint
        + RandomSource
        + AllocGlobal
        + Copy
        + Send
        + Drop
        + 'static,
>(rt: R, alloc: Global, given: &str) -> Result<Option<String>, Memory> {
    match run(rt, given) {
        Ok(text) => Ok(Some(text)),
        Err(error) => Ok(Some(format!(in alloc; "{error}")?)),
    }
}
