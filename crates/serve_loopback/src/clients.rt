//! Clients over the loopback.

use anyhow::{Result, bail};
use std::alloc::Global;
use std::net::{Net as SystemNet, TcpListener, TcpStream};
use std::time::Clock;
use zx_net::Net;
use zx_outside::{Got, Sink, Source, Took};
use zx_sockets::StdNet;

/// How many idle turns of some 10 milliseconds a client waits at most for what comes next.
const MAX_TURNS: u32 = 3000;

/// How often a client tries to connect. Between two tries it waits, from 0.1 seconds on twice as long each time, at most 6.4.
const MAX_DIALS: u32 = 9;

/// Sends all of it.
pub fn ask<K: Sink>(sink: &mut K, asked: &[u8]) -> Result<()> {
    let mut rest = asked;
    for _ in 0..asked.len() {
        if rest.is_empty() {
            return Ok(());
        }
        match sink.write(rest) {
            Took::Bytes(count) => rest = rest.get(count..).unwrap_or(&[]),
            Took::Failed => bail!("a client cannot ask"),
        }
    }
    Ok(())
}

/// All that comes, to the stream's end.
fn hear<S: Source>(alloc: Global, source: &mut S) -> Result<Vec<u8>> {
    let mut heard = Vec::new(alloc);
    let mut room = [0u8; 256];
    for _ in 0..MAX_TURNS {
        match source.read(&mut room) {
            Got::Bytes(count) => heard.extend_from_slice(&room[..count])?,
            Got::End => return Ok(heard),
            Got::Nothing => {}
            Got::Failed => bail!("a client's stream broke"),
        }
    }
    bail!("a client waits in vain")
}

/// Both ends of a stream to this address, once somebody listens there.
pub fn connect<N: Net>(net: &mut N, address: &str) -> Result<(N::In, N::Out)> {
    for _ in 0..MAX_DIALS {
        if let Ok(ends) = net.dial(address) {
            return Ok(ends);
        }
    }
    bail!("nobody listens")
}

/// Waits until somebody listens at this address.
pub fn await_listener<
    R: SystemNet<Listener = TcpListener, Stream = TcpStream>
        + Clock
        + AllocGlobal
        + Copy
        + Send
        + Drop
        + 'static,
>(rt: &R, address: &str) -> Result<()> {
    let mut net = StdNet::new(*rt, rt.alloc()).another();
    connect(&mut net, address)?;
    Ok(())
}

/// Reads what is asked, until nothing more comes for a moment.
pub fn hear_ask<S: Source>(source: &mut S) {
    let mut room = [0u8; 256];
    let mut was_asked = false;
    for _ in 0..MAX_TURNS {
        match source.read(&mut room) {
            Got::Bytes(_) => was_asked = true,
            Got::Nothing if was_asked => return,
            Got::Nothing => {}
            Got::End | Got::Failed => return,
        }
    }
}

/// Has so many clients ask this, each once the stream of the one before has ended, and gives what each received.
pub fn talk_in_turn<
    R: SystemNet<Listener = TcpListener, Stream = TcpStream>
        + Clock
        + AllocGlobal
        + Copy
        + Send
        + Drop
        + 'static,
>(rt: &R, address: &str, asked: &[u8], clients: u64) -> Result<Vec<Vec<u8>>> {
    let alloc = rt.alloc();
    let mut net = StdNet::new(*rt, alloc).another();
    let mut received = Vec::new(alloc);
    for _ in 0..clients {
        let (mut source, mut sink) = connect(&mut net, address)?;
        ask(&mut sink, asked)?;
        received.push(hear(alloc, &mut source)?)?;
    }
    Ok(received)
}

/// Has two clients ask this, and gives what each received, in the order in which they connected.
pub fn talk<
    R: SystemNet<Listener = TcpListener, Stream = TcpStream>
        + Clock
        + AllocGlobal
        + Copy
        + Send
        + Drop
        + 'static,
>(rt: &R, address: &str, asked: &[u8]) -> Result<Vec<Vec<u8>>> {
    let alloc = rt.alloc();
    let mut net = StdNet::new(*rt, alloc).another();
    let (mut first, mut to_first) = connect(&mut net, address)?;
    let (mut second, mut to_second) = connect(&mut net, address)?;
    ask(&mut to_first, asked)?;
    ask(&mut to_second, asked)?;
    let mut received = Vec::new(alloc);
    received.push(hear(alloc, &mut first)?)?;
    received.push(hear(alloc, &mut second)?)?;
    Ok(received)
}
