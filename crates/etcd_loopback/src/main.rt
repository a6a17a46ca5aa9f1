//! Tries the etcd in memory over the loopback. One connection watches for some seconds. Then a client on another carries out the
//! store's first transaction, and the watch has to be told of it. These two connections are the server's last, so it has to stop
//! listening, to end the watch once the client has gone, and then to end itself. If all went so, nothing is written; otherwise standard
//! error says what did not, and the status is 1.
//!
//! `etcd_loopback HOST:PORT` asks the etcd there instead, over one link. Each line of standard input is an ask: a route, a blank and a
//! body. The answers are written as the link reads them, a line each. `bench/etcd.sh` compares a real etcd with `zetcd etcd` so.
#![tactic(auto)]

mod asking;
mod client;

use crate::asking::ask_all;
use crate::client::{Tried, try_it};
use anyhow::{Result, bail};
use std::env;
use std::net::{Net, TcpListener, TcpStream};
use std::process::ExitCode;
use std::sync::Wait;
use std::thread::{self, Threads};
use std::time::Clock;
use zd_etcd::{EtcdEnd, etcd};
use zx_outside::MemSink;
use zx_sockets::{StdClock, StdNet, ThreadSpawner};

/// How many connections the client makes.
const CONNECTIONS: u64 = 2;

/// An address of the loopback at which nobody listens.
fn free_address(rt: &HostRuntime) -> Result<String> {
    let listener = TcpListener::bind(rt, "127.0.0.1:0")?;
    let port = listener.local_addr()?.port();
    Ok(format!(in rt.alloc(); "127.0.0.1:{port}")?)
}

/// Serves a new etcd at this address.
fn serve<
    R: Net<Listener = TcpListener, Stream = TcpStream>
        + Clock
        + Threads
        + Wait
        + AllocGlobal
        + Copy
        + Send
        + Drop
        + 'static,
>(rt: R, address: &str) -> EtcdEnd {
    let alloc = rt.alloc();
    let mut out = MemSink::new(alloc, Vec::new(alloc));
    let mut net = StdNet::new(rt, alloc);
    let mut spawner = ThreadSpawner::new(rt);
    let clock = StdClock::new(rt);
    etcd(
        &rt,
        alloc,
        address,
        CONNECTIONS,
        &mut out,
        &mut net,
        &mut spawner,
        &clock,
    )
}

fn main(rt: HostRuntime) -> Result<ExitCode> {
    let mut words = env::args(&rt)?;
    let _program = words.next();
    if let Some(address) = words.next() {
        let mut net = StdNet::new(rt, rt.alloc());
        ask_all(&rt, &mut net, address.as_str())?;
        return Ok(ExitCode::SUCCESS);
    }
    let address = free_address(&rt)?;
    let theirs = address.clone()?;
    let Ok(server) = thread::spawn(&rt, move || serve(rt, theirs.as_str())) else {
        bail!("no thread");
    };
    let mut net = StdNet::new(rt, rt.alloc());
    let tried = try_it(&rt, rt.alloc(), &mut net, address.as_str());
    if tried != Tried::Well {
        eprintln!(rt; "{}", tried.words())?;
        return Ok(ExitCode::FAILURE);
    }
    if server.join(&rt) != EtcdEnd::Done {
        eprintln!(rt; "the server did not serve two connections")?;
        return Ok(ExitCode::FAILURE);
    }
    Ok(ExitCode::SUCCESS)
}
