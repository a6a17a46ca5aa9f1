//! Servers over the loopback whose etcd answers the first ask, and then is gone or says one line alone.

use crate::clients::{ask, await_listener, hear_ask, talk_in_turn};
use crate::follows::stream_of;
use crate::loopback::{Outcome, add_lines, free_address, run_serve};
use crate::turns::{Turns, Watched};
use anyhow::{Result, bail};
use ev_shared::StoreLink;
use ev_store::Store;
use std::alloc::Global;
use std::net::{Net, TcpListener, TcpStream};
use std::random::RandomSource;
use std::sync::{Arc, Wait};
use std::thread::{self, Threads};
use std::time::Clock;
use zx_base::Memory;
use zx_net::Net as Streams;
use zx_random::RandWord;
use zx_sockets::StdNet;

/// How many streams an etcd of one line serves: more than come.
const STREAMS: u64 = 1000;

/// How many clients a server would take that is to end before.
const MANY: u64 = 1_000_000;

/// A server that asks a new etcd in memory first, in which it makes the root, and then whoever listens at `endpoint`.
fn serve_on<
    R: Net<Listener = TcpListener, Stream = TcpStream>
        + Clock
        + Threads
        + Wait
        + Eprint
        + RandomSource
        + AllocGlobal
        + Copy
        + Send
        + Drop
        + 'static,
>(rt: R, listen: &str, endpoint: &str, limit: u64, turns: Turns) -> Result<Outcome> {
    let alloc = rt.alloc();
    let Ok(store) = Store::new(alloc) else {
        bail!("no memory");
    };
    let mut cluster = StoreLink::new(store, Vec::new(alloc));
    let mut random = RandWord::new(&rt)?;
    run_serve(
        rt,
        &mut cluster,
        &mut random,
        listen,
        endpoint,
        limit,
        turns,
    )
}

/// What an etcd does after the first ask.
#[derive(Clone, Copy)]
pub enum Later<'a> {
    /// It is gone. Two clients connect, one after the other.
    Gone,
    /// It gives this line to each who asks. Nobody connects.
    Says(&'a str),
    /// It does so once a worker serves. One client connects, and that is all that the server takes.
    SaysLate(&'a str),
}

impl<'a> Later<'a> {
    /// The line, if there is one.
    fn line(self) -> Option<&'a str> {
        match self {
            Later::Gone => None,
            Later::Says(line) | Later::SaysLate(line) => Some(line),
        }
    }

    /// How many clients the server takes.
    fn limit(self) -> u64 {
        match self {
            Later::Gone => 2,
            Later::Says(_) => MANY,
            Later::SaysLate(_) => 1,
        }
    }

    /// How many connect.
    fn clients(self) -> u64 {
        match self {
            Later::Gone => 2,
            Later::Says(_) => 0,
            Later::SaysLate(_) => 1,
        }
    }
}

/// Gives this to each who asks at an address, once a worker serves where that is to be waited for, and keeps the streams open.
/// Nobody waits for its end.
fn answer_all<
    R: Net<Listener = TcpListener, Stream = TcpStream>
        + Clock
        + Threads
        + Wait
        + Eprint
        + RandomSource
        + AllocGlobal
        + Copy
        + Send
        + Drop
        + 'static,
>(rt: R, address: &str, answer: &[u8], until: Option<&Watched>) -> Result<()> {
    let alloc = rt.alloc();
    let mut net = StdNet::new(rt, alloc);
    let Ok(bound) = net.bind(address) else {
        bail!("no port is free");
    };
    let mut door = bound;
    let mut open = Vec::new(alloc);
    for _ in 0..STREAMS {
        let Ok((mut source, mut sink)) = net.accept(&mut door) else {
            bail!("the door is broken");
        };
        hear_ask(&mut source);
        if let Some(watched) = until {
            watched.await_first(&rt);
        }
        let _said = ask(&mut sink, answer);
        open.push((source, sink))?;
    }
    Ok(())
}

/// Starts an etcd that gives this line to each who asks, and waits until it listens.
fn start_etcd<
    R: Net<Listener = TcpListener, Stream = TcpStream>
        + Clock
        + Threads
        + Wait
        + Eprint
        + RandomSource
        + AllocGlobal
        + Copy
        + Send
        + Drop
        + 'static,
>(rt: R, endpoint: &str, line: &str, until: Option<Arc<Watched, Global>>) -> Result<()> {
    let alloc = rt.alloc();
    let Ok(answer) = stream_of(alloc, line) else {
        bail!("no memory");
    };
    let at = String::from_str(alloc, endpoint)?;
    let job = move || match &until {
        Some(watched) => answer_all(rt, at.as_str(), answer.as_slice(), Some(&**watched)),
        None => answer_all(rt, at.as_str(), answer.as_slice(), None),
    };
    let Ok(_etcd) = thread::spawn(&rt, job) else {
        bail!("no thread");
    };
    await_listener(&rt, endpoint)
}

/// Runs a server, and has clients connect that send nothing.
fn run<
    R: Net<Listener = TcpListener, Stream = TcpStream>
        + Clock
        + Threads
        + Wait
        + Eprint
        + RandomSource
        + AllocGlobal
        + Copy
        + Send
        + Drop
        + 'static,
>(rt: R, later: Later) -> Result<String> {
    let alloc = rt.alloc();
    let mut random = RandWord::new(&rt)?;
    let listen = free_address(&rt, &mut random, 20_000)?;
    let endpoint = free_address(&rt, &mut random, 26_000)?;
    let watched = Arc::new(alloc, Watched::new(false))?;
    let theirs = Arc::try_clone(&watched)?;
    let turns = Turns {
        watched: Arc::try_clone(&watched)?,
    };
    if let Some(line) = later.line() {
        let until = match later {
            Later::SaysLate(_) => Some(Arc::try_clone(&watched)?),
            Later::Gone | Later::Says(_) => None,
        };
        start_etcd(rt, endpoint.as_str(), line, until)?;
    }
    let limit = later.limit();
    let at = listen.clone()?;
    let job = move || {
        let served = serve_on(rt, at.as_str(), endpoint.as_str(), limit, turns);
        theirs.end();
        served
    };
    let Ok(server) = thread::spawn(&rt, job) else {
        bail!("no thread");
    };
    let mut heard = 0usize;
    for bytes in talk_in_turn(&rt, listen.as_str(), &[], later.clients())? {
        heard = heard.saturating_add(bytes.len());
    }
    if !watched.await_end(&rt) {
        bail!("the server does not end");
    }
    let served = server.join(&rt)?;
    let mut text = String::from_str(alloc, served.end)?;
    add_lines(alloc, &mut text, served.written.as_slice(), listen.as_str())?;
    if heard > 0 {
        text.push_str("; other bytes")?;
    }
    Ok(text)
}

/// What came of a server whose etcd does this after the first ask.
pub fn served<
    R: Net<Listener = TcpListener, Stream = TcpStream>
        + Clock
        + Threads
        + Wait
        + Eprint
        + RandomSource
        + AllocGlobal
        + Copy
        + Send
        + Drop
        + 'static,
>(rt: R, alloc: Global, later: Later) -> Result<Option<String>, Memory> {
    match run(rt, later) {
        Ok(text) => Ok(Some(text)),
        Err(error) => Ok(Some(format!(in alloc; "{error}")?)),
    }
}
