//! The system's sockets as a net.

ghost use Rattle.std.specs.Prelude.{◌≡◌, false, None, IfOk, IfSome};
ghost use Rattle.zx_sockets.specs.Silence.{IsAccepted};

use crate::faults::{fault_of, fault_of_text, is_passing};
use crate::keeping::keep_watch;
use crate::patience::Patience;
use crate::pauses::Pauses;
use crate::sink::SocketSink;
use crate::source::SocketSource;
use crate::waits::IDLE_TURN;
use std::alloc::Global;
use std::net::{Net as SystemNet, TcpListener, TcpStream, ToSocketAddrs};
use std::sync::Arc;
use std::time::{Clock as SystemClock, Duration};
use std::{io, thread};
use zx_net::{Net, NetFault};

/// How long a write waits until a byte was taken, in milliseconds.
const WRITE_WAIT: u64 = 60_000;

/// How long the first bytes of a peer that was accepted may take, as many as a connect has at least, in milliseconds.
const CONNECT_WAIT: u64 = 10_000;

/// How long such a peer may say nothing from then on, in milliseconds.
const LONGEST_SILENCE: u64 = 60_000;

/// How long an address is dialled, in milliseconds.
const DIAL_WAIT: u64 = 5_000;

/// The moment before an accept is tried again, in milliseconds.
const ACCEPT_PAUSE: u64 = 50;

/// A door of the system: a socket that listens.
#[derive(Drop)]
pub struct StdDoor {
    listener: TcpListener,
}

/// The system's sockets.
#[derive(Drop)]
pub struct StdNet<R> {
    rt: R,
    alloc: Global,
    door_faults: u64,
    dial_faults: u64,
    no_room: u64,
    accepted: u64,
    /// The pauses of a worker's net. The first net of a program dials at once.
    pauses: Option<Pauses>,
}

impl<R: SystemNet<Listener = TcpListener, Stream = TcpStream> + SystemClock + Copy> StdNet<R> {
    /// The net of this runtime, whose dials do not wait for one another.
    pub fn new(rt: R, alloc: Global) -> StdNet<R>
        ensures door_faults { result.door_faults ≡ 0 }
        ensures dial_faults { result.dial_faults ≡ 0 }
        ensures no_room { result.no_room ≡ 0 }
        ensures accepted { result.accepted ≡ 0 }
    {
        StdNet {
            rt,
            alloc,
            door_faults: 0,
            dial_faults: 0,
            no_room: 0,
            accepted: 0,
            pauses: None,
        }
    }
}

/// Has reads and writes wait for their time, and small writes go out at once.
pub fn prepare(stream: &TcpStream) -> io::Result<()> {
    stream.set_nodelay(true)?;
    stream.set_read_timeout(Some(Duration::from_millis(IDLE_TURN)))?;
    stream.set_write_timeout(Some(Duration::from_millis(WRITE_WAIT)))
}

/// Both ends of a stream, under a name. A fault: the stream is broken already, or memory is refused.
pub fn ends_of<R: SystemClock + Copy>(
    rt: R,
    alloc: Global,
    stream: TcpStream,
    name: u64,
    patience: Option<Patience>,
) -> Result<(SocketSource<R>, SocketSink), NetFault>
    ensures patience { IfOk result (λ ends. ends.0.patience ≡ patience) }
    ensures source { IfOk result (λ ends. (ends.0.ended ≡ false) × (ends.0.faults ≡ 0) × (ends.0.idles ≡ 0) × (ends.0.name ≡ name)) }
    ensures sink { IfOk result (λ ends. (ends.1.faults ≡ 0) × (ends.1.name ≡ name)) }
{
    if let Err(error) = prepare(&stream) {
        return Err(fault_of(error.raw_os_error()));
    }
    let Ok(mine) = Arc::new(alloc, stream) else {
        return Err(NetFault::NoRoom);
    };
    let Ok(theirs) = Arc::try_clone(&mine) else {
        return Err(NetFault::NoRoom);
    };
    match SocketSource::new(rt, alloc, mine, name, patience) {
        Ok(source) => Ok((source, SocketSink::new(theirs, name))),
        Err(_) => Err(NetFault::NoRoom),
    }
}

/// Accepts the next stream at a door, under a name. A fault: the door is broken.
fn next_ends<R: SystemClock + Copy>(
    rt: R,
    alloc: Global,
    door: &StdDoor,
    name: u64,
) -> Result<(SocketSource<R>, SocketSink), NetFault>
    ensures patience { IfOk result (λ ends. IfSome ends.0.patience IsAccepted) }
    ensures source { IfOk result (λ ends. (ends.0.ended ≡ false) × (ends.0.faults ≡ 0) × (ends.0.idles ≡ 0) × (ends.0.name ≡ name)) }
    ensures sink { IfOk result (λ ends. (ends.1.faults ≡ 0) × (ends.1.name ≡ name)) }
{
    for _ in 0..u64::MAX {
        match door.listener.accept() {
            Ok((stream, _)) => {
                let patience = Patience::new(
                    &rt,
                    Duration::from_millis(CONNECT_WAIT),
                    Duration::from_millis(LONGEST_SILENCE),
                );
                if let Ok(ends) = ends_of(rt, alloc, stream, name, patience) {
                    return Ok(ends);
                }
            }
            Err(error) if is_passing(error.raw_os_error()) => {}
            Err(error) => return Err(fault_of(error.raw_os_error())),
        }
        thread::sleep(&rt, Duration::from_millis(ACCEPT_PAUSE));
    }
    Err(NetFault::Failed)
}

/// Listens at the first address of a host at which the system lets it.
fn listen<R: SystemNet<Listener = TcpListener, Stream = TcpStream>>(
    rt: &R,
    address: &str,
) -> Result<TcpListener, NetFault> {
    let found = match address.to_socket_addrs(rt) {
        Ok(found) => found,
        Err(error) => return Err(fault_of_text(rt, &error)),
    };
    let mut fault = NetFault::NoAddress;
    for address in found {
        match TcpListener::bind(rt, address) {
            Ok(listener) => return Ok(listener),
            Err(error) => fault = fault_of(error.raw_os_error()),
        }
    }
    Err(fault)
}

/// Connects to the first address of a host that answers.
pub fn connect<R: SystemNet<Stream = TcpStream>>(
    rt: &R,
    address: &str,
) -> Result<TcpStream, NetFault> {
    let found = match address.to_socket_addrs(rt) {
        Ok(found) => found,
        Err(error) => return Err(fault_of_text(rt, &error)),
    };
    let longest = Duration::from_millis(DIAL_WAIT);
    let mut fault = NetFault::NoAddress;
    for address in found {
        match TcpStream::connect_timeout(rt, &address, longest) {
            Ok(stream) => {
                // A stream that the system does not watch over serves all the same.
                let _is_watched = keep_watch(&stream);
                return Ok(stream);
            }
            Err(error) => fault = fault_of(error.raw_os_error()),
        }
    }
    Err(fault)
}

/// Both ends of a stream to a host, whose peer may say nothing for ever.
fn dialled_ends<R: SystemNet<Stream = TcpStream> + SystemClock + Copy>(
    rt: R,
    alloc: Global,
    address: &str,
) -> Result<(SocketSource<R>, SocketSink), NetFault>
    ensures patience { IfOk result (λ ends. ends.0.patience ≡ None) }
    ensures source { IfOk result (λ ends. (ends.0.ended ≡ false) × (ends.0.faults ≡ 0) × (ends.0.idles ≡ 0) × (ends.0.name ≡ 0)) }
    ensures sink { IfOk result (λ ends. (ends.1.faults ≡ 0) × (ends.1.name ≡ 0)) }
{
    match connect(&rt, address) {
        Ok(stream) => match ends_of(rt, alloc, stream, 0, None) {
            Ok((source, sink)) => Ok((source.waiting_long(), sink)),
            Err(fault) => Err(fault),
        },
        Err(fault) => Err(fault),
    }
}

impl<
    R: SystemNet<Listener = TcpListener, Stream = TcpStream> + SystemClock + Copy + Send + 'static,
> Net for StdNet<R> {
    ghost use Rattle.std.specs.Prelude.{◌≡◌, None};

    type Door = StdDoor;

    type In = SocketSource<R>;

    type Out = SocketSink;

    ghost counts = { λ s. record { door_faults = s.door_faults; dial_faults = s.dial_faults; accepted = s.accepted } };

    ghost no_room = { λ s. s.no_room };

    ghost streams = { λ _. None };

    fn bind(&mut self, address: &str) -> Result<StdDoor, NetFault> {
        match listen(&self.rt, address) {
            Ok(listener) => Ok(StdDoor { listener }),
            Err(fault) => {
                self.door_faults = self.door_faults.saturating_add(1);
                Err(fault)
            }
        }
    }

    fn accept(&mut self, door: &mut StdDoor) -> Result<(SocketSource<R>, SocketSink), NetFault> {
        let name = self.accepted.saturating_add(1);
        match next_ends(self.rt, self.alloc, door, name) {
            Ok(ends) => {
                self.accepted = name;
                Ok(ends)
            }
            Err(fault) => {
                self.door_faults = self.door_faults.saturating_add(1);
                Err(fault)
            }
        }
    }

    fn dial(&mut self, address: &str) -> Result<(SocketSource<R>, SocketSink), NetFault> {
        if let Some(pauses) = &mut self.pauses {
            pauses.wait(&self.rt);
        }
        match dialled_ends(self.rt, self.alloc, address) {
            Ok(ends) => Ok(ends),
            Err(fault) => {
                self.dial_faults = self.dial_faults.saturating_add(1);
                self.no_room = fault.no_room_after(self.no_room);
                Err(fault)
            }
        }
    }

    fn settle(&mut self) {
        if let Some(pauses) = &mut self.pauses {
            pauses.begin_anew();
        }
    }

    fn another(&self) -> StdNet<R> {
        StdNet {
            rt: self.rt,
            alloc: self.alloc,
            door_faults: 0,
            dial_faults: 0,
            no_room: 0,
            accepted: 0,
            pauses: Some(Pauses::new()),
        }
    }
}
