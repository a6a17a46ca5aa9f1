//! The system's clock, sockets and threads as the [`Clock`](zx_net::Clock), [`Net`](zx_net::Net) and
//! [`Spawner`](zx_net::Spawner) of `zx_net`. Only a program's `main`, and a test over the loopback, name this crate.
//!
//! # Streams
//!
//! Both ends of a TCP stream share one descriptor. What is written goes out at once (`TCP_NODELAY`). A read waits at
//! most 10 milliseconds for a byte, or what the system makes of them, and then answers an idle turn. Of a stream that was dialled a
//! read waits up to a second, and answers as many idle turns in a row as its wait had: so a bound in turns is one in time, and a thread
//! that waits for a peer wakes once a second. A source reads
//! the system's bytes into a buffer of its own and hands them out from there, so reading byte by byte is cheap. After
//! the peer's end the system is not asked again, and each read waits before it answers the end: for the bell, at most a second, or
//! 10 milliseconds where there is none. A write that takes no byte within 60 seconds is a fault.
//!
//! A peer that was accepted and says nothing does not hold its place for good. It has 10 seconds to send 32 bytes, as many
//! as the least connect of a ZooKeeper client has: from then on a turn is a fault as long as fewer came. Once they came, a turn
//! in which the system has no byte is a fault where 60 seconds passed since the last one. A stream that was dialled has no
//! such limits. The system asks its peer's system for a sign of life after each minute without a byte (TCP's keepalive), and the stream is broken
//! where six such asks, each 10 seconds after the last, got no answer.
//!
//! A source that was told to end its stream ([`HangsUp`](zx_random::HangsUp)), and a sink that let go of it ([`LetsGo`](zx_random::LetsGo)),
//! hold no descriptor any more, and each read or write is a fault. Before that the source takes what the peer has sent and nobody will
//! read, up to 8 MiB: a stream that is closed over bytes that were not read is reset, and the peer may lose what was written before.
//!
//! # Bells
//!
//! A reader that waits for its peer and for another thread at once asks its source for a bell
//! ([`Wakes::bell`](zx_net::Wakes::bell)). From then on a read waits for a byte or the bell, up to a second, and costs
//! no turns in between. The reader arms the bell before it looks at what the other thread gives, and the other thread
//! rings after it gave: so a ring between the look and the wait ends the wait, and none is lost. A ring that has none of the bits
//! which the reader asked for costs one look at them. A bell costs the
//! source two descriptors more: the source's own goes as the source is ended, and the bell's as the last who rings it lets go of it.
//!
//! A reader that looks in its idle turns alone gets one after each ring of all bits, armed or not, whatever its peer sends: the next
//! read that would ask the system for bytes is idle. So is the first one after the bell was hung. Where there is no bell,
//! 100 reads in a row that gave bytes are followed by an idle turn.
//!
//! # Accepts and dials
//!
//! Where an accept fails for a cause that passes (no descriptors or no memory left, a peer that is gone already, a
//! signal, an error of the network), it is tried again after 50 milliseconds, and no fault is counted. A dial gives each address of a host 5
//! seconds. A net that [`another`](zx_net::Net::another) gave belongs to a worker that dials again and again, so it
//! waits before a dial that comes within 10 seconds of its last one: 0.1 seconds, twice as long for each such dial in
//! a row, at most 6.4. [`settle`](zx_net::Net::settle) has it begin anew.
//!
//! Faults say why, by the system's code: the address is in use (EADDRINUSE); it is not one of this machine (EADDRNOTAVAIL), is no address,
//! or its name is not known; this program may not (EACCES, EPERM); or no descriptor or memory is left (EMFILE, ENFILE, ENOBUFS, ENOMEM).
//! Where an address was given as a name and several were found, the fault is that of the last one tried.
//!
//! [`connect`], [`ends_of`] and [`prepare`] are parts of a dial and of an accept, and [`Patience`] is a peer's: they can be tried alone.
//!
//! # What is proved
//!
//! Every function is safe, counts are exact, an end is for good, and names are as `zx_net` has them. No contract says
//! what a socket gives or takes, or when a thread runs: that is tested.
#![tactic(auto)]

mod bell;
mod clock;
mod faults;
mod keeping;
mod net;
mod patience;
mod pauses;
mod sink;
mod source;
mod spawner;
mod waits;

pub use bell::SocketBell;
pub use clock::StdClock;
pub use net::{StdDoor, StdNet, connect, ends_of, prepare};
pub use patience::Patience;
pub use sink::SocketSink;
pub use source::SocketSource;
pub use spawner::ThreadSpawner;
