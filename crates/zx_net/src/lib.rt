//! A clock, a net and a starter of jobs as traits: what waits for the time, for peers or for threads is generic over a
//! [`Clock`], a [`Net`] and a [`Spawner`], so the same code runs over the system and over memory.
//!
//! # Clocks
//!
//! [`Clock::now`] is the time in milliseconds since 1970, below 2^62. It may go back. A [`MemClock`] stands still.
//!
//! # Nets
//!
//! A [`Net`] gives a door that listens ([`Net::bind`]), and the two ends of a stream, a source and a sink, that was
//! accepted at a door ([`Net::accept`]) or dialled ([`Net::dial`]). It counts the faults of its doors, those of its
//! dials, and the streams that it accepted: a call that answers a [`NetFault`] counts one fault, an accept that
//! succeeds counts one stream, and nothing else is counted. The dials that failed because there was no room
//! ([`NetFault::NoRoom`]) have a count of their own besides. So a program that answers for a fault of its net can show
//! that the net had one. A count stops at 2^64 - 1.
//!
//! The two ends of an accepted stream are named by the number of streams accepted so far, from 1. Every other source
//! and sink is named 0. What is handed out is fresh: it has given or taken nothing, and had no fault and no idle turn.
//!
//! [`Net::another`] gives a second net with counts of its own, for a worker that dials. A net may pause before a dial that comes soon
//! after others; [`Net::settle`] tells it that the last stream was of use, and changes no count.
//!
//! In a [`MemNet`] each accepted stream ends at once, each dialled one gives listed bytes, and what is written stays
//! in memory. A net in memory tells the bytes that its next dials give; a net of the system tells nothing of them.
//!
//! # Bells
//!
//! One who waits for a source and for another thread at once asks the source for a [`Bell`] ([`Wakes::bell`]), arms it,
//! looks at what the other thread gives, and then reads. The other thread gives, and then rings. A read that waits
//! answers an idle turn once the bell was rung, so no ring between the look and the read is lost. Both name 64 bits: a ring passes
//! over a reader that asked for none of its bits, unless either named all.
//!
//! # Jobs
//!
//! [`Spawner::start`] has a job run, in a thread of its own or in place, and hands it back where it could not be
//! started. Each job that is handed back counts as one refusal. An [`InlineSpawner`] runs a job before `start`
//! returns.
//!
//! Nothing here takes memory but a [`MemSink`](zx_outside::MemSink) that is written to. The forms over the system
//! stand in a crate above.
#![tactic(auto)]

mod bell;
mod clock;
mod inline_spawner;
mod memory_clock;
mod memory_net;
mod named;
mod net;
mod spawner;

pub use bell::{Bell, NoBell, Wakes};
pub use clock::Clock;
pub use inline_spawner::InlineSpawner;
pub use memory_clock::MemClock;
pub use memory_net::{MemDoor, MemNet};
pub use named::Named;
pub use net::{Net, NetFault};
pub use spawner::Spawner;
