//! One connection over streams: the client's bytes in, packets out.
//!
//! [`serve_connection`] drives a [`Core`](zp_core::Core) over a source and a sink of bytes, a link to etcd, a feed of entries and
//! a clock, to the connection's end, and gives the cause.
//!
//! A frame is handed in only where the core wants one. Where it wants a frame or an entry, the feed is looked at first. Where it
//! wants a frame alone and a read gives nothing, it looks whether the feed has ended, so that an idle client is closed too. A
//! length out of range and the client's end are handed in after all whole frames. While a reply waits for its entry, the client's
//! stream is read on, up to [`MOST_AHEAD`](inbox::MOST_AHEAD) bytes, so that a read that waits can wait for the client or for a
//! bell; past that, and after the client's end, the turn yields.
//!
//! Packets are held back while further whole frames are there, and go out in one write. After each input they go out where no whole
//! frame is left, where etcd is asked next, where a reply waits for its entry, where the next frame may wait for its turn, where they
//! are [`MOST_HELD`](outbox::MOST_HELD) bytes, and [`LONGEST_HELD`](outbox::LONGEST_HELD) milliseconds after the first of them. So no
//! packet waits for a frame that has not come, for etcd or for a turn.
//!
//! In [`serve_in_turn`] a frame may wait for its turn before it is handed in, so that the updates of one proxy do not contend
//! ([`Turns`]). The turn ends once no ask is out. While it waits, a connection does nothing else, and a keepalive that comes due then
//! is asked for before the request. [`serve_connection`] is the same where nobody waits.
//!
//! A publisher of entries that would wake the connection rings the bell of its source (`Wakes` of `zx_net`). A [`Belled`] feed arms
//! that bell before each look for an entry, with the bits that the connection last told it: those of its armed watches, or all while a
//! reply waits.
//!
//! Running out of memory, in the trace too, ends the connection. What was sent by then is still written.
//!
//! In `specs/`, in reading order: `Serving` (what a call did, and what shows why it ended), `Driving` (when the client's frames are
//! handed in), `Answered` (which of them were answered), `Uncut` (where nobody cuts a connection off), and then what the parts do:
//! `Inboxes`, `Writing`, `Speaking`, `Handing`, `Inputs`, and `Turning`, which has the loop's invariant.
#![tactic(auto)]

mod bells;
mod handing;
mod inbox;
mod inputs;
mod laws;
mod outbox;
mod serving;
mod speaking;
mod telling;
mod writing;

pub use bells::Belled;
pub use laws::what_ends_uncut_connections;
pub use serving::{serve_connection, serve_in_turn};
pub use telling::{TellsAll, TellsFeed, TellsInputs, TellsLink, TellsSink, TellsSource};
pub use zk_service::Cause;
pub use zp_core::Fresh;
pub use zp_run::{Event, ListTrace, NoTrace, Trace};
pub use zp_turns::{NoTurns, Turns};
