//! The proxy as a server: [`serve`] listens at an address, and serves each client that connects there from an etcd cluster.
//!
//! # The parts
//!
//! - The *listener* is the call of [`serve`] itself. It accepts clients, at most 256 at a time, and starts a worker for each. A
//!   worker hands back what it served as a [`Served`], which the listener writes a line about and gives to a [`Book`].
//! - The *worker* of a connection serves one client over a link of its own to etcd. Then it ends the client's stream and the link's,
//!   so that their descriptors are free at once.
//! - The *watch worker* follows the head, the key that each update puts, and publishes an entry for each update at a hub, from
//!   which the connections read ([`follow`]).
//! - The *reaper workers* look for sessions whose lease has lapsed, and remove them with their ephemeral nodes ([`zs_reaper`]).
//!
//! Two proxies share nothing but the etcd cluster. Within one proxy, updates that contend wait for each other ([`zp_turns`]), those of
//! the reapers too.
//!
//! # Start
//!
//! The head is looked for first. The look only reads, so it goes on to the next endpoint if one does not answer, and the next ask goes
//! to the one that did. If the look shows no head, the cluster is asked to make the root. After a failed ask the call ends; nothing is
//! asked twice.
//!
//! # Waking
//!
//! A connection waits for its client and for the next entry at once. It reads entries from a feed that arms its client's bell
//! before each look ([`Belled`](zp_conn::Belled)); the watch worker rings after it has published ([`Bells`]). So no entry is missed, and
//! an idle connection costs next to nothing.
//!
//! A ring is for the connections whose watches an entry may fire, by bits of their paths, and for those whose reply waits. The others
//! would find nothing, but have to go through the entries before too many more were published, or else they lag: each is rung once in
//! 32 entries too, and not all at the same one, so that they do not all ask for the processor at once. All are rung once the hub is
//! closed. A ring that passes over a connection wrongly costs at most the second after which a wait ends by itself.
//!
//! # Ends
//!
//! A call ends once `limit` clients were accepted and have ended. It ends early where the door is broken, the sink has a fault or
//! memory is refused; then nobody is waited for. Where the watch worker cannot go on it closes the hub, since clients do better at
//! another proxy: no further client is accepted, each connection ends, and the call says why. A connection ends at its next idle
//! turn. Over sockets that is its next read once the watch worker has rung, or comes within about a second, but for one that is in a
//! write or waits for etcd then. To wake the listener, which waits for a client, the watch worker dials the proxy's own address, after
//! as long a pause as before any of its dials. The listener looks at the hub before each accept and after it.
//!
//! # What is written
//!
//! To the sink: `listening ADDRESS`; `closed N CAUSE` for each connection, once the listener comes to it, which can be only when
//! the next client connects; and the end. To standard error, at once: a line in words for each fault of etcd or of the way to it, for
//! each fault at the start, with its address; the session that a connection is given; and once all places for clients are taken.
#![tactic(auto)]

mod accepting;
mod admitting;
mod attached;
mod back;
mod begin;
mod bells;
mod book;
mod desk;
mod ends;
mod explaining;
mod fresh;
mod gate;
mod house;
mod lines;
mod looking;
mod ready;
mod served;
mod serving;
mod starting;
mod taking;
mod telling;
mod turns;
mod working;

pub use bells::Bells;
pub use book::{Book, ListBook, NoBook};
pub use ends::ServeEnd;
pub use ev_addresses::is_address;
pub use gate::{Gate, OpenGate};
pub use served::Served;
pub use serving::serve;
pub use zw_follow::follow;
