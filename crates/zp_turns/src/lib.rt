//! Turns of connections whose updates are in each other's way.
//!
//! An update is one guarded transaction. Where many connections update records of one node at once, one of them wins and all
//! others ask again, so their asks grow with the square of their number. Therefore those of one proxy queue: updates contend at a
//! path ([`Turns::wait`] says which), each path has one queue, first come, first served, and a connection joins it before its frame
//! is handed in and leaves it when no ask is out. Mostly one of them asks at a time then, and no guard fails by another.
//!
//! A turn is a lease: where somebody waits for it, it ends after half a second, so that one slow answer holds up nobody for longer.
//! A wait has no such bound, since whoever went on without a turn would be in the way of all others again. Nobody who has a turn
//! waits for another, so no two wait for each other.
//!
//! Proxies do not wait for each other. A turn of more than two asks is taken for a sign that another proxy updates there, since a plan was
//! refused, and the next turn at that path begins two milliseconds later: so proxies do not refuse each other's plans all the time.
//!
//! No clause speaks of order or time: a turn that comes too early, too late or never costs time alone. A join, a leave and a
//! look at whose turn it is cost a search for the queue among those that are there, and nothing that grows with who waits in it.
#![tactic(auto)]

mod contention;
mod in_turn;
mod queue;
mod queues;
mod turns;

pub use in_turn::InTurn;
pub use queues::Queues;
pub use turns::{NoTurns, Reaps, Turns};

#[cfg(test)]
mod tests;
