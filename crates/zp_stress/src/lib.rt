//! Schedules that a number makes: several clients at three proxies, whose requests, and the order in which these are carried out,
//! answered and told, are drawn from a seeded generator. The same numbers make the same schedule, so a run can be repeated.
//!
//! [`stress`] runs one over a [`World`](zp_world::World), as a script would be run, and counts what was sent. Each client opens and
//! connects; then each step draws a connection, a request and a path. Where the connection has something out, the step brings that
//! on: its ask is carried out, the answer delivered, or the next update told. Otherwise the request is sent. At the end each
//! connection is settled.
//!
//! Nothing but the three numbers decides what happens: no clock is read, no source and no net.
//!
//! A step costs what its happening costs in the world, and at most one look through the transcript back to the connection's last
//! frame or reply, which is some steps for each connection.
//!
//! What a step draws, the requests and what is counted stand in the crate [`zp_clients`]. In `specs/`, in reading order:
//!
//! - `Clients`: the lines by which the clients open, and those by which they are settled;
//! - `Passing`: lines that are passed over where they are not possible;
//! - `Schedules`: the whole schedule;
//! - `Stressed`: what [`stress`] claims.
#![tactic(auto)]

mod client;
mod passing;
mod run;
mod schedule;

pub use run::{MAX_CONNECTIONS, stress};
pub use zp_clients::{Summary, push_summary};
