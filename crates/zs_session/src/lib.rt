//! Sessions: how a connection gets its session, and when a session has to be kept alive.
//!
//! A connection begins with a connect. [`Connecting`] asks etcd for what it takes to answer it, one ask a step: a new session
//! gets a lease and then a transaction that puts its two keys; one that is resumed is looked up by its number and password,
//! its lease is kept alive, and a transaction attaches it to this connection. If a guard of a transaction fails, its answer
//! shows what is there now, and the next step goes on from that. The end is [`ConnectStep::Attached`], or the cause for which
//! the connection is closed.
//!
//! A step does no IO and reads no clock: the caller has the ask carried out, and makes the next step with the answer.
//!
//! In `specs/`, in reading order: `Sessions` (what is asked for a session), `Answering` (which answers an ask may have),
//! `Connecting` (`asked_in_phase`: what is asked in each phase; `ConnectSteps`: what a step does), `Alive`. The laws are the functions of
//! `laws`: the transactions may be sent, and what their answers show. What keys stand for after them is a law of `zp_laws`.
//!
//! A step takes memory for its ask, and copies what a look shows once; it keeps no view between two steps.
#![tactic(auto)]

mod alive;
mod answers;
mod asks;
mod attached;
mod connect;
mod connecting;
mod fault;
mod first;
mod laws;
mod looks;
mod moves;
mod txns;

pub use alive::alive_due;
pub use asks::attach_wants;
pub use attached::number_in;
pub use connect::{Connect, ConnectStep, Phase};
pub use connecting::Connecting;
pub use fault::StepFault;
pub use laws::{a_session_is_sendable, a_session_shows_its_number, sessions_are_read_again};
pub use looks::look;
pub use zk_service::Fresh;
