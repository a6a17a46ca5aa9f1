//! One connection as a state machine: what it is handed, what it does then, and what a step of it is.
//!
//! A connection is handed one [`Input`] at a time, with the time at which it comes, and answers with [`Action`]s: asks for
//! etcd, packets for its client, and at last the [cause](zk_service::Cause) for which it is closed. It has at most one ask
//! out, and answers its client's frames in order. The client is told of an update that fires one of its watches before it is sent
//! a reply computed on a state with that update (ZooKeeper Programmer's Guide, "ZooKeeper Sessions", "ZooKeeper Watches",
//! "Consistency Guarantees").
//!
//! A step is defined in `specs/` alone, as a relation (`Steps`); the code that takes the steps is in `zp_core`. It is a
//! relation because what a request asks for and what is decided on it are defined by what must be true of them (`AreNeeds`,
//! `IsDecision`, `IsPlan`), in the same way for every kind of request. Two kinds alone are named here: a setWatches, which
//! arms many watches at once, and a closeSession, which ends the connection.
//!
//! In `specs/`, in reading order:
//!
//! - `Stages`: what a connection keeps between two steps, and which ask it has out in each stage;
//! - `Replies`: how a reply waits for its entries and is sent;
//! - `Looking`: what is asked and decided on a view;
//! - `Taking`: how a frame is taken up;
//! - `Keepalives`: the keepalive before that, and the look at the session that may follow it;
//! - `Plans`: what follows the answer to a plan's transaction;
//! - `Connects`: how the connection gets its session;
//! - `Entries`: how an update is told;
//! - `Kept`: the views that a connection keeps of the paths that it used;
//! - `Kinds`: which update a connection's transaction is;
//! - `Steps`: a whole step (`Steps`), and which inputs may be handed in (`MayTake`);
//! - `Ending`: the order of a step's actions (`StepsEndWell`), and its frames (`StepsCount`);
//! - `Laws`: what else the functions of `laws` say.
//!
//! `MayTake` says which inputs may be handed in. An answer is of the kind of the ask that is out, and a transaction's has numbers
//! that etcd can have; no step is defined for an answer of another kind. An entry is the one after the cursor, and comes while
//! one is awaited. If a value is found under a key of the service and is no record, the connection ends with that key and value
//! as the cause, and sends nothing. A connection that is shut takes any input and does nothing.
#![tactic(auto)]

mod action;
mod input;
mod laws;
mod wants;

pub use action::Action;
pub use input::Input;
pub use laws::{ends_are_named, shut_for_good, steps_count, steps_end_well};
pub use wants::Wants;
pub use zs_session::Fresh;
