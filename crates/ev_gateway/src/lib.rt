//! The JSON gateway of an etcd in memory, for one HTTP connection (etcd API reference, "gRPC gateway").
//!
//! [`gateway`] reads requests one after the other and answers each before it reads the next: an ask by the store's answer, with
//! status 200; an ask that the store denies, and a body that cannot be read, with status 400. `specs/Serving` says so.
//!
//! A request to watch a key is answered by a stream: a line that says that the watch was created, and a line for each put that the
//! store tells, of rising revisions from the one that was asked for on. The last chunk comes where the store is closed, and after a
//! line that says so where the revision to go on from was compacted (`specs/Streaming`).
//!
//! # Limits
//!
//! What is no HTTP request ends the connection, as does running out of memory: then nothing of an answer was sent, or a front of a watch's
//! stream. A watch holds its connection until the store is closed, a write fails, its revision was compacted, or its client goes away
//! or sends more: about once a second it looks whether one of these is so (`specs/Looking`). What the client sent then is not answered.
#![tactic(auto)]

mod connection;
mod reply;
mod watching;

pub use connection::{GatewayEnd, gateway};
