//! A link to an etcd over HTTP, to its JSON gateway.
//!
//! A [`HttpLink`] stands over the two ends of one connection, whatever they are. Each call sends the ask's text in one request and
//! reads the next response as its answer; `specs/Asking` says so. A failure is kept, and a link that failed sends nothing more, since
//! the connection may still hold the answer of an earlier ask. It tells contracts its calls, and keeps none of them at run time.
//! [`HttpLink::hang_up`] ends the connection while the link, and what it tells, is kept.
//! [`link_to`] dials the addresses of a text in turn, until one answers.
#![tactic(auto)]

mod dial_cluster;
mod failure;
mod http_link;
mod reaching;

pub use dial_cluster::{DialCluster, counted};
pub use ev_call::{CallFault, Cluster, Etcd};
pub use failure::LinkFailure;
pub use http_link::HttpLink;
pub use reaching::{NoLink, link_to};
