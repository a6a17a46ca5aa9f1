//! A link to an etcd of several endpoints.
//!
//! [`Endpoints`] are the endpoints of one etcd, one to five of them, each of which can be asked. [`FailoverLink`] is a link over them:
//! it asks the current one, and goes on to the next where that is safe. An ask that only reads is tried at each endpoint until one
//! answers. Any other ask is tried at the next endpoint only where it is certain that it was not sent: one that failed may have been
//! carried out, so it is never sent again. `specs/Turns` has the order of the tries, and `specs/Theorem` what follows from it.
//!
//! [`DialEndpoints`] are addresses that are dialled, each by a connection of its own. [`MemEndpoints`] all stand before one etcd in
//! memory.
#![tactic(auto)]

mod dial_endpoints;
mod dialled;
mod endpoints;
mod failover_link;
mod memory_endpoints;
mod named;
mod reading;
mod sent_list;

pub use dial_endpoints::DialEndpoints;
pub use endpoints::{EndFault, Endpoints};
pub use ev_call::{CallFault, Cluster, Etcd};
pub use failover_link::FailoverLink;
pub use memory_endpoints::MemEndpoints;
pub use reading::is_reading;
