//! Links to an etcd, as a trait: the proxy asks by an [`Etcd`], over HTTP or in memory.
//!
//! A call takes an ask and gives the answer, or fails. After a failure the ask may have been carried out or not. Each failure is
//! counted. A link may tell contracts its calls: one over HTTP does, and one to a store of its own; one to a store that others change
//! does not. `specs/Fitting` says which answers fit an ask, and `specs/Honest` what an etcd that keeps its guarantees answers; a link
//! to a store of its own is one ([`links_alone_are_honest`]).
#![tactic(auto)]

mod cluster;
mod etcd;
mod laws;

pub use cluster::Cluster;
pub use etcd::{CallFault, Etcd};
pub use laws::links_alone_are_honest;
