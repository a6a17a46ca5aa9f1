//! The ZooKeeper service as the rest of the workspace speaks of it: its values as Rust types, and in `specs/` the
//! definitions that contracts cite.
//!
//! The types are those of `zookeeper.jute` (release 3.4, and create2, checkWatches and removeWatches of release 3.5) and of
//! the Programmer's Guide, with the fields that a client sees. Contracts see them as they are declared, with [`zx_base::Seq`] fields as lists.
//!
//! The definitions, in reading order: `Limits`, `Codes`, `Kinds`, `Access`, `Paths`, `PathFaults`, `Znodes`, `Single`,
//! `Multi`, `Loads`, `Watches`. They are the machine: what each request does to a tree of znodes, and what watches see of it.
#![tactic(auto)]

pub mod access;
pub mod code;
mod connect;
pub mod event;
pub mod flags;
mod layout;
pub mod limit;
pub mod load;
mod node;
mod path;
mod path_set;
mod reply;
mod request;
pub mod version;
pub mod watcher;

pub use connect::{ConnectRequest, ConnectResponse};
pub use layout::Layout;
pub use node::{Node, Stat, Trigger};
pub use path::{Path, PathFault, read_path};
pub use path_set::PathSet;
pub use reply::{Body, Notice, PartResult, Reply};
pub use request::{Acl, Part, Request};
