//! The service's machine as a program: what a request makes of the tree is planned on it, and then carried out in place.
//!
//! Each function's contract is the definition of `zk_model` that it computes. The judge of transcripts stands on this crate; the
//! service, which keeps its tree as keys of etcd, does not.
#![tactic(auto)]

mod alone;
mod create;
mod delete;
mod draft;
mod drafting;
mod edit;
mod fault;
mod groups;
mod laws;
mod multi;
mod node;
mod outcome;
mod paths;
mod requests;
mod stats;
mod tree;
mod turn;
mod update;
mod write;

pub use alone::{single, single_check, single_create, single_delete, single_set_data};
pub use create::begin;
pub use edit::Edit;
pub use fault::Fault;
pub use laws::{parts_fit, sound_trees_fit};
pub use multi::{Transaction, several};
pub use outcome::Outcome;
pub use stats::stat;
pub use tree::Tree;
pub use turn::Turn;
pub use write::Write;
