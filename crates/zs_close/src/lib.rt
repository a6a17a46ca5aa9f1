//! The end of a session, planned on a view: of one that its client closes, and of one that has lapsed.
//!
//! Either way the session, the list of its nodes and every node of it go in one transaction, at one zxid. Each parent's
//! counts are put once, and watches see the triggers of each delete, in the order of the paths' bytes (Programmer's Guide,
//! "Ephemeral Nodes"). The transaction guards what the end of the session reads, but for the head, and no other key, whatever
//! else the view saw: where the session made a node meanwhile, or was resumed, it changes nothing.
//!
//! What is looked up is the head, the record of the session's life, the list of its nodes, and the counts of the nodes'
//! parents: two rounds where there are nodes, otherwise one. A session owns at most 40 nodes with counts of their own, or at most
//! 60 without, and so a plan has at most 124 operations.
//!
//! In `specs/`, in reading order: `Ending` (what changes), `Wanting` (what is read, and so looked up and guarded), `Closing`
//! (what decides a close, and the plan of an end), `Reaping` (what decides the end of a session that has lapsed). In
//! `proofs/` by topic: `Removed`, `Members` and `ParentPaths` (a tree after many deletes), `Written` and `EndFits` (the
//! changes are those of the end), `EndPlans`, `Closes` and `Reaps` (decisions and plans), `KeysRead` (needs and guards),
//! `Distinct`, `WritesAfter`, `Sizes` and `Taken` (an etcd takes the plan).
//!
//! For n nodes below m parents, the comparisons of paths that a plan takes grow with n · m.
#![tactic(auto)]

mod changes;
mod close;
mod parents;
mod plan;
mod reap;
mod wants;

pub use close::{needs_close, plan_close};
pub use reap::{Reaping, needs_reap, plan_reap};
