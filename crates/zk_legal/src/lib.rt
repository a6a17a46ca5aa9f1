//! Whether the updates of a transcript are one run of the service.
//!
//! [`history_fault`] names the first line that no run can have written there, by its form or by what it does to the state, and
//! [`order_fault`] the first that carries out a request out of its connection's order. Their contracts are the definitions of
//! those names in `specs/Faults.antt`, which cite those of `zk_transcript`. Each goes over the lines once; what a line needs of
//! the lines before it is looked up in tables.
#![tactic(auto)]

mod counts;
mod formed;
mod history;
mod lasts;
mod laws;
mod legal;
mod order;

pub use history::history_fault;
pub use laws::{
    frames_without_fault_are_fresh, lines_in_order_are_ordered, lines_without_fault_are_legal,
    lines_without_fault_have_zxids, numbers_without_fault_fit,
    sessions_without_fault_have_passwords, unopened_connections_are_silent,
    updates_without_fault_are_short,
};
pub use order::order_fault;
