//! Faults of etcd, and of the way to it, in words for an operator.
//!
//! A [`Fault`] displays as words. [`tell`] and [`tell_link`] write a line about one to standard error, with the address that was
//! asked.
#![tactic(auto)]

mod fault;
mod telling;

pub use fault::Fault;
pub use telling::{tell, tell_link};
