//! The addresses of the endpoints of one etcd, in one text.
//!
//! Commas stand between the addresses. Parts that are empty name none, and of the others the first five count. Where none is named,
//! `localhost` is meant. `specs/Lists` has the addresses of a text as a list; [`address_at`] and [`count_of`] read it, and take no
//! memory.
#![tactic(auto)]

mod lists;
mod visible;

pub use lists::{address_at, count_of, next_of};
pub use visible::{are_visible, is_address};
