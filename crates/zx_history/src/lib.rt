//! What happened so far, for proofs alone.
//!
//! A shared value often keeps less than a contract has to speak of: a ring keeps the newest items, and the contract is
//! about all that were ever put in. A [`GhostHistory`] beside it is the whole list. It has no bytes, takes no memory and
//! does nothing at run time. It may be sent to other threads and shared with them where its items may be sent.
#![tactic(auto)]

mod ghost_history;

pub use ghost_history::GhostHistory;
