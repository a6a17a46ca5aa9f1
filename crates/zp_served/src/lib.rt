//! One connection that is served alone: laws, and a call that meets them.
//!
//! `serve_connection` of `zp_conn` says what one call did, by what its link and its feed tell; `zp_lives` says what holds of a run over
//! one store. Here the two meet ([`one_served_connection_is_lawful`]): where the link's answers are those that one store gives to the
//! link's calls, in order, and each entry that was handed in is of an update that the store had by then, the run of the call has a
//! world, in whose transcript the connection's conversation is lawful and fresh.
//!
//! [`serve_alone`] is such a call, over a [`BegunLink`]: a link to an etcd in memory that nobody else uses, on which the tree was
//! begun. It tells all that its store was ever asked, so what it tells says what the store is. That the feed is in time stays a
//! premise: what is published, and when, no contract says.
//!
//! In `specs/`: `Honest` (what is needed of the link and of the feed), `Served` (what the laws say), `Begun` (what `serve_alone` did).
#![tactic(auto)]

mod laws;
mod link;
mod serving;

pub use laws::{earlier_entries_are_in_time, one_served_connection_is_lawful};
pub use link::BegunLink;
pub use serving::serve_alone;
