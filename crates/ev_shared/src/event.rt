//! What happened to a shared store.

use ev_types::{Answer, Ask};
use std::snapshot::Snapshot;

/// What happened to a shared store. It has no bytes but for the number of a lease.
#[derive(Drop)]
pub enum Event {
    /// An ask was carried out, with this answer.
    Asked(Snapshot<Ask>, Snapshot<Answer>),
    /// The lease with this number lapsed.
    Lapsed(i64),
}
