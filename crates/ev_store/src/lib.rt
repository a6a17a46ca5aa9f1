//! An etcd in memory: the list of its revisions with what each changed, and an index by which a key, a range and a lease are found.
//!
//! In `ev_types`, `specs/Store.antt` says what an etcd answers and `specs/Denials.antt` what it denies: [`Store::carry_out`] is
//! proved to do that, and [`Store::lapse`] and [`Store::foreign`] to do what `specs/Lapses.antt` says. In this crate,
//! `specs/Events.antt` says what [`Store::events_since`] gives, `specs/Compaction.antt` what [`Store::compact`] does, and
//! `specs/FirstDenial.antt` which denial is named. Contracts see the list of revisions alone, so they do not tell the index.
//!
//! # Cost
//!
//! With k keys that were ever written, of which a key has v versions:
//!
//! | Call | Time in proportion to |
//! |---|---|
//! | a guard, a put or a delete | log k + log v |
//! | a range, at the present or an older revision | the keys of the range that were ever written, times log k + log v |
//! | a lapse | the puts that named the lease, times log k + log v |
//! | `events_since` | the changes of the revisions that it reads, up to the last put given, times log k + log v |
//! | `compact` | 1 |
//!
//! Nothing is forgotten: memory grows with all that was ever put. A value is kept once; a key once for each change of it, once in
//! the index, and once for each put of it that names a lease.
//!
//! # Memory
//!
//! A call that is refused memory leaves the store as it was. A new revision is added before its changes are taken into the index.
//! Where memory is refused then, the call has succeeded and the index lags behind: look-ups read the revisions that it lacks one by
//! one, and the next revision goes on with them. So no answer shows whether it lags.
#![tactic(auto)]

mod change;
mod compaction;
mod events;
mod fault;
mod history;
mod key;
mod lapse;
mod laws;
mod leased;
mod leases;
mod operations;
mod range;
mod refusal;
mod shared;
mod store;
mod transaction;
mod versions;
mod within;

pub use fault::{Denied, StoreFault};
pub use laws::{
    a_denial_is_named, a_revision_has_one_value, asks_keep_the_past, compaction_keeps_reads,
    limits_are_defined, puts_follow_the_revisions, reads_fold_the_revisions,
};
pub use store::Store;
