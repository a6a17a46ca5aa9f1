//! Views, and what is decided on them: the words that the crates of requests, of sessions and of a connection share.
//!
//! A request is answered in rounds. What it has to look up is a list of [`Want`]s; what an etcd answers to them is added to
//! a [`View`], all of whose keys are of one revision; and when nothing is wanted any more, a [`Decision`] is made on the
//! view. A [`Plan`] is an update: a transaction that guards what its request read. It takes place only where these keys still
//! are as they were seen, and otherwise reads them again.
//!
//! A view may be kept for the next request of its path. A kept view has no lists of children, and at most 65,536 bytes of keys
//! and values ([`View::trimmed`]). What an update leaves of its view is a view again ([`View::after`]): it agrees with the keys
//! that the update leaves ([`what_an_update_leaves`]), though nothing was read. An update that is planned on a kept view needs no
//! read of its own. Where a key has changed since, a guard does not hold, and the answer shows the keys as they are now.
//!
//! In `specs/`, in reading order: `Seen` (a view, and what it saw), `Asks` (the ranges that are read, and what their
//! answers show), `Adding` (what a view takes), `Views` (which states a view is of, and what a decision and a plan are
//! worth), `Leaving` (what the parts of a multi leave), `Needs` (what a request looks up), `Deciding` (what is asked of each
//! decision), `Keeping` (what an update leaves, and which views are kept), `Lacking`, `Indexing`, `Laying`, `Lookups`,
//! `Laws`. The laws are the functions of `laws`, and stand in `proofs/` by topic: `SeenAfter`, `Showing`, `AsSeen`,
//! `Narrowing`, `Tested`, `Committing`, `Asked`, `After`, `Guarded`, and `LeftOnViews` (a view determines what parts leave). A
//! plan carries its update out if its changes are those of the update in each state whose keys have what the view
//! saw ([`a_plan_commits`]); so that is what a request's crate shows.
//!
//! A look-up goes over the keys that were seen and copies no value; for many look-ups there is an index ([`View::index`]). Adding
//! to a view copies each value that is kept once.
#![tactic(auto)]

mod add;
mod children;
mod fault;
mod guards;
mod index;
mod keep;
mod kind;
mod lacking;
mod laws;
mod leaving;
mod lookup;
mod numbers;
mod plan;
mod round;
mod snapshot;
mod view;
mod want;

pub use add::{found_in, last_found};
pub use children::{children_end, children_start};
pub use fault::ViewFault;
pub use guards::is_head;
pub use index::{Index, found_by};
pub use laws::{
    a_plan_commits, a_plan_is_answered, a_plan_may_be_asked, a_round_agrees, a_session_is_tested,
    children_are_listed, guarded_keys_are_as_seen, some_keys_are_enough, the_last_update_is_told,
    what_an_update_leaves, what_was_wanted_is_seen,
};
pub use leaving::{NodeNow, TreeChange};
pub use numbers::{are_numbers, is_count};
pub use plan::{Arm, Decision, Plan, Who, refused, success};
pub use round::{ranges, reading};
pub use snapshot::{SeenChildren, SeenKey, Snapshot, copy_kv};
pub use view::View;
pub use want::{Want, head_wants};
