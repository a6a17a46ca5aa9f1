//! The views that a connection keeps of the paths that it used, so that its next update of one of them need not read first.
//!
//! [`KeptViews`] is a cache of 16 views over the `lru` crate. Contracts see it as the list of pairs of a path and its view, the
//! most recently used first, with the operations of `zp_step`'s `Kept`: a new view comes first, and of 17 the last goes. Each
//! view is whole without lists of children, so what [`KeptViews::find`] gives can be copied exactly. Entries are found by a hash
//! of the path ([`PathKey`]); with 16 of them, paths that collide cost nothing to speak of.
//!
//! A cache takes no memory before the first view is kept.
#![tactic(auto)]

mod key;
mod views;

pub use key::PathKey;
pub use views::KeptViews;
