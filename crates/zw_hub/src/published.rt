//! What is published, as contracts speak of it.

use crate::feed::FeedEnd;
use zn_layout::Entry;
use zx_base::Seq;

/// How many entries are kept for readers: the newest ones.
pub const MAX_KEPT: usize = 4096;

/// The list of all entries that were published, for contracts. No value of it is made: a [`crate::Hub`] keeps only the newest.
pub struct Published {
    /// The number before that of the first entry.
    pub first: i64,
    /// In the order of their numbers, which are consecutive.
    pub entries: Seq<Entry>,
    /// Why the list was closed, where it was.
    pub end: Option<FeedEnd>,
    /// Readers are told no entry up to this number, also if it is kept.
    pub forgotten: i64,
}
