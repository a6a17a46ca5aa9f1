//! What one copy of the list keeps of an entry and of an end.
//!
//! Both copies and the readers share an entry, and so each wants an owner of its own. Where memory is refused to one, the copy
//! keeps the entry's place without it, and a reader that comes to the place is answered [`Fed::Memory`]. So a change never fails
//! once it was noted for both copies.

use crate::feed::{Fed, FeedEnd};
use std::alloc::{AllocError, Global};
use std::marker::Model;
use std::sync::Arc;
use zn_layout::Entry;
use zx_history::GhostHistory;

/// An entry in its place. Contracts see the entry, whether the copy owns it or not.
#[derive(Drop)]
pub struct Kept {
    /// `None` where memory was refused to one more owner of the entry.
    entry: Option<Arc<Entry, Global>>,
    all: GhostHistory<Entry>,
}

impl Model for Kept {
    ghost use Rattle.zn_layout.specs.declared.entry.Entry.{Entry};
    ghost use Rattle.zw_hub.specs.Kept.{entry_of, IsOwned};

    ghost Value = { Entry };

    ghost view = { λ k. entry_of k.all.items };

    ghost invariant = { λ k. IsOwned k.entry (entry_of k.all.items) };
}

impl Kept {
    ghost use Rattle.std.specs.Prelude.{◌≡◌};
    ghost use Rattle.std.specs.Arc.{arc_value};
    ghost use Rattle.zw_hub.specs.Feeds.{IsFedEntry};

    /// This entry, with one more owner if there can be one.
    pub fn of(entry: &Arc<Entry, Global>) -> Kept
        ensures { result ≡ arc_value entry.now }
    {
        let all = GhostHistory::new().and(&**entry);
        match Arc::try_clone(entry) {
            Ok(mine) => Kept {
                entry: Some(mine),
                all,
            },
            Err(AllocError) => Kept { entry: None, all },
        }
    }

    /// What a reader is answered whose next entry this is.
    pub fn answer(&self) -> Fed
        ensures { IsFedEntry self.now result }
    {
        let Some(entry) = &self.entry else {
            return Fed::Memory;
        };
        match Arc::try_clone(entry) {
            Ok(entry) => Fed::Entry(entry),
            Err(AllocError) => Fed::Memory,
        }
    }
}

/// The end of a list. Contracts see the end, whether the copy owns it or not.
#[derive(Drop)]
pub struct KeptEnd {
    /// `None` where memory was refused to one more owner of the end.
    end: Option<Arc<FeedEnd, Global>>,
    all: GhostHistory<FeedEnd>,
}

impl Model for KeptEnd {
    ghost use Rattle.zw_hub.specs.declared.feed.FeedEnd.{FeedEnd};
    ghost use Rattle.zw_hub.specs.Ends.{IsProper};
    ghost use Rattle.zw_hub.specs.Kept.{end_of, IsOwned};

    ghost Value = { FeedEnd };

    ghost view = { λ e. end_of e.all.items };

    ghost invariant = { λ e. IsOwned e.end (end_of e.all.items) × IsProper (end_of e.all.items) };
}

impl KeptEnd {
    ghost use Rattle.std.specs.Prelude.{◌≡◌};
    ghost use Rattle.std.specs.Arc.{arc_value};
    ghost use Rattle.zw_hub.specs.Ends.{IsProper};
    ghost use Rattle.zw_hub.specs.Feeds.{IsFedEnd};

    /// This end, with one more owner if there can be one.
    pub fn of(end: &Arc<FeedEnd, Global>) -> KeptEnd
        requires { IsProper (arc_value end.now) }
        ensures { result ≡ arc_value end.now }
    {
        let all = GhostHistory::new().and(&**end);
        match Arc::try_clone(end) {
            Ok(mine) => KeptEnd {
                end: Some(mine),
                all,
            },
            Err(AllocError) => KeptEnd { end: None, all },
        }
    }

    /// What a reader is answered that has taken every entry.
    pub fn answer(&self) -> Fed
        ensures { IsFedEnd self.now result }
    {
        let Some(end) = &self.end else {
            return Fed::Memory;
        };
        if let FeedEnd::Memory = **end {
            return Fed::Memory;
        }
        match Arc::try_clone(end) {
            Ok(end) => Fed::Closed(end),
            Err(AllocError) => Fed::Memory,
        }
    }
}
