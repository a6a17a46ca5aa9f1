//! Where a connection takes its entries from.

use crate::published::Published;
use std::alloc::Global;
use std::sync::Arc;
use zn_layout::Entry;
use zx_base::Bytes;

/// Why no more entries come.
#[derive(Debug, Drop)]
pub enum FeedEnd {
    /// etcd has compacted the revisions below this one, which may have had updates that were not published.
    Compacted { rev: i64 },
    /// The head had the number `found` where the next update's number, `expected`, should have been. The two differ.
    Gap { expected: i64, found: i64 },
    /// The head's value, found under this key, is not a record.
    Damaged { key: Bytes, value: Bytes },
    /// The watch could not be opened again.
    NoLine,
    /// The writer ran out of memory. Readers are answered [`Fed::Memory`], not this.
    Memory,
}

/// What a read of a feed gives.
#[derive(Drop)]
pub enum Fed {
    /// The entry after the cursor: its number is the cursor's plus 1.
    Entry(Arc<Entry, Global>),
    /// No entry is above the cursor yet.
    None,
    /// The entry after the cursor is no longer kept, or was forgotten. The floor is the number before that of the oldest entry that is told.
    Lagged { cursor: i64, floor: i64 },
    /// No entry is above the cursor, and none will come.
    Closed(Arc<FeedEnd, Global>),
    /// Memory was refused, or the feed was closed because memory ran out, and the cursor is at its end.
    Memory,
}

/// Where a connection takes its entries from.
pub trait Feed {
    ghost use Rattle.std.specs.Prelude.{◌≡◌, ◌≢◌, ℕ, ◌+◌, ◌<◌, ◌<ℤ◌};
    ghost use Rattle.zw_hub.specs.declared.published.Published.{Published};
    ghost use Rattle.zw_hub.specs.Lists.{floor, Extends};
    ghost use Rattle.zw_hub.specs.Feeds.{IsFed, IsLagged, IsOneRead, if_lagged, if_closed};

    // The list that it found at its last read. Before the first it means nothing.
    ghost list: { Self → Published };

    // How many reads of the list it has made.
    ghost reads: { Self → ℕ };

    // How often it answered that it lagged.
    ghost lags: { Self → ℕ };

    // How often it answered that the list is closed.
    ghost closings: { Self → ℕ };

    /// Reads the list, and gives the entry whose number is `cursor + 1`.
    fn next(&mut self, cursor: i64) -> Fed
        ensures once { IsOneRead result
            (reads self.old) (reads self.new) (list self.old) (list self.new) }
        ensures extends { 0 < reads self.old → Extends (list self.new) (list self.old) }
        ensures answer { IsFed (list self.new) cursor result }
        ensures below { cursor <ℤ floor (list self.new) → result ≢ Fed.Memory → IsLagged result }
        ensures lags { lags self.new ≡ lags self.old + if_lagged result }
        ensures closings { closings self.new ≡ closings self.old + if_closed result };

    /// From now on the reader waits for entries of one of these bits alone. A look gives every entry all the same.
    fn heed(&mut self, bits: u64)
        ensures list { list self.new ≡ list self.old }
        ensures reads { reads self.new ≡ reads self.old }
        ensures lags { lags self.new ≡ lags self.old }
        ensures closings { closings self.new ≡ closings self.old };
}
