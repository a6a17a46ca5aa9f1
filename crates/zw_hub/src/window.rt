//! What `left_right` keeps two copies of: the newest entries, and whether more will come.

ghost use Rattle.std.specs.Prelude.{◌≡◌, ◌<◌, ◌-◌, ◌≤ℤ◌, ◌<ℤ◌, Some, None, IfOk};
ghost use Rattle.std.specs.Arc.{arc_value};

use crate::change::{Change, Ending};
use crate::feed::Fed;
use crate::kept::{Kept, KeptEnd};
use crate::published::{MAX_KEPT, Published};
use circular_buffer::HeapCircularBuffer;
use left_right::Absorb;
use std::alloc::{AllocError, Global};
use std::marker::Model;
use std::sync::Arc;
use zn_layout::Entry;
use zx_history::GhostHistory;

/// The newest entries. Contracts see the whole list that was published.
#[derive(Drop)]
pub struct Window {
    ring: HeapCircularBuffer<Kept>,
    first: i64,
    last: i64,
    end: Option<KeptEnd>,
    /// Readers are told no entry up to this number.
    forgotten: i64,
    all: GhostHistory<Entry>,
}

impl Model for Window {
    ghost use Rattle.zw_hub.specs.declared.published.Published.{Published};

    ghost Value = { Published };

    ghost use Rattle.zw_hub.specs.Windows.{published, IsWindow};

    ghost view = { published };

    ghost invariant = { IsWindow };
}

impl Window {
    ghost use Rattle.std.specs.Prelude.{◌≡◌, ◌<◌, ◌-◌, ◌≤ℤ◌, ◌<ℤ◌, ℤ, Some, None, IfOk};
    ghost use Rattle.std.specs.Arc.{arc_value};
    ghost use Rattle.zw_hub.specs.Lists.{empty, last_number, oldest, floor, is_next, added, closed_by, forgotten_by};
    ghost use Rattle.zw_hub.specs.Feeds.{IsFed, IsLagged};

    /// No entries yet, with room for 4,096; the next is to have the number `first + 1`.
    pub fn new(alloc: Global, first: i64) -> Result<Window, AllocError>
        ensures { IfOk result (λ w. w ≡ empty first) }
    {
        let ring = HeapCircularBuffer::with_capacity(alloc, MAX_KEPT)?;
        Ok(Window {
            ring,
            first,
            last: first,
            end: None,
            forgotten: first,
            all: GhostHistory::new(),
        })
    }

    /// The number before that of the oldest entry that is kept.
    fn oldest(&self) -> i64
        ensures { result ≡ oldest self.now }
    {
        let _first = self.first;
        self.last - self.ring.len() as i64
    }

    fn floor(&self) -> i64
        ensures { result ≡ floor self.now }
    {
        self.oldest().max(self.forgotten)
    }

    fn is_next(&self, entry: &Entry) -> bool
        ensures { result ≡ is_next self.now entry.now }
    {
        self.end.is_none() && entry.number > self.last && entry.number - 1 == self.last
    }

    /// What a reader with this cursor is answered.
    #[tactic(auto, using(crate::proofs::Keeping::above_oldest))]
    pub fn look(&self, cursor: i64) -> Fed
        ensures answer { IsFed self.now cursor result }
        ensures below { cursor <ℤ floor self.now → IsLagged result }
    {
        let floor = self.floor();
        if cursor < floor {
            return Fed::Lagged { cursor, floor };
        }
        if cursor < self.last {
            return self.kept(cursor);
        }
        self.above()
    }

    /// The entry after the cursor, which is kept and not forgotten.
    fn kept(&self, cursor: i64) -> Fed
        requires kept { oldest self.now ≤ℤ cursor }
        requires least { floor self.now ≤ℤ cursor }
        requires most { cursor <ℤ last_number self.now }
        ensures { IsFed self.now cursor result }
    {
        let place = (cursor - self.oldest()) as usize;
        self.ring.get(place).unwrap().answer()
    }

    /// What a reader is answered that has taken every entry.
    fn above(&self) -> Fed
        ensures { (cursor : ℤ) → last_number self.now ≤ℤ cursor → IsFed self.now cursor result }
    {
        match &self.end {
            None => Fed::None,
            Some(end) => end.answer(),
        }
    }

    /// Adds an entry, if it is the next one; otherwise nothing changes.
    fn add(&mut self, entry: &Arc<Entry, Global>)
        ensures { self.new ≡ added self.old (arc_value entry.now) }
    {
        if !self.is_next(entry) {
            return;
        }
        self.last = entry.number;
        self.all = self.all.and(&**entry);
        drop(self.ring.push_back(Kept::of(entry)));
    }

    /// Closes the list, if it is open.
    fn close(&mut self, end: &Ending)
        ensures { self.new ≡ closed_by self.old end.now }
    {
        if self.end.is_none() {
            self.end = Some(KeptEnd::of(end.end()));
        }
    }

    /// Tells readers no entry so far any more, if the list is open.
    fn forget(&mut self)
        ensures { self.new ≡ forgotten_by self.old }
    {
        if self.end.is_none() {
            self.forgotten = self.forgotten.max(self.last);
        }
    }
}

impl Absorb<Change> for Window {
    type State = Published;

    ghost use Rattle.zw_hub.specs.ListChanges.{list_after};

    ghost state = { λ list. list };

    ghost applied = { list_after };

    ghost never_fails = { Unit {0} };

    fn absorb_first(&mut self, change: &Change, _other: &Window) -> Result<(), AllocError> {
        match change {
            Change::Entry(entry) => self.add(entry),
            Change::End(end) => self.close(end),
            Change::Forget => self.forget(),
        }
        Ok(())
    }
}
