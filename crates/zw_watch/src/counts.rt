//! How many paths have each bit.

ghost use Rattle.std.specs.Prelude.{◌≡◌, ◌<◌, ℕ, get_or};
ghost use Rattle.zw_watch.specs.Bits.{IsPut, IsShown, added, taken};

use std::marker::Model;

/// How many paths have each of 64 bits. A count that has come to 65,535 stays.
#[derive(Drop)]
pub(crate) struct Counts {
    counts: [u16; 64],
    /// The bits whose count is not 0.
    bits: u64,
}

impl Model for Counts {
    ghost use Rattle.std.specs.Prelude.{List, ℕ};
    ghost use Rattle.zw_watch.specs.Bits.{IsShown};

    ghost Value = { List ℕ };

    ghost view = { λ c. c.counts };

    ghost invariant = { λ c. IsShown c.counts c.bits };
}

impl Counts {
    /// No paths.
    pub(crate) fn new() -> Counts
        ensures { (i : ℕ) → get_or result i 0 ≡ 0 }
    {
        Counts {
            counts: [0; 64],
            bits: 0,
        }
    }

    fn put(&mut self, place: usize, count: u16)
        requires { place < 64 }
        ensures { IsPut place count self.old self.new }
    {
        self.counts[place] = count;
        self.bits = if count == 0 {
            self.bits & !(1 << place)
        } else {
            self.bits | 1 << place
        };
    }

    /// A path more.
    pub(crate) fn add(&mut self, place: usize)
        requires { place < 64 }
        ensures { IsPut place (added (get_or self.old place 0)) self.old self.new }
    {
        let count = self.counts[place];
        self.put(place, count.saturating_add(1));
    }

    /// A path less.
    pub(crate) fn take(&mut self, place: usize)
        requires { place < 64 }
        ensures { IsPut place (taken (get_or self.old place 0)) self.old self.new }
    {
        let count = self.counts[place];
        let left = if count < u16::MAX {
            count.saturating_sub(1)
        } else {
            count
        };
        self.put(place, left);
    }

    /// The bits whose count is not 0.
    pub(crate) fn bits(&self) -> u64
        ensures { IsShown self.now result }
    {
        self.bits
    }
}
