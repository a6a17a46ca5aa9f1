//! A clock in memory.

ghost use Rattle.std.specs.Prelude.{◌≡◌, ◌-◌, ◌<◌, ◌^◌, min};

use crate::Clock;

/// The last moment that a clock tells, in milliseconds since 1970.
const LAST_MOMENT: u64 = (1 << 62) - 1;

/// A clock that stands still.
#[derive(Clone, Copy)]
pub struct MemClock {
    moment: u64,
    ghost within: { moment < 2 ^ 62 },
}

impl MemClock {
    ghost use Rattle.std.specs.Prelude.{◌≡◌, ◌-◌, ◌^◌, min};

    /// A clock that stands at `now`, in milliseconds since 1970, or at 2^62 - 1 if that is earlier.
    pub fn new(now: u64) -> MemClock
        ensures { result.moment ≡ min now (2 ^ 62 - 1) }
    {
        MemClock {
            moment: now.min(LAST_MOMENT),
        }
    }
}

impl Clock for MemClock {
    fn now(&mut self) -> u64
        ensures range { result < 2 ^ 62 }
        ensures told { result ≡ self.old.moment }
        ensures stands { self.new ≡ self.old }
    {
        self.moment
    }

    fn another(&self) -> MemClock
        ensures { result ≡ self.now }
    {
        *self
    }
}
