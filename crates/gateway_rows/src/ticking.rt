//! A clock that goes on by itself.

ghost use Rattle.std.specs.Prelude.{◌<◌, ◌^◌};

use zx_net::Clock;

/// The last moment that a clock tells, in milliseconds since 1970.
const LAST_MOMENT: u64 = (1 << 62) - 1;

/// A clock that goes the same step further at each reading, up to that moment.
#[derive(Clone, Copy, Drop)]
pub struct Ticking {
    pub now: u64,
    pub step: u64,
}

impl Clock for Ticking {
    fn now(&mut self) -> u64
        ensures { result < 2 ^ 62 }
    {
        self.now = self.now.saturating_add(self.step).min(LAST_MOMENT);
        self.now
    }

    fn another(&self) -> Ticking {
        *self
    }
}
