//! A clock that goes on.

ghost use Rattle.std.specs.Prelude.{◌<◌, ◌^◌};

use zx_net::Clock;

/// The last moment that a clock tells, in milliseconds since 1970.
const LAST_MOMENT: u64 = (1 << 62) - 1;

/// A clock that goes on by so many milliseconds with each reading.
#[derive(Clone, Copy)]
pub struct Ticking {
    pub now: u64,
    pub step: u64,
}

impl Clock for Ticking {
    fn now(&mut self) -> u64
        ensures range { result < 2 ^ 62 }
    {
        let now = self.now.min(LAST_MOMENT);
        self.now = now.saturating_add(self.step);
        now
    }

    fn another(&self) -> Ticking {
        *self
    }
}
