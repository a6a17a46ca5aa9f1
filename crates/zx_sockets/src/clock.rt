//! The system's clock.

ghost use Rattle.std.specs.Prelude.{◌≡◌, ◌<◌, ◌≤◌, ◌^◌, min, IfSome};
ghost use Rattle.std.specs.Duration.{as_nanos};
ghost use Rattle.zx_sockets.specs.Clocks.{last_moment, paced};

use std::io;
use std::time::{Clock as SystemClock, Duration, Instant, SystemTime, UNIX_EPOCH};
use zx_net::Clock;

/// The last moment that a clock tells, in milliseconds since 1970.
const LAST_MOMENT: u64 = (1 << 62) - 1;

/// A moment that the wall clock told, in milliseconds since 1970, and when it did by a clock that nobody sets.
#[derive(Clone, Copy, Drop)]
struct Mark {
    millis: u64,
    at: Instant,
}

/// The system's wall clock, but one that never goes back. Where the wall clock is set back, time goes on from there at three quarters
/// of its pace until the wall clock has caught up. Where the system tells no time, this clock tells what it told last.
#[derive(Drop)]
pub struct StdClock<R> {
    rt: R,
    /// What was told last.
    last: u64,
    /// When the wall clock was believed last.
    mark: Option<Mark>,
    ghost within: { last < 2 ^ 62 },
}

impl<R: SystemClock + Copy> StdClock<R> {
    /// The clock of this runtime.
    pub fn new(rt: R) -> StdClock<R> {
        StdClock {
            rt,
            last: 0,
            mark: None,
        }
    }

    /// The least moment that may be told now.
    fn least(&self) -> u64
        ensures told { self.now.last ≤ result }
        ensures within { result < 2 ^ 62 }
    {
        let Some(mark) = &self.mark else {
            return self.last;
        };
        match mark.at.elapsed(&self.rt) {
            Ok(since) => self.last.max(paced(mark.millis, since)),
            Err(_) => self.last,
        }
    }

    /// Notes that the wall clock is believed.
    fn believe(&mut self, millis: u64)
        requires { millis < 2 ^ 62 }
        ensures { self.new.last ≡ millis }
    {
        self.last = millis;
        self.mark = match Instant::now(&self.rt) {
            Ok(at) => Some(Mark { millis, at }),
            Err(_) => None,
        };
    }
}

/// Milliseconds from 1970 to a moment, at most 2^62 - 1; `None` where the system told no moment since 1970.
fn millis_of(moment: io::Result<SystemTime>) -> Option<u64>
    ensures { IfSome result (λ millis. millis < 2 ^ 62) }
{
    let Ok(moment) = moment else {
        return None;
    };
    match moment.duration_since(UNIX_EPOCH) {
        Ok(since) => Some(within(since.as_millis())),
        Err(_) => None,
    }
}

/// A moment, or the last one that a clock tells.
fn within(millis: u128) -> u64
    ensures { result ≡ min millis last_moment }
{
    millis.min(LAST_MOMENT as u128) as u64
}

/// The moment so long after this one, at three quarters of the pace.
fn paced(millis: u64, since: Duration) -> u64
    ensures { result ≡ paced millis (as_nanos since) }
{
    let since = within(since.as_millis());
    within(millis as u128 + since as u128 * 3 / 4)
}

impl<R: SystemClock + Copy> Clock for StdClock<R> {
    fn now(&mut self) -> u64
        ensures within { result < 2 ^ 62 }
        ensures forward { self.old.last ≤ result }
        ensures told { self.new.last ≡ result }
    {
        let least = self.least();
        match millis_of(SystemTime::now(&self.rt)) {
            Some(millis) if millis >= least => self.believe(millis),
            _ => self.last = least,
        }
        self.last
    }

    fn another(&self) -> StdClock<R>
        ensures told { result.last ≡ self.now.last }
        ensures mark { result.mark ≡ self.now.mark }
    {
        StdClock {
            rt: self.rt,
            last: self.last,
            mark: self.mark,
        }
    }
}
