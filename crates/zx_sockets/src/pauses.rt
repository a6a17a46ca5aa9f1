//! Pauses between the dials of a worker.

ghost use Rattle.std.specs.Prelude.{◌≡◌};
ghost use Rattle.zx_sockets.specs.Nets.{pause_of};

use std::thread;
use std::time::{Clock as SystemClock, Duration, Instant};

/// A dial within so many milliseconds of the last one waits.
const RECENT: u64 = 10_000;

/// The last dial of a worker, and how many came in a row within a short time of the one before. Once a stream gave what it was dialled for,
/// they begin anew: the next dial does not wait, however short a time ago the last one was.
#[derive(Clone, Copy, Drop)]
pub struct Pauses {
    last: Option<Instant>,
    row: u32,
}

/// The pause in milliseconds before the next dial after so many in a row.
fn pause_of(row: u32) -> u64
    ensures { result ≡ pause_of row }
{
    match row {
        0 => 0,
        1 => 100,
        2 => 200,
        3 => 400,
        4 => 800,
        5 => 1600,
        6 => 3200,
        _ => 6400,
    }
}

impl Pauses {
    /// Before the first dial.
    pub fn new() -> Pauses {
        Pauses { last: None, row: 0 }
    }

    /// The next dial waits as the second of a row does, if it comes a short time after the last one.
    pub fn begin_anew(&mut self) {
        self.row = 0;
    }

    /// Waits as long as a dial now has to wait, and notes the dial.
    pub fn wait<R: SystemClock>(&mut self, rt: &R) {
        if self.is_recent(rt) {
            self.row = self.row.saturating_add(1);
            thread::sleep(rt, Duration::from_millis(pause_of(self.row)));
        } else {
            self.row = 0;
        }
        self.last = Instant::now(rt).ok();
    }

    /// Whether the last dial was a short time ago.
    fn is_recent<R: SystemClock>(&self, rt: &R) -> bool {
        let Some(last) = &self.last else {
            return false;
        };
        match last.elapsed(rt) {
            Ok(since) => since < Duration::from_millis(RECENT),
            Err(_) => true,
        }
    }
}
