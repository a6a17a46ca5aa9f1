//! When a worker's turns begin, and where.

ghost use Rattle.std.specs.Prelude.{◌≡◌, ◌+◌, ◌%◌, ◌≤◌, pos, ◌≤ℤ◌};

/// The least pause before a turn, in milliseconds.
const LEAST_PAUSE: u64 = 2000;

/// By how much pauses may differ, in milliseconds.
const PAUSES: u64 = 4000;

/// The pause before a turn where there is work, in milliseconds.
const BUSY_PAUSE: u64 = 10;

/// The next word is the one before it by this, and the number below more (Knuth's MMIX generator): no two words of 2^64 are the same.
const FACTOR: u64 = 6_364_136_223_846_793_005;

const ADDEND: u64 = 1_442_695_040_888_963_407;

/// The pause that a word draws, in milliseconds: from 2,000 to 5,999.
pub fn pause_of(word: u64) -> u64
    ensures exact { result ≡ 2000 + word % 4000 }
    ensures least { 2000 ≤ result }
    ensures most { result ≤ 5999 }
{
    LEAST_PAUSE + word % PAUSES
}

/// The number of a session that a word draws: its high 63 bits, or 1 where these are 0.
fn number_of(word: u64) -> i64
    ensures { pos 1 ≤ℤ result }
{
    let high = word / 2;
    if high == 0 { 1 } else { high as i64 }
}

/// The pace of one worker, drawn from a random word. No clause speaks of it.
#[derive(Drop)]
pub(crate) struct Pace {
    word: u64,
    /// Whether the last turn ended a session, or met another who did.
    is_busy: bool,
}

impl Pace {
    /// The first turn begins soon.
    pub fn new(word: u64) -> Pace {
        Pace {
            word,
            is_busy: true,
        }
    }

    fn next(&mut self) -> u64 {
        self.word = self.word.wrapping_mul(FACTOR).wrapping_add(ADDEND);
        self.word
    }

    /// The pause before the next turn, in milliseconds: short where there is work.
    pub fn pause(&mut self) -> u64 {
        if self.is_busy {
            self.is_busy = false;
            return BUSY_PAUSE;
        }
        pause_of(self.next())
    }

    /// The number at which the next turn begins, at least 1.
    pub fn number(&mut self) -> i64
        ensures { pos 1 ≤ℤ result }
    {
        number_of(self.next())
    }

    /// There is work.
    pub fn work(&mut self) {
        self.is_busy = true;
    }

    pub fn is_busy(&self) -> bool {
        self.is_busy
    }
}
