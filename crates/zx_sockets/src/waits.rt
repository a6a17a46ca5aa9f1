//! Reads that wait longer than an idle turn, each of which counts as many turns as it lasted.

ghost use Rattle.std.specs.Prelude.{◌≡◌};
ghost use Rattle.std.specs.Duration.{as_nanos};
ghost use Rattle.zx_sockets.specs.Waits.{TakesTurn, further_turns};

use std::time::{Clock as SystemClock, Duration, Instant};

/// How long an idle turn is, in milliseconds.
pub const IDLE_TURN: u64 = 10;

/// How long a read of a stream that was dialled waits for a byte, in milliseconds.
pub const ANSWER_WAIT: u64 = 1000;

/// So many turns at most are counted for one wait: a minute.
const MOST_TURNS: u64 = 6000;

/// How many idle turns a wait that lasted so long comes to, but for the one with which it is answered.
fn further_turns(wait: Duration) -> u64
    ensures { result ≡ further_turns (as_nanos wait) }
{
    let turns = wait.as_millis() / IDLE_TURN as u128;
    (turns.min(MOST_TURNS as u128) as u64).saturating_sub(1)
}

/// The same of a wait that began then. Where the system tells no time, it lasted its time.
fn turns_since<R: SystemClock>(rt: &R, began: Option<Instant>) -> u64 {
    let longest = Duration::from_millis(ANSWER_WAIT);
    let Some(began) = began else {
        return further_turns(longest);
    };
    match began.elapsed(rt) {
        Ok(wait) => further_turns(wait),
        Err(_) => further_turns(longest),
    }
}

/// When a read begins that may wait long: one of a source that owes turns, however many.
pub fn begins<R: SystemClock>(rt: &R, owed: &Option<u64>) -> Option<Instant> {
    match owed {
        None => None,
        Some(_) => Instant::now(rt).ok(),
    }
}

/// Counts the turns of a wait that began then.
pub fn owe<R: SystemClock>(rt: &R, owed: &mut Option<u64>, began: Option<Instant>) {
    if let Some(turns) = owed {
        *turns = turns_since(rt, began);
    }
}

/// Takes one of the turns that are owed, and says whether there was one.
pub fn takes_turn(owed: &mut Option<u64>) -> bool
    ensures { TakesTurn owed.old owed.new result }
{
    match owed {
        None | Some(0) => false,
        Some(turns) => {
            *turns -= 1;
            true
        }
    }
}
