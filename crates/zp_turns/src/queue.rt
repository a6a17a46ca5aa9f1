//! Those who contend at one path.

use std::alloc::Global;
use std::collections::VecDeque;
use std::io;
use std::sync::{Arc, Condvar};
use std::time::{Clock as SystemClock, Duration, Instant};
use zx_base::Memory;

/// How long a turn lasts at most where somebody waits for it, in milliseconds.
const LONGEST_TURN: u64 = 500;

/// One who waits.
#[derive(Drop)]
struct Waiter {
    ticket: u64,
    bell: Arc<Condvar, Global>,
}

/// Those who contend at one path: who has the turn, and who waits for it, first come, first served. So no queue is empty. Tickets
/// grow from one who joins to the next.
#[derive(Drop)]
pub(crate) struct Queue {
    path: Vec<u8>,
    turn: u64,
    /// Since when the turn lasts.
    since: io::Result<Instant>,
    /// Whether the turn before it met another proxy.
    has_met: bool,
    waiters: VecDeque<Waiter>,
}

impl Queue {
    /// A queue at a path in which this ticket has the turn, and nobody waits.
    pub(crate) fn of<R: SystemClock>(
        rt: &R,
        alloc: Global,
        path: &[u8],
        ticket: u64,
    ) -> Result<Queue, Memory> {
        Ok(Queue {
            path: Vec::from_slice(alloc, path)?,
            turn: ticket,
            since: Instant::now(rt),
            has_met: false,
            waiters: VecDeque::new(alloc),
        })
    }

    /// Whether it is the queue at this path.
    pub(crate) fn is_at(&self, path: &[u8]) -> bool {
        self.path.as_slice() == path
    }

    /// Whether this ticket has the turn.
    pub(crate) fn has_turn(&self, ticket: u64) -> bool {
        self.turn == ticket
    }

    /// Whether the turn of this ticket has not come yet.
    pub(crate) fn is_waiting(&self, ticket: u64) -> bool {
        self.turn < ticket
    }

    /// One more waits, and is woken when its turn comes.
    pub(crate) fn join(&mut self, ticket: u64, bell: Arc<Condvar, Global>) -> Result<(), Memory> {
        self.waiters.push_back(Waiter { ticket, bell })?;
        Ok(())
    }

    /// Whether the turn before the present one met another proxy.
    pub(crate) fn has_met(&self) -> bool {
        self.has_met
    }

    /// Gives the turn to the first who waits, and wakes it; `has_met` says whether the turn that ends met another proxy. False if
    /// nobody waits.
    pub(crate) fn pass_on<R: SystemClock>(&mut self, rt: &R, has_met: bool) -> bool {
        let Some(first) = self.waiters.pop_front() else {
            return false;
        };
        self.turn = first.ticket;
        self.has_met = has_met;
        self.since = Instant::now(rt);
        first.bell.notify_one();
        true
    }

    /// How long the turn still lasts at most. A clock that fails says that it is over.
    pub(crate) fn left<R: SystemClock>(&self, rt: &R) -> Duration {
        let Ok(since) = &self.since else {
            return Duration::ZERO;
        };
        match since.elapsed(rt) {
            Ok(lasted) => Duration::from_millis(LONGEST_TURN).saturating_sub(lasted),
            Err(_fault) => Duration::ZERO,
        }
    }
}
