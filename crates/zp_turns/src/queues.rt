//! The queues of all paths at which somebody contends.

ghost use Rattle.std.specs.Prelude.{◌<◌, IfSome, vec_len};

use crate::queue::Queue;
use std::alloc::Global;
use std::sync::{Arc, Condvar, CondvarTimeouts, Mutex, Wait};
use std::time::{Clock as SystemClock, Duration};
use zx_base::Memory;

/// A turn that has come.
#[derive(Clone, Copy)]
pub(crate) struct Turn {
    pub(crate) ticket: u64,
    /// Whether the turn before it met another proxy.
    pub(crate) has_met: bool,
}

/// What stands under the lock.
#[derive(Drop)]
struct Kept {
    queues: Vec<Queue>,
    /// The ticket that was given last.
    ticket: u64,
}

impl Kept {
    /// The place of the queue at a path.
    fn place_of(&self, path: &[u8]) -> Option<usize>
        ensures { IfSome result (λ place. place < vec_len self.now.queues) }
    {
        self.queues.iter().position(|queue| queue.is_at(path))
    }

    /// Joins the queue at a path, and gives the ticket.
    fn join<R: SystemClock>(
        &mut self,
        rt: &R,
        alloc: Global,
        path: &[u8],
        bell: Arc<Condvar, Global>,
    ) -> Result<u64, Memory> {
        let ticket = self.ticket.saturating_add(1);
        match self.place_of(path) {
            Some(place) => self.queues[place].join(ticket, bell)?,
            None => self.queues.push(Queue::of(rt, alloc, path, ticket)?)?,
        }
        self.ticket = ticket;
        Ok(ticket)
    }

    /// How long somebody waits now for its turn at a path; `None` if that has come. Passes on a turn that is over.
    fn wait<R: SystemClock>(&mut self, rt: &R, path: &[u8], ticket: u64) -> Option<Duration> {
        let place = self.place_of(path)?;
        let queue = self.queues.get_mut(place)?;
        if queue.is_waiting(ticket) && queue.left(rt).is_zero() {
            queue.pass_on(rt, false);
        }
        if queue.is_waiting(ticket) {
            Some(queue.left(rt))
        } else {
            None
        }
    }

    /// Whether the turn before the present one at a path met another proxy.
    fn has_met(&self, path: &[u8]) -> bool {
        match self.place_of(path) {
            Some(place) => self.queues[place].has_met(),
            None => false,
        }
    }

    /// Ends the turn of a ticket, if it still has it.
    fn leave<R: SystemClock>(&mut self, rt: &R, path: &[u8], ticket: u64, has_met: bool) {
        let Some(place) = self.place_of(path) else {
            return;
        };
        if self.queues[place].has_turn(ticket) && !self.queues[place].pass_on(rt, has_met) {
            drop(self.queues.swap_remove(place));
        }
    }
}

/// The queues of one proxy.
#[derive(Drop)]
pub struct Queues {
    kept: Mutex<Kept>,
    alloc: Global,
}

impl Queues {
    /// Nobody contends. With room for so many queues more memory is taken only for a path and for who waits.
    pub fn with_room(alloc: Global, room: usize) -> Result<Queues, Memory> {
        let queues = Vec::with_capacity(alloc, room)?;
        Ok(Queues {
            kept: Mutex::new(Kept { queues, ticket: 0 }),
            alloc,
        })
    }

    /// Waits for the turn at a path. The bell is rung by whoever passes a turn on.
    pub(crate) fn wait<R: Wait + SystemClock>(
        &self,
        rt: &R,
        path: &[u8],
        bell: &Arc<Condvar, Global>,
    ) -> Result<Turn, Memory> {
        let rung = Arc::try_clone(bell)?;
        let mut kept = self.kept.lock(rt);
        let ticket = kept.join(rt, self.alloc, path, rung)?;
        'looks: for _ in rt.forever() {
            let Some(longest) = kept.wait(rt, path, ticket) else {
                let has_met = kept.has_met(path);
                return Ok(Turn { ticket, has_met });
            };
            kept = bell.wait_timeout(rt, kept, longest).0;
        }
        unreachable!()
    }

    /// Ends the turn of this ticket at a path, and wakes who is next; `has_met` says whether it met another proxy. Nothing happens if
    /// the turn was over already.
    pub(crate) fn leave<R: Wait + SystemClock>(
        &self,
        rt: &R,
        path: &[u8],
        ticket: u64,
        has_met: bool,
    ) {
        self.kept.lock(rt).leave(rt, path, ticket, has_met);
    }
}
