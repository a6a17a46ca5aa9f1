//! One who takes turns.

use crate::contention::{contended, is_close};
use crate::queues::Queues;
use crate::turns::{Reaps, Turns};
use std::alloc::Global;
use std::sync::{Arc, Condvar, Wait};
use std::thread;
use std::time::{Clock as SystemClock, Duration};
use zx_base::Memory;

/// More asks than these in a turn are a sign of another proxy that updates there: a plan was refused.
const ALONE: u32 = 2;

/// How long a turn waits after one that met another proxy, in milliseconds. Without it proxies that update one place refuse each
/// other's plans all the time.
const GIVEN_WAY: u64 = 2;

/// Somebody who takes turns with all others of the same queues. A turn that is not ended before a drop lasts until somebody waits
/// for it for half a second.
#[derive(Drop)]
pub struct InTurn<R: Drop> {
    rt: R,
    queues: Arc<Queues, Global>,
    bell: Arc<Condvar, Global>,
    /// Where it waited last. Before that it is empty, which is no path: there all closes wait.
    path: Vec<u8>,
    /// Of the present turn.
    ticket: Option<u64>,
    /// How many asks went out in it.
    asks: u32,
}

impl<R: Wait + SystemClock + Drop> InTurn<R> {
    /// Nothing was waited for yet.
    pub fn new(rt: R, alloc: Global, queues: Arc<Queues, Global>) -> Result<InTurn<R>, Memory> {
        Ok(InTurn {
            rt,
            queues,
            bell: Arc::new(alloc, Condvar::new())?,
            path: Vec::new(alloc),
            ticket: None,
            asks: 0,
        })
    }

    /// Ends the present turn, and waits for one at this path. Where memory is refused, it goes on without one.
    pub fn wait_at(&mut self, path: &[u8]) {
        self.leave();
        self.path.clear();
        if self.path.extend_from_slice(path).is_ok() {
            self.wait_there();
        }
    }

    /// Waits where it waited last.
    fn wait_there(&mut self) {
        let Ok(turn) = self.queues.wait(&self.rt, self.path.as_slice(), &self.bell) else {
            return;
        };
        self.ticket = Some(turn.ticket);
        self.asks = 0;
        if turn.has_met {
            thread::sleep(&self.rt, Duration::from_millis(GIVEN_WAY));
        }
    }

    /// Ends the present turn, if there is one.
    fn leave(&mut self) {
        if let Some(ticket) = self.ticket.take() {
            self.queues
                .leave(&self.rt, self.path.as_slice(), ticket, self.asks > ALONE);
        }
    }
}

impl<R: Wait + SystemClock + Drop> Turns for InTurn<R> {
    fn is_next(&self, frame: &[u8]) -> bool {
        contended(frame).is_none() && !is_close(frame)
    }

    fn wait(&mut self, frame: &[u8]) {
        self.leave();
        if let Some(path) = contended(frame) {
            self.wait_at(path);
        } else if is_close(frame) {
            self.wait_there();
        }
    }

    fn go_on(&mut self, asks: bool) {
        if asks {
            self.asks = self.asks.saturating_add(1);
        } else {
            self.leave();
        }
    }

    fn end(&mut self) {
        self.leave();
    }
}

impl<R: Wait + SystemClock + Drop> Reaps for InTurn<R> {
    fn wait_at(&mut self, path: &[u8]) {
        self.wait_at(path);
    }

    fn end(&mut self) {
        self.leave();
    }
}
