//! Holds the worker of the first connection until the worker of the second has come, or notes alone who came.

use std::alloc::Global;
use std::sync::Arc;
use std::sync::atomic::{AtomicBool, AtomicU64, Ordering};
use std::thread;
use std::time::{Clock, Duration};
use zp_server::Gate;

/// How many turns the first worker waits at most.
const MAX_TURNS: u32 = 10_000_000;

/// How often it is looked whether the server has ended, and how long it is waited each time, in
/// milliseconds.
const MAX_LOOKS: u32 = 3000;

const PAUSE: u64 = 10;

/// What is known of a server and its two workers.
#[derive(Drop)]
pub struct Watched {
    /// The first worker is held.
    is_held: bool,
    first_came: AtomicBool,
    second_came: AtomicBool,
    /// How often a worker came.
    passes: AtomicU64,
    gave_up: AtomicBool,
    is_over: AtomicBool,
}

impl Watched {
    /// Nobody came yet. The first worker is held, or it is not.
    pub fn new(is_held: bool) -> Watched {
        Watched {
            is_held,
            first_came: AtomicBool::new(false),
            second_came: AtomicBool::new(false),
            passes: AtomicU64::new(0),
            gave_up: AtomicBool::new(false),
            is_over: AtomicBool::new(false),
        }
    }

    /// Whether the first worker waited in vain.
    pub fn gave_up(&self) -> bool {
        self.gave_up.load(Ordering::SeqCst)
    }

    /// How often a worker came to the gate.
    pub fn passes(&self) -> u64 {
        self.passes.load(Ordering::SeqCst)
    }

    /// Whether both workers came to the gate, once each.
    pub fn both_came(&self) -> bool {
        self.first_came.load(Ordering::SeqCst)
            && self.second_came.load(Ordering::SeqCst)
            && self.passes() == 2
    }

    /// Waits until the worker of connection 1 has come, at most about as long as for a server's end.
    pub fn await_first<R: Clock>(&self, rt: &R) {
        for _ in 0..MAX_LOOKS {
            if self.first_came.load(Ordering::SeqCst) {
                return;
            }
            thread::sleep(rt, Duration::from_millis(PAUSE));
        }
    }

    /// Says that the server has ended.
    pub fn end(&self) {
        self.is_over.store(true, Ordering::SeqCst);
    }

    /// Waits until the server has ended, and says whether it did.
    pub fn await_end<R: Clock>(&self, rt: &R) -> bool {
        for _ in 0..MAX_LOOKS {
            if self.is_over.load(Ordering::SeqCst) {
                return true;
            }
            thread::sleep(rt, Duration::from_millis(PAUSE));
        }
        false
    }
}

/// The gate.
#[derive(Drop)]
pub struct Turns {
    pub watched: Arc<Watched, Global>,
}

impl Gate for Turns {
    fn pass(&self, call: u64) {
        self.watched.passes.fetch_add(1, Ordering::SeqCst);
        if call != 1 {
            self.watched.second_came.store(true, Ordering::SeqCst);
            return;
        }
        self.watched.first_came.store(true, Ordering::SeqCst);
        if !self.watched.is_held {
            return;
        }
        for _ in 0..MAX_TURNS {
            if self.watched.second_came.load(Ordering::SeqCst) {
                return;
            }
            thread::yield_now();
        }
        self.watched.gave_up.store(true, Ordering::SeqCst);
    }
}
