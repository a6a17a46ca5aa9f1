//! Who uses a store.

use std::sync::{Condvar, Mutex, Wait};

/// How many use a store, and how many of these watch.
#[derive(Clone, Copy, Drop)]
struct Counts {
    present: u64,
    watching: u64,
}

/// Counts those who use a store, and wakes who waits for them.
#[derive(Drop)]
pub struct Crowd {
    counts: Mutex<Counts>,
    /// Wakes who waits, at each change of the counts that can end the waiting.
    thinned: Condvar,
}

impl Crowd {
    /// Nobody.
    pub fn new() -> Crowd {
        Crowd {
            counts: Mutex::new(Counts {
                present: 0,
                watching: 0,
            }),
            thinned: Condvar::new(),
        }
    }

    /// One more.
    pub fn enter<R: Wait>(&self, rt: &R) {
        let mut counts = self.counts.lock(rt);
        counts.present = counts.present.saturating_add(1);
    }

    /// One less.
    pub fn leave<R: Wait>(&self, rt: &R) {
        let mut counts = self.counts.lock(rt);
        counts.present = counts.present.saturating_sub(1);
        drop(counts);
        self.thinned.notify_all();
    }

    /// One of them begins a watch.
    pub fn begin_watch<R: Wait>(&self, rt: &R) {
        let mut counts = self.counts.lock(rt);
        counts.watching = counts.watching.saturating_add(1);
        drop(counts);
        self.thinned.notify_all();
    }

    /// One of them ends its watch.
    pub fn end_watch<R: Wait>(&self, rt: &R) {
        let mut counts = self.counts.lock(rt);
        counts.watching = counts.watching.saturating_sub(1);
    }

    /// Waits until each of them watches, or there is nobody.
    pub fn wait_for_watches<R: Wait>(&self, rt: &R) {
        let mut counts = self.counts.lock(rt);
        for _ in rt.forever() {
            if counts.present <= counts.watching {
                return;
            }
            counts = self.thinned.wait(rt, counts);
        }
        unreachable!()
    }

    /// Waits until there is nobody.
    pub fn wait_for_all<R: Wait>(&self, rt: &R) {
        let mut counts = self.counts.lock(rt);
        for _ in rt.forever() {
            if counts.present == 0 {
                return;
            }
            counts = self.thinned.wait(rt, counts);
        }
        unreachable!()
    }
}
