//! An etcd in memory that many threads share.

ghost use Rattle.std.specs.Prelude.{◌≤◌, ◌<◌, ◌^◌, IfOk};
ghost use Rattle.ev_call.specs.Asks.{IsGrantable};
ghost use Rattle.ev_call.specs.Fitting.{Fits};
ghost use Rattle.ev_shared.specs.Watching.{IsNext};

use crate::crowd::Crowd;
use crate::kept::Kept;
use crate::watch::Look;
use ev_store::{Store, StoreFault};
use ev_types::{Answer, Ask, Kv};
use std::alloc::Global;
use std::io;
use std::sync::{Condvar, CondvarTimeouts, Mutex, Wait};
use std::time::{Clock as SystemClock, Duration, Instant};

/// How long a watch waits before it looks at other things, in milliseconds. One that is woken just before waits as long again.
const LONGEST_WAIT: u64 = 1000;

/// An etcd in memory under one lock, for many threads. The locked value has in its type that its state is what the history of its
/// asks and lapses leads to.
#[derive(Drop)]
pub struct SharedStore {
    kept: Mutex<Kept>,
    /// Wakes those that wait for a revision, or for the end.
    changed: Condvar,
    crowd: Crowd,
}

/// What a watch of one key is told next.
#[derive(Drop)]
pub enum Watched {
    /// The key as its next put left it; the revision is the key's `mod_revision`.
    Put(Kv),
    /// The revision to go on from was compacted; the least one that can be named.
    Compacted(i64),
    /// No such put came within a second or two. The revision to go on from: none before it is such a put.
    Waits(u64),
    /// The store was closed.
    Closed,
    /// The allocator refused memory.
    Memory,
}

/// Whether a watch has waited for long enough.
fn has_waited<R: SystemClock>(rt: &R, since: &io::Result<Instant>) -> bool {
    let Ok(since) = since else {
        return true;
    };
    match since.elapsed(rt) {
        Ok(waited) => waited >= Duration::from_millis(LONGEST_WAIT),
        Err(_) => true,
    }
}

impl SharedStore {
    /// Shares a store. The seconds of a lease that it has already begin with the lease's next keepalive.
    pub fn new(alloc: Global, store: Store) -> SharedStore {
        SharedStore {
            kept: Mutex::new(Kept::new(alloc, store)),
            changed: Condvar::new(),
            crowd: Crowd::new(),
        }
    }

    /// Carries out one ask at this moment, in milliseconds, after each lease lapsed whose seconds have passed: they have where `now`
    /// is at least so many seconds above the moment of its grant or last keepalive. A lapse that is denied as `Full` is left undone.
    /// The denials are those of [`Store::carry_out`]. Where memory runs out, leases may have lapsed, and nothing else has changed.
    pub fn call_at<R: Wait>(&self, rt: &R, now: u64, ask: &Ask) -> Result<Answer, StoreFault>
        requires { IsGrantable ask.now }
        ensures { IfOk result (Fits ask.now) }
    {
        let mut guard = self.kept.lock(rt);
        let kept = &mut *guard;
        let before = kept.revision();
        let answer = kept.call_at(now, ask);
        let is_changed = kept.revision() != before;
        drop(guard);
        if is_changed {
            self.changed.notify_all();
        }
        answer
    }

    /// The present revision, at least 1.
    pub fn revision<R: Wait>(&self, rt: &R) -> i64 {
        self.kept.lock(rt).revision()
    }

    /// Waits for the first revision from `from` on that puts the key, from 1 to 2^62, for a second or two. A removal is no put. The
    /// revision of a put is below 2^62, and one that was compacted is below the least that can be named.
    #[tactic(auto, using(crate::proofs::Shown::gone_next))]
    pub fn next_put<R: Wait + SystemClock>(
        &self,
        rt: &R,
        alloc: Global,
        key: &[u8],
        from: u64,
    ) -> Watched
        requires first { 1 ≤ from }
        requires small { from ≤ 2 ^ 62 }
        ensures { IsNext key.now from result }
    {
        let since = Instant::now(rt);
        let mut guard = self.kept.lock(rt);
        let mut next = from;
        'looks: for _ in rt.forever() {
            match guard.look(alloc, key, next) {
                Ok(Look::Put(kv)) => return Watched::Put(kv),
                Ok(Look::Compacted(floor)) => return Watched::Compacted(floor),
                Ok(Look::Waits(revision)) => next = revision,
                Err(_) => return Watched::Memory,
            }
            if guard.is_closed() {
                return Watched::Closed;
            }
            if has_waited(rt, &since) {
                return Watched::Waits(next);
            }
            let longest = Duration::from_millis(LONGEST_WAIT);
            guard = self.changed.wait_timeout(rt, guard, longest).0;
        }
        unreachable!()
    }

    /// Ends the waiting of all watches, for good.
    pub fn close<R: Wait>(&self, rt: &R) {
        self.kept.lock(rt).close();
        self.changed.notify_all();
    }

    /// Counts one more who uses the store, until it [leaves](SharedStore::leave).
    pub fn enter<R: Wait>(&self, rt: &R) {
        self.crowd.enter(rt);
    }

    /// Counts one less who uses the store.
    pub fn leave<R: Wait>(&self, rt: &R) {
        self.crowd.leave(rt);
    }

    /// Counts one more of those who use the store as one who watches, until it [ends its watch](SharedStore::end_watch).
    pub fn begin_watch<R: Wait>(&self, rt: &R) {
        self.crowd.begin_watch(rt);
    }

    /// Counts one less who watches.
    pub fn end_watch<R: Wait>(&self, rt: &R) {
        self.crowd.end_watch(rt);
    }

    /// Waits until each one who entered has left, or watches.
    pub fn wait_for_watches<R: Wait>(&self, rt: &R) {
        self.crowd.wait_for_watches(rt);
    }

    /// Waits until each one who entered has left.
    pub fn wait_for_all<R: Wait>(&self, rt: &R) {
        self.crowd.wait_for_all(rt);
    }
}
