//! Entries through a ring under one lock.

use crate::publisher::entry_of;
use crate::race::{Raced, Taken, join_all, micros_in};
use std::alloc::{AllocError, Global};
use std::collections::VecDeque;
use std::rt::Clock;
use std::sync::{Arc, Mutex, Wait};
use std::thread::Threads;
use std::time::Instant;
use std::{io, thread};
use zn_layout::Entry;
use zw_hub::{Fed, FeedEnd, MAX_KEPT};

/// The newest entries, as many as a hub keeps.
#[derive(Drop)]
struct Ring {
    entries: VecDeque<Arc<Entry, Global>>,
    last: i64,
    end: Option<Arc<FeedEnd, Global>>,
}

type Shared = Arc<Mutex<Ring>, Global>;

impl Ring {
    fn publish(&mut self, entry: Arc<Entry, Global>) -> Result<(), AllocError> {
        let number = entry.number;
        if self.entries.len() >= MAX_KEPT {
            drop(self.entries.pop_front());
        }
        match self.entries.push_back(entry) {
            Ok(()) => {
                self.last = number;
                Ok(())
            }
            Err(_) => Err(AllocError),
        }
    }

    fn look(&self, cursor: i64) -> Fed {
        let kept = i64::try_from(self.entries.len()).unwrap_or(i64::MAX);
        let floor = self.last.saturating_sub(kept);
        if cursor < floor {
            return Fed::Lagged { cursor, floor };
        }
        let place = usize::try_from(cursor.saturating_sub(floor)).unwrap_or(usize::MAX);
        match self.entries.get(place) {
            Some(entry) => match Arc::try_clone(entry) {
                Ok(entry) => Fed::Entry(entry),
                Err(_) => Fed::Memory,
            },
            None => self.above(),
        }
    }

    fn above(&self) -> Fed {
        match &self.end {
            None => Fed::None,
            Some(end) => match Arc::try_clone(end) {
                Ok(end) => Fed::Closed(end),
                Err(_) => Fed::Memory,
            },
        }
    }
}

/// Lets `readers` threads read the `count` entries that this one publishes in the ring.
pub fn race<R: Threads + Wait + Clock + Send + Clone + Drop + 'static>(
    rt: &R,
    alloc: Global,
    readers: usize,
    count: i64,
) -> io::Result<Raced> {
    let ring = Ring {
        entries: VecDeque::with_capacity(alloc, MAX_KEPT)?,
        last: 0,
        end: None,
    };
    let shared: Shared = Arc::new(alloc, Mutex::new(ring))?;
    let mut workers = Vec::with_capacity(alloc, readers)?;
    for _ in 0..readers {
        let (theirs, handle) = (Arc::try_clone(&shared)?, rt.clone()?);
        workers.push(thread::spawn(rt, move || take_all(&handle, &theirs))?)?;
    }
    let start = Instant::now(rt)?;
    for number in 0..count {
        let entry = entry_of(alloc, number.saturating_add(1))?;
        shared.lock(rt).publish(entry)?;
    }
    let published = micros_in(start.elapsed(rt)?);
    shared.lock(rt).end = Some(Arc::new(alloc, FeedEnd::NoLine)?);
    let taken = join_all(rt, alloc, workers)?;
    let ended = micros_in(start.elapsed(rt)?);
    Ok(Raced {
        taken,
        published,
        ended,
    })
}

fn take_all<R: Wait>(rt: &R, shared: &Shared) -> Taken {
    let mut taken = Taken::NOTHING;
    for _ in 0..u64::MAX {
        let fed = shared.lock(rt).look(taken.cursor);
        if taken.note(&fed) {
            break;
        }
    }
    taken
}
