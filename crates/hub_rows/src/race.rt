//! One thread publishes while others read.

use crate::publisher::{Publisher, zxid_of};
use std::alloc::Global;
use std::rt::Clock;
use std::sync::Wait;
use std::thread::{JoinHandle, Threads};
use std::time::{Duration, Instant};
use std::{io, thread};
use zw_hub::{Fed, Feed, FeedEnd, HubReader};

/// What a race came to.
#[derive(Drop)]
pub struct Raced {
    /// What each reader took.
    pub taken: Vec<Taken>,
    /// The microseconds from the first publish to the last.
    pub published: u64,
    /// The microseconds from the first publish to the end of the last reader.
    pub ended: u64,
}

/// What a reader took until there was no more: how many answers, how many entries, and how many it was told that it lagged past.
#[derive(Clone, Copy, Debug)]
pub struct Taken {
    pub reads: u64,
    pub entries: i64,
    passed_over: i64,
    pub cursor: i64,
    /// No answer was wrong, and the last was that the hub is closed.
    is_right: bool,
}

impl Taken {
    /// Before the first read.
    pub const NOTHING: Taken = Taken {
        reads: 0,
        entries: 0,
        passed_over: 0,
        cursor: 0,
        is_right: true,
    };

    /// Whether it took each of `count` entries, or was told that it had lagged past it.
    pub fn is_whole(&self, count: i64) -> bool {
        self.is_right
            && self.cursor == count
            && self.entries.saturating_add(self.passed_over) == count
    }

    /// Notes an answer, and says whether it was the last. If no entry is there yet, the thread yields.
    pub fn note(&mut self, fed: &Fed) -> bool {
        self.reads = self.reads.saturating_add(1);
        match fed {
            Fed::Entry(entry) => {
                *self = self.with(entry.number, entry.zxid);
                false
            }
            Fed::Lagged { cursor, floor } => {
                *self = self.past(*cursor, *floor);
                false
            }
            Fed::None => {
                thread::yield_now();
                false
            }
            Fed::Closed(_) => true,
            Fed::Memory => {
                self.is_right = false;
                true
            }
        }
    }

    fn with(self, number: i64, zxid: i64) -> Taken {
        Taken {
            entries: self.entries.saturating_add(1),
            cursor: number,
            is_right: self.is_right
                && number == self.cursor.saturating_add(1)
                && zxid == zxid_of(number),
            ..self
        }
    }

    fn past(self, cursor: i64, floor: i64) -> Taken {
        Taken {
            passed_over: self
                .passed_over
                .saturating_add(floor.saturating_sub(cursor)),
            cursor: floor,
            is_right: self.is_right && cursor == self.cursor && floor > cursor,
            ..self
        }
    }
}

/// Lets `readers` threads read the `count` entries that this one publishes through a hub.
pub fn race<R: Threads + Wait + Clock + Send + Clone + Drop + 'static>(
    rt: &R,
    alloc: Global,
    readers: usize,
    count: i64,
) -> io::Result<Raced> {
    let (mut publisher, places, _keeper) = Publisher::open(rt.clone()?, alloc, 0, readers)?;
    let mut workers = Vec::with_capacity(alloc, readers)?;
    for reader in places {
        workers.push(thread::spawn(rt, move || take_all(reader))?)?;
    }
    let start = Instant::now(rt)?;
    publisher.publish_all(alloc, count)?;
    let published = micros_in(start.elapsed(rt)?);
    publisher.close(FeedEnd::NoLine)?;
    let taken = join_all(rt, alloc, workers)?;
    let ended = micros_in(start.elapsed(rt)?);
    drop(publisher);
    Ok(Raced {
        taken,
        published,
        ended,
    })
}

/// What each of these threads took.
pub fn join_all<R: Threads>(
    rt: &R,
    alloc: Global,
    workers: Vec<JoinHandle<Taken>>,
) -> io::Result<Vec<Taken>> {
    let mut taken = Vec::with_capacity(alloc, workers.len())?;
    for worker in workers {
        taken.push(worker.join(rt))?;
    }
    Ok(taken)
}

/// Reads until the hub is closed.
fn take_all(mut reader: HubReader) -> Taken {
    let mut taken = Taken::NOTHING;
    for _ in 0..u64::MAX {
        let fed = reader.next(taken.cursor);
        if taken.note(&fed) {
            break;
        }
    }
    taken
}

/// Whole microseconds.
pub fn micros_in(time: Duration) -> u64 {
    u64::try_from(time.as_micros()).unwrap_or(u64::MAX)
}
