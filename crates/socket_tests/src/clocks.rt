//! The clock, and a job in a thread.

use crate::common::TURNS;
use std::sync::Arc;
use std::sync::atomic::{AtomicU64, Ordering};
use std::test::Fail;
use std::time::{Clock as SystemClock, Duration};
use std::{io, thread};
use zx_net::{Clock, Spawner};
use zx_sockets::{StdClock, ThreadSpawner};

#[test]
fn the_clock_tells_the_time(rt: HostRuntime) {
    let mut clock = StdClock::new(rt);
    let then = clock.now();
    assert!(rt; then > 1_700_000_000_000);
    assert!(rt; clock.another().now() > 1_700_000_000_000);
}

/// The system's clocks, in milliseconds, as a test sets them.
#[derive(Drop)]
struct Hands {
    wall: AtomicU64,
    elapsed: AtomicU64,
}

impl Hands {
    fn set(&self, wall: u64, elapsed: u64) {
        self.wall.store(wall, Ordering::SeqCst);
        self.elapsed.store(elapsed, Ordering::SeqCst);
    }
}

impl SystemClock for Hands {
    fn monotonic(&self) -> io::Result<Duration> {
        Ok(Duration::from_millis(self.elapsed.load(Ordering::SeqCst)))
    }

    fn since_1970(&self) -> io::Result<Duration> {
        Ok(Duration::from_millis(self.wall.load(Ordering::SeqCst)))
    }
}

#[test]
fn a_clock_that_is_set_back_goes_on(rt: HostRuntime) {
    let hands = Hands {
        wall: AtomicU64::new(1_000_000),
        elapsed: AtomicU64::new(50),
    };
    let mut clock = StdClock::new(&hands);
    assert!(rt; clock.now() == 1_000_000);
    // Set back by 100 seconds, 4 seconds later.
    hands.set(904_000, 4_050);
    assert!(rt; clock.now() == 1_003_000);
    // Another one goes on alike.
    let mut other = clock.another();
    assert!(rt; other.now() == 1_003_000);
    hands.set(904_000, 8_050);
    assert!(rt; other.now() == 1_006_000);
    assert!(rt; clock.now() == 1_006_000);
    // The wall clock catches up after 400 seconds.
    hands.set(1_299_999, 400_050);
    assert!(rt; clock.now() == 1_300_000);
    hands.set(1_300_001, 400_051);
    assert!(rt; clock.now() == 1_300_001);
    // Set forward, it is followed at once.
    hands.set(9_000_000, 400_052);
    assert!(rt; clock.now() == 9_000_000);
}

#[test]
fn a_job_runs_in_a_thread(rt: HostRuntime) -> Result<(), Fail> {
    let runs = Arc::new(rt.alloc(), AtomicU64::new(0))?;
    let theirs = Arc::try_clone(&runs)?;
    let mut spawner = ThreadSpawner::new(rt);
    let job = move || {
        let _before = theirs.fetch_add(1, Ordering::SeqCst);
    };
    assert!(rt; spawner.start(job).is_ok());
    for _ in 0..TURNS {
        if runs.load(Ordering::SeqCst) == 1 {
            return Ok(());
        }
        thread::sleep(&rt, Duration::from_millis(10));
    }
    assert!(rt; false);
    Ok(())
}
