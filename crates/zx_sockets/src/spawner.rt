//! Threads.

ghost use Rattle.std.specs.Prelude.{◌≡◌};

use std::thread::Threads;
use zx_net::Spawner;

/// A spawner that gives each job a thread of its own. Nobody waits for these threads: one that still runs when `main`
/// returns is cut off.
#[derive(Drop)]
pub struct ThreadSpawner<R> {
    rt: R,
    refused: u64,
}

impl<R: Threads> ThreadSpawner<R> {
    /// A spawner of this runtime's threads.
    pub fn new(rt: R) -> ThreadSpawner<R>
        ensures { result.refused ≡ 0 }
    {
        ThreadSpawner { rt, refused: 0 }
    }
}

impl<R: Threads> Spawner for ThreadSpawner<R> {
    type Handle = R;

    ghost refusals = { λ s. s.refused };

    fn refuses(&mut self) -> bool {
        false
    }

    fn threads(&self) -> Option<&R> {
        Some(&self.rt)
    }

    fn note_refusal(&mut self) {
        self.refused = self.refused.saturating_add(1);
    }
}
