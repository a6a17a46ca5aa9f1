//! A spawner without threads.

ghost use Rattle.std.specs.Prelude.{◌≡◌};

use crate::Spawner;
use std::marker::{Model, PhantomData};
use std::thread::Threads;

/// A spawner that runs each job in place, and refuses at listed starts. It starts no thread, whatever `R` is.
#[derive(Drop)]
pub struct InlineSpawner<R> {
    failing: Vec<u64>,
    calls: u64,
    refused: u64,
    threads: PhantomData<R>,
}

impl<R> Model for InlineSpawner<R> {
    ghost use Rattle.zx_net.specs.Memory.{InPlace};

    ghost Value = { InPlace };

    ghost view = { λ s. record { failing = s.failing.items; calls = s.calls; refused = s.refused } };
}

impl<R> InlineSpawner<R> {
    /// A spawner whose starts with the numbers in `failing`, counted from 1, are refused.
    pub fn new(failing: Vec<u64>) -> InlineSpawner<R>
        ensures failing { result.failing ≡ failing.items }
        ensures calls { result.calls ≡ 0 }
        ensures refused { result.refused ≡ 0 }
    {
        InlineSpawner {
            failing,
            calls: 0,
            refused: 0,
            threads: PhantomData,
        }
    }
}

impl<R: Threads> Spawner for InlineSpawner<R> {
    ghost use Rattle.std.specs.Prelude.{◌≡◌, IsNone};
    ghost use Rattle.zx_outside.specs.Memory.{fails_next};
    ghost use Rattle.zx_net.specs.Jobs.{refusals_asked};
    ghost use Rattle.zx_net.specs.Memory.{asked};

    type Handle = R;

    ghost refusals = { λ s. s.refused };

    fn refuses(&mut self) -> bool
        ensures count { self.new.refused ≡ refusals_asked result self.old.refused }
        ensures listed { result ≡ fails_next self.old.failing self.old.calls }
        ensures after { self.new ≡ asked self.old }
    {
        self.calls = self.calls.saturating_add(1);
        if self.failing.contains(&self.calls) {
            self.refused = self.refused.saturating_add(1);
            return true;
        }
        false
    }

    fn threads(&self) -> Option<&R>
        ensures { IsNone result }
    {
        None
    }

    fn note_refusal(&mut self) {
        self.refused = self.refused.saturating_add(1);
    }
}
