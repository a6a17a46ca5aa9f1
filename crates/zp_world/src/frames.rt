//! How many frames were handed in.

ghost use Rattle.std.specs.Prelude.{◌≡◌, ◌+◌, ◌<◌, IfOk};
ghost use Rattle.zp_step.specs.Stages.{counted_up, max_count};

use std::marker::Model;
use zx_base::Memory;

/// A count of frames, below 2^64 - 1. Contracts see the number.
#[derive(Drop)]
pub struct Frames {
    number: u64,
}

impl Model for Frames {
    ghost use Rattle.std.specs.Prelude.{ℕ, ◌<◌};
    ghost use Rattle.zp_step.specs.Stages.{max_count};

    ghost Value = { ℕ };

    ghost view = { λ f. f.number };

    ghost invariant = { λ f. f.number < max_count };
}

impl Frames {
    /// No frame yet.
    pub fn none() -> Frames
        ensures { result ≡ 0 }
    {
        Frames { number: 0 }
    }

    /// The count.
    pub fn number(&self) -> u64
        ensures number { result ≡ self.now }
        ensures within { self.now < max_count }
    {
        self.number
    }

    /// One more. It fails at 2^64 - 1, for which no memory has room, since each frame has a line.
    pub fn next(&self) -> Result<Frames, Memory>
        ensures { IfOk result (λ n. n ≡ counted_up (self.now + 1)) }
    {
        let number = self.number.saturating_add(1);
        if number == u64::MAX {
            return Err(Memory);
        }
        Ok(Frames { number })
    }
}
