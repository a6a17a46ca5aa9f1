//! Random words.

ghost use Rattle.std.specs.Prelude.{◌≡◌};

use rand::make_rng;
use rand::rngs::StdRng;
use rand_core::Rng;
use std::collections::VecDeque;
use std::io;
use std::marker::Model;
use std::random::RandomSource;

/// Where random words come from.
pub trait Random {
    /// The next word. It may be any.
    fn word(&mut self) -> u64;
}

/// Words of a generator that the system has seeded. They cannot be guessed from one another.
#[derive(Drop)]
pub struct RandWord {
    rng: StdRng,
}

impl RandWord {
    /// A generator with a seed of the system's. An error is the system's, which gave no random bytes.
    pub fn new<R: RandomSource>(rt: &R) -> io::Result<RandWord> {
        let rng = make_rng(rt)?;
        Ok(RandWord { rng })
    }
}

impl Random for RandWord {
    fn word(&mut self) -> u64 {
        self.rng.next_u64()
    }
}

/// Listed words, and after them 1 for ever.
#[derive(Drop)]
pub struct MemRandom {
    words: VecDeque<u64>,
}

impl Model for MemRandom {
    ghost use Rattle.std.specs.Prelude.{List, ℕ};

    ghost Value = { List ℕ };

    ghost view = { λ r. r.words.items };
}

impl MemRandom {
    ghost use Rattle.std.specs.Prelude.{◌≡◌};

    /// Gives these words in turn.
    pub fn new(words: Vec<u64>) -> MemRandom
        ensures { result ≡ words.items }
    {
        MemRandom {
            words: VecDeque::from(words),
        }
    }
}

impl Random for MemRandom {
    ghost use Rattle.std.specs.Prelude.{◌≡◌};
    ghost use Rattle.zx_random.specs.Words.{first_word, later_words};

    fn word(&mut self) -> u64
        ensures word { result ≡ first_word self.old }
        ensures later { self.new ≡ later_words self.old }
    {
        match self.words.pop_front() {
            Some(word) => word,
            None => 1,
        }
    }
}
