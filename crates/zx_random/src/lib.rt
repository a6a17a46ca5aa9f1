//! Words from outside: random words ([`Random`]), and the word to stop ([`StopWord`]), as traits. So the code that asks for them is the
//! same over the system and over memory.
//!
//! [`Random::word`] is any word. [`RandWord`] takes its words from a generator that the system has seeded once (ChaCha with 12 rounds),
//! so that a session's password cannot be guessed from others; a [`MemRandom`] gives listed words.
//!
//! A worker reads a [`StopWord`] at each of its turns, and ends where it is set. Each reading that finds it set is counted, so a worker
//! that says that it was told to stop can show it. The owners of one [`SharedStop`] share a word, which is set for good; a [`MemStop`] is
//! set from a listed reading on.
#![tactic(auto)]

mod hanging;
mod random;
mod stop;
#[cfg(test)]
mod tests;

pub use hanging::{HangsUp, LetsGo};
pub use random::{MemRandom, RandWord, Random};
pub use stop::{MemStop, SharedStop, StopWord};
