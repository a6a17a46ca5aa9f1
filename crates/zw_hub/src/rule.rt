//! For proofs: the rule that the list keeps for all threads, which is that it only grows.

use crate::published::Published;
use crate::window::Window;
use crossbeam_utils::rule::{Outcome, Protocol};

/// What one thread knows. No value of it is made.
pub struct View {
    /// For a reader the list that it read last, for the writer the one that it published last.
    pub list: Published,
    /// How many reads the reader has made, or how many publishes and closes the writer.
    pub steps: u64,
}

/// The rule: the list extends every list that a thread has seen.
pub struct Growing;

impl Protocol<Window, View> for Growing {
    ghost use Rattle.zw_hub.specs.Steps.{Keeps, nothing_seen};

    ghost holds = { Keeps };

    ghost first = { nothing_seen };
}

/// One step: a reader enters the list, or the writer shows one that extends it.
pub struct Sees;

impl Outcome<Window, View> for Sees {
    ghost use Rattle.zw_hub.specs.Steps.{SeesOnce};

    ghost then = { SeesOnce };
}
