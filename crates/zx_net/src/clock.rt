//! The time.

ghost use Rattle.std.specs.Prelude.{◌<◌, ◌^◌};

/// A clock: the system's, or one in memory.
pub trait Clock {
    /// Milliseconds since 1970, below 2^62. A later reading may be less than an earlier one.
    fn now(&mut self) -> u64
        ensures { result < 2 ^ 62 };

    /// The same clock for another owner, such as a worker.
    fn another(&self) -> Self;
}
