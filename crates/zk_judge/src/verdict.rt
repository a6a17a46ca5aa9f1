//! The verdict on a transcript.

/// Whether the service could have made a transcript. Lines are counted from 1.
#[derive(Clone, Copy, PartialEq, Eq)]
pub enum Verdict {
    /// The service could have made it.
    Lawful,
    /// This line is the first that no run of the service can have written there. Where there is neither an update nor a lapse, it
    /// is the number of the lines and one more.
    History { line: u64 },
    /// This line is the first that carries out a request out of its connection's order.
    Order { line: u64 },
    /// What this connection was sent is not what the service gives it; it is the least such connection.
    Conversation { connection: u32 },
}
