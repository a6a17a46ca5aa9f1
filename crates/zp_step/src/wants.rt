//! What a connection waits for.

/// What a connection waits for. `cursor` is the number of the update up to which its client has been told.
#[derive(Clone, Copy)]
pub enum Wants {
    /// The next frame of the client.
    Frame,
    /// The answer to the ask that is out.
    Answer,
    /// The entry after the cursor: a reply waits for it.
    Entry { cursor: i64 },
    /// The next frame, or the entry after the cursor, whichever comes first: a watch is armed.
    FrameOrEntry { cursor: i64 },
    /// Nothing any more: the connection is shut.
    Nothing,
}
