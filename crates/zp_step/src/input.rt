//! What a connection is handed.

use ev_types::Answer;
use std::alloc::Global;
use std::sync::Arc;
use zn_layout::Entry;
use zx_base::Bytes;

/// What a connection is handed. A `place` is a number of bytes from the start of the client's stream.
#[derive(Drop)]
pub enum Input {
    /// A whole frame of the client, without its length: at most 1,048,575 bytes. The first one is its connect.
    Frame(Bytes),
    /// The frame that begins at this place has a length below 0 or above 1,048,575.
    BadLength { place: u64, length: i32 },
    /// etcd's answer to the ask that is out.
    Answer(Answer),
    /// The ask that is out gets no answer. It may have been carried out or not.
    Failed,
    /// The entry after the cursor: the next update.
    Entry(Arc<Entry, Global>),
    /// The entry after the cursor is no longer kept. `floor` is the number of the newest entry that is gone.
    Lagged { cursor: i64, floor: i64 },
    /// No more entries will come.
    FeedClosed,
    /// The client's stream ended at this place.
    ClientEnd { place: u64 },
}
