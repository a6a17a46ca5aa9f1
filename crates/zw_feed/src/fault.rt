//! Why a follower gives no more entries.

use zx_base::Bytes;

/// Why a follower gives no entries for a line. Each but `Memory` is for good.
#[derive(Drop)]
pub enum FeedFault {
    /// etcd ended the watch.
    Ended,
    /// The watch asked for a revision below `rev`, and those were compacted.
    Compacted { rev: i64 },
    /// The next put of the head has the version `found`, and not `expected`, the next update's number.
    Gap { expected: i64, found: i64 },
    /// The next put of the head is the next update's, and its value, found under this key, is no record.
    Damaged { key: Bytes, value: Bytes },
    /// Memory was refused. The line was not taken.
    Memory,
}
