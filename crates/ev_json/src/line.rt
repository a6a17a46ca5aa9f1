//! What one line of a watch says.

use ev_types::Kv;
use zx_base::Seq;

/// One line of a watch's stream (etcd API reference, `WatchResponse`).
#[derive(Drop)]
pub enum Line {
    /// The watch was created while the store stood at the header's `revision`. Events in such a line are passed over.
    Created { revision: i64 },
    /// The keys that were put, in order; deletions are left out. `revision` is the header's, and may be above those of the puts.
    /// A progress notice has no events: everything up to `revision` was told. A line of deletions alone is read as the same.
    Events { revision: i64, kvs: Seq<Kv> },
    /// The watch was canceled: it asked for a revision below `rev`, and those were compacted.
    Compacted { rev: i64 },
    /// The watch was canceled for another reason, or etcd ended it with an error.
    Ended,
}

/// One event: the key as a put left it, or `None` for a deletion.
#[derive(Drop)]
pub struct Event {
    pub kv: Option<Kv>,
}
