//! How a server ends.

use std::alloc::Global;
use std::sync::Arc;
use zw_hub::FeedEnd;

/// How a server ended.
#[derive(Drop)]
pub enum ServeEnd {
    /// As many clients as the limit allows were accepted, and have ended.
    Done,
    /// The sink had a fault.
    WriteFault,
    /// The first ask of etcd failed, a worker could not be started, the address could not be listened on, or the door had a fault.
    Net,
    /// The allocator refused memory, here or to the watch worker.
    Memory,
    /// The watch worker could not go on, for this cause. It is never out of memory.
    Feed(Arc<FeedEnd, Global>),
}

/// Why no further client is accepted.
#[derive(Drop)]
pub enum Stop {
    /// A door, a dial of the first ask or a start of a worker had a fault.
    Net,
    /// The sink had a fault.
    Write,
    /// The allocator refused memory.
    Memory,
    /// The hub was closed, for this cause.
    Feed(Arc<FeedEnd, Global>),
}
