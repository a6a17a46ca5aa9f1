//! What a connection does.

use ev_types::Ask;
use zk_service::Cause;
use zx_base::Bytes;

/// What a connection does at an input: packets first, and then one ask, or the close, or neither.
#[derive(Drop)]
pub enum Action {
    /// For etcd to carry out. The next answer or failure that is handed in belongs to this ask.
    Ask(Ask),
    /// A packet for the client, with its length before it.
    Send(Bytes),
    /// The connection is shut, for this cause.
    Close(Cause),
}
