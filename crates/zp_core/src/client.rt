//! What a connection keeps of its client, beside the stage.

use std::collections::VecDeque;
use zn_view::Who;
use zp_kept::KeptViews;
use zw_watch::Armed;
use zx_base::Bytes;

/// What a connection keeps of its client, beside the stage.
#[derive(Drop)]
pub struct Client {
    /// The frames that were not taken up yet, the oldest first.
    pub waiting: VecDeque<Bytes>,
    /// The number of bytes that all frames so far took in the client's stream, their lengths included.
    pub taken: u64,
    /// The zxid up to which the client has been told.
    pub zxid: i64,
    /// The number of the update with that zxid.
    pub cursor: i64,
    pub watches: Armed,
    /// The session, and the zxid of the update that attached it to this connection; both 0 before that.
    pub who: Who,
    /// The session's timeout, in milliseconds.
    pub timeout: i32,
    /// The time at which a grant or a keepalive was last asked for, in milliseconds.
    pub kept: u64,
    /// The index of the next frame to answer; the connect is frame 0.
    pub next: u64,
    /// Views of paths that were used, on which updates may be planned.
    pub views: KeptViews,
}
