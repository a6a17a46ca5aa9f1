//! What a run of the service shows, line by line.
//!
//! Connections and proxies have the numbers that the script gives them. `index` counts the frames of a connection from 0, which is
//! its connect. A zxid is the revision of etcd that the update made. Times are the script's clock, in milliseconds.

use zk_model::Layout;
use zk_service::{Ended, UpdateRec};
use zx_base::{Bytes, Seq};

/// A line of a transcript.
#[derive(Drop)]
pub enum TranscriptLine {
    /// An update was committed.
    Update(UpdateRec),
    /// A connection opened at a proxy; `id`, `passwd` and `layout` are what it offers if its client asks for a new session.
    Open {
        connection: u32,
        proxy: u32,
        id: i64,
        passwd: [u8; 16],
        layout: Layout,
    },
    /// A frame of the client came, `bytes` without its length; `zxid` is that of the last update then.
    Frame {
        connection: u32,
        index: u64,
        zxid: i64,
        bytes: Bytes,
    },
    /// The client was sent a packet, `bytes` with its length.
    Send {
        connection: u32,
        bytes: Bytes,
    },
    /// The lease of session `id` lapsed; `revision` is the store's after it.
    Lapse {
        revision: i64,
        id: i64,
    },
    /// A connection or a reaper ended.
    Close {
        connection: u32,
        end: Ended,
    },
}

/// The lines of one connection, in order.
#[derive(Drop)]
pub struct Conversation {
    pub connection: u32,
    pub lines: Seq<TranscriptLine>,
}
