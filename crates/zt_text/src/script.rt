//! What may happen in a run, one value for each line of a script.

use zk_model::Layout;
use zx_base::Bytes;

/// Numbers of connections, proxies and strays, and milliseconds, are those of the line. Session ids are at least 1.
#[derive(Debug, Drop)]
pub enum Happening {
    /// A connection opens at a proxy, with the number, the password and the layout of a new session.
    Open {
        connection: u32,
        proxy: u32,
        id: i64,
        passwd: [u8; 16],
        layout: Layout,
    },
    /// A whole frame arrives.
    Frame {
        connection: u32,
        bytes: Bytes,
    },
    /// Bytes arrive.
    Arrive {
        connection: u32,
        bytes: Bytes,
    },
    /// The store carries out the ask that is out.
    Exec {
        connection: u32,
    },
    /// The answer to the ask that is out is delivered.
    Answer {
        connection: u32,
    },
    /// The link fails; an ask not carried out may be carried out later.
    Cut {
        connection: u32,
    },
    /// The link fails, and the ask is never carried out.
    Refuse {
        connection: u32,
    },
    /// An ask that was cut is carried out.
    Stray {
        number: u32,
    },
    /// The next entry is delivered.
    Entry {
        connection: u32,
    },
    /// The connection lags behind the entries that are kept.
    Lag {
        connection: u32,
    },
    /// The client's stream ends.
    End {
        connection: u32,
    },
    /// All activities of a proxy end.
    Restart {
        proxy: u32,
    },
    /// A lease lapses.
    Lapse {
        id: i64,
    },
    /// Another user puts a key.
    Foreign {
        key: Bytes,
        value: Bytes,
    },
    /// A reaper of a session starts.
    Reap {
        connection: u32,
        proxy: u32,
        id: i64,
    },
    /// Milliseconds pass.
    Tick {
        millis: u32,
    },
    /// What waits is carried out and answered.
    Settle {
        connection: u32,
    },
}

/// Why a script cannot be read on.
#[derive(Clone, Copy, PartialEq, Eq)]
pub enum Unread {
    /// The line is of no form, or longer than 2,200,000 bytes.
    Unreadable,
    /// The script has more than 100,000,000 bytes.
    TooLong,
}

/// Why a happening is not possible.
#[derive(Clone, Copy, PartialEq, Eq)]
pub enum Why {
    /// The number is that of another connection or reaper, open or closed.
    NumberInUse,
    NoSuchConnection,
    /// The connection has ended.
    ConnectionClosed,
    /// The number is a reaper's.
    NotAConnection,
    /// A frame has begun to arrive and is not whole.
    FrameOpen,
    /// A frame of more than 1,048,575 bytes.
    TooLong,
    NoRequestOut,
    AlreadyCarriedOut,
    NotCarriedOut,
    /// None was left under this number, or it was carried out.
    NoSuchStray,
    /// No entry is taken while an ask is out.
    RequestOut,
    /// The connection is not attached, has no watch armed, or has taken every entry.
    NoEntry,
    /// No more than 4,096 entries are to be taken.
    NoLag,
    NoSuchLease,
    /// The store is at the last revision that there can be.
    StoreFull,
    /// The key is empty, or one of the service's own.
    KeyKept,
    /// The clock would pass 9,000,000,000,000,000 milliseconds.
    ClockLimit,
}
