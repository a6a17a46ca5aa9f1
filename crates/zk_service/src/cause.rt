//! Why a connection ends.

ghost use Rattle.std.specs.Prelude.{◌≡◌, IfOk};

use std::alloc::Global;
use zx_base::{Bytes, Memory};

/// Why a connection ended. `place` counts the bytes of the client's stream; `rev` is a revision of etcd.
#[derive(Drop)]
pub enum Cause {
    /// A closeSession was answered.
    Closed,
    /// The client's stream ended after so many bytes.
    ClientEnd { place: u64 },
    /// The client's stream could not be read.
    ReadFault,
    /// The client's stream could not be written.
    WriteFault,
    /// Byte `place` of the stream begins a length that is out of range.
    BadLength { place: u64, length: i32 },
    /// Byte `place` of the stream begins a frame of fewer than 8 bytes, or a first frame that is no connect.
    NoHeader { place: u64 },
    /// The client sent an `auth` with a scheme that is not served.
    AuthRefused,
    /// The session to be resumed is not open, has lapsed, or has another password.
    Unknown,
    /// The client has seen zxid `client`; the last update of this store is `head`.
    ZxidAhead { client: i64, head: i64 },
    /// The number of a new session is in use, as seen at this revision.
    Taken { rev: i64 },
    /// The session has lapsed or ended, as seen at this revision.
    Expired { rev: i64 },
    /// Another connection resumed the session by the update with zxid `found`; this one was attached by that with zxid `mine`.
    Moved { mine: i64, found: i64 },
    /// The link to etcd failed, or etcd denied what it was asked.
    LinkFault,
    /// The client was told the updates up to number `cursor`; those up to number `floor` are no longer kept.
    Lagged { cursor: i64, floor: i64 },
    /// No more updates are told.
    FeedClosed,
    /// The value under this key of the service is no record.
    Damaged { key: Bytes, value: Bytes },
    /// The proxy restarted.
    Restart,
    /// Out of memory.
    Memory,
}

/// How a connection or a reaper ended.
#[derive(Drop)]
pub enum Ended {
    /// A connection ended, or a reaper failed.
    Cause(Cause),
    /// The session was removed by the update with this zxid.
    Reaped { zxid: i64 },
    /// The session was alive at this revision.
    Kept { rev: i64 },
    /// The session was not open at this revision.
    Gone { rev: i64 },
}

/// A copy of a cause.
pub fn copy_of_cause(alloc: Global, cause: &Cause) -> Result<Cause, Memory>
    ensures { IfOk result (λ copy. copy ≡ cause.now) }
{
    Ok(match cause {
        Cause::Closed => Cause::Closed,
        Cause::ClientEnd { place } => Cause::ClientEnd { place: *place },
        Cause::ReadFault => Cause::ReadFault,
        Cause::WriteFault => Cause::WriteFault,
        Cause::BadLength { place, length } => Cause::BadLength {
            place: *place,
            length: *length,
        },
        Cause::NoHeader { place } => Cause::NoHeader { place: *place },
        Cause::AuthRefused => Cause::AuthRefused,
        Cause::Unknown => Cause::Unknown,
        Cause::ZxidAhead { client, head } => Cause::ZxidAhead {
            client: *client,
            head: *head,
        },
        Cause::Taken { rev } => Cause::Taken { rev: *rev },
        Cause::Expired { rev } => Cause::Expired { rev: *rev },
        Cause::Moved { mine, found } => Cause::Moved {
            mine: *mine,
            found: *found,
        },
        Cause::LinkFault => Cause::LinkFault,
        Cause::Lagged { cursor, floor } => Cause::Lagged {
            cursor: *cursor,
            floor: *floor,
        },
        Cause::FeedClosed => Cause::FeedClosed,
        Cause::Damaged { key, value } => Cause::Damaged {
            key: Bytes::copy_of(alloc, key.as_slice())?,
            value: Bytes::copy_of(alloc, value.as_slice())?,
        },
        Cause::Restart => Cause::Restart,
        Cause::Memory => Cause::Memory,
    })
}
