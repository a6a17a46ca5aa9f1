//! Why a message could not be read or written.

ghost use Rattle.std.specs.Prelude.{◌≡◌};
ghost use Rattle.ev_http.specs.declared.fault.HttpFault.TheVariants.{Memory};

use std::alloc::{AllocError, AllocFailed};

/// Why a call gave no message. Each place is counted in bytes from the first byte of the message.
#[derive(Clone, Copy, Debug, PartialEq, Eq)]
pub enum HttpFault {
    /// No head begins with the bytes taken, or it has more than 64 fields or 16,384 bytes.
    Head,
    /// A response has this status, which is not 200. Its body is not read.
    Status(u16),
    /// A request has another method than POST, or a target that is not the path of a route.
    Route,
    /// The field line, the chunk or the trailer that begins at this place breaks a rule on how a body is framed (RFC 9112, sections
    /// 6 and 7). For a request without a content-length it is the empty line that ends the head.
    Body { place: u64 },
    /// A body, or a line of a stream, has more bytes than this.
    TooLong { limit: u64 },
    /// The source ended after so many bytes of the message, before the message did. From [`crate::Lines::next`] also: the message
    /// ended, and no whole line is left.
    Ended { taken: u64 },
    /// The source was idle for 6,000 turns in one call.
    Idle,
    /// The source had a fault.
    ReadFault,
    /// The sink had a fault.
    WriteFault,
    /// The allocator refused memory.
    Memory,
}

impl From<AllocError> for HttpFault {
    ghost from_gives = { λ _ fault. fault ≡ Memory };

    fn from(_refused: AllocError) -> HttpFault {
        HttpFault::Memory
    }
}

impl<T: Drop> From<AllocFailed<T>> for HttpFault {
    ghost from_gives = { λ _ fault. fault ≡ Memory };

    fn from(_refused: AllocFailed<T>) -> HttpFault {
        HttpFault::Memory
    }
}
