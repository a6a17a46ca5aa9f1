//! Tells which session a connection is for.

ghost use Rattle.std.specs.Prelude.{◌≡◌};

use crate::telling::tell_session;
use zp_run::{Event, Trace};
use zx_base::Memory;

/// Where the session's number begins in the first packet, the reply to the connect: after the packet's length, the protocol's version
/// and the timeout.
const SESSION: usize = 12;

/// A trace that also tells the operator, at the first packet, which session the connection was given, if any.
#[derive(Drop)]
pub struct Attached<W: Drop, T: Trace + Drop> {
    rt: W,
    number: u64,
    is_told: bool,
    trace: T,
}

/// The session that the first packet gives; 0 if it gives none.
fn session_in(packet: &[u8]) -> u64 {
    let Some(rest) = packet.get(SESSION..) else {
        return 0;
    };
    match rest.first_chunk::<8>() {
        Some(number) => u64::from_be_bytes(*number),
        None => 0,
    }
}

impl<W: Eprint + Drop, T: Trace + Drop> Attached<W, T> {
    /// The trace of the connection of this number, to which nothing was sent yet.
    pub fn new(rt: W, number: u64, trace: T) -> Attached<W, T>
        ensures { result.trace ≡ trace }
    {
        Attached {
            rt,
            number,
            is_told: false,
            trace,
        }
    }

    /// The trace itself.
    pub fn into_trace(self) -> T
        ensures { result ≡ self.trace }
    {
        self.trace
    }

    /// Tells of the first packet.
    fn tell_once(&mut self, event: &Event)
        ensures { self.new.trace ≡ self.old.trace }
    {
        if self.is_told {
            return;
        }
        if let Event::Out(packet) = event {
            self.is_told = true;
            let session = session_in(packet.as_slice());
            if session != 0 {
                tell_session(&self.rt, self.number, session);
            }
        }
    }
}

impl<W: Eprint + Drop, T: Trace + Drop> Trace for Attached<W, T> {
    ghost told = { λ t. T.told t.trace };

    fn note(&mut self, event: &Event) -> Result<(), Memory> {
        self.tell_once(event);
        self.trace.note(event)
    }
}
