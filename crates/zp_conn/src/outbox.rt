//! Packets that are held back, to go out in one write.

ghost use Rattle.std.specs.Prelude.{◌≡◌, ◌++◌, [], OnErr, OnOk};
ghost use Rattle.zp_conn.specs.Writing.{Flushes};

use crate::writing::{WriteFault, write_all};
use std::alloc::Global;
use std::marker::Model;
use zx_base::Memory;
use zx_outside::Sink;

/// How many bytes are held at most before they are written.
pub(crate) const MOST_HELD: usize = 65_536;

/// After how many milliseconds a packet that is held goes out, once an input was handed in.
pub(crate) const LONGEST_HELD: u64 = 20;

/// Packets that were sent and are not written yet, one after the other. Each is copied once.
#[derive(Drop)]
pub(crate) struct Outbox {
    alloc: Global,
    bytes: Vec<u8>,
}

impl Model for Outbox {
    ghost use Rattle.std.specs.Prelude.{ℕ, List};

    ghost Value = { List ℕ };

    ghost view = { λ o. o.bytes.items };
}

impl Outbox {
    /// Nothing is held.
    pub(crate) fn new(alloc: Global) -> Outbox
        ensures { result ≡ [] }
    {
        Outbox {
            alloc,
            bytes: Vec::new(alloc),
        }
    }

    /// Whether nothing is held.
    pub(crate) fn is_empty(&self) -> bool {
        self.bytes.is_empty()
    }

    /// Whether as much is held as may be.
    pub(crate) fn is_full(&self) -> bool {
        self.bytes.len() >= MOST_HELD
    }

    /// Holds a packet.
    pub(crate) fn hold(&mut self, packet: &[u8]) -> Result<(), Memory>
        ensures ok { OnOk result (self.new ≡ self.old ++ packet.now) }
        ensures err { OnErr result (self.new ≡ self.old) }
    {
        self.bytes.extend_from_slice(packet)?;
        Ok(())
    }

    /// Writes what is held, and holds nothing then. After a fault of the sink the rest is not written any more. Much room is given
    /// back, so that a connection that sent a large packet once does not keep its size.
    pub(crate) fn flush<K: Sink>(&mut self, sink: &mut K) -> Result<(), WriteFault>
        ensures flushes { Flushes result self.old self.new (K.taken sink.old) (K.taken sink.new) (K.counts sink.old) (K.counts sink.new) }
        ensures named { K.name sink.new ≡ K.name sink.old }
    {
        let result = write_all(sink, self.bytes.as_slice());
        if self.bytes.len() > MOST_HELD {
            self.bytes = Vec::new(self.alloc);
        } else {
            self.bytes.clear();
        }
        result
    }
}
