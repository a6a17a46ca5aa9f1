//! A net whose addresses say what comes of a dial.

ghost use Rattle.std.specs.Prelude.{Some};
ghost use Rattle.zx_net.specs.Nets.{IsFreshSource, IsFreshSink};

use row_files::push_word;
use std::alloc::Global;
use zx_net::{MemDoor, Named, Net, NetFault};
use zx_outside::{MemSink, MemSource};

/// An answer to an ask for the head of a new store (RFC 9112; etcd API reference, `TxnResponse`).
const ANSWER: &str =
    "HTTP/1.1 200 OK\r\ncontent-type: application/json\r\ncontent-length: 80\r\n\r\n{\"header\":{\"revision\":\"1\"},\"responses\":[{\"response_range\":{}}],\"succeeded\":true}";

/// How many answers a stream gives.
const ANSWERS: u32 = 3;

/// A net in memory that listens nowhere. The stream to an address that begins with `u` gives three answers, that to one with `e`
/// ends at once, and others cannot be dialled. It keeps the addresses that were dialled.
#[derive(Drop)]
pub struct Hosts {
    alloc: Global,
    dialled: String,
    door_faults: u64,
    dial_faults: u64,
}

impl Hosts {
    /// A net that was not dialled yet.
    pub fn new(alloc: Global) -> Hosts {
        Hosts {
            alloc,
            dialled: String::new(alloc),
            door_faults: 0,
            dial_faults: 0,
        }
    }

    /// Each address that was dialled, with a blank before it.
    pub fn dialled(&self) -> &str {
        self.dialled.as_str()
    }
}

/// The bytes of a stream to this address; `None` if it cannot be dialled. If memory is refused, there are fewer.
fn bytes_of(alloc: Global, address: &str) -> Option<Vec<u8>> {
    let mut bytes = Vec::new(alloc);
    if address.starts_with('u') {
        for _ in 0..ANSWERS {
            let _ = bytes.extend_from_slice(ANSWER.as_bytes());
        }
        return Some(bytes);
    }
    if address.starts_with('e') {
        return Some(bytes);
    }
    None
}

/// Both ends of a stream that gives these bytes.
fn ends_of(alloc: Global, bytes: Vec<u8>) -> (Named<MemSource>, Named<MemSink>)
    ensures source { IsFreshSource (Some result.0.inner.given) result.0.inner.counts result.0.inner.ended result.0.name 0 }
    ensures sink { IsFreshSink (Some result.1.inner.taken) result.1.inner.counts result.1.name 0 }
{
    let source = MemSource::new(bytes, Vec::new(alloc), Vec::new(alloc));
    let sink = MemSink::new(alloc, Vec::new(alloc));
    (Named::new(source, 0), Named::new(sink, 0))
}

impl Net for Hosts {
    ghost use Rattle.std.specs.Prelude.{None};

    type Door = MemDoor;

    type In = Named<MemSource>;

    type Out = Named<MemSink>;

    ghost counts = { λ s. record { door_faults = s.door_faults; dial_faults = s.dial_faults; accepted = 0 } };

    ghost no_room = { λ _. 0 };

    ghost streams = { λ _. None };

    fn bind(&mut self, _address: &str) -> Result<MemDoor, NetFault> {
        self.door_faults = self.door_faults.saturating_add(1);
        Err(NetFault::Failed)
    }

    fn accept(
        &mut self,
        _door: &mut MemDoor,
    ) -> Result<(Named<MemSource>, Named<MemSink>), NetFault> {
        self.door_faults = self.door_faults.saturating_add(1);
        Err(NetFault::Failed)
    }

    fn dial(&mut self, address: &str) -> Result<(Named<MemSource>, Named<MemSink>), NetFault> {
        let _ = push_word(&mut self.dialled, address);
        match bytes_of(self.alloc, address) {
            Some(bytes) => Ok(ends_of(self.alloc, bytes)),
            None => {
                self.dial_faults = self.dial_faults.saturating_add(1);
                Err(NetFault::Failed)
            }
        }
    }

    fn settle(&mut self) {}

    fn another(&self) -> Hosts {
        Hosts {
            alloc: self.alloc,
            dialled: String::new(self.alloc),
            door_faults: 0,
            dial_faults: 0,
        }
    }
}
