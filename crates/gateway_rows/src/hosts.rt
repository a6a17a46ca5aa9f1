//! A net of which one address can be dialled.

ghost use Rattle.std.specs.Prelude.{Some};
ghost use Rattle.zx_net.specs.Nets.{IsFreshSource, IsFreshSink};

use std::alloc::Global;
use zx_net::{MemDoor, Named, Net, NetFault};
use zx_outside::{MemSink, MemSource};

/// A net in memory that listens nowhere. One address can be dialled, once.
#[derive(Drop)]
pub struct OneHost<'a> {
    alloc: Global,
    address: &'a str,
    /// What its stream gives, until it was dialled.
    bytes: Option<Vec<u8>>,
    door_faults: u64,
    dial_faults: u64,
}

impl<'a> OneHost<'a> {
    /// A net whose stream to this address gives these bytes.
    pub fn new(alloc: Global, address: &'a str, bytes: Vec<u8>) -> OneHost<'a> {
        OneHost {
            alloc,
            address,
            bytes: Some(bytes),
            door_faults: 0,
            dial_faults: 0,
        }
    }
}

/// Both ends of a stream that gives these bytes.
fn ends_of(alloc: Global, bytes: Vec<u8>) -> (Named<MemSource>, Named<MemSink>)
    ensures source { IsFreshSource (Some result.0.inner.given) result.0.inner.counts result.0.inner.ended result.0.name 0 }
    ensures sink { IsFreshSink (Some result.1.inner.taken) result.1.inner.counts result.1.name 0 }
{
    let source = MemSource::new(bytes, Vec::new(alloc), Vec::new(alloc));
    let sink = MemSink::new(alloc, Vec::new(alloc));
    (Named::new(source, 0), Named::new(sink, 0))
}

impl<'a> Net for OneHost<'a> {
    ghost use Rattle.std.specs.Prelude.{None};

    type Door = MemDoor;

    type In = Named<MemSource>;

    type Out = Named<MemSink>;

    ghost counts = { λ s. record { door_faults = s.door_faults; dial_faults = s.dial_faults; accepted = 0 } };

    ghost no_room = { λ _. 0 };

    ghost streams = { λ _. None };

    fn bind(&mut self, _address: &str) -> Result<MemDoor, NetFault> {
        self.door_faults = self.door_faults.saturating_add(1);
        Err(NetFault::Failed)
    }

    fn accept(
        &mut self,
        _door: &mut MemDoor,
    ) -> Result<(Named<MemSource>, Named<MemSink>), NetFault> {
        self.door_faults = self.door_faults.saturating_add(1);
        Err(NetFault::Failed)
    }

    fn dial(&mut self, address: &str) -> Result<(Named<MemSource>, Named<MemSink>), NetFault> {
        if address == self.address {
            if let Some(bytes) = self.bytes.take() {
                return Ok(ends_of(self.alloc, bytes));
            }
        }
        self.dial_faults = self.dial_faults.saturating_add(1);
        Err(NetFault::Failed)
    }

    fn settle(&mut self) {}

    fn another(&self) -> OneHost<'a> {
        OneHost {
            alloc: self.alloc,
            address: self.address,
            bytes: None,
            door_faults: 0,
            dial_faults: 0,
        }
    }
}
