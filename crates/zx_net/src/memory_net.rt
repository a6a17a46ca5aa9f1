//! A net in memory.

ghost use Rattle.std.specs.Prelude.{◌≡◌, [], Some, map};
ghost use Rattle.zx_outside.specs.Counts.{one_more};
ghost use Rattle.zx_outside.specs.Memory.{fails_next};
ghost use Rattle.zx_net.specs.Memory.{refusal};
ghost use Rattle.zx_net.specs.Nets.{no_counts, IsFreshSource, IsFreshSink};

use crate::{Named, Net, NetFault};
use std::alloc::Global;
use std::collections::VecDeque;
use std::marker::Model;
use zx_outside::{MemSink, MemSource};

/// A door in memory. Each accept at it gives a stream that ends at once.
#[derive(Clone, Copy, Drop)]
pub struct MemDoor;

/// A net whose accepted streams end at once, and whose dialled streams give listed bytes. What is written to any of
/// them stays in memory. It fails at listed calls.
#[derive(Drop)]
pub struct MemNet {
    alloc: Global,
    failing: Vec<u64>,
    full: Vec<u64>,
    streams: VecDeque<Vec<u8>>,
    calls: u64,
    door_faults: u64,
    dial_faults: u64,
    no_room: u64,
    accepted: u64,
}

impl Model for MemNet {
    ghost use Rattle.std.specs.Prelude.{map};
    ghost use Rattle.zx_net.specs.Memory.{Listed};

    ghost Value = { Listed };

    ghost view = { λ s. record {
      failing = s.failing.items;
      full = s.full.items;
      streams = map (λ bytes. bytes.items) s.streams.items;
      calls = s.calls;
      counts = record { door_faults = s.door_faults; dial_faults = s.dial_faults; accepted = s.accepted };
      no_room = s.no_room;
    } };
}

impl MemNet {
    /// A net whose dials give these streams in turn, and then empty ones. Its calls whose numbers, counted from 1 over
    /// binds, accepts and dials, are in `failing` fail; a dial that fails uses no stream.
    pub fn new(alloc: Global, failing: Vec<u64>, streams: Vec<Vec<u8>>) -> MemNet
        ensures failing { result.failing ≡ failing.items }
        ensures full { result.full ≡ [] }
        ensures streams { result.streams ≡ map (λ bytes. bytes.items) streams.items }
        ensures calls { result.calls ≡ 0 }
        ensures counts { result.counts ≡ no_counts }
        ensures no_room { result.no_room ≡ 0 }
    {
        MemNet {
            alloc,
            failing,
            full: Vec::new(alloc),
            streams: VecDeque::from(streams),
            calls: 0,
            door_faults: 0,
            dial_faults: 0,
            no_room: 0,
            accepted: 0,
        }
    }

    /// The same net, in which there is no room for the dials whose numbers, counted as those of `new`, are in `full`.
    pub fn without_room(self, full: Vec<u64>) -> MemNet
        ensures { result ≡ record self { full = full.items } }
    {
        MemNet { full, ..self }
    }
}

/// Counts a call, and says whether it is one of those that fail.
fn fails(calls: &mut u64, failing: &Vec<u64>) -> bool
    ensures calls { calls.new ≡ one_more calls.old }
    ensures listed { result ≡ fails_next failing.now.items calls.old }
{
    *calls = calls.saturating_add(1);
    failing.contains(calls)
}

/// Counts a call that is a dial, and says what it fails for, if it does.
fn refusal(calls: &mut u64, failing: &Vec<u64>, full: &Vec<u64>) -> Option<NetFault>
    ensures calls { calls.new ≡ one_more calls.old }
    ensures listed { result ≡ refusal failing.now.items full.now.items calls.old }
{
    *calls = calls.saturating_add(1);
    if full.contains(calls) {
        return Some(NetFault::NoRoom);
    }
    if failing.contains(calls) {
        return Some(NetFault::Failed);
    }
    None
}

/// Both ends of a stream that gives these bytes, under a name.
fn ends_of(alloc: Global, bytes: Vec<u8>, name: u64) -> (Named<MemSource>, Named<MemSink>)
    ensures left { result.0.inner.left ≡ bytes.items }
    ensures source { IsFreshSource (Some result.0.inner.given) result.0.inner.counts result.0.inner.ended result.0.name name }
    ensures sink { IsFreshSink (Some result.1.inner.taken) result.1.inner.counts result.1.name name }
{
    let source = MemSource::new(bytes, Vec::new(alloc), Vec::new(alloc));
    let sink = MemSink::new(alloc, Vec::new(alloc));
    (Named::new(source, name), Named::new(sink, name))
}

impl Net for MemNet {
    ghost use Rattle.std.specs.Prelude.{◌≡◌, [], Some, OnErr, IfOk, is_err};
    ghost use Rattle.zx_outside.specs.Memory.{fails_next};
    ghost use Rattle.zx_net.specs.Memory.{IsNext, IsRefusedFor, refusal};
    ghost use Rattle.zx_net.specs.Nets.{counts_after_bind, counts_after_accept, counts_after_dial, no_room_after_dial, no_counts, IsFreshSource, IsFreshSink, GivesNext};

    type Door = MemDoor;

    type In = Named<MemSource>;

    type Out = Named<MemSink>;

    ghost counts = { λ s. s.counts };

    ghost no_room = { λ s. s.no_room };

    ghost streams = { λ s. Some s.streams };

    fn bind(&mut self, _address: &str) -> Result<MemDoor, NetFault>
        ensures counts { self.new.counts ≡ counts_after_bind result self.old.counts }
        ensures no_room { self.new.no_room ≡ self.old.no_room }
        ensures streams { Some self.new.streams ≡ Some self.old.streams }
        ensures listed { is_err result ≡ fails_next self.old.failing self.old.calls }
        ensures next { IsNext self.old self.new }
    {
        if fails(&mut self.calls, &self.failing) {
            self.door_faults = self.door_faults.saturating_add(1);
            return Err(NetFault::Failed);
        }
        Ok(MemDoor)
    }

    fn accept(
        &mut self,
        _door: &mut MemDoor,
    ) -> Result<(Named<MemSource>, Named<MemSink>), NetFault>
        ensures counts { self.new.counts ≡ counts_after_accept result self.old.counts }
        ensures no_room { self.new.no_room ≡ self.old.no_room }
        ensures streams { Some self.new.streams ≡ Some self.old.streams }
        ensures source { IfOk result (λ ends. IsFreshSource (Some ends.0.inner.given) ends.0.inner.counts
            ends.0.inner.ended ends.0.name self.new.counts.accepted) }
        ensures sink { IfOk result (λ ends. IsFreshSink (Some ends.1.inner.taken) ends.1.inner.counts
            ends.1.name self.new.counts.accepted) }
        ensures listed { is_err result ≡ fails_next self.old.failing self.old.calls }
        ensures next { IsNext self.old self.new }
        ensures empty { IfOk result (λ ends. ends.0.inner.left ≡ []) }
    {
        if fails(&mut self.calls, &self.failing) {
            self.door_faults = self.door_faults.saturating_add(1);
            return Err(NetFault::Failed);
        }
        self.accepted = self.accepted.saturating_add(1);
        Ok(ends_of(self.alloc, Vec::new(self.alloc), self.accepted))
    }

    fn dial(&mut self, _address: &str) -> Result<(Named<MemSource>, Named<MemSink>), NetFault>
        ensures counts { self.new.counts ≡ counts_after_dial result self.old.counts }
        ensures no_room { self.new.no_room ≡ no_room_after_dial result self.old.no_room }
        ensures source { IfOk result (λ ends. IsFreshSource (Some ends.0.inner.given) ends.0.inner.counts
            ends.0.inner.ended ends.0.name 0) }
        ensures sink { IfOk result (λ ends. IsFreshSink (Some ends.1.inner.taken) ends.1.inner.counts ends.1.name 0) }
        ensures gives { IfOk result (λ ends. GivesNext (Some self.old.streams) (Some self.new.streams) (Some ends.0.inner.left)) }
        ensures kept { OnErr result (Some self.new.streams ≡ Some self.old.streams) }
        ensures listed { IsRefusedFor (refusal self.old.failing self.old.full self.old.calls) result }
        ensures next { IsNext self.old self.new }
    {
        if let Some(fault) = refusal(&mut self.calls, &self.failing, &self.full) {
            self.dial_faults = self.dial_faults.saturating_add(1);
            self.no_room = fault.no_room_after(self.no_room);
            return Err(fault);
        }
        let bytes = match self.streams.pop_front() {
            Some(bytes) => bytes,
            None => Vec::new(self.alloc),
        };
        Ok(ends_of(self.alloc, bytes, 0))
    }

    fn settle(&mut self)
        ensures same { self.new ≡ self.old }
        ensures counts { self.new.counts ≡ self.old.counts }
        ensures no_room { self.new.no_room ≡ self.old.no_room }
        ensures streams { Some self.new.streams ≡ Some self.old.streams }
    {}

    fn another(&self) -> MemNet
        ensures counts { result.counts ≡ no_counts }
        ensures no_room { result.no_room ≡ 0 }
        ensures failing { result.failing ≡ [] }
        ensures full { result.full ≡ [] }
        ensures streams { result.streams ≡ [] }
    {
        MemNet::new(self.alloc, Vec::new(self.alloc), Vec::new(self.alloc))
    }
}
