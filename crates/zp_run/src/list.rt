//! A trace that keeps a copy of each event.

ghost use Rattle.std.specs.Prelude.{◌≡◌};

use crate::copy::copy_event;
use crate::event::Event;
use crate::trace::Trace;
use std::alloc::Global;
use std::marker::Model;
use zx_base::{Memory, Seq};

/// A trace in memory, which tells its events and has a copy of each. Contracts see an entry by its value, whoever owns it.
#[derive(Drop)]
pub struct ListTrace {
    alloc: Global,
    events: Seq<Event>,
}

impl Model for ListTrace {
    ghost use Rattle.std.specs.Prelude.{List, map};
    ghost use Rattle.zp_run.specs.Notes.{Noted, noted};

    ghost Value = { List Noted };

    ghost view = { λ t. map noted t.events };
}

impl ListTrace {
    ghost use Rattle.std.specs.Prelude.{◌≡◌, [], map};
    ghost use Rattle.zp_run.specs.Notes.{noted};

    /// A trace without events. Takes no memory.
    pub fn new(alloc: Global) -> ListTrace
        ensures { result ≡ [] }
    {
        ListTrace {
            alloc,
            events: Seq::new(alloc),
        }
    }

    /// The events so far, the oldest first.
    pub fn events(&self) -> &[Event]
        ensures { map noted result.now ≡ self.now }
    {
        self.events.as_slice()
    }
}

impl Trace for ListTrace {
    ghost use Rattle.std.specs.Prelude.{◌≡◌, ◌++◌, ◌∷◌, [], Some, OnOk, OnErr};
    ghost use Rattle.zp_run.specs.Notes.{noted};

    ghost told = { Some };

    fn note(&mut self, event: &Event) -> Result<(), Memory>
        ensures kept { OnOk result (self.new ≡ self.old ++ noted event.now ∷ []) }
        ensures same { OnErr result (self.new ≡ self.old) }
    {
        let copy = copy_event(self.alloc, event)?;
        self.events.push(copy)
    }
}
