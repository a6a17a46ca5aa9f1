//! All connections and reapers, by their numbers.

ghost use Rattle.std.specs.Prelude.{◌≡◌, ◌≤ℤ◌, pos, IfOk, OnOk};
ghost use Rattle.std.specs.Option.{option_map};
ghost use Rattle.std.specs.FinMap.{get, insert, remove, empty};
ghost use Rattle.zp_script.specs.Effects.{new_conn};
ghost use Rattle.zp_script.specs.Worlds.{Connection};
ghost use Rattle.zp_step.specs.Stages.{new_core};
ghost use Rattle.zp_world.specs.Activities.{AreWithin, open_numbers};

use crate::activity::Activity;
use crate::slot::Slot;
use std::alloc::Global;
use std::collections::BTreeMap;
use std::marker::Model;
use zp_step::Fresh;
use zx_base::Memory;

/// Connections and reapers, open and closed. Contracts see a finite map.
#[derive(Drop)]
pub struct Activities {
    alloc: Global,
    by_number: BTreeMap<u32, Slot>,
}

impl Model for Activities {
    ghost use Rattle.std.specs.Coded.{codes, coded_ℕ};
    ghost use Rattle.std.specs.FinMap as map;
    ghost use Rattle.zk_model.specs.PathSets.{coded_watches};
    ghost use Rattle.zp_script.specs.Worlds.{Conns};

    ghost Value = { Conns };

    ghost coded = { map.code coded_ℕ (Prim.hlevel (codes, coded_watches)) };

    ghost use Rattle.zp_world.specs.Activities.{AreWithin};

    ghost view = { λ a. map.from_entries a.by_number.entries };

    ghost invariant = { λ a. AreWithin (map.from_entries a.by_number.entries) };
}

impl Activities {
    /// No connection and no reaper yet.
    pub fn new(alloc: Global) -> Activities
        ensures { result ≡ empty }
    {
        Activities {
            alloc,
            by_number: BTreeMap::new(alloc),
        }
    }

    /// Proof only: no count of frames is at its end.
    pub fn are_within(&self)
        ensures { AreWithin self.now }
    {
        let _ = &self.by_number;
    }

    /// What is kept under a number. None: the number was never used, or its activity was taken out.
    pub fn get(&self, number: u32) -> Option<&Slot>
        ensures { option_map (λ x. x.now) result ≡ get self.now number }
    {
        self.by_number.get(&number)
    }

    /// Takes the activity of a number out, to be put back. It is out also where memory was refused.
    pub fn take(&mut self, number: u32) -> Result<Option<Activity>, Memory>
        ensures taken { IfOk result (λ activity. activity ≡ get self.old number) }
        ensures left { self.new ≡ remove self.old number }
    {
        let taken = self.by_number.remove(&number);
        activity_in(self.alloc, taken)
    }

    /// Puts a connection that has opened at a proxy under its number. `fresh` is what a new session would be made with.
    pub fn open(&mut self, number: u32, proxy: u32, fresh: Fresh) -> Result<(), Memory>
        requires { pos 1 ≤ℤ fresh.id }
        ensures { OnOk result (self.new ≡ insert self.old number (new_conn proxy (Connection (new_core fresh)))) }
    {
        let slot = Slot::opened(proxy, fresh);
        self.by_number.insert(number, slot)?;
        Ok(())
    }

    /// Puts an activity under its number, in place of one that is there.
    pub fn put(&mut self, number: u32, activity: Activity) -> Result<(), Memory>
        ensures { OnOk result (self.new ≡ insert self.old number activity) }
    {
        activity.know();
        let slot = Slot::full(self.alloc, activity)?;
        self.by_number.insert(number, slot)?;
        Ok(())
    }

    /// The numbers of those that are open at a proxy, in rising order.
    pub fn open_at(&self, alloc: Global, proxy: u32) -> Result<Vec<u32>, Memory>
        ensures { IfOk result (λ numbers. numbers.items ≡ open_numbers proxy self.now) }
    {
        let mut numbers = Vec::new(alloc);
        for (number, slot) in self.by_number.iter() {
            if slot.is_open_at(proxy) {
                numbers.push(*number)?;
            }
        }
        Ok(numbers)
    }
}

/// What stood in a slot that was taken out.
fn activity_in(alloc: Global, taken: Option<Slot>) -> Result<Option<Activity>, Memory>
    ensures { IfOk result (λ activity. activity ≡ taken) }
{
    match taken {
        Some(slot) => Ok(Some(slot.into_activity(alloc)?)),
        None => Ok(None),
    }
}
