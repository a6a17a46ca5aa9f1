//! The entries of the updates.

ghost use Rattle.std.specs.Prelude.{◌≡◌, ◌<◌, ◌^◌, length, Some, IfOk, OnOk, OnErr, [], option_copied};
ghost use Rattle.std.specs.Arc.{arc_value};
ghost use Rattle.std.specs.Option.{option_map};
ghost use Rattle.ev_types.specs.Store.{mod_of};
ghost use Rattle.zn_layout.specs.Records.{IsHeadRec};
ghost use Rattle.zp_script.specs.Entries.{AreTriggersOf, entry_after};
ghost use Rattle.zp_ledger.specs.Entering.{AreNumbered, IsAdded};

use ev_types::Kv;
use std::alloc::Global;
use std::marker::Model;
use std::sync::Arc;
use zk_model::Trigger;
use zn_layout::{Entry, RecordFault, read_head};
use zx_base::{Memory, Seq};

/// An entry for each update, in order. Contracts see the list of entries.
#[derive(Drop)]
pub struct Entries {
    alloc: Global,
    shared: Vec<Arc<Entry, Global>>,
}

impl Model for Entries {
    ghost use Rattle.std.specs.Prelude.{List, map};
    ghost use Rattle.std.specs.Arc.{arc_value};
    ghost use Rattle.zn_layout.specs.declared.entry.Entry.{Entry};
    ghost use Rattle.zp_ledger.specs.Entering.{AreNumbered};

    ghost Value = { List Entry };

    ghost view = { λ e. map arc_value e.shared.items };

    ghost invariant = { λ e. AreNumbered (map arc_value e.shared.items) };
}

impl Entries {
    /// Before the first update: no entries.
    pub fn new(alloc: Global) -> Entries
        ensures { result ≡ [] }
    {
        Entries {
            alloc,
            shared: Vec::new(alloc),
        }
    }

    /// How many entries there are, which is the number of the last one.
    pub fn len(&self) -> usize
        ensures { result ≡ length self.now }
    {
        self.shared.len()
    }

    /// Proof only: entry n stands at place n - 1, and has triggers that a head's record can hold.
    pub fn are_numbered(&self)
        ensures { AreNumbered self.now }
    {
        let _ = &self.shared;
    }

    /// Adds the entry of the update that left this head. Without memory the entries stay as they were.
    pub fn add(&mut self, head: Option<&Kv>) -> Result<(), Memory>
        requires { length self.old < 2 ^ 62 }
        ensures ok { OnOk result (IsAdded self.old (option_copied head.entry) self.new) }
        ensures err { OnErr result (self.new ≡ self.old) }
    {
        let entry = entry_of(self.alloc, self.shared.len() as i64 + 1, head)?;
        let shared = Arc::new(self.alloc, entry)?;
        self.shared.push(shared)?;
        Ok(())
    }

    /// The entry after the one of number `cursor`, shared with those that take it. None where there is no such entry.
    pub fn after_cursor(&self, cursor: i64) -> Result<Option<Arc<Entry, Global>>, Memory>
        ensures { IfOk result (λ o. option_map arc_value o ≡ entry_after self.now cursor) }
    {
        let Ok(place) = usize::try_from(cursor) else {
            return Ok(None);
        };
        match self.shared.get(place) {
            Some(entry) => Ok(Some(Arc::try_clone(entry)?)),
            None => Ok(None),
        }
    }
}

/// The triggers that the value of a head records; no triggers where it is no record.
fn triggers_in(alloc: Global, head: &Kv) -> Result<Seq<Trigger>, Memory>
    ensures told { IfOk result (λ ts. AreTriggersOf (Some head.now) ts) }
    ensures within { IfOk result IsHeadRec }
{
    match read_head(alloc, head.key.as_slice(), head.value.as_slice()) {
        Ok(record) => Ok(record.triggers),
        Err(RecordFault::Damaged { .. }) => Ok(Seq::new(alloc)),
        Err(RecordFault::Memory) => Err(Memory),
    }
}

/// The entry of this number, by the head that its update left.
fn entry_of(alloc: Global, number: i64, head: Option<&Kv>) -> Result<Entry, Memory>
    ensures number { IfOk result (λ e. e.number ≡ number) }
    ensures zxid { IfOk result (λ e. e.zxid ≡ mod_of (option_copied head.entry)) }
    ensures told { IfOk result (λ e. AreTriggersOf (option_copied head.entry) e.triggers) }
    ensures within { IfOk result (λ e. IsHeadRec e.triggers) }
{
    let Some(kv) = head else {
        return Ok(Entry {
            number,
            zxid: 0,
            triggers: Seq::new(alloc),
        });
    };
    Ok(Entry {
        number,
        zxid: kv.mod_revision,
        triggers: triggers_in(alloc, kv)?,
    })
}
