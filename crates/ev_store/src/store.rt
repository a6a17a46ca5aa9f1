//! The store: its revisions, its leases, its floor.

ghost use Rattle.std.specs.Prelude.{◌≡◌, ◌≤◌, true, length, None, IfOk, IfErr, OnOk, OnErr, Result};
ghost use Rattle.std.specs.List.{list_all};
ghost use Rattle.std.specs.FinMap.{get, remove};
ghost use Rattle.std.specs.Int.{int_max};
ghost use Rattle.ev_types.specs.Store as etcd;
ghost use Rattle.ev_types.specs.Denials.{has_lease, carry};
ghost use Rattle.ev_store.specs.declared.fault.Denied.{Denied as Denial};
ghost use Rattle.ev_store.specs.Asks.{IsGrantable};
ghost use Rattle.ev_store.specs.FirstDenial.{first_denial, full, Names};
ghost use Rattle.ev_store.specs.Changes.{puts_once};
ghost use Rattle.ev_store.specs.Numbers.{HasNumbers};

use crate::change::Change;
use crate::fault::{Denied, StoreFault};
use crate::history::History;
use crate::leases::Leases;
use ev_types::{Answer, Ask, RangeReq};
use std::alloc::Global;
use std::marker::Model;
use zx_base::{Memory, Seq};

/// The last revision that there can be.
pub(crate) const MAX_REVISION: i64 = 4_611_686_018_427_387_903;

/// An etcd in memory, with every revision that it ever had: a compaction only says which of them may be named.
#[derive(Drop)]
pub struct Store {
    /// The changes of each revision, from revision 1 on.
    revisions: History,
    leases: Leases,
    /// The greatest revision that was compacted, 0 for none.
    floor: i64,
    alloc: Global,
}

impl Model for Store {
    ghost use Rattle.std.specs.Prelude.{◌≡◌, ◌≤◌, length, true};
    ghost use Rattle.std.specs.List.{list_all};
    ghost use Rattle.ev_types.specs.Store as etcd;
    ghost use Rattle.ev_store.specs.Changes.{puts_once};
    ghost use Rattle.ev_store.specs.Codes.{store_code};

    ghost Value = { etcd.Store };

    ghost coded = { store_code };

    ghost view = { λ s. record {
      revisions = s.revisions;
      leases = s.leases;
      floor = s.floor;
    } };

    ghost invariant = { λ s. (list_all puts_once s.revisions ≡ true) };
}

impl Store {
    /// A store at revision 1 with no keys and no leases.
    pub fn new(alloc: Global) -> Result<Store, Memory>
        ensures { IfOk result (λ s. s ≡ etcd.new_store) }
    {
        Ok(Store {
            revisions: History::new(alloc)?,
            leases: Leases::new(alloc),
            floor: 0,
            alloc,
        })
    }

    /// The present revision, at least 1.
    pub fn revision(&self) -> i64
        ensures { result ≡ etcd.revision self.now }
    {
        self.revisions.revisions().len() as i64
    }

    pub(crate) fn alloc(&self) -> Global {
        self.alloc
    }

    /// The changes of each revision, from revision 1 on.
    pub(crate) fn history(&self) -> &History
        ensures all { result.now ≡ self.now.revisions }
        ensures short { length self.now.revisions ≤ etcd.max_revisions }
        ensures once { list_all puts_once self.now.revisions ≡ true }
    {
        // Proof only: the history is short.
        self.revisions.revisions();
        &self.revisions
    }

    /// The greatest revision that was compacted, 0 for none.
    pub(crate) fn floor(&self) -> i64
        ensures { result ≡ self.now.floor }
    {
        self.floor
    }

    /// Whether there is a lease with this number. None has a number below 1.
    pub(crate) fn has_lease(&self, id: i64) -> bool
        ensures { result ≡ has_lease self.now id }
    {
        id > 0 && self.leases.get(id).is_some()
    }

    /// Adds one revision with these changes, unless there are none.
    pub(crate) fn add(&mut self, changes: Seq<Change>) -> Result<(), StoreFault>
        requires { puts_once changes ≡ true }
        ensures grown { OnOk result (self.new ≡ etcd.grown self.old changes) }
        ensures room { OnOk result (full self.old changes ≡ None) }
        ensures stays { OnErr result (self.new ≡ self.old) }
        ensures named { IfErr result (Names (full self.old changes)) }
    {
        if changes.len() == 0 {
            return Ok(());
        }
        let revision = self.revision();
        if revision >= MAX_REVISION {
            return Err(StoreFault::Denied(Denied::Full { revision }));
        }
        self.revisions.push(self.alloc, changes)?;
        Ok(())
    }

    /// Takes a lease away, and leaves its keys.
    pub(crate) fn drop_lease(&mut self, id: i64)
        ensures { self.new ≡ record self.old { leases = remove self.old.leases id } }
    {
        self.leases.remove(id);
    }

    /// Raises the floor to this revision; a floor above it stays.
    pub(crate) fn raise_floor(&mut self, revision: i64)
        ensures { self.new ≡ record self.old { floor = int_max revision self.old.floor } }
    {
        if self.floor < revision {
            self.floor = revision;
        }
    }

    /// A range outside a transaction.
    #[tactic(auto, using(crate::proofs::Denying::range_carried), unfolding(crate::specs::FirstDenial::first_denial))]
    fn read(&self, range: &RangeReq) -> Result<Answer, StoreFault>
        ensures carried { IfOk result (λ a. carry self.now (Ask.Range range.now) ≡ Some (self.now, a)) }
        ensures named { IfErr result (Names (first_denial self.now (Ask.Range range.now))) }
    {
        self.check_range(range)?;
        let found = self.find(&[], range)?;
        Ok(Answer::Range {
            revision: self.revision(),
            found,
        })
    }

    #[tactic(auto, using(crate::proofs::Denying::grant_carried), unfolding(crate::specs::FirstDenial::first_denial))]
    fn grant(&mut self, id: i64, ttl: i64) -> Result<Answer, StoreFault>
        ensures carried { IfOk result (λ a. carry self.old (Ask.Grant id ttl) ≡ Some (self.new, a)) }
        ensures named { IfErr result (Names (first_denial self.old (Ask.Grant id ttl))) }
        ensures stays { OnErr result (self.new ≡ self.old) }
    {
        if self.has_lease(id) {
            return Err(StoreFault::Denied(Denied::LeaseExists { id }));
        }
        self.leases.grant(id, ttl)?;
        Ok(Answer::Granted {
            revision: self.revision(),
            id,
            ttl,
        })
    }

    #[tactic(auto, using(crate::proofs::Denying::alive_carried))]
    fn alive(&self, id: i64) -> Answer
        ensures { carry self.now (Ask.Alive id) ≡ Some (self.now, result) }
    {
        Answer::Alive {
            revision: self.revision(),
            id,
            ttl: self.leases.get(id).unwrap_or(0),
        }
    }

    /// Carries out one ask. Where several causes deny it, the first is named, in this order: a list that is too long; a key that
    /// a list writes twice; what the operations of the chosen list name, one after the other; a full store. A grant's number is
    /// to be at least 1, and its seconds from 0 to below 2^62. The crate's page says what an ask costs.
    pub fn carry_out(&mut self, ask: &Ask) -> Result<Answer, StoreFault>
        requires { IsGrantable ask.now }
        ensures carried { IfOk result (λ a. carry self.old ask.now ≡ Some (self.new, a)) }
        ensures denied { (d : Denial) → result ≡ Err (StoreFault.Denied d) → carry self.old ask.now ≡ None }
        ensures first { (d : Denial) → result ≡ Err (StoreFault.Denied d) → first_denial self.old ask.now ≡ Some d }
        ensures numbers { IfOk result HasNumbers }
        ensures stays { OnErr result (self.new ≡ self.old) }
    {
        // Proof only: the history is short, and no revision of it puts a key twice.
        self.history();
        self.answer_to(ask)
    }

    fn answer_to(&mut self, ask: &Ask) -> Result<Answer, StoreFault>
        ensures carried { IfOk result (λ a. carry self.old ask.now ≡ Some (self.new, a)) }
        ensures named { IfErr result (Names (first_denial self.old ask.now)) }
        ensures stays { OnErr result (self.new ≡ self.old) }
    {
        match ask {
            Ask::Txn(txn) => self.transact(txn),
            Ask::Range(range) => self.read(range),
            Ask::Grant { id, ttl } => self.grant(*id, *ttl),
            Ask::Alive { id } => Ok(self.alive(*id)),
        }
    }
}
