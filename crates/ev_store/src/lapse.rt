//! What changes the store besides its clients' asks: a lease that lapses, and a put of another user.

ghost use Rattle.std.specs.Prelude.{◌≡◌, ◌++◌, ◌∷◌, [], true, IfOk, IfErr, OnOk, OnErr};
ghost use Rattle.std.specs.BTreeMap as tree;
ghost use Rattle.std.specs.Map.{keys_of};
ghost use Rattle.std.specs.Ordering.{nat_cmp};
ghost use Rattle.std.specs.Cmp.Lexicographic.{slice_cmp};
ghost use Rattle.ev_types.specs.Denials.{is_lease};
ghost use Rattle.ev_types.specs.Lapses as lapses;
ghost use Rattle.ev_types.specs.Store as etcd;
ghost use Rattle.ev_store.specs.Changes.{leased_among, puts_once};
ghost use Rattle.ev_store.specs.declared.fault.Denied.{Denied as Denial};
ghost use Rattle.ev_store.specs.FirstDenial.{lapse_denial, foreign_denial, Names};

use crate::change::Change;
use crate::fault::{Denied, StoreFault};
use crate::key::Found;
use crate::operations::{put, removal};
use crate::range::{Held, all_keys};
use crate::store::Store;
use std::alloc::Global;
use zx_base::{Memory, Seq};

impl Store {
    /// Takes a lease away with all its keys, at one revision, or at none where it has no keys. Gives the store's revision after
    /// that. Denied as `NoLease` where it is not there, and as `Full` where it has keys and no revision is left. Takes time in
    /// proportion to the puts that named the lease, times the logarithm of the number of keys.
    pub fn lapse(&mut self, id: i64) -> Result<i64, StoreFault>
        ensures lapses { OnOk result (lapses.lapse self.old id ≡ Some self.new) }
        ensures revision { IfOk result (λ r. r ≡ etcd.revision self.new) }
        ensures denied { (d : Denial) → result ≡ Err (StoreFault.Denied d) → lapses.lapse self.old id ≡ None }
        ensures first { (d : Denial) → result ≡ Err (StoreFault.Denied d) → lapse_denial self.old id ≡ Some d }
        ensures stays { OnErr result (self.new ≡ self.old) }
    {
        self.take_lease(id)
    }

    #[tactic(auto, using(crate::proofs::Lapsing::lapse_done), unfolding(crate::specs::FirstDenial::lapse_denial))]
    fn take_lease(&mut self, id: i64) -> Result<i64, StoreFault>
        ensures lapses { OnOk result (lapses.lapse self.old id ≡ Some self.new) }
        ensures revision { IfOk result (λ r. r ≡ etcd.revision self.new) }
        ensures named { IfErr result (Names (lapse_denial self.old id)) }
        ensures stays { OnErr result (self.new ≡ self.old) }
    {
        if !self.has_lease(id) {
            return Err(StoreFault::Denied(Denied::NoLease { id }));
        }
        let removals = self.removals(id)?;
        self.add(removals)?;
        self.drop_lease(id);
        Ok(self.revision())
    }

    /// Removals of the keys that have this lease, in the order of their bytes.
    fn removals(&self, id: i64) -> Result<Seq<Change>, Memory>
        requires { is_lease id ≡ true }
        ensures all { IfOk result (λ cs. cs ≡ lapses.removals (lapses.leased_keys self.now id)) }
        ensures once { IfOk result (λ cs. puts_once cs ≡ true) }
    {
        let alloc = self.alloc();
        let all = all_keys(alloc)?;
        let held = self.history().leased(alloc, id, &all)?;
        removals(alloc, &held, id)
    }

    /// Puts a key without a lease, as another user of the etcd might. Gives the store's revision after that. Denied as `Full`
    /// where no revision is left. Costs what a put costs.
    pub fn foreign(&mut self, key: &[u8], value: &[u8]) -> Result<i64, StoreFault>
        ensures puts { OnOk result (lapses.foreign self.old key.now value.now ≡ Some self.new) }
        ensures revision { IfOk result (λ r. r ≡ etcd.revision self.new) }
        ensures denied { (d : Denial) → result ≡ Err (StoreFault.Denied d) → lapses.foreign self.old key.now value.now ≡ None }
        ensures first { (d : Denial) → result ≡ Err (StoreFault.Denied d) → foreign_denial self.old key.now value.now ≡ Some d }
        ensures stays { OnErr result (self.new ≡ self.old) }
    {
        self.put_one(key, value)
    }

    #[tactic(auto, using(crate::proofs::Lapsing::foreign_done))]
    fn put_one(&mut self, key: &[u8], value: &[u8]) -> Result<i64, StoreFault>
        ensures puts { OnOk result (lapses.foreign self.old key.now value.now ≡ Some self.new) }
        ensures revision { IfOk result (λ r. r ≡ etcd.revision self.new) }
        ensures named { IfErr result (Names (foreign_denial self.old key.now value.now)) }
        ensures stays { OnErr result (self.new ≡ self.old) }
    {
        let mut changes = Seq::new(self.alloc());
        changes.push(put(self.alloc(), key, value, 0)?)?;
        self.add(changes)?;
        Ok(self.revision())
    }
}

/// Removals of those of the keys that have this lease, in the order of their bytes.
fn removals(alloc: Global, held: &Held<'_>, id: i64) -> Result<Seq<Change>, Memory>
    requires { is_lease id ≡ true }
    ensures all { IfOk result (λ cs. cs ≡ lapses.removals (keys_of (leased_among id held.now.entries))) }
    ensures in_order { tree.IsOrdered (slice_cmp nat_cmp) held.now }
{
    let mut removals = Seq::new(alloc);
    for (name, found) in held.iter() {
        push_removal(alloc, &mut removals, id, name.bytes, found)?;
    }
    Ok(removals)
}

/// Adds the removal of a key, where it has this lease.
fn push_removal(
    alloc: Global,
    removals: &mut Seq<Change>,
    id: i64,
    key: &[u8],
    found: &Found<'_>,
) -> Result<(), Memory>
    requires { is_lease id ≡ true }
    ensures { OnOk result (removals.new ≡ removals.old ++ lapses.removals (keys_of (leased_among id ((key.now, found.now) ∷ [])))) }
{
    if found.lease() != id {
        return Ok(());
    }
    removals.push(removal(alloc, key)?)
}
