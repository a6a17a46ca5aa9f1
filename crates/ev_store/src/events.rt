//! The puts of the revisions above a given one.

ghost use Rattle.std.specs.Prelude.{◌≡◌, ◌≤◌, ◌<◌, ◌+◌, ◌++◌, ◌^◌, true, nat_abs, length, take, drop, IfOk, IfErr, OnOk, None, Option};
ghost use Rattle.std.specs.FinMap.{empty};
ghost use Rattle.std.specs.List.{list_all};
ghost use Rattle.std.specs.Option.{option_to_list};
ghost use Rattle.ev_types.specs.Store as etcd;
ghost use Rattle.ev_store.specs.declared.fault.Denied.{Denied as Denial};
ghost use Rattle.ev_store.specs.Changes.{key_of, puts_once};
ghost use Rattle.ev_store.specs.Events.{puts_from, puts_above};
ghost use Rattle.ev_store.specs.FirstDenial.{events_denial, Names};
ghost use Rattle.ev_store.specs.Folds.{key_after_changes, key_after_revisions, put_after, puts_after_changes, puts_after_revisions};

use crate::change::Change;
use crate::fault::{Denied, StoreFault};
use crate::history::History;
use crate::key::{Found, after_changes, after_put};
use crate::store::Store;
use ev_types::Kv;
use std::alloc::Global;
use zx_base::{Memory, Seq};

impl Store {
    /// The first `n` puts of the revisions above `rev`, in order, each with its key as it is after that put. Denied as
    /// `Compacted` where `rev` is below the greatest revision that was compacted. Reads the revisions above `rev` up to the
    /// last put given, and looks up the key of each put.
    pub fn events_since(&self, rev: i64, n: usize) -> Result<Seq<Kv>, StoreFault>
        ensures events { IfOk result (λ kvs. kvs ≡ take n (puts_above self.now (nat_abs rev))) }
        ensures kept { OnOk result (events_denial self.now rev ≡ None) }
        ensures first { (d : Denial) → result ≡ Err (StoreFault.Denied d) → events_denial self.now rev ≡ Some d }
    {
        self.puts_since(rev, n)
    }

    fn puts_since(&self, rev: i64, n: usize) -> Result<Seq<Kv>, StoreFault>
        ensures events { IfOk result (λ kvs. kvs ≡ take n (puts_above self.now (nat_abs rev))) }
        ensures kept { OnOk result (events_denial self.now rev ≡ None) }
        ensures named { IfErr result (Names (events_denial self.now rev)) }
    {
        let floor = self.floor();
        if rev < floor {
            return Err(StoreFault::Denied(Denied::Compacted { asked: rev, floor }));
        }
        Ok(self.puts_above(rev.unsigned_abs() as usize, n)?)
    }

    fn puts_above(&self, rev: usize, n: usize) -> Result<Seq<Kv>, Memory>
        ensures { IfOk result (λ kvs. kvs ≡ take n (puts_above self.now rev)) }
    {
        let history = self.history();
        if rev >= history.revisions().len() {
            return Ok(Seq::new(self.alloc()));
        }
        puts(self.alloc(), history, rev, n)
    }
}

/// The first `most` puts of the revisions after the first `before`.
fn puts(alloc: Global, history: &History, before: usize, most: usize) -> Result<Seq<Kv>, Memory>
    requires short { length history.now < 2 ^ 62 }
    requires within { before ≤ length history.now }
    requires once { list_all puts_once history.now ≡ true }
    ensures { IfOk result (λ kvs. kvs ≡ take most (puts_from (before + 1) (etcd.keys_from 1 empty (take before history.now)) (drop before history.now))) }
{
    let mut puts = Seq::new(alloc);
    push_puts_of_all(alloc, &mut puts, most, history, before)?;
    Ok(puts)
}

/// Adds the puts of the revisions after the first `before`, up to `most` in all.
fn push_puts_of_all(
    alloc: Global,
    puts: &mut Seq<Kv>,
    most: usize,
    history: &History,
    before: usize,
) -> Result<(), Memory>
    requires few { length puts.old ≤ most }
    requires within { before ≤ length history.now }
    ensures { OnOk result (puts.new ≡ take most (puts.old ++ puts_after_revisions (before + 1) (λ q. key_after_revisions 1 q Option.None (take before history.now)) (drop before history.now))) }
{
    let revisions = history.revisions();
    for index in before..revisions.len() {
        if puts.len() == most {
            return Ok(());
        }
        push_puts(
            alloc,
            puts,
            most,
            history,
            index,
            index as i64 + 1,
            revisions[index].as_slice(),
        )?;
    }
    Ok(())
}

/// Adds the puts of one revision, up to `most` in all. `before` is the number of revisions before it.
fn push_puts(
    alloc: Global,
    puts: &mut Seq<Kv>,
    most: usize,
    history: &History,
    before: usize,
    revision: i64,
    changes: &[Change],
) -> Result<(), Memory>
    requires few { length puts.old ≤ most }
    requires within { before ≤ length history.now }
    ensures few { OnOk result (length puts.new ≤ most) }
    ensures puts { OnOk result (puts.new ≡ take most (puts.old ++ puts_after_changes revision (λ q. key_after_revisions 1 q Option.None (take before history.now)) changes.now)) }
{
    for (index, change) in changes.iter().enumerate() {
        let found = put_by(history, before, revision, &changes[..index], change);
        push_first(alloc, puts, most, found)?;
    }
    Ok(())
}

/// The key as a change of this revision puts it, after the earlier ones of the revision; `None` for a removal.
fn put_by<'a>(
    history: &'a History,
    before: usize,
    revision: i64,
    earlier: &'a [Change],
    change: &'a Change,
) -> Option<Found<'a>>
    requires { before ≤ length history.now }
    ensures { result ≡ put_after revision (key_after_changes revision (key_of change.now) (key_after_revisions 1 (key_of change.now) Option.None (take before history.now)) earlier.now) change.now }
{
    let content = change.content.as_ref()?;
    let found = history.find(&change.key, before);
    let found = after_changes(revision, found, earlier, change.key.as_slice());
    Some(after_put(revision, found.as_ref(), &change.key, content))
}

/// Adds a put while there are fewer than the most.
fn push_first(
    alloc: Global,
    puts: &mut Seq<Kv>,
    most: usize,
    found: Option<Found<'_>>,
) -> Result<(), Memory>
    requires { length puts.old ≤ most }
    ensures { OnOk result (puts.new ≡ take most (puts.old ++ option_to_list found.entry)) }
{
    if let Some(found) = found {
        if puts.len() < most {
            return puts.push(found.to_kv(alloc, false)?);
        }
    }
    Ok(())
}
