//! The tests that deny an ask before any of it is carried out, in the order of `specs/FirstDenial`.

ghost use Rattle.std.specs.Prelude.{◌≡◌, IfErr, OnOk, None};
ghost use Rattle.std.specs.Option.{option_copied};
ghost use Rattle.std.specs.Result.{result_err};
ghost use Rattle.ev_types.specs.Denials.{writes as writes_key, puts as puts_key};
ghost use Rattle.std.specs.List.{list_any};
ghost use Rattle.ev_store.specs.FirstDenial.{too_many, written_again as again, first_again, twice, range_denial, lease_denial, act_denial, acts_denial, long_list, form_denial, Names};

use crate::fault::{Denied, StoreFault};
use crate::store::Store;
use ev_types::{Act, RangeReq, TxnReq};
use std::alloc::Global;
use zx_base::{Bytes, Memory};

/// The most compares, and the most operations of one list.
pub(crate) const MAX_OPERATIONS: usize = 128;

impl Store {
    /// Denies a range that names a revision which the store does not have, or which was compacted.
    pub(crate) fn check_range(&self, range: &RangeReq) -> Result<(), Denied>
        ensures { result_err result ≡ range_denial self.now range.now }
    {
        let asked = range.revision;
        let revision = self.revision();
        let floor = self.floor();
        if asked > revision {
            return Err(Denied::Future { asked, revision });
        }
        if asked != 0 && asked < floor {
            return Err(Denied::Compacted { asked, floor });
        }
        Ok(())
    }

    /// Denies a put that names a lease which is not there.
    fn check_lease(&self, id: i64) -> Result<(), Denied>
        ensures { result_err result ≡ lease_denial self.now id }
    {
        if id != 0 && !self.has_lease(id) {
            return Err(Denied::NoLease { id });
        }
        Ok(())
    }

    fn check_act(&self, act: &Act) -> Result<(), Denied>
        ensures { result_err result ≡ act_denial self.now act.now }
    {
        match act {
            Act::Put { lease, .. } => self.check_lease(*lease),
            Act::Delete { .. } => Ok(()),
            Act::Range(range) => self.check_range(range),
        }
    }

    /// Denies a list with an operation that names a lease or a revision which the store does not have.
    pub(crate) fn check_acts(&self, acts: &[Act]) -> Result<(), Denied>
        ensures { result_err result ≡ acts_denial self.now acts.now }
    {
        for act in acts {
            self.check_act(act)?;
        }
        Ok(())
    }
}

/// Denies more compares, or operations of a list, than an etcd takes.
fn check_count(count: usize) -> Result<(), Denied>
    ensures { result_err result ≡ too_many count }
{
    if count > MAX_OPERATIONS {
        return Err(Denied::TooMany {
            count: count as u64,
        });
    }
    Ok(())
}

/// Denies a transaction with a list that is longer than an etcd takes.
fn check_counts(txn: &TxnReq) -> Result<(), Denied>
    ensures { result_err result ≡ long_list txn.now }
{
    check_count(txn.guards.len())?;
    check_count(txn.success.len())?;
    check_count(txn.failure.len())
}

/// Whether the operation puts or deletes this key.
fn writes(act: &Act, key: &Bytes) -> bool
    ensures { result ≡ writes_key key.now act.now }
{
    match act {
        Act::Put { key: put, .. } => key.is(put.as_slice()),
        Act::Delete { key: deleted } => key.is(deleted.as_slice()),
        Act::Range(_) => false,
    }
}

/// Whether the operation puts this key.
fn puts(act: &Act, key: &Bytes) -> bool
    ensures { result ≡ puts_key key.now act.now }
{
    match act {
        Act::Put { key: put, .. } => key.is(put.as_slice()),
        Act::Delete { .. } | Act::Range(_) => false,
    }
}

/// Whether one of the operations puts or deletes this key.
fn any_writes(acts: &[Act], key: &Bytes) -> bool
    ensures { result ≡ list_any (writes_key key.now) acts.now }
{
    acts.iter().any(|act| writes(act, key))
}

/// Whether one of the operations puts this key.
fn any_puts(acts: &[Act], key: &Bytes) -> bool
    ensures { result ≡ list_any (puts_key key.now) acts.now }
{
    acts.iter().any(|act| puts(act, key))
}

/// The operation's key, where a later one may not write it too and does.
fn written_again<'a>(act: &'a Act, later: &[Act]) -> Option<&'a Bytes>
    ensures { option_copied result ≡ again act.now later.now }
{
    match act {
        Act::Put { key, .. } => any_writes(later, key).then_some(key),
        Act::Delete { key } => any_puts(later, key).then_some(key),
        Act::Range(_) => None,
    }
}

/// The first key that the list puts twice, or both puts and deletes.
fn first_again(acts: &[Act]) -> Option<&Bytes>
    ensures { option_copied result ≡ first_again acts.now }
{
    for (index, act) in acts.iter().enumerate() {
        let found = written_again(act, &acts[index + 1..]);
        if found.is_some() {
            return found;
        }
    }
    None
}

/// Denies a list that puts a key twice, or both puts and deletes it.
fn check_once(alloc: Global, acts: &[Act]) -> Result<(), StoreFault>
    ensures once { OnOk result (twice acts.now ≡ None) }
    ensures named { IfErr result (Names (twice acts.now)) }
{
    match first_again(acts) {
        None => Ok(()),
        Some(key) => Err(StoreFault::Denied(Denied::Twice {
            key: Bytes::copy_of(alloc, key.as_slice())?,
        })),
    }
}

/// Denies a transaction with a list that is too long, or that writes a key twice.
pub(crate) fn check_txn(alloc: Global, txn: &TxnReq) -> Result<(), StoreFault>
    ensures none { OnOk result (form_denial txn.now ≡ None) }
    ensures named { IfErr result (Names (form_denial txn.now)) }
{
    check_counts(txn)?;
    check_once(alloc, txn.success.as_slice())?;
    check_once(alloc, txn.failure.as_slice())
}
