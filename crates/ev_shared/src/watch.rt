//! What a watch of one key is told.

ghost use Rattle.std.specs.Prelude.{◌≡◌, ◌≤◌, ◌<◌, ◌^◌, pos, Option, length, IfOk, IfErr, OnOk};
ghost use Rattle.ev_shared.specs.History.{GoesOn};
ghost use Rattle.ev_types.specs.declared.answer.Kv.{Kv as SomeKv};
ghost use Rattle.ev_shared.specs.Watching.{Looks, Unseen, found_in, key_at, listed, put_at, put_by};
ghost use Rattle.ev_types.specs.declared.ask.Ask.TheVariants as asks;

use crate::kept::Kept;
use ev_store::{Denied, StoreFault};
use ev_types::{Answer, Ask, Kv, RangeReq};
use std::alloc::Global;
use zx_base::{Bytes, Memory, Seq};

/// What a look at the revisions from one on comes to.
#[derive(Drop)]
pub enum Look {
    /// The first revision that puts the key, and the key as it is then.
    Put(Kv),
    /// No revision does, up to the one before this.
    Waits(u64),
    /// The revision was compacted; the least one that can be named.
    Compacted(i64),
}

/// The key that was asked for, if this revision put it.
fn put_in(answer: Answer, revision: u64) -> Option<Kv>
    requires { revision < 2 ^ 63 }
    ensures { (o : Option SomeKv) → found_in answer ≡ listed o → result ≡ put_by (pos revision) o }
{
    let Answer::Range { found, .. } = answer else {
        return None;
    };
    put_among(found.kvs, revision)
}

/// The last of these keys, if this revision put it.
fn put_among(kvs: Seq<Kv>, revision: u64) -> Option<Kv>
    requires { revision < 2 ^ 63 }
    ensures { (o : Option SomeKv) → kvs ≡ listed o → result ≡ put_by (pos revision) o }
{
    let kv = kvs.into_vec().pop()?;
    if kv.mod_revision == revision as i64 {
        Some(kv)
    } else {
        None
    }
}

/// The ask for one key as it was after a revision.
fn key_at(alloc: Global, key: &[u8], revision: u64) -> Result<Ask, Memory>
    requires { revision < 2 ^ 63 }
    ensures { IfOk result (λ q. q ≡ asks.Range (key_at key.now revision)) }
{
    Ok(Ask::Range(RangeReq {
        key: Bytes::copy_of(alloc, key)?,
        end: Bytes::new(alloc),
        revision: revision as i64,
        limit: 0,
        keys_only: false,
    }))
}

impl Kept {
    /// The key as this revision puts it; `None` where the revision does not put it.
    #[tactic(auto, using(crate::proofs::Shown::unseen, crate::proofs::Replaying::as_long))]
    fn put_at(&mut self, alloc: Global, key: &[u8], revision: u64) -> Result<Option<Kv>, StoreFault>
        requires first { 1 ≤ revision }
        requires small { revision < 2 ^ 63 }
        ensures shows { IfOk result (λ found. found ≡ put_at self.old.store key.now revision) }
        ensures seen { OnOk result (revision ≤ length self.old.store.revisions) }
        ensures most { OnOk result (length self.old.store.revisions < 2 ^ 62) }
        ensures unseen { IfErr result (Unseen self.old.store revision) }
        ensures store { self.new.store ≡ self.old.store }
        ensures began { self.new.first ≡ self.old.first }
        ensures history { GoesOn self.old.events.items self.new.events.items }
    {
        let ask = key_at(alloc, key, revision)?;
        let answer = self.carry_out(&ask)?;
        Ok(put_in(answer, revision))
    }

    /// Looks for the first revision from `from` on that puts the key.
    #[tactic(auto, using(crate::proofs::Shown::moved_on, crate::proofs::Shown::gone, crate::proofs::Replaying::as_long, crate::proofs::Replaying::longer_still))]
    pub fn look(&mut self, alloc: Global, key: &[u8], from: u64) -> Result<Look, Memory>
        requires first { 1 ≤ from }
        requires small { from ≤ 2 ^ 62 }
        ensures looks { IfOk result (Looks self.new.store key.now from) }
        ensures store { self.new.store ≡ self.old.store }
        ensures began { self.new.first ≡ self.old.first }
        ensures history { GoesOn self.old.events.items self.new.events.items }
    {
        let mut revision = from;
        'revisions: loop {
            match self.put_at(alloc, key, revision) {
                Ok(Some(kv)) => return Ok(Look::Put(kv)),
                Ok(None) => revision += 1,
                Err(StoreFault::Denied(Denied::Compacted { floor, .. })) => {
                    return Ok(Look::Compacted(floor));
                }
                Err(StoreFault::Denied(_)) => return Ok(Look::Waits(revision)),
                Err(StoreFault::Memory) => return Err(Memory),
            }
        }
    }
}
