//! The puts of one line, one after the other.

ghost use Rattle.std.specs.Prelude.{◌≡◌, ◌<ℤ◌, ◌≤ℤ◌, ◌+ℤ◌, ◌⊎◌, pos, ◌^◌, IfOk, OnOk, IfErr, true, MatchResult, All, length, filter};
ghost use Rattle.zw_feed.specs.Following.{AreEntries, BreaksAt, IsBroken, IsEntryOf, IsNumbered, is_head};
ghost use Rattle.zw_feed.specs.Gathering.{Grows, IsSoFar};

use crate::fault::FeedFault;
use ev_types::Kv;
use std::alloc::Global;
use zn_layout::{Entry, HEAD_NAME, HeadRec, RecordFault, read_head};

/// The entry of the update with this number, by the head that it put.
fn entry_of(alloc: Global, number: i64, kv: &Kv) -> Result<Entry, FeedFault>
    ensures { MatchResult result (IsEntryOf number kv.now) (λ f. (f ≡ FeedFault.Memory) ⊎ IsBroken number kv.now f) }
{
    if kv.version != number {
        return Err(FeedFault::Gap {
            expected: number,
            found: kv.version,
        });
    }
    match read_head(alloc, kv.key.as_slice(), kv.value.as_slice()) {
        Ok(HeadRec { triggers }) => Ok(Entry {
            number,
            zxid: kv.mod_revision,
            triggers,
        }),
        Err(RecordFault::Damaged { key, value }) => Err(FeedFault::Damaged { key, value }),
        Err(RecordFault::Memory) => Err(FeedFault::Memory),
    }
}

/// Whether a put is one of the head.
fn is_head(kv: &Kv) -> bool
    ensures { result ≡ is_head kv.now }
{
    kv.key.is(HEAD_NAME)
}

/// What some puts gave: entries whose numbers follow `first`, up to `last`.
#[derive(Drop)]
pub struct Found {
    pub first: i64,
    pub last: i64,
    pub entries: Vec<Entry>,
}

impl Found {
    /// One more put. It is passed over where it is not the head's.
    fn put(&mut self, alloc: Global, kv: &Kv) -> Result<(), FeedFault>
        requires last { (pos 0 ≤ℤ self.old.last) × (self.old.last <ℤ pos (2 ^ 62)) }
        ensures grown { OnOk result (Grows self.old kv.now self.new) }
        ensures broken { IfErr result (λ f. (f ≡ FeedFault.Memory) ⊎ ((is_head kv.now ≡ true) × IsBroken (self.old.last +ℤ pos 1) kv.now f)) }
    {
        if !is_head(kv) {
            return Ok(());
        }
        let entry = entry_of(alloc, self.last + 1, kv)?;
        if self.entries.push(entry).is_err() {
            return Err(FeedFault::Memory);
        }
        self.last += 1;
        Ok(())
    }
}

/// All puts of a line, up to the first broken head.
#[tactic(auto, using(crate::proofs::Entries::goes_on, crate::proofs::Entries::breaks))]
fn gather(alloc: Global, found: &mut Found, kvs: &[Kv]) -> Result<(), FeedFault>
    requires so_far { IsSoFar kvs.now 0 found.old.first found.old }
    requires puts { All IsNumbered kvs.now }
    ensures ok { OnOk result (IsSoFar kvs.now (length kvs.now) found.old.first found.new) }
    ensures err { IfErr result (λ f. (f ≡ FeedFault.Memory) ⊎ BreaksAt found.old.first (filter is_head kvs.now) f) }
{
    let mut at = 0;
    'puts: while at < kvs.len() {
        match found.put(alloc, &kvs[at]) {
            Ok(()) => {}
            Err(fault) => return Err(fault),
        }
        at += 1;
    }
    Ok(())
}

/// The entries of the heads among these puts, the first of which is to have the number after this one.
pub(crate) fn entries_of(alloc: Global, number: i64, kvs: &[Kv]) -> Result<Vec<Entry>, FeedFault>
    requires number { (pos 0 ≤ℤ number) × (number <ℤ pos (2 ^ 62)) }
    requires puts { All IsNumbered kvs.now }
    ensures gives { MatchResult result (λ es. AreEntries number (filter is_head kvs.now) es.items) (λ f. (f ≡ FeedFault.Memory) ⊎ BreaksAt number (filter is_head kvs.now) f) }
    ensures small { IfOk result (λ es. (number +ℤ pos (length es.items)) <ℤ pos (2 ^ 62)) }
{
    let mut found = Found {
        first: number,
        last: number,
        entries: Vec::new(alloc),
    };
    gather(alloc, &mut found, kvs)?;
    Ok(found.entries)
}
