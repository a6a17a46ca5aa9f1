//! Adding what was found to a view.

ghost use Rattle.std.specs.Prelude.{◌≡◌, option_copied, All, IfOk, IfErr, IfSome, OnOk, OnErr};
ghost use Rattle.zn_view.specs.Adding.{at_revision, AreRecords, AreNumbers, AreNumbersIn, IsOtherRevision, IsViewFault, IsRecordPart, IsPartFault, IsPartsFault, IsDamagedFault, IsKeyFault, IsGrown, with_key, with_list};
ghost use Rattle.zn_view.specs.Asks.{with_part, with_parts, kept_under, found_in, last_part, paths_in};
ghost use Rattle.zn_view.specs.Seen.{IsCountNumber, IsRecord, AreCounts};

use crate::children::paths_among;
use crate::fault::ViewFault;
use crate::kind::is_record;
use crate::snapshot::{SeenChildren, SeenKey, copy_kv};
use crate::view::View;
use crate::want::Want;
use ev_types::{ActAns, Kv};
use std::alloc::Global;
use zk_model::Path;
use zx_base::{Bytes, Memory};

/// The keys that a part of an answer found.
pub fn found_in(part: &ActAns) -> &[Kv]
    ensures { result.now ≡ found_in part.now }
{
    match part {
        ActAns::Range(found) => found.kvs.as_slice(),
        ActAns::Put | ActAns::Deleted(_) => &[],
    }
}

/// What the last part of an answer found.
pub fn last_found(parts: &[ActAns]) -> &[Kv]
    ensures { result.now ≡ last_part parts.now }
{
    let mut found: &[Kv] = &[];
    for part in parts {
        found = found_in(part);
    }
    found
}

/// The first that is kept under this key.
fn kept_under<'a>(kvs: &'a [Kv], key: &[u8]) -> Option<&'a Kv>
    ensures { option_copied result ≡ kept_under key.now kvs.now }
{
    for kv in kvs {
        if kv.key.is(key) {
            return Some(kv);
        }
    }
    None
}

/// The fault of a value that is no record, with copies of the key and the value.
fn damaged(alloc: Global, kv: &Kv) -> ViewFault
    ensures { IsDamagedFault kv.now result }
{
    match copy_kv(alloc, kv) {
        Ok(kv) => ViewFault::Damaged {
            key: kv.key,
            value: kv.value,
        },
        Err(Memory) => ViewFault::Memory,
    }
}

/// A copy of what was found under a key. It is a fault where the value is no record of the key's kind.
fn tested(alloc: Global, found: Option<&Kv>) -> Result<Option<Kv>, ViewFault>
    ensures ok { IfOk result (λ o. o ≡ option_copied found.entry) }
    ensures kept { IfOk result (λ o. IfSome (option_copied found.entry) IsRecord) }
    ensures fault { IfErr result (IsKeyFault (option_copied found.entry)) }
{
    let Some(kv) = found else {
        return Ok(None);
    };
    if !is_record(alloc, kv)? {
        return Err(damaged(alloc, kv));
    }
    Ok(Some(copy_kv(alloc, kv)?))
}

impl View {
    /// Adds what was found for some wants at a revision, a part for each want in their order. A key that was found and
    /// that its want does not name is passed over. The revision of the first round stays the view's. The view is as it was
    /// where this revision is another (`OtherRevision`), where a value is no record of its key's kind (`Damaged`: the
    /// first in the order of the wants), and without memory. The revision and the numbers of what was found are from 0 to
    /// 2^62 - 1. It copies each value once, and a key once for itself and once with its value.
    pub fn add(&mut self, wants: &[Want], revision: i64, parts: &[ActAns]) -> Result<(), ViewFault>
        requires revision { IsCountNumber revision }
        requires numbers { AreNumbers parts.now }
        ensures ok { OnOk result (self.new ≡ with_parts (at_revision self.old revision) wants.now parts.now) }
        ensures same_revision { OnOk result (IsOtherRevision self.old revision → ⊥) }
        ensures records { OnOk result (AreRecords wants.now parts.now) }
        ensures err { OnErr result (self.new ≡ self.old) }
        ensures fault { IfErr result (IsViewFault self.old wants.now revision parts.now) }
    {
        let view = self.revision();
        let new = self.is_new();
        if !new && view != revision {
            return Err(ViewFault::OtherRevision {
                view,
                found: revision,
            });
        }
        self.take_or_leave(wants, parts)?;
        if new {
            self.begin_at(revision);
        }
        Ok(())
    }

    /// Takes all parts, or none.
    fn take_or_leave(&mut self, wants: &[Want], parts: &[ActAns]) -> Result<(), ViewFault>
        requires { AreNumbers parts.now }
        ensures ok { OnOk result (self.new ≡ with_parts self.old wants.now parts.now) }
        ensures records { OnOk result (AreRecords wants.now parts.now) }
        ensures err { OnErr result (self.new ≡ self.old) }
        ensures fault { IfErr result (IsPartsFault wants.now parts.now) }
    {
        let keys = self.keys().len();
        let lists = self.lists().len();
        match self.take_all(wants, parts) {
            Ok(()) => Ok(()),
            Err(fault) => {
                self.keep_first(keys, lists);
                Err(fault)
            }
        }
    }

    /// Takes part after part, up to the first that it cannot take.
    fn take_all(&mut self, wants: &[Want], parts: &[ActAns]) -> Result<(), ViewFault>
        requires { AreNumbers parts.now }
        ensures ok { OnOk result (self.new ≡ with_parts self.old wants.now parts.now) }
        ensures records { OnOk result (AreRecords wants.now parts.now) }
        ensures grown { IsGrown self.old self.new }
        ensures fault { IfErr result (IsPartsFault wants.now parts.now) }
    {
        for i in 0..wants.len().min(parts.len()) {
            self.take(&wants[i], &parts[i])?;
        }
        Ok(())
    }

    /// Takes a part. Where it fails the view is as it was.
    fn take(&mut self, want: &Want, part: &ActAns) -> Result<(), ViewFault>
        requires { AreNumbersIn part.now }
        ensures ok { OnOk result (self.new ≡ with_part self.old want.now part.now) }
        ensures kept { OnOk result (IsRecordPart want.now part.now) }
        ensures err { OnErr result (self.new ≡ self.old) }
        ensures fault { IfErr result (IsPartFault want.now part.now) }
    {
        match want {
            Want::Key(key) => self.take_key(key.as_slice(), found_in(part)),
            Want::Children(path) => Ok(self.take_children(path, found_in(part))?),
        }
    }

    fn take_key(&mut self, key: &[u8], kvs: &[Kv]) -> Result<(), ViewFault>
        requires { All AreCounts kvs.now }
        ensures ok { OnOk result (self.new ≡ with_key self.old (record { key = key.now; found = kept_under key.now kvs.now })) }
        ensures kept { OnOk result (IfSome (kept_under key.now kvs.now) IsRecord) }
        ensures err { OnErr result (self.new ≡ self.old) }
        ensures fault { IfErr result (IsKeyFault (kept_under key.now kvs.now)) }
    {
        let alloc = self.allocator();
        let found = tested(alloc, kept_under(kvs, key))?;
        let key = Bytes::copy_of(alloc, key)?;
        self.push_key(SeenKey { key, found })?;
        Ok(())
    }

    fn take_children(&mut self, path: &Path, kvs: &[Kv]) -> Result<(), Memory>
        ensures ok { OnOk result (self.new ≡ with_list self.old (record { path = path.now; paths = paths_in path.now kvs.now })) }
        ensures err { OnErr result (self.new ≡ self.old) }
    {
        let alloc = self.allocator();
        let path_copy = path.copy(alloc)?;
        let paths = paths_among(alloc, path, kvs)?;
        self.push_list(SeenChildren {
            path: path_copy,
            paths,
        })
    }
}
