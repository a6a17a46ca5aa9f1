//! The keys of a view by their bytes, for a request that looks up many.

ghost use Rattle.std.specs.Prelude.{◌≡◌, None, IfOk, OnOk, option_copied, option_map};
ghost use Rattle.zx_base.specs.Maps.{Bytes as ByteList};
ghost use Rattle.zn_view.specs.Indexing.{or_seen, seen_from, found_under, IsIndex};

use crate::snapshot::SeenKey;
use crate::view::View;
use ev_types::{Kv, Name};
use std::alloc::Global;
use std::collections::BTreeMap;
use zx_base::Memory;

/// What was found under each key that was looked up.
pub type Index<'a> = BTreeMap<Name<'a>, Option<&'a Kv>>;

/// Adds a key. Of a key that was looked up twice the first is kept.
fn take_in<'a>(index: &mut Index<'a>, seen: &'a SeenKey) -> Result<(), Memory>
    ensures { OnOk result ((q : ByteList) → found_under index.new q ≡ or_seen q (found_under index.old q) seen.now) }
{
    let name = Name {
        bytes: seen.key.as_slice(),
    };
    if index.contains_key(&name) {
        return Ok(());
    }
    index.insert(name, seen.found.as_ref())?;
    Ok(())
}

fn index_of<'a>(alloc: Global, keys: &'a [SeenKey]) -> Result<Index<'a>, Memory>
    ensures { IfOk result (λ index. (q : ByteList) → found_under index q ≡ seen_from q None keys.now) }
{
    let mut index = BTreeMap::new(alloc);
    for seen in keys {
        take_in(&mut index, seen)?;
    }
    Ok(index)
}

impl View {
    /// The keys that were seen, by their bytes. It copies none of them; a look-up takes time in proportion to the logarithm of
    /// their number.
    pub fn index(&self) -> Result<Index<'_>, Memory>
        ensures { IfOk result (λ index. IsIndex self.now (found_under index)) }
    {
        index_of(self.allocator(), self.keys())
    }
}

/// What was found under a key: `None` where it was not looked up, `Some(None)` where it was absent.
pub fn found_by<'a>(index: &Index<'a>, key: &'a [u8]) -> Option<Option<&'a Kv>>
    ensures { option_map option_copied result ≡ found_under index.now key.now }
{
    match index.get(&Name { bytes: key }) {
        Some(found) => Some(*found),
        None => None,
    }
}
