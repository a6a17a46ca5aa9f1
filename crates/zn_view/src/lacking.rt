//! Which of some keys a view lacks.

ghost use Rattle.std.specs.Prelude.{◌≡◌, false, not, ◌||◌, ◌∷◌, ◌++◌, [], cond, is_some, IfOk, OnOk};
ghost use Rattle.std.specs.BTreeSet as set;
ghost use Rattle.std.specs.Cmp.Lexicographic.{slice_cmp};
ghost use Rattle.std.specs.List.{list_any};
ghost use Rattle.std.specs.Ordering.{nat_cmp};
ghost use Rattle.zx_base.specs.Maps.{Bytes as ByteList, same};
ghost use Rattle.zn_view.specs.declared.want.Want.TheVariants as want;
ghost use Rattle.zn_view.specs.Lacking.{is_want_of, known_from, lacking as lacking_of, with_want};
ghost use Rattle.zn_view.specs.Seen.{View as AnyView, seen};

use crate::snapshot::SeenKey;
use crate::view::View;
use crate::want::Want;
use ev_types::Name;
use std::alloc::Global;
use std::collections::BTreeSet;
use zx_base::{Bytes, Memory, Seq};

fn is_want_of(key: &[u8], want: &Want) -> bool
    ensures { result ≡ is_want_of key.now want.now }
{
    match want {
        Want::Key(wanted) => wanted.is(key),
        Want::Children(_) => false,
    }
}

fn is_wanted(wants: &[Want], key: &[u8]) -> bool
    ensures { result ≡ list_any (is_want_of key.now) wants.now }
{
    wants.iter().any(|want| is_want_of(key, want))
}

fn is_seen(view: &View, key: &[u8]) -> bool
    ensures { result ≡ is_some (seen view.now key.now) }
{
    match view.found(key) {
        Some(_) => true,
        None => false,
    }
}

/// Names a key that was not looked up and is not named yet.
fn want_key(wants: &mut Seq<Want>, key: Bytes, view: &View) -> Result<(), Memory>
    ensures { OnOk result (wants.new ≡ with_want view.now wants.old key) }
{
    if is_seen(view, key.as_slice()) || is_wanted(wants.as_slice(), key.as_slice()) {
        return Ok(());
    }
    wants.push(Want::Key(key))
}

/// Adds a key to those that are known, and says whether it is new.
fn know<'a>(known: &mut BTreeSet<Name<'a>>, key: &'a [u8]) -> Result<bool, Memory>
    ensures new { IfOk result (λ new. new ≡ not (set.contains (slice_cmp nat_cmp) known.old key.now)) }
    ensures known { OnOk result ((q : ByteList) → set.contains (slice_cmp nat_cmp) known.new q ≡ (set.contains (slice_cmp nat_cmp) known.old q || same key.now q)) }
{
    Ok(known.insert(Name { bytes: key })?)
}

/// The keys that were seen, by their bytes.
fn known_keys<'a>(alloc: Global, keys: &'a [SeenKey]) -> Result<BTreeSet<Name<'a>>, Memory>
    ensures { IfOk result (λ known. (q : ByteList) → set.contains (slice_cmp nat_cmp) known q ≡ known_from q false keys.now) }
{
    let mut known = BTreeSet::new(alloc);
    for seen in keys {
        know(&mut known, seen.key.as_slice())?;
    }
    Ok(known)
}

/// Names a key that is not known, which is known from then on.
fn want_unknown<'a>(
    alloc: Global,
    known: &mut BTreeSet<Name<'a>>,
    wants: &mut Seq<Want>,
    key: &'a Bytes,
) -> Result<(), Memory>
    ensures wants { OnOk result (wants.new ≡ cond (set.contains (slice_cmp nat_cmp) known.old key.now) wants.old (wants.old ++ want.Key key.now ∷ [])) }
    ensures known { OnOk result ((q : ByteList) → set.contains (slice_cmp nat_cmp) known.new q ≡ (set.contains (slice_cmp nat_cmp) known.old q || same key.now q)) }
{
    if know(known, key.as_slice())? {
        wants.push(Want::Key(Bytes::copy_of(alloc, key.as_slice())?))?;
    }
    Ok(())
}

fn want_all_unknown<'a>(
    alloc: Global,
    known: BTreeSet<Name<'a>>,
    keys: &'a [Bytes],
) -> Result<Seq<Want>, Memory>
    ensures { IfOk result (λ ws. (v : AnyView) → ((q : ByteList) → set.contains (slice_cmp nat_cmp) known.entry q ≡ is_some (seen v q)) → ws ≡ lacking_of v keys.now) }
{
    let mut known = known;
    let mut wants = Seq::new(alloc);
    for key in keys {
        want_unknown(alloc, &mut known, &mut wants, key)?;
    }
    Ok(wants)
}

impl View {
    /// A want for each of these keys that was not looked up, each once, as [`View::lacking`] gives them. It is for many keys: it
    /// takes time in proportion to the number of these and of the seen keys, times the logarithm of that number. It copies each
    /// key that is wanted.
    pub fn lacking_many(&self, keys: &[Bytes]) -> Result<Seq<Want>, Memory>
        ensures { IfOk result (λ ws. ws ≡ lacking_of self.now keys.now) }
    {
        let known = known_keys(self.allocator(), self.keys())?;
        want_all_unknown(self.allocator(), known, keys)
    }

    /// A want for each of these keys that was not looked up, each once. It takes time in proportion to the number of these keys
    /// times that of these and the seen keys.
    pub fn lacking(&self, keys: Seq<Bytes>) -> Result<Seq<Want>, Memory>
        ensures { IfOk result (λ ws. ws ≡ lacking_of self.now keys) }
    {
        let mut wants = Seq::new(self.allocator());
        for key in keys.into_vec() {
            want_key(&mut wants, key, self)?;
        }
        Ok(wants)
    }
}
