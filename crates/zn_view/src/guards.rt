//! What a plan is guarded by, and what it reads again where a guard does not hold.

ghost use Rattle.std.specs.Prelude.{◌≡◌, ◌++◌, ◌∷◌, List, IfOk, OnOk, option_copied};
ghost use Rattle.ev_types.specs.Store.{mod_of};
ghost use Rattle.zn_layout.specs.Keys.{HeadKey, key_bytes};
ghost use Rattle.zx_base.specs.Maps.{Bytes as ByteList, same};
ghost use Rattle.zn_view.specs.Asks.{again_of, guards_of, guarded_wants, picked};
ghost use Rattle.zn_view.specs.declared.snapshot.SeenKey.{SeenKey as AnySeen};

use crate::view::View;
use crate::want::Want;
use ev_types::{Guard, Kv};
use std::alloc::Global;
use zn_layout::{HEAD_NAME, head_key};
use zx_base::{Bytes, Memory, Seq};

/// Whether this is the head's key.
#[tactic(auto, unfolding(zn_layout::specs::Keys::key_bytes))]
pub fn is_head(key: &Bytes) -> bool
    ensures { result ≡ same key.now (key_bytes HeadKey) }
{
    key.is(HEAD_NAME)
}

/// The revision at which a key was last put, 0 where it is absent.
fn put_at(found: Option<&Kv>) -> i64
    ensures { result ≡ mod_of (option_copied found.entry) }
{
    match found {
        Some(kv) => kv.mod_revision,
        None => 0,
    }
}

/// Guards a key at what was found under it, unless it is the head.
fn push_guard_at(
    guards: &mut Seq<Guard>,
    alloc: Global,
    key: &Bytes,
    found: Option<&Kv>,
) -> Result<(), Memory>
    ensures { OnOk result ((rest : List AnySeen) → guards.new ++ guards_of rest ≡ guards.old ++ guards_of (record { key = key.now; found = option_copied found.entry } ∷ rest)) }
{
    if is_head(key) {
        return Ok(());
    }
    guards.push(Guard {
        key: Bytes::copy_of(alloc, key.as_slice())?,
        mod_revision: put_at(found),
    })
}

/// Guards a key, if it was looked up and is not the head.
fn push_guard_on(guards: &mut Seq<Guard>, view: &View, key: &Bytes) -> Result<(), Memory>
    ensures { OnOk result ((rest : List ByteList) → guards.new ++ guards_of (picked view.now rest) ≡ guards.old ++ guards_of (picked view.now (key.now ∷ rest))) }
{
    match view.found(key.as_slice()) {
        Some(found) => push_guard_at(guards, view.allocator(), key, found),
        None => Ok(()),
    }
}

/// Wants a key, unless it is the head. What was found under it does not matter.
fn push_want_at(
    wants: &mut Seq<Want>,
    alloc: Global,
    key: &Bytes,
    found: Option<&Kv>,
) -> Result<(), Memory>
    ensures { OnOk result ((rest : List AnySeen) → wants.new ++ guarded_wants rest ≡ wants.old ++ guarded_wants (record { key = key.now; found = option_copied found.entry } ∷ rest)) }
{
    let _found = found;
    if is_head(key) {
        return Ok(());
    }
    wants.push(Want::Key(Bytes::copy_of(alloc, key.as_slice())?))
}

/// Wants a key, if it was looked up and is not the head.
fn push_want_on(wants: &mut Seq<Want>, view: &View, key: &Bytes) -> Result<(), Memory>
    ensures { OnOk result ((rest : List ByteList) → wants.new ++ guarded_wants (picked view.now rest) ≡ wants.old ++ guarded_wants (picked view.now (key.now ∷ rest))) }
{
    match view.found(key.as_slice()) {
        Some(found) => push_want_at(wants, view.allocator(), key, found),
        None => Ok(()),
    }
}

fn wants_on(view: &View, keys: &[Bytes]) -> Result<Seq<Want>, Memory>
    ensures { IfOk result (λ wants. wants ≡ guarded_wants (picked view.now keys.now)) }
{
    let mut wants = Seq::new(view.allocator());
    for key in keys {
        push_want_on(&mut wants, view, key)?;
    }
    Ok(wants)
}

impl View {
    /// A guard on each of these keys that was looked up, but for the head, at the mod_revision that was seen: 0 for a key that
    /// was absent. It copies each key once.
    pub fn guards_on(&self, keys: &[Bytes]) -> Result<Seq<Guard>, Memory>
        ensures { IfOk result (λ guards. guards ≡ guards_of (picked self.now keys.now)) }
    {
        let mut guards = Seq::new(self.allocator());
        for key in keys {
            push_guard_on(&mut guards, self, key)?;
        }
        Ok(guards)
    }

    /// What a plan reads where a guard on these keys does not hold: the keys that it guards ([`View::guards_on`]), and the head.
    pub fn again_on(&self, keys: &[Bytes]) -> Result<Seq<Want>, Memory>
        ensures { IfOk result (λ wants. wants ≡ again_of (picked self.now keys.now)) }
    {
        let mut wants = wants_on(self, keys)?;
        wants.push(Want::Key(head_key(self.allocator())?))?;
        Ok(wants)
    }
}
