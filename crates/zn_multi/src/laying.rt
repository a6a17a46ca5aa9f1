//! Keys that are laid over a view, as the parts of a multi wrote them.

ghost use Rattle.std.specs.Prelude.{◌≡◌, ◌++◌, Some, All, IfOk, OnOk};
ghost use Rattle.std.specs.Option.{option_to_list};
ghost use Rattle.zn_view.specs.Seen.{seen, IsOfKind, IsSeen, kind_of_bytes};
ghost use Rattle.zn_multi.specs.Laying.{is_absent, put_now, with_act, with_acts, write_of, written_acts, PutsRecord};

use ev_types::{Act, Kv};
use std::alloc::Global;
use zn_view::{SeenKey, View};
use zx_base::{Bytes, Memory, Seq};

/// A key as this update puts it. A mod_revision of 0 is that of the update.
fn put_key(alloc: Global, key: Bytes, value: Bytes, lease: i64) -> Result<SeenKey, Memory>
    requires { IsOfKind (kind_of_bytes key) value }
    ensures is { IfOk result (λ x. x ≡ record { key = key; found = Some (put_now key value lease) }) }
    ensures kept { IfOk result IsSeen }
{
    Ok(SeenKey {
        key: Bytes::copy_of(alloc, key.as_slice())?,
        found: Some(Kv {
            key,
            value,
            create_revision: 0,
            mod_revision: 0,
            version: 0,
            lease,
        }),
    })
}

/// Lays one operation over a view. A read lays nothing.
fn lay(alloc: Global, over: &mut View, act: Act) -> Result<(), Memory>
    requires { PutsRecord act }
    ensures { OnOk result (over.new ≡ with_act over.old act) }
{
    match act {
        Act::Put { key, value, lease } => over.lay(put_key(alloc, key, value, lease)?),
        Act::Delete { key } => over.lay(SeenKey { key, found: None }),
        Act::Range(_) => Ok(()),
    }
}

/// Lays operations over a view, each over those before.
pub(crate) fn lay_all(alloc: Global, over: &mut View, acts: Seq<Act>) -> Result<(), Memory>
    requires { All PutsRecord acts }
    ensures { OnOk result (over.new ≡ with_acts over.old acts) }
{
    for act in acts.into_vec() {
        lay(alloc, over, act)?;
    }
    Ok(())
}

/// Whether a view saw that a key is absent.
fn was_absent(view: &View, key: &[u8]) -> bool
    ensures { result ≡ is_absent (seen view.now key.now) }
{
    match view.found(key) {
        Some(found) => found.is_none(),
        None => false,
    }
}

/// The operation that writes a key as it was laid: none where it is absent before and after.
fn written(view: &View, laid: SeenKey) -> Option<Act>
    ensures { result ≡ write_of view.now laid }
{
    let SeenKey { key, found } = laid;
    match found {
        Some(kv) => Some(Act::Put {
            key,
            value: kv.value,
            lease: kv.lease,
        }),
        None => {
            if was_absent(view, key.as_slice()) {
                None
            } else {
                Some(Act::Delete { key })
            }
        }
    }
}

/// Adds an operation, if there is one.
fn push_some(acts: &mut Seq<Act>, act: Option<Act>) -> Result<(), Memory>
    ensures { OnOk result (acts.new ≡ acts.old ++ option_to_list act) }
{
    match act {
        Some(act) => acts.push(act),
        None => Ok(()),
    }
}

/// The operations that write what was laid over a view, each key once.
pub(crate) fn all_written(alloc: Global, over: View, view: &View) -> Result<Seq<Act>, Memory>
    ensures { IfOk result (λ acts. acts ≡ written_acts view.now over.keys) }
{
    let mut acts = Seq::new(alloc);
    for laid in over.into_keys().into_vec() {
        push_some(&mut acts, written(view, laid))?;
    }
    Ok(acts)
}
