//! What the end of a session looks up.

ghost use Rattle.std.specs.Prelude.{◌≡◌, ◌≤ℤ◌, ◌++◌, ◌∷◌, [], All, map, pos, nat_abs, IfOk, IsTrue, OnOk};
ghost use Rattle.zk_model.specs.Paths.{is_path};
ghost use Rattle.zn_layout.specs.Keys.{CountsKey, SessionKey, key_bytes};
ghost use Rattle.zn_view.specs.Lookups.{sees};
ghost use Rattle.zs_close.specs.Wanting.{own_keys as keys_of_session, read_keys, AreEndWants, IsNodesSeen};

use crate::parents::parents;
use std::alloc::Global;
use zk_model::Path;
use zn_layout::{counts_key, head_key, lease_key, session_key};
use zn_view::{View, Want};
use zx_base::{Bytes, Memory, Seq};

/// The keys that the end of each session reads: the head, the record of its life, and the list of its nodes.
fn own_keys(alloc: Global, session: i64) -> Result<Seq<Bytes>, Memory>
    requires { pos 1 ≤ℤ session }
    ensures { IfOk result (λ keys. keys ≡ map key_bytes (keys_of_session session)) }
{
    let mut keys = Seq::new(alloc);
    keys.push(head_key(alloc)?)?;
    keys.push(lease_key(alloc, session)?)?;
    keys.push(session_key(alloc, session)?)?;
    Ok(keys)
}

/// Adds the key of a node's counts.
fn push_counts_of(keys: &mut Seq<Bytes>, alloc: Global, path: &Path) -> Result<(), Memory>
    requires { IsTrue (is_path path.now) }
    ensures { OnOk result (keys.new ≡ keys.old ++ key_bytes (CountsKey path.now) ∷ []) }
{
    keys.push(counts_key(alloc, path.bytes())?)
}

/// Adds the keys of these nodes' counts.
fn push_counts(keys: &mut Seq<Bytes>, alloc: Global, paths: &[Path]) -> Result<(), Memory>
    requires { All (λ q. IsTrue (is_path q)) paths.now }
    ensures { OnOk result (keys.new ≡ keys.old ++ map key_bytes (map CountsKey paths.now)) }
{
    for path in paths {
        push_counts_of(keys, alloc, path)?;
    }
    Ok(())
}

/// The keys that the end of a session with these nodes reads, those of the counts of the nodes' parents among them.
pub(crate) fn end_keys(alloc: Global, session: i64, paths: &[Path]) -> Result<Seq<Bytes>, Memory>
    requires real { pos 1 ≤ℤ session }
    requires valid { All (λ p. IsTrue (is_path p)) paths.now }
    ensures { IfOk result (λ keys. keys ≡ read_keys session paths.now) }
{
    let parents = parents(alloc, paths)?;
    let mut keys = own_keys(alloc, session)?;
    push_counts(&mut keys, alloc, parents.as_slice())?;
    Ok(keys)
}

/// The nodes that the view saw of a session: none where the list of them is not there or was not looked up.
fn nodes_seen(alloc: Global, view: &View, session: i64) -> Result<Seq<Path>, Memory>
    requires { pos 1 ≤ℤ session }
    ensures is { IfOk result (IsNodesSeen (sees view.now (SessionKey (nat_abs session)))) }
    ensures valid { IfOk result (All (λ p. IsTrue (is_path p))) }
{
    let key = session_key(alloc, session)?;
    if view.found(key.as_slice()).is_none() {
        return Ok(Seq::new(alloc));
    }
    match view.nodes_of(session)? {
        Some(nodes) => Ok(nodes.paths),
        None => Ok(Seq::new(alloc)),
    }
}

/// What the end of a session still has to look up. The counts of its nodes' parents are among it once the view saw the list of
/// its nodes.
pub(crate) fn end_needs(alloc: Global, view: &View, session: i64) -> Result<Seq<Want>, Memory>
    requires { pos 1 ≤ℤ session }
    ensures { IfOk result (AreEndWants session view.now) }
{
    let paths = nodes_seen(alloc, view, session)?;
    let keys = end_keys(alloc, session, paths.as_slice())?;
    view.lacking(keys)
}
