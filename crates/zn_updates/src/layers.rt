//! What a view shows of a node and of a session, with another view laid over it: the keys that the earlier parts of a multi wrote.

ghost use Rattle.std.specs.Prelude.{◌≡◌, ◌≤ℤ◌, None, pos, nat_abs, option_copied, IfOk, IfSome, IsTrue, MatchOption};
ghost use Rattle.zk_model.specs.Paths.{is_path};
ghost use Rattle.zn_layout.specs.Keys.{DataKey, CountsKey, SessionKey};
ghost use Rattle.zn_layout.specs.Records.{IsCountRec, IsSessionRec};
ghost use Rattle.zn_view.specs.Lookups.{HasSeen, sees};
ghost use Rattle.zn_view.specs.Seen.{seen};
ghost use Rattle.zn_updates.specs.Layers.{layered};
ghost use Rattle.zn_updates.specs.Making.{IsDataSeen, IsCountsSeen, IsNodesSeen, has_found};
ghost use Rattle.zn_updates.specs.Seen.{IsDataWithin};

use crate::seen::{SeenCounts, SeenData, counts_seen, data_seen, is_there, nodes_seen};
use std::alloc::Global;
use zk_model::Path;
use zn_layout::{SessionRec, counts_key, data_key, session_key};
use zn_view::View;
use zx_base::Memory;

/// The view that shows a key: the upper one where that saw it, otherwise the lower one; none where neither did.
fn showing<'a>(over: &'a View, view: &'a View, key: &[u8]) -> Option<&'a View>
    ensures { MatchOption result (seen (layered over.now view.now) key.now ≡ None) (λ v. (seen v.now key.now ≡ seen (layered over.now view.now) key.now) × (seen v.now key.now ≡ None → ⊥)) }
{
    match over.found(key) {
        Some(_) => Some(over),
        None => match view.found(key) {
            Some(_) => Some(view),
            None => None,
        },
    }
}

/// A node's record, as `view` shows it with `over` laid over it: none where the node is not there, or neither view saw its key.
pub fn data_over(
    alloc: Global,
    over: &View,
    view: &View,
    path: &Path,
) -> Result<Option<SeenData>, Memory>
    requires valid { IsTrue (is_path path.now) }
    ensures is { IfOk result (λ o. HasSeen (layered over.now view.now) (DataKey path.now) → IsDataSeen (sees (layered over.now view.now) (DataKey path.now)) o) }
    ensures within { IfOk result (λ o. IfSome o IsDataWithin) }
{
    let key = data_key(alloc, path.bytes())?;
    match showing(over, view, key.as_slice()) {
        Some(view) => data_seen(view, path),
        None => Ok(None),
    }
}

/// The counts of this node: none where neither it nor a record of its counts is there, or neither view saw their key.
pub fn counts_over(
    alloc: Global,
    over: &View,
    view: &View,
    path: &Path,
    node: Option<&SeenData>,
) -> Result<Option<SeenCounts>, Memory>
    requires valid { IsTrue (is_path path.now) }
    ensures is { IfOk result (λ o. HasSeen (layered over.now view.now) (CountsKey path.now) → IsCountsSeen (option_copied node.entry) (sees (layered over.now view.now) (CountsKey path.now)) o) }
    ensures within { IfOk result (λ o. IfSome o (λ x. IsCountRec x.counts)) }
{
    let key = counts_key(alloc, path.bytes())?;
    match showing(over, view, key.as_slice()) {
        Some(view) => counts_seen(view, path, node),
        None => Ok(None),
    }
}

/// The record of a session's nodes, as `view` shows it with `over` laid over it: none where it is not there, or neither view saw its
/// key. The session's number is at least 1.
pub fn nodes_over(
    alloc: Global,
    over: &View,
    view: &View,
    session: i64,
) -> Result<Option<SessionRec>, Memory>
    requires real { pos 1 ≤ℤ session }
    ensures is { IfOk result (λ o. HasSeen (layered over.now view.now) (SessionKey (nat_abs session)) → IsNodesSeen (sees (layered over.now view.now) (SessionKey (nat_abs session))) o) }
    ensures within { IfOk result (λ o. IfSome o IsSessionRec) }
{
    let key = session_key(alloc, session)?;
    match showing(over, view, key.as_slice()) {
        Some(view) => nodes_seen(view, session),
        None => Ok(None),
    }
}

/// Whether a node is there: `false` too where neither view saw its record.
pub fn is_there_over(alloc: Global, over: &View, view: &View, path: &Path) -> Result<bool, Memory>
    requires valid { IsTrue (is_path path.now) }
    ensures { IfOk result (λ there. there ≡ has_found (sees (layered over.now view.now) (DataKey path.now))) }
{
    let key = data_key(alloc, path.bytes())?;
    match showing(over, view, key.as_slice()) {
        Some(view) => is_there(alloc, view, path),
        None => Ok(false),
    }
}
