//! What an update has to know of a node's records and of a session's.
//!
//! A zxid of 0 is that of the update itself: a multi decides a part on what the parts before it left.

ghost use Rattle.std.specs.Prelude.{◌≡◌, ◌≤◌, ◌≤ℤ◌, pos, nat_abs, option_copied, IfOk, IfSome, IsTrue};
ghost use Rattle.zk_model.specs.Paths.{is_path};
ghost use Rattle.zn_layout.specs.Keys.{DataKey, CountsKey, SessionKey};
ghost use Rattle.zn_layout.specs.Records.{IsCountRec, IsLongCount, IsSessionRec};
ghost use Rattle.zn_layout.specs.StandsFor.{czxid_of};
ghost use Rattle.zn_view.specs.Lookups.{HasSeen, sees};
ghost use Rattle.zn_updates.specs.Making.{IsDataSeen, IsCountsSeen, IsNodesSeen, has_found, uncounted};
ghost use Rattle.zn_updates.specs.Seen.{IsDataWithin};

use std::alloc::Global;
use zk_model::Path;
use zn_layout::{CountRec, FIRST_COUNTS, SessionRec, czxid, data_key};
use zn_view::View;
use zx_base::Memory;

/// A node's record without its content and the time of its last change.
#[derive(Clone, Copy)]
pub struct SeenData {
    /// The zxid of the node's create; 0 is that of the update itself.
    pub czxid: i64,
    /// How often the node's data changed; at least 0.
    pub version: i32,
    /// The time of the node's create, in milliseconds since 1970.
    pub ctime: i64,
    /// The session that owns the node, or 0.
    pub owner: i64,
}

/// The counts of a node's children, and the zxid of their last change.
#[derive(Clone, Copy)]
pub struct SeenCounts {
    pub counts: CountRec,
    /// 0 is the zxid of the update itself.
    pub pzxid: i64,
    /// Whether there is a record of them. A node without one has had no children since its create.
    pub is_stored: bool,
}

/// A node's record and its counts, each none where the node is not there.
#[derive(Drop)]
pub struct SeenNode {
    pub data: Option<SeenData>,
    pub counts: Option<SeenCounts>,
}

/// The czxid of a record: its revision where 0 is stored. A revision below 0, which no etcd has, counts as 0.
fn resolved(stored: i64, revision: i64) -> i64
    ensures is { pos 0 ≤ℤ revision → result ≡ czxid_of stored revision }
    ensures within { IsLongCount stored → IsLongCount result }
{
    czxid(stored, revision.max(0))
}

/// The node's record that the view saw: none where the node is not there. Its key was looked up.
pub fn data_seen(view: &View, path: &Path) -> Result<Option<SeenData>, Memory>
    requires valid { IsTrue (is_path path.now) }
    requires seen { HasSeen view.now (DataKey path.now) }
    ensures is { IfOk result (λ o. IsDataSeen (sees view.now (DataKey path.now)) o) }
    ensures within { IfOk result (λ o. IfSome o IsDataWithin) }
{
    let Some((node, kv)) = view.node_at(path.bytes())? else {
        return Ok(None);
    };
    Ok(Some(SeenData {
        czxid: resolved(node.czxid, kv.mod_revision),
        version: node.version,
        ctime: node.ctime,
        owner: node.owner,
    }))
}

/// The counts of a node without a record of them.
fn no_counts(node: &SeenData) -> SeenCounts
    ensures { result ≡ uncounted node.now }
{
    SeenCounts {
        counts: FIRST_COUNTS,
        pzxid: node.czxid,
        is_stored: false,
    }
}

/// The counts that the view saw of this node: none where neither it nor a record of its counts is there. Their key was looked up.
pub fn counts_seen(
    view: &View,
    path: &Path,
    node: Option<&SeenData>,
) -> Result<Option<SeenCounts>, Memory>
    requires valid { IsTrue (is_path path.now) }
    requires seen { HasSeen view.now (CountsKey path.now) }
    ensures is { IfOk result (λ o. IsCountsSeen (option_copied node.entry) (sees view.now (CountsKey path.now)) o) }
    ensures within { IfOk result (λ o. IfSome o (λ x. IsCountRec x.counts)) }
{
    match view.counts_at(path.bytes())? {
        Some((counts, kv)) => Ok(Some(SeenCounts {
            counts,
            pzxid: kv.mod_revision,
            is_stored: true,
        })),
        None => Ok(node.map(no_counts)),
    }
}

/// The record of a session's nodes that the view saw: none where it is not there. Its key was looked up; the session's number is
/// at least 1.
pub fn nodes_seen(view: &View, session: i64) -> Result<Option<SessionRec>, Memory>
    requires real { pos 1 ≤ℤ session }
    requires seen { HasSeen view.now (SessionKey (nat_abs session)) }
    ensures is { IfOk result (λ o. IsNodesSeen (sees view.now (SessionKey (nat_abs session))) o) }
    ensures within { IfOk result (λ o. IfSome o IsSessionRec) }
{
    view.nodes_of(session)
}

/// Whether the view saw that a node is there: `false` too where its record was not looked up.
pub fn is_there(alloc: Global, view: &View, path: &Path) -> Result<bool, Memory>
    requires valid { IsTrue (is_path path.now) }
    ensures { IfOk result (λ there. there ≡ has_found (sees view.now (DataKey path.now))) }
{
    let key = data_key(alloc, path.bytes())?;
    match view.found(key.as_slice()) {
        Some(Some(_)) => Ok(true),
        Some(None) | None => Ok(false),
    }
}
