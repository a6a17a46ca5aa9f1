//! The operations that put a node's record and a session's list of nodes.

ghost use Rattle.std.specs.Prelude.{◌≡◌, ◌≤◌, ◌≤ℤ◌, pos, length, IfOk, IsTrue};
ghost use Rattle.zk_model.specs.Paths.{is_path};
ghost use Rattle.zn_layout.specs.Changes.{act_of, put_key};
ghost use Rattle.zn_layout.specs.Keys.{DataKey};
ghost use Rattle.zn_layout.specs.Records.{node_value, IsNodeRec, IsSessionRec};
ghost use Rattle.zn_updates.specs.Choices.{put_owned as owned_put, with_content};

use ev_types::Act;
use std::alloc::Global;
use zk_model::Path;
use zn_layout::{NodeRec, SessionRec, data_key, put, session_key, write_node, write_session};
use zx_base::Memory;

/// Puts a node's record with this content, which is copied once. The record that is given has no content.
pub(crate) fn put_data(
    alloc: Global,
    path: &Path,
    node: &NodeRec,
    content: &[u8],
) -> Result<Act, Memory>
    requires valid { IsTrue (is_path path.now) }
    requires bounded { IsNodeRec node.now }
    requires empty { length node.now.content ≡ 0 }
    ensures { IfOk result (λ a. a ≡ act_of (put_key (DataKey path.now) (node_value (with_content node.now content.now)))) }
{
    let mut value = write_node(alloc, node)?;
    value.extend_from_slice(content)?;
    Ok(put(data_key(alloc, path.bytes())?, value))
}

/// Puts the record of a session's nodes. The session's number is at least 1.
pub(crate) fn put_owned(alloc: Global, session: i64, nodes: &SessionRec) -> Result<Act, Memory>
    requires real { pos 1 ≤ℤ session }
    requires bounded { IsSessionRec nodes.now }
    ensures { IfOk result (λ a. a ≡ act_of (owned_put session nodes.now)) }
{
    let value = write_session(alloc, nodes)?;
    Ok(put(session_key(alloc, session)?, value))
}
