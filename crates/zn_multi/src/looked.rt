//! Which keys that the parts of a multi look at were looked up.

ghost use Rattle.std.specs.Prelude.{◌≡◌, ◌≤◌, length, IfOk, is_some};
ghost use Rattle.zk_model.specs.Limits.{max_path};
ghost use Rattle.zk_model.specs.Paths.{parent as parent_of};
ghost use Rattle.zn_layout.specs.Keys.{CountsKey, key_bytes};
ghost use Rattle.zn_view.specs.Leaving.{is_owner_seen as is_owner_seen_in, are_seen as are_seen_in};
ghost use Rattle.zn_view.specs.Seen.{seen};
ghost use Rattle.zn_view.specs.Views.{counts_of_parent};

use std::alloc::Global;
use zk_model::Path;
use zn_layout::{counts_key, session_key};
use zn_view::{NodeNow, View};
use zx_base::Memory;

/// Whether the counts of a node's parent were looked up, if it has one.
pub(crate) fn is_parent_seen(alloc: Global, view: &View, path: &Path) -> Result<bool, Memory>
    requires { length path.now ≤ max_path }
    ensures { IfOk result (λ seen. seen ≡ are_seen_in view.now (counts_of_parent (parent_of path.now))) }
{
    match path.parent(alloc)? {
        Some(parent) => {
            let key = counts_key(alloc, parent.bytes())?;
            Ok(view.found(key.as_slice()).is_some())
        }
        None => Ok(true),
    }
}

/// Whether the list of the nodes of a node's owner was looked up, if it has an owner.
pub(crate) fn is_owner_seen(alloc: Global, view: &View, node: NodeNow) -> Result<bool, Memory>
    ensures { IfOk result (λ seen. seen ≡ is_owner_seen_in view.now node.owner) }
{
    if node.owner < 1 {
        return Ok(true);
    }
    let key = session_key(alloc, node.owner)?;
    Ok(view.found(key.as_slice()).is_some())
}

/// Whether a node's counts were looked up.
pub(crate) fn are_counts_seen(alloc: Global, view: &View, path: &Path) -> Result<bool, Memory>
    requires { length path.now ≤ max_path }
    ensures { IfOk result (λ looked. looked ≡ is_some (seen view.now (key_bytes (CountsKey path.now)))) }
{
    let key = counts_key(alloc, path.bytes())?;
    Ok(view.found(key.as_slice()).is_some())
}
