//! The plan of the end of a session.

ghost use Rattle.std.specs.Prelude.{◌≤◌, ◌≤ℤ◌, All, pos, length, IfOk, IsTrue};
ghost use Rattle.zk_model.specs.Limits.{max_owned};
ghost use Rattle.zk_model.specs.Paths.{is_path};
ghost use Rattle.zn_layout.specs.Keys.{CountsKey};
ghost use Rattle.zn_view.specs.Lookups.{HasSeen};
ghost use Rattle.zs_close.specs.Closing.{IsEndPlan};
ghost use Rattle.zs_close.specs.Ending.{parents};

use crate::changes::{end_acts, end_triggers};
use crate::wants::end_keys;
use std::alloc::Global;
use zk_model::{Body, Reply};
use zn_layout::{HeadRec, SessionRec};
use zn_view::{Plan, View, success};
use zx_base::Memory;

/// The plan that ends a session with these nodes, no more than it may own. The counts of the nodes' parents were looked up.
pub(crate) fn end_plan(
    alloc: Global,
    view: &View,
    alive: bool,
    session: i64,
    nodes: &SessionRec,
) -> Result<Plan, Memory>
    requires real { pos 1 ≤ℤ session }
    requires valid { All (λ p. IsTrue (is_path p)) nodes.now.paths }
    requires few { length nodes.now.paths ≤ max_owned nodes.now.layout }
    requires seen { All (λ q. HasSeen view.now (CountsKey q)) (parents nodes.now.paths) }
    ensures { IfOk result (IsEndPlan alive session view.now nodes.now) }
{
    let paths = nodes.paths.as_slice();
    let keys = end_keys(alloc, session, paths)?;
    let acts = end_acts(alloc, view, alive, session, nodes)?;
    let head = HeadRec {
        triggers: end_triggers(alloc, paths)?,
    };
    Ok(Plan {
        guards: view.guards_on(keys.as_slice())?,
        success: success(alloc, acts, &head)?,
        again: view.again_on(keys.as_slice())?,
        draft: Reply::Good(Body::Empty),
        triggers: head.triggers,
    })
}
