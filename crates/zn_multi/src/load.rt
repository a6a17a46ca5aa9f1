//! The load of a multi: the bytes of its parts' data, and of the paths of the nodes that each touched session owned before. A
//! session is touched if a part makes or removes a node of it.

ghost use Rattle.std.specs.Prelude.{◌≡◌, ◌+◌, ℕ, nat_lt, sum_by, IfOk};
ghost use Rattle.zk_model.specs.Limits.{max_load};
ghost use Rattle.zk_model.specs.Multi.{data_len, distinct as distinct_of};
ghost use Rattle.zk_model.specs.Loads.{within};
ghost use Rattle.zn_multi.specs.Deciding.{AreOwnedLoads, IsOwnedLoad};

use std::alloc::Global;
use zk_model::Part;
use zk_model::load::{data_load, distinct, path_load};
use zn_updates::nodes_over;
use zn_view::View;
use zx_base::Memory;

/// Adds the bytes of the paths that a session owned before; none where the sum is too great. No session has a number below 1.
fn session_load(
    alloc: Global,
    view: &View,
    session: i64,
    before: Option<usize>,
) -> Result<Option<usize>, Memory>
    ensures { IfOk result (λ sum. (a : ℕ) × IsOwnedLoad view.now session a × ((n : ℕ) → before ≡ within n → sum ≡ within (n + a))) }
{
    if session < 1 {
        return Ok(before);
    }
    match nodes_over(alloc, &View::empty(alloc), view, session)? {
        Some(nodes) => Ok(path_load(nodes.paths.as_slice(), before)),
        None => Ok(before),
    }
}

/// Whether the load is more than `MAX_LOAD` bytes.
pub(crate) fn exceeds(
    alloc: Global,
    parts: &[Part],
    touched: &[i64],
    view: &View,
) -> Result<bool, Memory>
    ensures { IfOk result (λ above. (n : ℕ) × AreOwnedLoads view.now (distinct_of touched.now) n × (above ≡ nat_lt max_load (sum_by data_len parts.now + n))) }
{
    let mut sum = data_load(parts);
    for session in distinct(alloc, touched)? {
        sum = session_load(alloc, view, session, sum)?;
    }
    Ok(sum.is_none())
}
