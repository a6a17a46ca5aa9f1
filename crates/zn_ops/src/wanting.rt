//! What a single request still has to look up.

ghost use Rattle.std.specs.Prelude.{◌≡◌, ◌≤ℤ◌, true, pos, IfOk};
ghost use Rattle.zn_ops.specs.Forms.{is_single};
ghost use Rattle.zn_view.specs.Needs.{AreNeeds};

use crate::kinds::{is_read, is_update};
use std::alloc::Global;
use zk_model::Request;
use zn_reads::read_needs;
use zn_updates::update_needs;
use zn_view::{View, Want, Who};
use zx_base::{Memory, Seq};

/// What the request reads, as far as the view determines it, and the view lacks: nothing where the view has it all, and where the
/// request's form decides. All that is determined is named at once, each key once. The request is neither a multi nor a
/// closeSession; the session's number is at least 1.
pub fn needs(alloc: Global, request: &Request, who: Who, view: &View) -> Result<Seq<Want>, Memory>
    requires single { is_single request.now ≡ true }
    requires real { pos 1 ≤ℤ who.session }
    ensures { IfOk result (AreNeeds request.now who view.now) }
{
    if is_update(request) {
        return Ok(update_needs(alloc, request, who, view)?);
    }
    if is_read(request) {
        return Ok(Seq::from_vec(read_needs(alloc, request, who, view)?));
    }
    Ok(Seq::new(alloc))
}
