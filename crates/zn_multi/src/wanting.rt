//! What a multi still has to look up.

ghost use Rattle.std.specs.Prelude.{◌≤ℤ◌, pos, IfOk};
ghost use Rattle.zk_model.specs.declared.request.Request.TheVariants as requests;
ghost use Rattle.zn_view.specs.Needs.{AreNeeds};

use crate::reading::keys_read;
use std::alloc::Global;
use zk_model::Part;
use zk_model::limit::MAX_PARTS;
use zn_view::{View, Want, Who};
use zx_base::{Memory, Seq};

/// What a multi of these parts still has to read, as far as the view determines it: nothing where the view has it all, and where
/// the multi's form is refused. All that is determined is named at once, each key once. The session's number is at least 1.
pub fn needs_multi(
    alloc: Global,
    parts: &[Part],
    who: Who,
    view: &View,
) -> Result<Seq<Want>, Memory>
    requires real { pos 1 ≤ℤ who.session }
    ensures { IfOk result (AreNeeds (requests.Multi parts.now) who view.now) }
{
    if MAX_PARTS < parts.len() {
        return Ok(Seq::new(alloc));
    }
    view.lacking(keys_read(alloc, parts, who.session, view)?)
}
