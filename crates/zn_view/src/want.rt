//! What is still to be read.

ghost use Rattle.std.specs.Prelude.{◌≡◌, ◌∷◌, [], IfOk};
ghost use Rattle.zn_view.specs.Asks.{head_want};

use std::alloc::Global;
use zk_model::Path;
use zn_layout::head_key;
use zx_base::{Bytes, Memory, Seq};

/// What a request still has to read.
#[derive(Drop)]
pub enum Want {
    /// What is kept under this key.
    Key(Bytes),
    /// The paths of this node's children.
    Children(Path),
}

/// The head alone.
pub fn head_wants(alloc: Global) -> Result<Seq<Want>, Memory>
    ensures { IfOk result (λ wants. wants ≡ head_want ∷ []) }
{
    let mut wants = Seq::new(alloc);
    wants.push(Want::Key(head_key(alloc)?))?;
    Ok(wants)
}
