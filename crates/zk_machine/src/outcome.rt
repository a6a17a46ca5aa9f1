//! What a request makes of a tree.

use crate::edit::Edit;
use zk_model::{PartResult, Trigger};
use zx_base::Seq;

/// What a single request makes of a tree.
#[derive(Drop)]
pub enum Outcome {
    /// The request is refused with this code (`KeeperException.Code`); the tree stays as it is.
    Refused(i32),
    /// The request is done: its result, the change of the tree, if it is one, and what watches see, in order.
    Done {
        result: PartResult,
        edit: Option<Edit>,
        triggers: Seq<Trigger>,
    },
}
