//! What a request does to the state.

ghost use Rattle.std.specs.Prelude.{◌≡◌, IfOk};
ghost use Rattle.zk_history.specs.Commits.{changed};

use std::alloc::Global;
use zk_machine::{Edit, Tree, Write};
use zk_model::{Body, Trigger};
use zx_base::{Memory, Seq};

/// What a request changes of a tree.
#[derive(Drop)]
pub enum Change {
    /// What a single request planned.
    Edited(Option<Edit>),
    /// What the parts of a transaction wrote, in order.
    Written(Seq<Write>),
}

impl Change {
    /// The tree with this change carried out in place.
    pub fn carried_out(self, alloc: Global, tree: Tree) -> Result<Tree, Memory>
        ensures { IfOk result (λ t. t ≡ changed tree self) }
    {
        match self {
            Change::Edited(edit) => {
                let mut next = tree;
                next.carry_out_if(alloc, edit)?;
                Ok(next)
            }
            Change::Written(writes) => {
                let mut next = tree;
                next.write_all(alloc, writes)?;
                Ok(next)
            }
        }
    }
}

/// What a create, create2, delete, setData or multi that is not refused does.
#[derive(Drop)]
pub struct Commit {
    /// The body of its reply.
    pub response: Body,
    /// What it changes of the tree.
    pub change: Change,
    /// What watches see of it, in order.
    pub triggers: Seq<Trigger>,
}
