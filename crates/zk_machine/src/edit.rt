//! Changes of a tree, which are planned on it and then carried out in place.

ghost use Rattle.std.specs.Prelude.{◌≡◌, OnOk};
ghost use Rattle.zk_model.specs.Single.{removed};
ghost use Rattle.zk_machine.specs.Edits.{edited, edited_if};

use crate::tree::Tree;
use std::alloc::Global;
use zk_model::{Node, Path};
use zx_base::Memory;

/// What one request changes of a tree.
#[derive(Drop)]
pub enum Edit {
    /// `node` is put at `path`; its parent then has this count of creates, and `zxid` as its pzxid.
    Made {
        parent: Path,
        creates: i32,
        zxid: i64,
        path: Path,
        node: Node,
    },
    /// `node` is put at `path`.
    Written {
        path: Path,
        node: Node,
    },
    /// The node at `path`, which has no children, is removed; its parent then has `zxid` as its pzxid.
    Removed {
        path: Path,
        zxid: i64,
    },
}

impl Tree {
    /// Removes a node that has no children, and sets its parent's pzxid. Without memory the tree may lack both: throw it away.
    pub fn remove(&mut self, alloc: Global, path: &Path, zxid: i64) -> Result<(), Memory>
        ensures { OnOk result (self.new ≡ removed self.old path.now zxid) }
    {
        let Some(parent) = path.parent(alloc)? else {
            self.take(alloc, path)?;
            return Ok(());
        };
        let up = self.take(alloc, &parent)?;
        self.take(alloc, path)?;
        let Some(up) = up else {
            return Ok(());
        };
        let mut noted = up;
        noted.pzxid = zxid;
        self.put(alloc, parent, noted)
    }

    /// Carries a change out. Without memory the tree may be left half changed: throw it away.
    pub fn carry_out(&mut self, alloc: Global, edit: Edit) -> Result<(), Memory>
        ensures { OnOk result (self.new ≡ edited self.old edit) }
    {
        match edit {
            Edit::Made {
                parent,
                creates,
                zxid,
                path,
                node,
            } => {
                self.count_create(alloc, parent, creates, zxid)?;
                self.put(alloc, path, node)
            }
            Edit::Written { path, node } => self.put(alloc, path, node),
            Edit::Removed { path, zxid } => self.remove(alloc, &path, zxid),
        }
    }

    /// Carries a change out, if there is one. Without memory the tree may be left half changed: throw it away.
    pub fn carry_out_if(&mut self, alloc: Global, edit: Option<Edit>) -> Result<(), Memory>
        ensures { OnOk result (self.new ≡ edited_if self.old edit) }
    {
        match edit {
            Some(edit) => self.carry_out(alloc, edit),
            None => Ok(()),
        }
    }
}
