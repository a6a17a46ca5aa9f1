//! The writes that carry out planned changes, in a transaction whose tree is not changed yet.

ghost use Rattle.std.specs.Prelude.{◌≡◌, IfOk};
ghost use Rattle.std.specs.FinMap.{get};
ghost use Rattle.zk_model.specs.Single.{removed};
ghost use Rattle.zk_machine.specs.Edits.{counted_create, edited, edited_if};
ghost use Rattle.zk_machine.specs.Writes.{AreTold, owner_at, put_or_taken, written_all};

use crate::draft::Draft;
use crate::edit::Edit;
use crate::node::copy_node;
use crate::tree::Tree;
use crate::write::Write;
use std::alloc::Global;
use zk_model::{Node, Path};
use zx_base::Memory;

fn owner_at(draft: &Draft, path: &[u8]) -> Option<i64>
    ensures { result ≡ owner_at draft.now path.now }
{
    match draft.get(path) {
        Some(node) => Some(node.owner),
        None => None,
    }
}

fn copy_at(alloc: Global, draft: &Draft, path: &[u8]) -> Result<Option<Node>, Memory>
    ensures { IfOk result (λ o. o ≡ get draft.now path.now) }
{
    match draft.get(path) {
        Some(node) => Ok(Some(copy_node(alloc, node)?)),
        None => Ok(None),
    }
}

/// The writes followed by one more, which notes the owner of the node that it finds.
fn write(
    tree: &Tree,
    writes: Vec<Write>,
    path: Path,
    node: Option<Node>,
) -> Result<Vec<Write>, Memory>
    requires { AreTold tree.now writes.items }
    ensures told { IfOk result (λ ws. AreTold tree.now ws.items) }
    ensures made { IfOk result (λ ws. written_all tree.now ws.items ≡ put_or_taken (written_all tree.now writes.items) path node) }
{
    let before = owner_at(&Draft::after(tree, &writes), path.bytes());
    let mut more = writes;
    more.push(Write { path, node, before })?;
    Ok(more)
}

/// The writes followed by one that sets the parent's count of creates and its pzxid, if the parent is there.
fn count_create(
    alloc: Global,
    tree: &Tree,
    writes: Vec<Write>,
    parent: Path,
    creates: i32,
    zxid: i64,
) -> Result<Vec<Write>, Memory>
    requires { AreTold tree.now writes.items }
    ensures told { IfOk result (λ ws. AreTold tree.now ws.items) }
    ensures made { IfOk result (λ ws. written_all tree.now ws.items ≡ counted_create (written_all tree.now writes.items) parent creates zxid (get (written_all tree.now writes.items) parent)) }
{
    match copy_at(alloc, &Draft::after(tree, &writes), parent.bytes())? {
        None => Ok(writes),
        Some(up) => {
            let mut counted = up;
            counted.creates = creates;
            counted.pzxid = zxid;
            write(tree, writes, parent, Some(counted))
        }
    }
}

/// The writes followed by those that take out a node without children and set its parent's pzxid.
fn remove(
    alloc: Global,
    tree: &Tree,
    writes: Vec<Write>,
    path: Path,
    zxid: i64,
) -> Result<Vec<Write>, Memory>
    requires { AreTold tree.now writes.items }
    ensures told { IfOk result (λ ws. AreTold tree.now ws.items) }
    ensures made { IfOk result (λ ws. written_all tree.now ws.items ≡ removed (written_all tree.now writes.items) path zxid) }
{
    let Some(parent) = path.parent(alloc)? else {
        return write(tree, writes, path, None);
    };
    let up = copy_at(alloc, &Draft::after(tree, &writes), parent.bytes())?;
    let without = write(tree, writes, path, None)?;
    match up {
        None => Ok(without),
        Some(up) => {
            let mut noted = up;
            noted.pzxid = zxid;
            write(tree, without, parent, Some(noted))
        }
    }
}

/// The writes followed by those of a planned change.
fn carried_out(
    alloc: Global,
    tree: &Tree,
    writes: Vec<Write>,
    edit: Edit,
) -> Result<Vec<Write>, Memory>
    requires { AreTold tree.now writes.items }
    ensures told { IfOk result (λ ws. AreTold tree.now ws.items) }
    ensures made { IfOk result (λ ws. written_all tree.now ws.items ≡ edited (written_all tree.now writes.items) edit) }
{
    match edit {
        Edit::Made {
            parent,
            creates,
            zxid,
            path,
            node,
        } => {
            let counted = count_create(alloc, tree, writes, parent, creates, zxid)?;
            write(tree, counted, path, Some(node))
        }
        Edit::Written { path, node } => write(tree, writes, path, Some(node)),
        Edit::Removed { path, zxid } => remove(alloc, tree, writes, path, zxid),
    }
}

/// The writes followed by those of a planned change, if there is one.
pub fn carried_out_if(
    alloc: Global,
    tree: &Tree,
    writes: Vec<Write>,
    edit: Option<Edit>,
) -> Result<Vec<Write>, Memory>
    requires { AreTold tree.now writes.items }
    ensures told { IfOk result (λ ws. AreTold tree.now ws.items) }
    ensures made { IfOk result (λ ws. written_all tree.now ws.items ≡ edited_if (written_all tree.now writes.items) edit) }
{
    match edit {
        Some(edit) => carried_out(alloc, tree, writes, edit),
        None => Ok(writes),
    }
}
