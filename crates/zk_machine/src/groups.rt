//! Paths in groups: the children of each node, and the nodes of each session.

ghost use Rattle.std.specs.Prelude.{◌≡◌, Some, None, IfOk, OnOk};
ghost use Rattle.std.specs.FinMap.{get, insert, remove};
ghost use Rattle.zk_model.specs.declared.node.Node.{Node};
ghost use Rattle.zk_model.specs.Znodes.{Tree as Nodes};
ghost use Rattle.zk_machine.specs.Groups.{family, group_of, owned_group, HasFamilies, HasFamily, HasOwner, HasOwners};

use crate::paths::PathMap;
use std::alloc::Global;
use std::collections::BTreeMap;
use zk_model::Path;
use zx_base::Memory;

/// Some paths.
pub type Group = PathMap<()>;

/// The paths of each node's children, by the node's path.
pub type Families = PathMap<Group>;

/// The paths of each session's nodes, by the session's number; under 0, those of the nodes that no session owns.
pub type Owners = BTreeMap<i64, Group>;

fn kept_or_new(alloc: Global, kept: Option<Group>) -> Group
    ensures { result ≡ group_of kept }
{
    match kept {
        Some(group) => group,
        None => PathMap::new(alloc),
    }
}

/// Adds a path to a family.
fn join_family(
    alloc: Global,
    families: &mut Families,
    parent: Path,
    path: Path,
) -> Result<(), Memory>
    ensures { OnOk result (HasFamily families.old families.new parent (insert (family families.old parent) path tt)) }
{
    let mut group = kept_or_new(alloc, families.take(parent.bytes()));
    group.put(alloc, path, ())?;
    families.put(alloc, parent, group)
}

/// Takes a path out of a family, and drops the family once it is empty.
fn leave_family(
    alloc: Global,
    families: &mut Families,
    parent: Path,
    path: &[u8],
) -> Result<(), Memory>
    ensures { OnOk result (HasFamily families.old families.new parent (remove (family families.old parent) path.now)) }
{
    let Some(group) = families.take(parent.bytes()) else {
        return Ok(());
    };
    let mut rest = group;
    rest.take(path);
    if rest.len() == 0 {
        return Ok(());
    }
    families.put(alloc, parent, rest)
}

/// Adds a path to the nodes of a session.
fn join_owner(alloc: Global, owners: &mut Owners, id: i64, path: Path) -> Result<(), Memory>
    ensures { OnOk result (HasOwner owners.old owners.new id (insert (owned_group owners.old id) path tt)) }
{
    let mut group = kept_or_new(alloc, owners.remove(&id));
    group.put(alloc, path, ())?;
    owners.insert(id, group)?;
    Ok(())
}

/// Takes a path out of the nodes of a session, and drops the session's entry once it has none.
fn leave_owner(owners: &mut Owners, id: i64, path: &[u8]) -> Result<(), Memory>
    ensures { OnOk result (HasOwner owners.old owners.new id (remove (owned_group owners.old id) path.now)) }
{
    let Some(group) = owners.remove(&id) else {
        return Ok(());
    };
    let mut rest = group;
    rest.take(path);
    if rest.len() == 0 {
        return Ok(());
    }
    owners.insert(id, rest)?;
    Ok(())
}

/// The families after a node is put at this path.
pub fn with_child(alloc: Global, families: Families, path: &Path) -> Result<Families, Memory>
    ensures { IfOk result (λ m. (t : Nodes) (n : Node) → HasFamilies t families → HasFamilies (insert t path.now n) m) }
{
    let mut more = families;
    match path.parent(alloc)? {
        None => Ok(more),
        Some(parent) => {
            join_family(alloc, &mut more, parent, path.copy(alloc)?)?;
            Ok(more)
        }
    }
}

/// The families after the node at this path is taken out.
pub fn without_child(alloc: Global, families: Families, path: &Path) -> Result<Families, Memory>
    ensures { IfOk result (λ m. (t : Nodes) → HasFamilies t families → HasFamilies (remove t path.now) m) }
{
    let mut fewer = families;
    match path.parent(alloc)? {
        None => Ok(fewer),
        Some(parent) => {
            leave_family(alloc, &mut fewer, parent, path.bytes())?;
            Ok(fewer)
        }
    }
}

/// The nodes of sessions after a node of session `id` is put at a path that had none.
pub fn with_owned(alloc: Global, owners: Owners, id: i64, path: &Path) -> Result<Owners, Memory>
    ensures { IfOk result (λ m. (t : Nodes) (n : Node) → get t path.now ≡ None → n.owner ≡ id → HasOwners t owners → HasOwners (insert t path.now n) m) }
{
    let mut more = owners;
    join_owner(alloc, &mut more, id, path.copy(alloc)?)?;
    Ok(more)
}

/// The nodes of sessions after the node at the path, which session `id` owned, is taken out.
pub fn without_owned(owners: Owners, id: i64, path: &Path) -> Result<Owners, Memory>
    ensures { IfOk result (λ m. (t : Nodes) (n : Node) → get t path.now ≡ Some n → n.owner ≡ id → HasOwners t owners → HasOwners (remove t path.now) m) }
{
    let mut fewer = owners;
    leave_owner(&mut fewer, id, path.bytes())?;
    Ok(fewer)
}
