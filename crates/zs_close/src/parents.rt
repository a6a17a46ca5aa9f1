//! The parents of a session's nodes.

ghost use Rattle.std.specs.Prelude.{◌≡◌, ◌∷◌, List, IfOk, OnOk};
ghost use Rattle.std.specs.List.{list_any, count_by};
ghost use Rattle.zk_model.specs.Paths.{is_child};
ghost use Rattle.zx_base.specs.Maps.{Bytes as ByteList, same};
ghost use Rattle.zs_close.specs.Ending.{parents as parents_once, parents_from};

use std::alloc::Global;
use zk_model::Path;
use zx_base::{Memory, Seq};

fn holds(paths: &[Path], path: &[u8]) -> bool
    ensures { result ≡ list_any (same path.now) paths.now }
{
    paths.iter().any(|other| path == other.bytes())
}

/// Adds a node's parent, unless it is among those that were found.
fn push_parent(found: &mut Seq<Path>, alloc: Global, path: &Path) -> Result<(), Memory>
    ensures { OnOk result ((rest : List ByteList) → parents_from found.new rest ≡ parents_from found.old (path.now ∷ rest)) }
{
    let Some(parent) = path.parent(alloc)? else {
        return Ok(());
    };
    if holds(found.as_slice(), parent.bytes()) {
        return Ok(());
    }
    found.push(parent)
}

/// The parents of these nodes, each once, in the order of their first children. Each is compared with those found before it.
pub(crate) fn parents(alloc: Global, paths: &[Path]) -> Result<Seq<Path>, Memory>
    ensures { IfOk result (λ found. found ≡ parents_once paths.now) }
{
    let mut found = Seq::new(alloc);
    for path in paths {
        push_parent(&mut found, alloc, path)?;
    }
    Ok(found)
}

/// How many of these paths are those of children of a node.
pub(crate) fn children_among(paths: &[Path], parent: &[u8]) -> usize
    ensures { result ≡ count_by (is_child parent.now) paths.now }
{
    paths.iter().filter(|path| path.is_child_of(parent)).count()
}
