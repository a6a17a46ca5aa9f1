//! The list of a session's nodes after one came or went.

ghost use Rattle.std.specs.Prelude.{◌≡◌, ◌<◌, ◌&&◌, nat_lt, length, get_or, IfOk, IsTrue, ◌^◌, ◌-◌};
ghost use Rattle.zx_base.specs.Maps.{same};
ghost use Rattle.zk_model.specs.Paths.{is_path};
ghost use Rattle.zn_layout.specs.Records.{ArePaths, IsSessionRec};
ghost use Rattle.zn_updates.specs.OwnedLists.{placed as placed_in, with_node as with_node_in, without as without_in, without_node as without_node_in, IsPlaceOf};

use std::alloc::Global;
use zk_model::Path;
use zn_layout::{SessionRec, is_before};
use zx_base::{Memory, Seq};

/// The place of the first path that is not before this one: the end where all are.
fn place_of(paths: &[Path], path: &Path) -> usize
    ensures { IsPlaceOf path.now paths.now result }
{
    let mut place = 0;
    while place < paths.len() && is_before(&paths[place], path) {
        place += 1;
    }
    place
}

/// Whether this path stands at this place.
fn stands_at(paths: &[Path], place: usize, path: &Path) -> bool
    ensures { result ≡ (nat_lt place (length paths.now) && same (get_or paths.now place path.now) path.now) }
{
    match paths.get(place) {
        Some(other) => other.bytes() == path.bytes(),
        None => false,
    }
}

/// The nodes of a session with one more.
pub(crate) fn with_node(alloc: Global, nodes: SessionRec, path: &Path) -> Result<SessionRec, Memory>
    ensures is { IfOk result (λ more. more ≡ with_node_in path.now nodes) }
    ensures within { IfOk result (λ more. IsTrue (is_path path.now) → length nodes.paths < 2 ^ 31 - 1 → IsSessionRec nodes → IsSessionRec more) }
{
    let SessionRec { layout, paths } = nodes;
    Ok(SessionRec {
        layout,
        paths: placed(alloc, paths, path)?,
    })
}

/// The nodes of a session with one less.
pub(crate) fn without_node(nodes: SessionRec, path: &Path) -> SessionRec
    ensures is { result ≡ without_node_in path.now nodes }
    ensures within { IsSessionRec nodes → IsSessionRec result }
{
    let SessionRec { layout, paths } = nodes;
    SessionRec {
        layout,
        paths: without(paths, path),
    }
}

/// The list with a path put in its place by bytes: as it was where the path is there.
fn placed(alloc: Global, paths: Seq<Path>, path: &Path) -> Result<Seq<Path>, Memory>
    ensures is { IfOk result (λ list. list ≡ placed_in path.now paths) }
    ensures within { IfOk result (λ list. IsTrue (is_path path.now) → length paths < 2 ^ 31 - 1 → ArePaths paths → ArePaths list) }
{
    let mut list = paths.into_vec();
    let place = place_of(&list, path);
    if stands_at(&list, place, path) {
        return Ok(Seq::from_vec(list));
    }
    list.insert(place, path.copy(alloc)?)?;
    Ok(Seq::from_vec(list))
}

/// The list without a path.
fn without(paths: Seq<Path>, path: &Path) -> Seq<Path>
    ensures is { result ≡ without_in path.now paths }
    ensures within { ArePaths paths → ArePaths result }
{
    let mut list = paths.into_vec();
    list.retain(|other| path.bytes() != other.bytes());
    Seq::from_vec(list)
}
