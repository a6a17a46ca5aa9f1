//! The paths that a setWatches put into a set, so that they can be taken out again.

ghost use Rattle.std.specs.Prelude.{◌≡◌, OnOk};
ghost use Rattle.std.specs.FinMap.{insert};
ghost use Rattle.zk_model.specs.Watches.{PathSet as Paths};
ghost use Rattle.zw_watch.specs.Noted.{IsWithout};

use crate::marked::MarkedPaths;
use std::alloc::Global;
use std::marker::Model;
use zx_base::Memory;

/// A path, borrowed.
#[derive(Drop)]
pub(crate) struct Noted<'a> {
    path: &'a [u8],
}

impl<'a> Model for Noted<'a> {
    ghost use Rattle.std.specs.Prelude.{List, ℕ};

    ghost Value = { List ℕ };

    ghost view = { λ n. n.path.now };
}

/// Puts a path into the set, and notes it where it is new.
pub(crate) fn insert_noted<'a>(
    paths: &mut MarkedPaths,
    alloc: Global,
    noted: &mut Vec<Noted<'a>>,
    path: &'a [u8],
) -> Result<(), Memory>
    ensures ok { OnOk result (paths.new ≡ insert paths.old path.now tt) }
    ensures noted { (before : Paths) → IsWithout paths.old noted.old.items before → IsWithout paths.new noted.new.items before }
{
    if paths.contains(path) {
        return Ok(());
    }
    noted.push(Noted { path })?;
    paths.insert(alloc, path)?;
    Ok(())
}

/// Takes the noted paths out of the set.
pub(crate) fn remove_all(paths: &mut MarkedPaths, noted: &[Noted<'_>])
    ensures { (before : Paths) → IsWithout paths.old noted.now before → paths.new ≡ before }
{
    for path in noted {
        paths.remove(path.path);
    }
}
