//! The names of a node's children.

ghost use Rattle.std.specs.Prelude.{IsTrue, ◌≡◌, IfOk, map};
ghost use Rattle.zk_model.specs.Paths.{is_path, last_name};
ghost use Rattle.zn_reads.specs.Found.{AreNamesAt};

use std::alloc::Global;
use zk_model::Path;
use zn_view::View;
use zx_base::{Bytes, Memory, Seq, Text};

/// What follows the last slash; nothing where there is none.
fn last_name(path: &[u8]) -> &[u8]
    ensures { result.now ≡ last_name path.now }
{
    for place in (0..path.len()).rev() {
        if path[place] == b'/' {
            return &path[place + 1..];
        }
    }
    &path[..0]
}

fn names_of(alloc: Global, paths: &[Bytes]) -> Result<Seq<Text>, Memory>
    ensures { IfOk result (λ names. names ≡ map last_name paths.now) }
{
    let mut names = Seq::new(alloc);
    for path in paths {
        names.push(Seq::copy_of(alloc, last_name(path.as_slice()))?)?;
    }
    Ok(names)
}

/// The names of the children of the node at a path, in the order in which they were listed; no names where they were not listed.
pub(crate) fn names_at(alloc: Global, path: &Path, view: &View) -> Result<Seq<Text>, Memory>
    requires { IsTrue (is_path path.now) }
    ensures { IfOk result (AreNamesAt view.now path.now) }
{
    match view.listed(path.bytes()) {
        Some(paths) => names_of(alloc, paths),
        None => Ok(Seq::new(alloc)),
    }
}
