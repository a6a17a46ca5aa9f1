//! Notices (zookeeper.jute, `WatcherEvent`).

ghost use Rattle.std.specs.Prelude.{◌≡◌, ◌++◌, IfOk, OnOk, true};
ghost use Rattle.std.specs.Option.{option_to_list};
ghost use Rattle.zk_model.specs.Watches.{note};

use std::alloc::Global;
use zk_model::Notice;
use zx_base::{Memory, Text};

/// A notice, where a watch is hit.
pub(crate) fn note(
    alloc: Global,
    is_hit: bool,
    kind: u8,
    path: &[u8],
) -> Result<Option<Notice>, Memory>
    ensures { IfOk result (λ notice. option_to_list notice ≡ note is_hit kind path.now) }
{
    if !is_hit {
        return Ok(None);
    }
    Ok(Some(Notice {
        kind: i32::from(kind),
        path: Text::copy_of(alloc, path)?,
    }))
}

/// Adds a notice after the others.
pub(crate) fn tell(
    alloc: Global,
    kind: u8,
    path: &[u8],
    notices: &mut Vec<Notice>,
) -> Result<(), Memory>
    ensures { OnOk result (notices.new.items ≡ notices.old.items ++ note true kind path.now) }
{
    notices.push(Notice {
        kind: i32::from(kind),
        path: Text::copy_of(alloc, path)?,
    })?;
    Ok(())
}
