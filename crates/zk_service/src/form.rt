//! The form of a request.

ghost use Rattle.std.specs.Prelude.{◌≡◌, IfOk};
ghost use Rattle.zk_service.specs.Answers.{has_valid_form};

use std::alloc::Global;
use zk_model::read_path;
use zk_model::watcher::is_watcher_type;
use zx_base::Memory;

/// Whether a checkWatches or removeWatches with this path and type is not refused for its form.
pub fn has_valid_form(alloc: Global, text: &[u8], kind: i32) -> Result<bool, Memory>
    ensures { IfOk result (λ b. b ≡ has_valid_form text.now kind) }
{
    match read_path(alloc, text, false)? {
        Some(_path) => Ok(is_watcher_type(kind)),
        None => Ok(false),
    }
}
