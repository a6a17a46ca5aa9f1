//! The keys of a valid path.

ghost use Rattle.std.specs.Prelude.{IsTrue, ◌≡◌, IfOk};
ghost use Rattle.zk_model.specs.Paths.{is_path};
ghost use Rattle.zn_layout.specs.Keys.{DataKey, CountsKey, key_bytes};

use std::alloc::Global;
use zk_model::Path;
use zn_layout::{counts_key, data_key};
use zx_base::{Bytes, Memory};

pub(crate) fn data_key_of(alloc: Global, path: &Path) -> Result<Bytes, Memory>
    requires { IsTrue (is_path path.now) }
    ensures { IfOk result (λ k. k ≡ key_bytes (DataKey path.now)) }
{
    data_key(alloc, path.bytes())
}

pub(crate) fn counts_key_of(alloc: Global, path: &Path) -> Result<Bytes, Memory>
    requires { IsTrue (is_path path.now) }
    ensures { IfOk result (λ k. k ≡ key_bytes (CountsKey path.now)) }
{
    counts_key(alloc, path.bytes())
}
