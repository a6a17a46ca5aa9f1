//! What a server writes.

ghost use Rattle.std.specs.Prelude.{◌≡◌, IfOk};
ghost use Rattle.zd_etcd.specs.Serving.{listening_text};

use std::alloc::Global;
use zx_base::Memory;

/// The line that says that the server listens.
pub fn listening(alloc: Global, listen: &str) -> Result<Vec<u8>, Memory>
    ensures { IfOk result (λ text. text.items ≡ listening_text listen.now) }
{
    let mut text = Vec::from_slice(alloc, b"listening ")?;
    text.extend_from_slice(listen.as_bytes())?;
    text.push(b'\n')?;
    Ok(text)
}
