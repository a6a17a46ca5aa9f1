//! Whole writes.

ghost use Rattle.std.specs.Prelude.{◌≡◌, IsTrue, false};
ghost use Rattle.zx_outside.specs.Writing.{Takes, TakesFront, counts_after_write};
ghost use Rattle.zx_outside.specs.declared.sink.Took.TheVariants.{Failed as TookFailed};

use crate::{Sink, Took};

/// Writes all of the bytes, and says whether the sink took them all. After a fault it took some front of them.
pub fn write_all<O: Sink>(out: &mut O, bytes: &[u8]) -> bool
    ensures taken { IsTrue result → Takes bytes.now (O.taken out.old) (O.taken out.new) }
    ensures front { result ≡ false → TakesFront bytes.now (O.taken out.old) (O.taken out.new) }
    ensures count { result ≡ false → O.counts out.new ≡ counts_after_write TookFailed (O.counts out.old) }
    ensures unharmed { IsTrue result → O.counts out.new ≡ O.counts out.old }
    ensures named { O.name out.new ≡ O.name out.old }
{
    let mut at = 0;
    'pieces: while at < bytes.len() {
        match out.write(&bytes[at..]) {
            Took::Bytes(count) => at += count,
            Took::Failed => return false,
        }
    }
    true
}
