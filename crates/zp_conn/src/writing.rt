//! Writes bytes.

ghost use Rattle.std.specs.Prelude.{◌≡◌};
ghost use Rattle.zp_conn.specs.Writing.{Wrote};

use zx_outside::Sink;

/// The sink failed. It took a front of the bytes, and how much is not known.
#[derive(Clone, Copy)]
pub(crate) struct WriteFault;

/// Writes all of the bytes, or up to the first fault of the sink.
pub(crate) fn write_all<K: Sink>(sink: &mut K, bytes: &[u8]) -> Result<(), WriteFault>
    ensures wrote { Wrote result bytes.now (K.taken sink.old) (K.taken sink.new) (K.counts sink.old) (K.counts sink.new) }
    ensures named { K.name sink.new ≡ K.name sink.old }
{
    if zx_outside::write_all(sink, bytes) {
        Ok(())
    } else {
        Err(WriteFault)
    }
}
