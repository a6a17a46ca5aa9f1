//! What wakes a reader.

ghost use Rattle.std.specs.Prelude.{◌≡◌};

use std::alloc::Global;
use std::sync::Arc;
use zx_outside::Source;

/// Wakes the one who waits for a source, from another thread.
pub trait Bell {
    /// Asks for one wake, by a ring of one of these bits. Comes before the look at what the other thread gives.
    fn arm(&self, bits: u64);

    /// Wakes the reader, if it asked for one of these bits, or for all 64, and was not woken since. Comes after the other thread has
    /// given. A ring of all bits is for every reader.
    fn ring(&self, bits: u64);
}

/// A source that may have a bell.
pub trait Wakes: Source {
    /// What wakes the one who waits for this source.
    type Bell: Bell + Send + Sync + Drop + 'static;

    /// Hangs a bell: from now on a read that waits answers [`Got::Nothing`](zx_outside::Got::Nothing) once it is rung.
    /// `None` where there is no bell to be had; the source is then as before.
    fn bell(&mut self) -> Option<Arc<Self::Bell, Global>>
        ensures given { Self.given self.new ≡ Self.given self.old }
        ensures left { Self.left self.new ≡ Self.left self.old }
        ensures counts { Self.counts self.new ≡ Self.counts self.old }
        ensures ended { Self.ended self.new ≡ Self.ended self.old }
        ensures named { Self.name self.new ≡ Self.name self.old };
}

/// The bell of a source in memory, whose reads never wait: there is none to ring.
#[derive(Clone, Copy, Drop)]
pub struct NoBell;

impl Bell for NoBell {
    fn arm(&self, _bits: u64) {}

    fn ring(&self, _bits: u64) {}
}
