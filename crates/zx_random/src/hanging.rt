//! The end of a stream.

ghost use Rattle.std.specs.Prelude.{◌≡◌};

use zx_net::Named;
use zx_outside::{Sink, Source};

/// A source whose stream can be ended while it is kept.
pub trait HangsUp: Source {
    /// Ends the stream both ways, and gives back what the source and its bell hold of the system. The peer is told, once it has all
    /// that was written before. Each read that would ask the system afterwards is a fault.
    fn hang_up(&mut self)
        ensures given { Self.given self.new ≡ Self.given self.old }
        ensures left { Self.left self.new ≡ Self.left self.old }
        ensures counts { Self.counts self.new ≡ Self.counts self.old }
        ensures ended { Self.ended self.new ≡ Self.ended self.old }
        ensures named { Self.name self.new ≡ Self.name self.old };
}

/// In memory there is nobody to be told.
impl<S: Source> HangsUp for Named<S> {
    fn hang_up(&mut self) {}
}

/// A sink that can give back what it holds of the system while it is kept.
pub trait LetsGo: Sink {
    /// Gives back what the sink holds of the system. Where that was the way to its peer, each write afterwards is a fault.
    fn let_go(&mut self)
        ensures taken { Self.taken self.new ≡ Self.taken self.old }
        ensures counts { Self.counts self.new ≡ Self.counts self.old }
        ensures named { Self.name self.new ≡ Self.name self.old };
}

/// A sink in memory holds nothing of the system.
impl<S: Sink> LetsGo for Named<S> {
    fn let_go(&mut self) {}
}
