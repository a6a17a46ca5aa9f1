//! Where streams to peers come from.

ghost use Rattle.std.specs.Prelude.{◌≡◌, List, ℕ, Option, OnErr, IfOk};
ghost use Rattle.zx_net.specs.Nets.{NetCounts, no_room_after};

use zx_outside::{Sink, Source};

/// Why the net did not do what it was asked. No clause ties a cause to what happened. Each is counted alike, but that the dials for which
/// there was no room have a count of their own besides.
#[derive(Clone, Copy, Drop, PartialEq, Eq)]
pub enum NetFault {
    /// Something listens at the address already.
    InUse,
    /// The address is not one of this machine, or is no address.
    NoAddress,
    /// This program may not listen at the address.
    Denied,
    /// There is no room for one more stream: no descriptor, no memory or no port is left.
    NoRoom,
    /// Anything else: nobody answers at the address, it cannot be listened on, or the door is broken.
    Failed,
}

impl NetFault {
    /// How many dials there was no room for, with one more that failed for this.
    pub fn no_room_after(self, no_room: u64) -> u64
        ensures { result ≡ no_room_after self no_room }
    {
        match self {
            NetFault::NoRoom => no_room.saturating_add(1),
            NetFault::InUse | NetFault::NoAddress | NetFault::Denied | NetFault::Failed => no_room,
        }
    }
}

/// Where streams to peers come from: the system's sockets, or memory. Faults are answers, and are counted.
pub trait Net {
    ghost use Rattle.zx_net.specs.Nets.{NetCounts, counts_after_bind, counts_after_accept, counts_after_dial, no_room_after_dial, no_counts, IsFreshSource, IsFreshSink, GivesNext};

    /// What listens at an address.
    type Door: Drop;

    /// What comes from a peer.
    type In: Source + Send + Drop + 'static;

    /// What goes to a peer.
    type Out: Sink + Send + Drop + 'static;

    // How many faults its doors and its dials had, and how many streams it accepted.
    ghost counts: { Self → NetCounts };

    // How many of its dials failed because there was no room.
    ghost no_room: { Self → ℕ };

    // The bytes that its next dials give, a list for each, where it tells them.
    ghost streams: { Self → Option (List (List ℕ)) };

    /// Listens at an address, `HOST:PORT`.
    fn bind(&mut self, address: &str) -> Result<Self::Door, NetFault>
        ensures counts { counts self.new ≡ counts_after_bind result (counts self.old) }
        ensures no_room { no_room self.new ≡ no_room self.old }
        ensures streams { streams self.new ≡ streams self.old };

    /// Waits for the next peer at a door, and gives both ends of the stream to it.
    fn accept(&mut self, door: &mut Self::Door) -> Result<(Self::In, Self::Out), NetFault>
        ensures counts { counts self.new ≡ counts_after_accept result (counts self.old) }
        ensures no_room { no_room self.new ≡ no_room self.old }
        ensures streams { streams self.new ≡ streams self.old }
        ensures source { IfOk result (λ ends. IsFreshSource (Self.In.given ends.0) (Self.In.counts ends.0)
            (Self.In.ended ends.0) (Self.In.name ends.0) (counts self.new).accepted) }
        ensures sink { IfOk result (λ ends. IsFreshSink (Self.Out.taken ends.1) (Self.Out.counts ends.1)
            (Self.Out.name ends.1) (counts self.new).accepted) };

    /// Connects to a peer, `HOST:PORT`, and gives both ends of the stream to it.
    fn dial(&mut self, address: &str) -> Result<(Self::In, Self::Out), NetFault>
        ensures counts { counts self.new ≡ counts_after_dial result (counts self.old) }
        ensures no_room { no_room self.new ≡ no_room_after_dial result (no_room self.old) }
        ensures source { IfOk result (λ ends. IsFreshSource (Self.In.given ends.0) (Self.In.counts ends.0)
            (Self.In.ended ends.0) (Self.In.name ends.0) 0) }
        ensures sink { IfOk result (λ ends. IsFreshSink (Self.Out.taken ends.1) (Self.Out.counts ends.1)
            (Self.Out.name ends.1) 0) }
        ensures gives { IfOk result (λ ends. GivesNext (streams self.old) (streams self.new) (Self.In.left ends.0)) }
        ensures kept { OnErr result (streams self.new ≡ streams self.old) };

    /// Comes once the stream that was dialled last has given what it was dialled for. A net that pauses before it dials again may begin
    /// its pauses anew.
    fn settle(&mut self)
        ensures counts { counts self.new ≡ counts self.old }
        ensures no_room { no_room self.new ≡ no_room self.old }
        ensures streams { streams self.new ≡ streams self.old };

    /// A second net with counts of its own, for a worker that dials.
    fn another(&self) -> Self
        ensures counts { counts result ≡ no_counts }
        ensures no_room { no_room result ≡ 0 };
}
