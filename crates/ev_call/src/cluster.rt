//! A link whose address can be chosen.

ghost use Rattle.std.specs.Prelude.{◌≡◌};

use crate::etcd::Etcd;
use zx_base::Memory;

/// A link whose address can be chosen.
pub trait Cluster: Etcd {
    ghost use Rattle.ev_call.specs.Addresses.{IsAddress};

    /// Names the address that the calls after this one ask: `HOST:PORT`, one or more bytes of visible ASCII. Nothing is asked yet.
    fn to(&mut self, endpoint: &str) -> Result<(), Memory>
        requires { IsAddress endpoint.now }
        ensures failures { Self.failures self.new ≡ Self.failures self.old }
        ensures told { Self.told self.new ≡ Self.told self.old };

    /// The number of the address that the next call asks, from 0, if several were named. No clause ties it to what was asked: whoever
    /// begins there has the best chance of an answer.
    fn at(&self) -> u32;
}
