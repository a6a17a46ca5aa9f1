//! The packet by which a client connects.

ghost use Rattle.std.specs.Prelude.{◌≡◌, IfOk};
ghost use Rattle.zp_clients.specs.Wishes.{connect_packet};

use std::alloc::Global;
use zx_base::{Bytes, Memory};

/// The packet of a connect for a new session with a timeout of 30,000 ms: its length, the protocol version, the last zxid seen,
/// the timeout, no session, a password of 16 zero bytes, and no wish to be read-only.
const CONNECT: [u8; 49] = [
    0, 0, 0, 45, 0, 0, 0, 0, 0, 0, 0, 0, 0, 0, 0, 0, 0, 0, 117, 48, 0, 0, 0, 0, 0, 0, 0, 0, 0, 0,
    0, 16, 0, 0, 0, 0, 0, 0, 0, 0, 0, 0, 0, 0, 0, 0, 0, 0, 0,
];

/// The packet by which each client connects.
#[tactic(auto, using(crate::proofs::Spelling::connect_is))]
pub fn connect_packet(alloc: Global) -> Result<Bytes, Memory>
    ensures { IfOk result (λ b. b ≡ connect_packet) }
{
    Bytes::copy_of(alloc, &CONNECT)
}
