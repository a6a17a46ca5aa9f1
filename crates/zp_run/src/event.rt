//! What is told of a connection.

use zp_step::Input;
use zx_base::Bytes;

/// What is told of a connection: what is handed in, and what is written.
#[derive(Drop)]
pub enum Event {
    /// An input, and the time at which it is handed in (in milliseconds). Told before it is handed in.
    In(Input, u64),
    /// A packet for the client, with its length before it. Told before it is written.
    Out(Bytes),
}
