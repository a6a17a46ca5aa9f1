//! What the workers of one server share.

use crate::back::Back;
use crate::bells::Bells;
use crate::gate::Gate;
use std::alloc::Global;
use std::sync::Arc;
use zp_run::Trace;
use zp_turns::Queues;
use zx_base::Memory;
use zx_net::Bell;
use zx_outside::{Sink, Source};

/// What the workers of one server share.
#[derive(Drop)]
pub struct House<
    I: Source + Drop,
    O: Sink + Drop,
    T: Trace + Drop,
    B: Bell + Drop,
    G: Gate + Drop,
> {
    pub back: Back<I, O, T>,
    pub bells: Arc<Bells<B>, Global>,
    pub gate: G,
    /// Where updates wait for each other.
    pub queues: Arc<Queues, Global>,
}

impl<I: Source + Drop, O: Sink + Drop, T: Trace + Drop, B: Bell + Drop, G: Gate + Drop> House<
    I,
    O,
    T,
    B,
    G,
> {
    /// Nobody works yet; room for so many workers of connections.
    pub fn new(alloc: Global, gate: G, room: usize) -> Result<House<I, O, T, B, G>, Memory> {
        Ok(House {
            back: Back::with_room(alloc, room)?,
            bells: Arc::new(alloc, Bells::with_room(alloc, room)?)?,
            gate,
            queues: Arc::new(alloc, Queues::with_room(alloc, room)?)?,
        })
    }
}
