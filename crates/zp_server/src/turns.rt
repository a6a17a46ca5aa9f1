//! The turns of whoever updates.

use std::alloc::Global;
use std::sync::{Arc, Wait};
use std::time::Clock as SystemClock;
use zp_turns::{InTurn, Queues};
use zx_base::Memory;

/// The turns of one who updates.
pub fn in_turn<R: Wait + SystemClock + Drop>(
    rt: R,
    alloc: Global,
    queues: &Arc<Queues, Global>,
) -> Result<InTurn<R>, Memory> {
    match Arc::try_clone(queues) {
        Ok(queues) => InTurn::new(rt, alloc, queues),
        Err(_refused) => Err(Memory),
    }
}
