//! A link to a shared store.

ghost use Rattle.std.specs.Prelude.{◌≡◌};

use crate::shared_store::SharedStore;
use ev_call::{CallFault, Etcd};
use ev_store::StoreFault;
use ev_types::{Answer, Ask};
use std::alloc::Global;
use std::sync::{Arc, Wait};
use zx_net::Clock;

/// A link to a store that others share. Each call reads the clock, and waits for the store's lock.
#[derive(Drop)]
pub struct SharedLink<R, C> {
    store: Arc<SharedStore, Global>,
    rt: R,
    clock: C,
    failures: u64,
}

impl<R: Wait + Drop, C: Clock + Drop> SharedLink<R, C> {
    /// A link to this store, which lapses leases by this clock.
    pub fn new(rt: R, store: Arc<SharedStore, Global>, clock: C) -> SharedLink<R, C>
        ensures { result.failures ≡ 0 }
    {
        SharedLink {
            store,
            rt,
            clock,
            failures: 0,
        }
    }
}

impl<R: Wait + Drop, C: Clock + Drop> Etcd for SharedLink<R, C> {
    ghost use Rattle.std.specs.Prelude.{◌≡◌, None, IfOk};
    ghost use Rattle.ev_call.specs.Asks.{IsGrantable};
    ghost use Rattle.ev_call.specs.Calls.{failures_after};
    ghost use Rattle.ev_call.specs.Fitting.{Fits};

    ghost failures = { λ l. l.failures };

    ghost told = { λ _. None };

    fn call(&mut self, ask: &Ask) -> Result<Answer, CallFault>
        requires { IsGrantable ask.now }
        ensures fits { IfOk result (Fits ask.now) }
        ensures counts { self.new.failures ≡ failures_after result self.old.failures }
    {
        let now = self.clock.now();
        match self.store.call_at(&self.rt, now, ask) {
            Ok(answer) => Ok(answer),
            Err(StoreFault::Denied(_)) => {
                self.failures = self.failures.saturating_add(1);
                Err(CallFault::Failed)
            }
            Err(StoreFault::Memory) => Err(CallFault::Memory),
        }
    }
}
