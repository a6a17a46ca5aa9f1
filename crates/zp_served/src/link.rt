//! A link to a store that it has from its beginning.

ghost use Rattle.std.specs.Prelude.{IfOk, Some};
ghost use Rattle.ev_call.specs.Honest.{CarriesAll};
ghost use Rattle.ev_types.specs.Store.{new_store};
ghost use Rattle.zp_served.specs.Begun.{IsBegun};

use ev_call::{CallFault, Etcd};
use ev_shared::StoreLink;
use ev_store::Store;
use ev_types::{Answer, Ask};
use std::alloc::Global;
use zn_layout::begin_ask;
use zx_base::Memory;

/// A link to an etcd in memory, which nobody else uses and on which the tree was begun at time 0. It tells all that the store was ever
/// asked. Without memory there is none.
#[derive(Drop)]
pub struct BegunLink {
    link: StoreLink,
    ghost honest: { ∥ CarriesAll new_store link.told link.store ∥₁ },
}

impl BegunLink {
    /// A link of which each call after the begin answers.
    #[tactic(auto, using(crate::proofs::Begun::begun, crate::proofs::Begun::starts))]
    pub fn new(alloc: Global) -> Result<BegunLink, Memory>
        ensures { IfOk result (λ l. IsBegun l.link.told) }
    {
        let mut link = BegunLink {
            link: StoreLink::new(Store::new(alloc)?, Vec::new(alloc)),
        };
        match link.call(&begin_ask(alloc, 0)?) {
            Ok(_answer) => Ok(link),
            Err(_refused) => Err(Memory),
        }
    }
}

impl Etcd for BegunLink {
    ghost use Rattle.std.specs.Prelude.{Some, IfOk};

    ghost failures = { λ l. l.link.failures };

    ghost told = { λ l. Some l.link.told };

    #[tactic(auto, using(crate::proofs::Begun::goes_on))]
    fn call(&mut self, ask: &Ask) -> Result<Answer, CallFault> {
        self.link.call(ask)
    }
}
