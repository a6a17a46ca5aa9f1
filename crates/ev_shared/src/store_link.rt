//! A link to an etcd in memory, which nobody else uses.

ghost use Rattle.std.specs.Prelude.{◌≡◌, [], true, false, None, Err, IfOk, OnErr};
ghost use Rattle.ev_call.specs.Asks.{IsGrantable};
ghost use Rattle.ev_call.specs.Calls.{failures_after};
ghost use Rattle.ev_call.specs.Fitting.{Fits};
ghost use Rattle.ev_call.specs.Honest.{CarriesCall};
ghost use Rattle.ev_types.specs.Denials.{carry};
ghost use Rattle.zx_outside.specs.Memory.{fails_next};
ghost use Rattle.ev_shared.specs.Links.{MayFail};

use ev_call::{CallFault, Cluster, Etcd};
use ev_store::{Store, StoreFault};
use ev_types::{Answer, Ask};
use std::marker::Model;
use zx_base::Memory;
use zx_history::GhostHistory;

/// A link to a store that it owns. It carries each ask out at once.
#[derive(Drop)]
pub struct StoreLink {
    store: Store,
    failing: Vec<u64>,
    calls: u64,
    failures: u64,
    asks: GhostHistory<Ask>,
    results: GhostHistory<Result<Answer, CallFault>>,
}

impl Model for StoreLink {
    ghost use Rattle.std.specs.Prelude.{◌≡◌, length};
    ghost use Rattle.ev_call.specs.Calls.{calls_of};
    ghost use Rattle.ev_shared.specs.Links.{LinkState};

    ghost Value = { LinkState };

    ghost use Rattle.std.specs.Coded.{codes};
    ghost use Rattle.ev_store.specs.Codes.{store_code};

    ghost coded = { Prim.hlevel (codes, store_code) };

    ghost view = { λ l. record {
      store = l.store;
      failing = l.failing.items;
      calls = l.calls;
      failures = l.failures;
      told = calls_of l.asks.items l.results.items;
    } };

    ghost invariant = { λ l. length l.asks.items ≡ length l.results.items };
}

impl StoreLink {
    /// A link to this store. The calls whose numbers, counted from 1, are in `failing` fail and ask the store nothing; so does
    /// each call whose ask the store denies.
    pub fn new(store: Store, failing: Vec<u64>) -> StoreLink
        ensures store { result.store ≡ store }
        ensures failing { result.failing ≡ failing.items }
        ensures calls { result.calls ≡ 0 }
        ensures failures { result.failures ≡ 0 }
        ensures told { result.told ≡ [] }
    {
        StoreLink {
            store,
            failing,
            calls: 0,
            failures: 0,
            asks: GhostHistory::new(),
            results: GhostHistory::new(),
        }
    }

    /// The store as it is now.
    pub fn store(&self) -> &Store
        ensures { result.now ≡ self.now.store }
    {
        &self.store
    }
}

/// Whether the call after so many others is one that fails.
fn is_listed(failing: &[u64], calls: u64) -> bool
    ensures { result ≡ fails_next failing.now calls }
{
    failing.contains(&calls.saturating_add(1))
}

/// What the store gives, or a failure where this call is one that fails.
#[tactic(auto, using(crate::proofs::Carried::fits))]
fn carried(store: &mut Store, ask: &Ask, listed: bool) -> Result<Answer, CallFault>
    requires { IsGrantable ask.now }
    ensures fits { IfOk result (Fits ask.now) }
    ensures carries { CarriesCall store.old ask.now result store.new }
    ensures kept { OnErr result (store.new ≡ store.old) }
    ensures denied { listed ≡ false → result ≡ Err CallFault.Failed → carry store.old ask.now ≡ None }
    ensures listed { listed ≡ true → result ≡ Err CallFault.Failed }
{
    if listed {
        return Err(CallFault::Failed);
    }
    match store.carry_out(ask) {
        Ok(answer) => Ok(answer),
        Err(StoreFault::Denied(_denied)) => Err(CallFault::Failed),
        Err(StoreFault::Memory) => Err(CallFault::Memory),
    }
}

impl Etcd for StoreLink {
    ghost use Rattle.std.specs.Prelude.{◌≡◌, Some, Err, IfOk, OnErr, true};
    ghost use Rattle.ev_call.specs.Asks.{IsGrantable};
    ghost use Rattle.ev_call.specs.Calls.{failures_after, with_call};
    ghost use Rattle.ev_call.specs.Fitting.{Fits};
    ghost use Rattle.ev_call.specs.Honest.{CarriesCall};
    ghost use Rattle.zx_outside.specs.Counts.{one_more};
    ghost use Rattle.zx_outside.specs.Memory.{fails_next};
    ghost use Rattle.ev_shared.specs.Links.{MayFail};

    ghost failures = { λ l. l.failures };

    ghost told = { λ l. Some l.told };

    #[tactic(auto, using(ev_call::proofs::Told::calls_push))]
    fn call(&mut self, ask: &Ask) -> Result<Answer, CallFault>
        requires { IsGrantable ask.now }
        ensures fits { IfOk result (Fits ask.now) }
        ensures counts { self.new.failures ≡ failures_after result self.old.failures }
        ensures told { Some self.new.told ≡ with_call (Some self.old.told) ask.now result }
        ensures carries { CarriesCall self.old.store ask.now result self.new.store }
        // A call that has no answer has carried nothing out.
        ensures kept { OnErr result (self.new.store ≡ self.old.store) }
        ensures fails { result ≡ Err CallFault.Failed → MayFail self.old ask.now }
        ensures listed { fails_next self.old.failing self.old.calls ≡ true → result ≡ Err CallFault.Failed }
        ensures failing { self.new.failing ≡ self.old.failing }
        ensures calls { self.new.calls ≡ one_more self.old.calls }
    {
        let listed = is_listed(&self.failing, self.calls);
        self.calls = self.calls.saturating_add(1);
        let result = carried(&mut self.store, ask, listed);
        if let Err(CallFault::Failed) = &result {
            self.failures = self.failures.saturating_add(1);
        }
        self.asks = self.asks.and(ask);
        self.results = self.results.and(&result);
        result
    }
}

/// Its store is at hand, whatever the address.
impl Cluster for StoreLink {
    ghost use Rattle.std.specs.Prelude.{◌≡◌, Ok};

    fn to(&mut self, _endpoint: &str) -> Result<(), Memory>
        ensures done { result ≡ Ok tt }
        ensures same { self.new ≡ self.old }
    {
        Ok(())
    }

    fn at(&self) -> u32
        ensures { result ≡ 0 }
    {
        0
    }
}
