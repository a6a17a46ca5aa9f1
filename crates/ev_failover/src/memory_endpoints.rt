//! Endpoints in memory.

ghost use Rattle.std.specs.Prelude.{◌≡◌, ◌≤◌, [], min, max, true, false, Err, None, IfOk, OnErr};
ghost use Rattle.ev_call.specs.Asks.{IsGrantable};
ghost use Rattle.ev_call.specs.Fitting.{Fits};
ghost use Rattle.ev_types.specs.Denials.{carry};
ghost use Rattle.zx_outside.specs.Memory.{fails_next};
ghost use Rattle.ev_failover.specs.Endpoints.{sent_of};
ghost use Rattle.ev_failover.specs.Theorem.{CarriesEnd};

use crate::endpoints::{EndFault, Endpoints};
use crate::sent_list::{SentList, counted};
use ev_call::{CallFault, Etcd};
use ev_shared::StoreLink;
use ev_store::Store;
use ev_types::{Answer, Ask};
use std::alloc::Global;

/// Endpoints that all stand before one store, which they own. They tell what was sent to which of them.
#[derive(Drop)]
pub struct MemEndpoints {
    size: u32,
    link: StoreLink,
    not_sent: Vec<u64>,
    failing: Vec<u64>,
    calls: u64,
    faults: u64,
    sent: SentList,
    ghost works: { link.failing ≡ [] },
    ghost least: { 1 ≤ size },
    ghost most: { size ≤ 5 },
}

impl MemEndpoints {
    /// So many endpoints of this store; at least one and at most five. Calls are numbered from 1, over all endpoints: those in
    /// `not_sent` are not sent, and others in `failing` fail, and ask the store nothing. A call whose ask the store denies fails too.
    pub fn new(
        alloc: Global,
        size: u32,
        store: Store,
        not_sent: Vec<u64>,
        failing: Vec<u64>,
    ) -> MemEndpoints
        ensures size { result.size ≡ max 1 (min size 5) }
        ensures store { result.link.store ≡ store }
        ensures not_sent { result.not_sent.items ≡ not_sent.items }
        ensures failing { result.failing.items ≡ failing.items }
        ensures calls { result.calls ≡ 0 }
        ensures faults { result.faults ≡ 0 }
        ensures sent { sent_of result.sent.to.items result.sent.asks.items ≡ [] }
    {
        MemEndpoints {
            size: size.min(5).max(1),
            link: StoreLink::new(store, Vec::new(alloc)),
            not_sent,
            failing,
            calls: 0,
            faults: 0,
            sent: SentList::new(),
        }
    }

    /// The store as it is now.
    pub fn store(&self) -> &Store
        ensures { result.now ≡ self.now.link.store }
    {
        self.link.store()
    }
}

/// Whether the call after so many others is listed.
fn is_listed(listed: &[u64], calls: u64) -> bool
    ensures { result ≡ fails_next listed.now calls }
{
    listed.contains(&calls.saturating_add(1))
}

/// What the store gives; or what a call comes to that is not sent, or else fails.
fn carried(
    link: &mut StoreLink,
    ask: &Ask,
    is_unsent: bool,
    is_failing: bool,
) -> Result<Answer, EndFault>
    requires granted { IsGrantable ask.now }
    requires works { link.old.failing ≡ [] }
    ensures works { link.new.failing ≡ [] }
    ensures fits { IfOk result (Fits ask.now) }
    ensures carries { CarriesEnd link.old.store ask.now result link.new.store }
    ensures kept { OnErr result (link.new.store ≡ link.old.store) }
    ensures unsent { is_unsent ≡ true → result ≡ Err EndFault.NotSent }
    ensures sent { is_unsent ≡ false → result ≡ Err EndFault.NotSent → ⊥ }
    ensures listed { is_unsent ≡ false → is_failing ≡ true → result ≡ Err EndFault.Failed }
    ensures denied { is_failing ≡ false → result ≡ Err EndFault.Failed → carry link.old.store ask.now ≡ None }
{
    if is_unsent {
        return Err(EndFault::NotSent);
    }
    if is_failing {
        return Err(EndFault::Failed);
    }
    match link.call(ask) {
        Ok(answer) => Ok(answer),
        Err(CallFault::Failed) => Err(EndFault::Failed),
        Err(CallFault::Memory) => Err(EndFault::Memory),
    }
}

impl Endpoints for MemEndpoints {
    ghost use Rattle.std.specs.Prelude.{◌≡◌, ◌≤◌, ◌<◌, Some, IfOk};
    ghost use Rattle.ev_call.specs.Asks.{IsGrantable};
    ghost use Rattle.ev_call.specs.Fitting.{Fits};
    ghost use Rattle.ev_failover.specs.Endpoints.{sent_of};
    ghost use Rattle.ev_failover.specs.Memory.{CarriesAt};

    ghost size = { λ s. s.size };

    ghost faults = { λ s. s.faults };

    ghost sent = { λ s. Some (sent_of s.sent.to.items s.sent.asks.items) };

    ghost came = { λ a e q r b. CarriesAt
        (record { store = a.link.store; not_sent = a.not_sent.items; failing = a.failing.items; calls = a.calls }) q r
        (record { store = b.link.store; not_sent = b.not_sent.items; failing = b.failing.items; calls = b.calls }) };

    fn size(&self) -> u32
        ensures size { result ≡ self.now.size }
        ensures least { 1 ≤ result }
        ensures most { result ≤ 5 }
    {
        self.size
    }

    fn call_at(&mut self, endpoint: u32, ask: &Ask) -> Result<Answer, EndFault> {
        let is_unsent = is_listed(&self.not_sent, self.calls);
        let is_failing = is_listed(&self.failing, self.calls);
        self.calls = self.calls.saturating_add(1);
        let result = carried(&mut self.link, ask, is_unsent, is_failing);
        self.faults = counted(self.faults, &result);
        self.sent.note(endpoint, ask, &result);
        result
    }
}
