//! A link that dials its address.

ghost use Rattle.std.specs.Prelude.{◌≡◌, ◌++◌, ◌∷◌, List, [], length, false, is_some, Some, None, Err, IfOk, IsOk, option_map, string_bytes};
ghost use Rattle.std.proofs.Props.{props};
ghost use Rattle.ev_call.specs.Addresses.{IsAddress};
ghost use Rattle.ev_call.specs.Asks.{IsGrantable};
ghost use Rattle.ev_call.specs.Calls.{Call as LinkCall, calls_of, failures_after};
ghost use Rattle.ev_call.specs.Fitting.{Fits};
ghost use Rattle.ev_link.specs.Dialling.{DialsFirst};
ghost use Rattle.zx_net.specs.declared.net.NetFault.{NetFault as NoNet};

use crate::http_link::HttpLink;
use ev_call::{CallFault, Cluster, Etcd};
use ev_types::{Answer, Ask};
use std::alloc::Global;
use zx_base::Memory;
use zx_history::GhostHistory;
use zx_net::{Net, NetFault};
use zx_outside::{Sink, Source};

/// An address that can be dialled.
#[derive(Drop)]
struct Endpoint {
    text: String,
    ghost addressed: { IsAddress (string_bytes text) } by { Prim.hlevel props },
}

/// A link that dials the address it was told, `localhost` before it was told any, in the first call that needs it, and asks over that
/// connection from then on. A call whose dial failed fails, and the next one dials again; a connection that failed is kept, so each
/// call after it fails, until the address is told anew.
#[derive(Drop)]
pub struct DialCluster<N: Net> {
    net: N,
    endpoint: Option<Endpoint>,
    link: Option<HttpLink<N::In, N::Out>>,
    alloc: Global,
    failures: u64,
    asks: GhostHistory<Ask>,
    results: GhostHistory<Result<Answer, CallFault>>,
    ghost paired: { length asks.items ≡ length results.items },
}

/// The address to dial.
#[tactic(auto, using(crate::proofs::Local::local))]
fn address_of(endpoint: &Option<Endpoint>) -> &str
    ensures { IsAddress result.now }
{
    match endpoint {
        Some(endpoint) => endpoint.text.as_str(),
        None => "localhost",
    }
}

impl<N: Net + Drop> DialCluster<N> {
    /// A link that has not dialled yet.
    pub fn new(alloc: Global, net: N) -> DialCluster<N>
        ensures net { result.net ≡ net }
        ensures failures { result.failures ≡ 0 }
        ensures told { calls_of result.asks.items result.results.items ≡ [] }
        ensures link { result.link ≡ None }
        ensures endpoint { result.endpoint ≡ None }
    {
        DialCluster {
            net,
            endpoint: None,
            link: None,
            alloc,
            failures: 0,
            asks: GhostHistory::new(),
            results: GhostHistory::new(),
        }
    }
}

/// The link over a connection that was dialled. It fails exactly where the dial did.
fn linked<S: Source + Drop, K: Sink + Drop>(
    alloc: Global,
    dialled: Result<(S, K), NetFault>,
    address: &str,
) -> Result<HttpLink<S, K>, CallFault>
    requires { IsAddress address.now }
    ensures failed { result ≡ Err CallFault.Failed → (failed : NoNet) × (dialled ≡ Err failed) }
    ensures starved { result ≡ Err CallFault.Memory → IsOk dialled }
    ensures dialled { IfOk result (λ link. (calls_of link.asks.items link.results.items ≡ []) × IsOk dialled) }
{
    let Ok((source, sink)) = dialled else {
        return Err(CallFault::Failed);
    };
    match HttpLink::new(alloc, source, sink, address) {
        Ok(link) => Ok(link),
        Err(_) => Err(CallFault::Memory),
    }
}

/// Asks over a link. Without one there is no answer.
fn asked<S: Source + Drop, K: Sink + Drop>(
    link: &mut Option<HttpLink<S, K>>,
    ask: &Ask,
) -> Result<Answer, CallFault>
    requires { IsGrantable ask.now }
    ensures fits { IfOk result (Fits ask.now) }
    ensures asked { (calls : List LinkCall) → option_map (λ l. calls_of l.asks.items l.results.items) link.old ≡ Some calls
        → option_map (λ l. calls_of l.asks.items l.results.items) link.new ≡ Some (calls ++ record { ask = ask.now; result = result } ∷ []) }
{
    match link {
        Some(link) => link.call(ask),
        None => Err(CallFault::Memory),
    }
}

/// Asks over a link of what was dialled.
#[tactic(auto, using(crate::proofs::Dialling::no_dial, crate::proofs::Dialling::no_memory))]
fn asked_first<S: Source + Drop, K: Sink + Drop>(
    alloc: Global,
    dialled: Result<(S, K), NetFault>,
    link: &mut Option<HttpLink<S, K>>,
    address: &str,
    ask: &Ask,
) -> Result<Answer, CallFault>
    requires granted { IsGrantable ask.now }
    requires address { IsAddress address.now }
    requires none { is_some link.old ≡ false }
    ensures fits { IfOk result (Fits ask.now) }
    ensures dials { DialsFirst (option_map (λ l. calls_of l.asks.items l.results.items) link.new) (record { ask = ask.now; result = result }) dialled }
{
    match linked(alloc, dialled, address) {
        Ok(made) => {
            *link = Some(made);
            asked(link, ask)
        }
        Err(fault) => Err(fault),
    }
}

/// The count of failed calls after this one. It stops at 2^64 - 1.
pub fn counted(failures: u64, came: &Result<Answer, CallFault>) -> u64
    ensures { result ≡ failures_after came.now failures }
{
    match came {
        Err(CallFault::Failed) => failures.saturating_add(1),
        _ => failures,
    }
}

impl<N: Net + Drop> Etcd for DialCluster<N> {
    ghost use Rattle.std.specs.Prelude.{◌≡◌, Some, IfOk, option_map};
    ghost use Rattle.ev_call.specs.Asks.{IsGrantable};
    ghost use Rattle.ev_call.specs.Calls.{calls_of, failures_after, with_call};
    ghost use Rattle.ev_call.specs.Fitting.{Fits};
    ghost use Rattle.ev_link.specs.Dialling.{Dials};

    ghost failures = { λ l. l.failures };

    ghost told = { λ l. Some (calls_of l.asks.items l.results.items) };

    #[tactic(auto, using(ev_call::proofs::Told::calls_push, crate::proofs::Dialling::one_more, crate::proofs::Dialling::by_dial))]
    fn call(&mut self, ask: &Ask) -> Result<Answer, CallFault>
        requires { IsGrantable ask.now }
        ensures fits { IfOk result (Fits ask.now) }
        ensures counts { self.new.failures ≡ failures_after result self.old.failures }
        ensures told { Some (calls_of self.new.asks.items self.new.results.items) ≡ with_call (Some (calls_of self.old.asks.items self.old.results.items)) ask.now result }
        ensures dials { Dials (option_map (λ l. calls_of l.asks.items l.results.items) self.old.link) (option_map (λ l. calls_of l.asks.items l.results.items) self.new.link)
            (record { ask = ask.now; result = result }) (N.counts self.old.net) (N.counts self.new.net) }
        ensures endpoint { self.new.endpoint ≡ self.old.endpoint }
    {
        if self.link.is_some() {
            let result = asked(&mut self.link, ask);
            self.failures = counted(self.failures, &result);
            self.asks = self.asks.and(ask);
            self.results = self.results.and(&result);
            return result;
        }
        let address = address_of(&self.endpoint);
        let dialled = self.net.dial(address);
        let result = asked_first(self.alloc, dialled, &mut self.link, address, ask);
        self.failures = counted(self.failures, &result);
        self.asks = self.asks.and(ask);
        self.results = self.results.and(&result);
        result
    }
}

impl<N: Net + Drop> Cluster for DialCluster<N> {
    ghost use Rattle.std.specs.Prelude.{◌≡◌, Some, None, OnOk, OnErr, option_map, string_bytes};

    fn to(&mut self, endpoint: &str) -> Result<(), Memory>
        requires { IsAddress endpoint.now }
        ensures failures { self.new.failures ≡ self.old.failures }
        ensures told { Some (calls_of self.new.asks.items self.new.results.items) ≡ Some (calls_of self.old.asks.items self.old.results.items) }
        ensures named { OnOk result (option_map (λ e. string_bytes e.text) self.new.endpoint ≡ Some endpoint.now) }
        ensures anew { OnOk result (self.new.link ≡ None) }
        ensures same { OnErr result (self.new ≡ self.old) }
        ensures net { self.new.net ≡ self.old.net }
    {
        let text = String::from_str(self.alloc, endpoint)?;
        self.endpoint = Some(Endpoint { text });
        self.link = None;
        Ok(())
    }

    fn at(&self) -> u32
        ensures { result ≡ 0 }
    {
        0
    }
}
