//! A call over a link that is kept, or is dialled.

ghost use Rattle.std.specs.Prelude.{◌≡◌, [], None, Err, IfOk, false, is_some, option_map};
ghost use Rattle.ev_call.specs.Addresses.{IsAddress};
ghost use Rattle.ev_call.specs.Asks.{IsGrantable};
ghost use Rattle.ev_call.specs.Calls.{calls_of};
ghost use Rattle.ev_call.specs.Fitting.{Fits};
ghost use Rattle.ev_failover.specs.Dialling.{calls_so_far, dials_for, kept_after};
ghost use Rattle.zx_net.specs.Nets.{NetCounts, counts_after_dial};

use crate::endpoints::EndFault;
use ev_call::{CallFault, Etcd};
use ev_link::HttpLink;
use ev_types::{Answer, Ask};
use std::alloc::Global;
use zx_net::NetFault;
use zx_outside::{Sink, Source};

/// The link over what was dialled.
fn linked<S: Source + Drop, K: Sink + Drop>(
    alloc: Global,
    dialled: Result<(S, K), NetFault>,
    address: &str,
) -> Result<HttpLink<S, K>, EndFault>
    requires { IsAddress address.now }
    ensures begun { IfOk result (λ l. calls_of l.asks.items l.results.items ≡ []) }
    ensures counts { (counts : NetCounts) → dials_for result counts ≡ counts_after_dial dialled counts }
{
    let Ok((source, sink)) = dialled else {
        return Err(EndFault::NotSent);
    };
    match HttpLink::new(alloc, source, sink, address) {
        Ok(link) => Ok(link),
        Err(_refused) => Err(EndFault::Memory),
    }
}

/// Asks over a link, which is kept where it answers.
fn ask_over<S: Source + Drop, K: Sink + Drop>(
    link: HttpLink<S, K>,
    kept: &mut Option<HttpLink<S, K>>,
    ask: &Ask,
) -> Result<Answer, EndFault>
    requires granted { IsGrantable ask.now }
    requires none { kept.old ≡ None }
    ensures fits { IfOk result (Fits ask.now) }
    ensures sent { result ≡ Err EndFault.NotSent → ⊥ }
    ensures kept { option_map (λ k. calls_of k.asks.items k.results.items) kept.new ≡ kept_after (calls_of link.asks.items link.results.items) ask.now result }
{
    let mut link = link;
    match link.call(ask) {
        Ok(answer) => {
            *kept = Some(link);
            Ok(answer)
        }
        Err(CallFault::Failed) => Err(EndFault::Failed),
        Err(CallFault::Memory) => Err(EndFault::Memory),
    }
}

/// Asks over the link that is there. It is kept where it answers.
pub fn ask_kept<S: Source + Drop, K: Sink + Drop>(
    link: &mut Option<HttpLink<S, K>>,
    ask: &Ask,
) -> Result<Answer, EndFault>
    requires { IsGrantable ask.now }
    ensures fits { IfOk result (Fits ask.now) }
    ensures sent { result ≡ Err EndFault.NotSent → ⊥ }
    ensures kept { option_map (λ k. calls_of k.asks.items k.results.items) link.new
        ≡ kept_after (calls_so_far (option_map (λ k. calls_of k.asks.items k.results.items) link.old)) ask.now result }
{
    match link.take() {
        Some(mine) => ask_over(mine, link, ask),
        None => Err(EndFault::Memory),
    }
}

/// Asks over what was dialled, where there is no link. The link is kept where it answers.
#[tactic(auto, using(crate::proofs::Placing::answered_counts))]
pub fn ask_first<S: Source + Drop, K: Sink + Drop>(
    alloc: Global,
    dialled: Result<(S, K), NetFault>,
    address: &str,
    link: &mut Option<HttpLink<S, K>>,
    ask: &Ask,
) -> Result<Answer, EndFault>
    requires address { IsAddress address.now }
    requires granted { IsGrantable ask.now }
    requires none { is_some link.old ≡ false }
    ensures fits { IfOk result (Fits ask.now) }
    ensures kept { option_map (λ k. calls_of k.asks.items k.results.items) link.new ≡ kept_after [] ask.now result }
    ensures counts { (counts : NetCounts) → dials_for result counts ≡ counts_after_dial dialled counts }
{
    *link = None;
    match linked(alloc, dialled, address) {
        Ok(made) => ask_over(made, link, ask),
        Err(fault) => Err(fault),
    }
}
