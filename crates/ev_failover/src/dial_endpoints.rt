//! Endpoints that are dialled.

ghost use Rattle.std.specs.Prelude.{◌≡◌, ◌+◌, ◌<◌, ◌≤◌, [], ◌∷◌, length, All, None, Some, IfOk, OnErr, OnOk, option_map, slice_index_or, slice_set, string_bytes, vec_len};
ghost use Rattle.ev_call.specs.Addresses.{IsAddress};
ghost use Rattle.ev_addresses.specs.Lists.{addresses_in};
ghost use Rattle.ev_failover.specs.Endpoints.{sent_of};

use crate::dialled::{ask_first, ask_kept};
use crate::endpoints::{EndFault, Endpoints};
use crate::named::{Named, address_of, copy_of};
use crate::sent_list::{SentList, counted};
use ev_addresses::count_of;
use ev_link::HttpLink;
use ev_types::{Answer, Ask};
use std::alloc::Global;
use std::mem;
use zx_base::Memory;
use zx_net::Net;
use zx_outside::{Sink, Source};

/// One to five addresses that are dialled, each by a connection of its own: in the first call that needs it, and again after a call
/// that was not answered. The ask is not sent where that dial fails. A link over them is told which they are.
#[derive(Drop)]
pub struct DialEndpoints<N: Net> {
    net: N,
    pub(crate) alloc: Global,
    /// What names the endpoints; where nothing does, the one address `localhost` is meant.
    pub(crate) named: Option<Named>,
    /// The link to the first endpoint, where there is one, and those to the others.
    pub(crate) first: Option<HttpLink<N::In, N::Out>>,
    pub(crate) others: Vec<Option<HttpLink<N::In, N::Out>>>,
    faults: u64,
    sent: SentList,
    ghost few: { vec_len others ≤ 4 },
}

impl<N: Net + Drop> DialEndpoints<N> {
    /// The one address `localhost`, which is not dialled yet.
    pub fn new(alloc: Global, net: N) -> DialEndpoints<N>
        ensures net { result.net ≡ net }
        ensures named { result.named ≡ None }
        ensures first { result.first ≡ None }
        ensures others { result.others.items ≡ [] }
        ensures faults { result.faults ≡ 0 }
        ensures sent { sent_of result.sent.to.items result.sent.asks.items ≡ [] }
    {
        DialEndpoints {
            net,
            alloc,
            named: None,
            first: None,
            others: Vec::new(alloc),
            faults: 0,
            sent: SentList::new(),
        }
    }

    /// The net that dials.
    pub fn net(&self) -> &N
        ensures { result.now ≡ self.now.net }
    {
        &self.net
    }
}

/// So many endpoints without a link.
#[tactic(auto, using(crate::proofs::Placing::none_yet, crate::proofs::Placing::none_more))]
fn no_links<S: Source + Drop, K: Sink + Drop>(
    alloc: Global,
    count: usize,
) -> Result<Vec<Option<HttpLink<S, K>>>, Memory>
    ensures count { IfOk result (λ links. vec_len links ≡ count) }
    ensures none { IfOk result (λ links. All (λ l. l ≡ None) links.items) }
{
    let mut links = Vec::new(alloc);
    'links: for made in 0..count {
        links.push(None)?;
    }
    Ok(links)
}

/// Has these be the endpoints that a text of addresses names, without a link. Where memory is refused they stay as they are.
pub(crate) fn name_all<S: Source + Drop, K: Sink + Drop>(
    alloc: Global,
    named: &mut Option<Named>,
    first: &mut Option<HttpLink<S, K>>,
    others: &mut Vec<Option<HttpLink<S, K>>>,
    text: &str,
) -> Result<(), Memory>
    requires address { IsAddress text.now }
    requires few { vec_len others.old ≤ 4 }
    ensures named { OnOk result (option_map (λ n. string_bytes n.text) named.new ≡ Some text.now) }
    ensures size { OnOk result (vec_len others.new + 1 ≡ length (addresses_in text.now)) }
    ensures first { OnOk result (first.new ≡ None) }
    ensures others { OnOk result (All (λ l. l ≡ None) others.new.items) }
    ensures few { vec_len others.new ≤ 4 }
    ensures same { OnErr result ((named.new ≡ named.old) × (first.new ≡ first.old) × (others.new ≡ others.old)) }
{
    let links = no_links(alloc, count_of(text) - 1)?;
    let copy = copy_of(alloc, text)?;
    *named = Some(copy);
    *first = None;
    *others = links;
    Ok(())
}

/// Puts this link in the place of the one to the endpoint with this number, and gives that one.
#[tactic(auto, using(crate::proofs::Placing::taken_later, crate::proofs::Placing::left_later))]
fn replaced<S: Source + Drop, K: Sink + Drop>(
    first: &mut Option<HttpLink<S, K>>,
    others: &mut Vec<Option<HttpLink<S, K>>>,
    endpoint: u32,
    link: Option<HttpLink<S, K>>,
) -> Option<HttpLink<S, K>>
    requires { endpoint < vec_len others.old + 1 }
    ensures taken { result ≡ slice_index_or (first.old ∷ others.old.items) endpoint result }
    ensures left { first.new ∷ others.new.items ≡ slice_set (first.old ∷ others.old.items) endpoint link }
    ensures size { vec_len others.new ≡ vec_len others.old }
{
    if endpoint == 0 {
        return mem::replace(first, link);
    }
    mem::replace(&mut others[endpoint as usize - 1], link)
}

impl<N: Net + Drop> Endpoints for DialEndpoints<N> {
    ghost use Rattle.std.specs.Prelude.{◌≡◌, ◌+◌, ◌<◌, ◌≤◌, ◌∷◌, Some, IfOk, map, option_map, string_bytes, unwrap_or, vec_len};
    ghost use Rattle.ev_addresses.specs.Lists.{local};
    ghost use Rattle.ev_call.specs.Calls.{calls_of};
    ghost use Rattle.ev_failover.specs.Dialling.{AsksAt};
    ghost use Rattle.ev_failover.specs.Endpoints.{sent_of};

    ghost size = { λ s. vec_len s.others + 1 };

    ghost faults = { λ s. s.faults };

    ghost sent = { λ s. Some (sent_of s.sent.to.items s.sent.asks.items) };

    ghost came = { λ s e q r t. AsksAt
        (record {
          named = unwrap_or (option_map (λ n. string_bytes n.text) s.named) local;
          links = map (λ l. option_map (λ k. calls_of k.asks.items k.results.items) l) (s.first ∷ s.others.items);
          counts = N.counts s.net;
        }) e q r
        (record {
          named = unwrap_or (option_map (λ n. string_bytes n.text) t.named) local;
          links = map (λ l. option_map (λ k. calls_of k.asks.items k.results.items) l) (t.first ∷ t.others.items);
          counts = N.counts t.net;
        }) };

    fn size(&self) -> u32
        ensures size { result ≡ vec_len self.now.others + 1 }
        ensures least { 1 ≤ result }
        ensures most { result ≤ 5 }
    {
        self.others.len() as u32 + 1
    }

    fn call_at(&mut self, endpoint: u32, ask: &Ask) -> Result<Answer, EndFault> {
        let mut link = replaced(&mut self.first, &mut self.others, endpoint, None);
        if link.is_some() {
            let result = ask_kept(&mut link, ask);
            replaced(&mut self.first, &mut self.others, endpoint, link);
            self.faults = counted(self.faults, &result);
            self.sent.note(endpoint, ask, &result);
            return result;
        }
        let address = address_of(&self.named, endpoint);
        let dialled = self.net.dial(address);
        let result = ask_first(self.alloc, dialled, address, &mut link, ask);
        replaced(&mut self.first, &mut self.others, endpoint, link);
        self.faults = counted(self.faults, &result);
        self.sent.note(endpoint, ask, &result);
        result
    }
}
