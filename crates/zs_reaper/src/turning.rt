//! One turn: lists all sessions, from some place on and round, and ends those that have lapsed.

ghost use Rattle.std.specs.Prelude.{◌≡◌, pos, ◌≤ℤ◌, [], length, None, Err, IfOk, OnErr};
ghost use Rattle.ev_addresses.specs.Lists.{addresses_in};
ghost use Rattle.ev_call.specs.Addresses.{IsAddress};
ghost use Rattle.ev_call.specs.Calls.{calls_of};
ghost use Rattle.zs_reaper.specs.Calling.{Makes, link_told, of_kept, tells};
ghost use Rattle.zs_reaper.specs.Turning.{DialsFor, DialsOver, IsLeftNone, IsPage, IsPlace, Pages, Turns, TurnsOn, TurnsOver, begun_from, damage_told, max_lists, place_of};

use crate::calling::TurnFault;
use crate::failure::fault_of;
use crate::listing::{BEHIND, KIND, list};
use crate::pace::Pace;
use crate::reaping::{either, reap_each};
use ev_call::Etcd;
use ev_faults::Fault;
use ev_json::{Field, JsonFault};
use ev_link::{HttpLink, NoLink, link_to};
use std::alloc::Global;
use zn_layout::session_key;
use zp_turns::Reaps;
use zx_base::{Bytes, Memory};
use zx_net::Net;
use zx_outside::{Sink, Source};

/// The most lists of half a turn.
const MAX_LISTS: u32 = 1000;

/// What came of one list, and of the reaps after it.
#[derive(Drop)]
pub struct Page {
    /// Whether a key has a value that is no record.
    pub is_damaged: bool,
    /// Where the next list begins; `None` where this was the last.
    pub next: Option<Bytes>,
}

/// Lists the next sessions from this number on, before that one, and ends those that have lapsed.
#[tactic(auto, using(crate::proofs::Paging::page_unlisted, crate::proofs::Paging::page_cut, crate::proofs::Paging::page_whole))]
fn list_and_reap<L: Etcd, U: Reaps>(
    alloc: Global,
    link: &mut L,
    turns: &mut U,
    pace: &mut Pace,
    from: &[u8],
    end: &[u8],
) -> Result<Page, TurnFault>
    ensures { Makes (IsPage from.now end.now result) (link_told L.told L.failures link.old) (link_told L.told L.failures link.new) }
{
    let listed = match list(alloc, link, from, end) {
        Ok(listed) => listed,
        Err(fault) => return Err(fault),
    };
    match reap_each(alloc, link, turns, pace, listed.lapsed.as_slice()) {
        Ok(is_damaged) => Ok(Page {
            is_damaged,
            next: listed.next,
        }),
        Err(fault) => Err(fault),
    }
}

/// Half a turn, over at most a million sessions: those from this number on, before that one. Answers whether a key has a value that is
/// no record.
#[tactic(auto, using(crate::proofs::Paging::pages_starved, crate::proofs::Paging::pages_first, crate::proofs::Paging::pages_more, crate::proofs::Paging::pages_last, crate::proofs::Paging::pages_cut, crate::proofs::Paging::pages_left))]
fn pages<L: Etcd, U: Reaps>(
    alloc: Global,
    link: &mut L,
    turns: &mut U,
    pace: &mut Pace,
    from: &[u8],
    end: &[u8],
) -> Result<bool, TurnFault>
    ensures { Makes (Pages max_lists from.now end.now result) (link_told L.told L.failures link.old) (link_told L.told L.failures link.new) }
{
    let Ok(mut next) = Bytes::copy_of(alloc, from) else {
        return Err(TurnFault::Memory);
    };
    let mut is_damaged = false;
    'pages: for made in 0..MAX_LISTS {
        let page = match list_and_reap(alloc, link, turns, pace, next.as_slice(), end) {
            Ok(page) => page,
            Err(fault) => return Err(fault),
        };
        is_damaged = either(is_damaged, page.is_damaged);
        match page.next {
            Some(after) => next = after,
            None => return Ok(is_damaged),
        }
    }
    Ok(is_damaged)
}

/// The key of the session of this number, after its kind.
fn place(alloc: Global, number: i64) -> Result<Bytes, Memory>
    requires { pos 1 ≤ℤ number }
    ensures { IfOk result (λ b. b ≡ place_of number) }
{
    let key = session_key(alloc, number)?;
    let key = key.as_slice();
    Bytes::copy_of(alloc, &key[KIND.min(key.len())..])
}

/// One turn, from this place on to the last session, and then from the first on to that place. Answers whether a key has a value that
/// is no record.
#[tactic(auto, using(crate::proofs::Paging::turns_stopped, crate::proofs::Paging::turns_whole, crate::proofs::Paging::turns_cut))]
fn round<L: Etcd, U: Reaps>(
    alloc: Global,
    link: &mut L,
    turns: &mut U,
    pace: &mut Pace,
    place: &[u8],
) -> Result<bool, TurnFault>
    requires { IsPlace place.now }
    ensures { Makes (Turns result) (link_told L.told L.failures link.old) (link_told L.told L.failures link.new) }
{
    let is_damaged = match pages(alloc, link, turns, pace, place, BEHIND) {
        Ok(is_damaged) => is_damaged,
        Err(fault) => return Err(fault),
    };
    match pages(alloc, link, turns, pace, &[], place) {
        Ok(damaged) => Ok(either(is_damaged, damaged)),
        Err(fault) => Err(fault),
    }
}

/// One turn, from the place of some session's number on.
#[tactic(auto, using(crate::proofs::Paging::turns_unplaced, crate::proofs::Paging::drawn))]
fn turn<L: Etcd, U: Reaps>(
    alloc: Global,
    link: &mut L,
    turns: &mut U,
    pace: &mut Pace,
) -> Result<bool, TurnFault>
    ensures { Makes (Turns result) (link_told L.told L.failures link.old) (link_told L.told L.failures link.new) }
{
    let number = pace.number();
    let Ok(place) = place(alloc, number) else {
        return Err(TurnFault::Memory);
    };
    round(alloc, link, turns, pace, place.as_slice())
}

/// A new link, to the first endpoint that can be dialled, from the one with this number on and round.
fn dialled<N: Net>(
    alloc: Global,
    net: &mut N,
    endpoint: &str,
    at: &mut usize,
) -> Result<HttpLink<N::In, N::Out>, Fault>
    requires { IsAddress endpoint.now }
    ensures begun { IfOk result (λ l. tells (calls_of l.asks.items l.results.items) l.failures ≡ tells [] 0) }
    ensures dials { DialsFor result (length (addresses_in endpoint.now)) (N.counts net.old) (N.counts net.new) }
{
    match link_to(alloc, net, endpoint, at) {
        Ok(link) => Ok(link),
        Err(NoLink::Dial) => Err(Fault::Dial),
        Err(NoLink::Memory) => Err(Fault::Memory),
    }
}

/// The link that was kept, or a new one.
fn link_of<N: Net>(
    alloc: Global,
    net: &mut N,
    endpoint: &str,
    at: &mut usize,
    kept: Option<HttpLink<N::In, N::Out>>,
) -> Result<HttpLink<N::In, N::Out>, Fault>
    requires { IsAddress endpoint.now }
    ensures begun { IfOk result (λ l. tells (calls_of l.asks.items l.results.items) l.failures ≡ begun_from (of_kept kept (λ l. tells (calls_of l.asks.items l.results.items) l.failures))) }
    ensures none { OnErr result (IsLeftNone (of_kept kept (λ l. tells (calls_of l.asks.items l.results.items) l.failures))) }
    ensures dials { DialsOver kept result (length (addresses_in endpoint.now)) (N.counts net.old) (N.counts net.new) }
{
    match kept {
        Some(link) => Ok(link),
        None => dialled(alloc, net, endpoint, at),
    }
}

/// What is told of a whole turn.
fn damage(is_damaged: bool) -> Result<(), Fault>
    ensures { result ≡ damage_told is_damaged }
{
    if is_damaged {
        Err(Fault::Damaged)
    } else {
        Ok(())
    }
}

/// One turn over a link, which is kept where it did not fail. A turn that met another at work succeeds.
#[tactic(auto, using(crate::proofs::Keeping::kept_on, crate::proofs::Keeping::met_on, crate::proofs::Keeping::failed_on, crate::proofs::Keeping::unlisted_on, crate::proofs::Keeping::starved_on, crate::proofs::Keeping::linked_fault, crate::proofs::Keeping::damage_linked))]
fn turn_on<S: Source + Drop, K: Sink + Drop, U: Reaps>(
    alloc: Global,
    link: HttpLink<S, K>,
    kept: &mut Option<HttpLink<S, K>>,
    turns: &mut U,
    pace: &mut Pace,
) -> Result<(), Fault>
    requires { kept.old ≡ None }
    ensures turns { TurnsOn (tells (calls_of link.asks.items link.results.items) link.failures) (of_kept kept.new (λ l. tells (calls_of l.asks.items l.results.items) l.failures)) result }
    ensures linked { result ≡ Err Fault.Dial → ⊥ }
{
    let mut link = link;
    match turn(alloc, &mut link, turns, pace) {
        Ok(is_damaged) => {
            *kept = Some(link);
            damage(is_damaged)
        }
        Err(TurnFault::Met) => {
            pace.work();
            *kept = Some(link);
            Ok(())
        }
        Err(TurnFault::Failed) => Err(fault_of(&link)),
        Err(TurnFault::NoList) => Err(Fault::Json(JsonFault::Unreadable {
            field: Field::Responses,
        })),
        Err(TurnFault::Memory) => Err(Fault::Memory),
    }
}

/// One turn over the link, where there is one, and otherwise over one that is dialled. The link is kept where it did not fail.
#[tactic(auto, using(crate::proofs::Keeping::over_link, crate::proofs::Keeping::over_none, crate::proofs::Keeping::dials_told, crate::proofs::Keeping::dials_unlinked))]
pub(crate) fn turn_over<N: Net, U: Reaps>(
    alloc: Global,
    net: &mut N,
    endpoint: &str,
    at: &mut usize,
    link: &mut Option<HttpLink<N::In, N::Out>>,
    turns: &mut U,
    pace: &mut Pace,
) -> Result<(), Fault>
    requires { IsAddress endpoint.now }
    ensures turns { TurnsOver (of_kept link.old (λ l. tells (calls_of l.asks.items l.results.items) l.failures)) (of_kept link.new (λ l. tells (calls_of l.asks.items l.results.items) l.failures)) result }
    ensures dials { DialsOver link.old result (length (addresses_in endpoint.now)) (N.counts net.old) (N.counts net.new) }
{
    let kept = link.take();
    match link_of(alloc, net, endpoint, at, kept) {
        Ok(mine) => turn_on(alloc, mine, link, turns, pace),
        Err(fault) => Err(fault),
    }
}
