//! The first asks.

ghost use Rattle.std.specs.Prelude.{◌≡◌, ◌<◌, ◌^◌, Some, IfOk, option_copied};
ghost use Rattle.ev_call.specs.Addresses.{IsAddress};
ghost use Rattle.ev_call.specs.Asks.{IsGrantable};
ghost use Rattle.ev_call.specs.Fitting.{Fits};
ghost use Rattle.zn_layout.specs.Begin.{begin_ask as making_ask};
ghost use Rattle.zp_server.specs.Beginning.{Asks, Begins, Comes, found_by, head_in, last_part, look_ask, number_at, place_in};

use crate::ends::Stop;
use ev_call::{CallFault, Cluster};
use ev_types::{ActAns, Answer, Ask, Kv, RangeAns};
use std::alloc::Global;
use zn_layout::begin_ask;
use zn_view::{head_wants, reading};
use zw_follow::Place;
use zx_base::Memory;

/// The last part of a transaction's answer, if there is one.
fn last_part(answer: &Answer) -> Option<&ActAns>
    ensures { option_copied result ≡ last_part answer.now }
{
    match answer {
        Answer::Txn { parts, .. } => parts.as_slice().last(),
        Answer::Range { .. } | Answer::Granted { .. } | Answer::Alive { .. } => None,
    }
}

/// What this part found, if it is that of a read.
fn found_by(part: &ActAns) -> Option<&RangeAns>
    ensures { option_copied result ≡ found_by (Some part.now) }
{
    match part {
        ActAns::Range(found) => Some(found),
        ActAns::Put | ActAns::Deleted(_) => None,
    }
}

/// The head, if an answer shows it. Whether or not the root was made, the last of what is asked is to read it.
fn head_in(answer: &Answer) -> Option<&Kv>
    ensures { option_copied result ≡ head_in answer.now }
{
    let part = match last_part(answer) {
        Some(part) => part,
        None => return None,
    };
    match found_by(part) {
        Some(found) => found.kvs.as_slice().first(),
        None => None,
    }
}

/// The number of the last update, by its head. Where there is no head, there was no update.
fn number_at(head: Option<&Kv>) -> i64
    ensures { result ≡ number_at (option_copied head.entry) }
{
    match head {
        Some(head) => head.version,
        None => 0,
    }
}

/// Where the updates stand, by an answer: at its revision the head is what it shows.
fn place_in(answer: &Answer) -> Place
    ensures { result ≡ place_in answer.now }
{
    Place {
        number: number_at(head_in(answer)),
        revision: answer.revision(),
    }
}

/// The ask that reads the head, and nothing else.
fn look_ask(alloc: Global) -> Result<Ask, Memory>
    ensures { IfOk result (λ q. q ≡ look_ask) }
{
    let wants = head_wants(alloc)?;
    reading(alloc, 0, wants.as_slice())
}

/// Asks the cluster.
fn ask<L: Cluster>(cluster: &mut L, ask: &Ask) -> Result<Answer, Stop>
    requires { IsGrantable ask.now }
    ensures fits { IfOk result (Fits ask.now) }
    ensures asks { Asks result ask.now
        (record { failures = L.failures cluster.old; calls = L.told cluster.old })
        (record { failures = L.failures cluster.new; calls = L.told cluster.new }) }
{
    match cluster.call(ask) {
        Ok(answer) => Ok(answer),
        Err(CallFault::Failed) => Err(Stop::Net),
        Err(CallFault::Memory) => Err(Stop::Memory),
    }
}

/// Asks the cluster for the head. The ask only reads, so a cluster of several endpoints goes on to the next if one does not answer.
fn look<L: Cluster>(alloc: Global, cluster: &mut L) -> Result<Answer, Stop>
    ensures fits { IfOk result (Fits look_ask) }
    ensures asks { Asks result look_ask
        (record { failures = L.failures cluster.old; calls = L.told cluster.old })
        (record { failures = L.failures cluster.new; calls = L.told cluster.new }) }
{
    match look_ask(alloc) {
        Ok(looking) => ask(cluster, &looking),
        Err(_refused) => Err(Stop::Memory),
    }
}

/// Has the cluster make the root, if it has none. `now` is the root's time in milliseconds.
fn make<L: Cluster>(alloc: Global, cluster: &mut L, now: u64) -> Result<Answer, Stop>
    requires { now < 2 ^ 62 }
    ensures fits { IfOk result (Fits (making_ask now)) }
    ensures asks { Asks result (making_ask now)
        (record { failures = L.failures cluster.old; calls = L.told cluster.old })
        (record { failures = L.failures cluster.new; calls = L.told cluster.new }) }
{
    match begin_ask(alloc, now) {
        Ok(making) => ask(cluster, &making),
        Err(_refused) => Err(Stop::Memory),
    }
}

/// Where the updates stand, by what the last ask came to.
fn place_of(last: Result<Answer, Stop>) -> Result<Place, Stop>
    ensures { Comes last result }
{
    match last {
        Ok(answer) => Ok(place_in(&answer)),
        Err(stop) => Err(stop),
    }
}

/// Tells where the updates stand. The head is looked for first, which any endpoint may answer. If the cluster has none, it is then
/// asked to make the root, at the endpoint that answered; `now` is the root's time in milliseconds.
pub fn begin<L: Cluster>(
    alloc: Global,
    cluster: &mut L,
    now: u64,
    endpoint: &str,
) -> Result<Place, Stop>
    requires address { IsAddress endpoint.now }
    requires time { now < 2 ^ 62 }
    ensures { Begins now result
        (record { failures = L.failures cluster.old; calls = L.told cluster.old })
        (record { failures = L.failures cluster.new; calls = L.told cluster.new }) }
{
    match cluster.to(endpoint) {
        Ok(()) => {}
        Err(_refused) => return Err(Stop::Memory),
    }
    let seen = match look(alloc, cluster) {
        Ok(seen) => seen,
        Err(stop) => return Err(stop),
    };
    if head_in(&seen).is_some() {
        return Ok(place_in(&seen));
    }
    place_of(make(alloc, cluster, now))
}
