//! One connection.

ghost use Rattle.std.specs.Prelude.{◌≡◌, ◌≢◌};
ghost use Rattle.ev_http.specs.Taking.{Told, told};
ghost use Rattle.ev_gateway.specs.Serving.{AnswersOr, EndsBy, IsCutBy, Receives, RespondsOr, Turns, end_of, end_of_watch, unreadable_text};
ghost use Rattle.ev_http.specs.Sinks.{OfBothEnds, sink_told};
ghost use Rattle.ev_types.specs.declared.route.Route.TheVariants as routes;

use crate::reply::{Reply, refusal, reply_to};
use crate::watching::{WatchEnd, watch};
use ev_http::{HttpFault, read_request, send_response};
use ev_json::{JsonFault, read_watch, what_is_read_fits};
use ev_shared::SharedStore;
use ev_types::Route;
use std::alloc::Global;
use std::sync::Wait;
use std::time::Clock as SystemClock;
use zx_net::Clock;
use zx_outside::{Sink, Source};

/// Why a gateway stopped.
#[derive(Clone, Copy, PartialEq, Eq)]
pub enum GatewayEnd {
    /// The source ended between two messages.
    Ended,
    /// What came is no request, the source was idle or had a fault, or a write failed. Never out of memory.
    Http(HttpFault),
    /// The client of a watch went away, or sent more before the watch had ended.
    Left,
    /// As many messages were answered as the limit allows.
    Limit,
    /// The allocator refused memory.
    Memory,
}

/// What a fault of a response ends the connection with.
fn end_of(sent: Result<(), HttpFault>) -> Result<(), GatewayEnd>
    ensures { result ≡ end_of sent }
{
    match sent {
        Ok(()) => Ok(()),
        Err(HttpFault::Memory) => Err(GatewayEnd::Memory),
        Err(fault) => Err(GatewayEnd::Http(fault)),
    }
}

/// What the end of a watch ends the connection with.
fn end_of_watch(end: Result<WatchEnd, HttpFault>) -> Result<(), GatewayEnd>
    ensures { result ≡ end_of_watch end }
{
    match end {
        Ok(WatchEnd::Told) => Ok(()),
        Ok(WatchEnd::Left) => Err(GatewayEnd::Left),
        Err(fault) => end_of(Err(fault)),
    }
}

/// What a fault of a request ends the connection with.
fn cut_by(fault: HttpFault) -> GatewayEnd
    ensures { IsCutBy fault result }
{
    match fault {
        HttpFault::Ended { taken } => {
            if taken == 0 {
                GatewayEnd::Ended
            } else {
                GatewayEnd::Http(fault)
            }
        }
        HttpFault::Memory => GatewayEnd::Memory,
        _ => GatewayEnd::Http(fault),
    }
}

/// Sends a reply.
#[tactic(auto, using(crate::proofs::Ending::responds))]
fn respond<K: Sink>(alloc: Global, sink: &mut K, reply: &Reply) -> Result<(), GatewayEnd>
    ensures { RespondsOr result reply.now.status reply.now.text.items (sink_told K.taken K.counts K.name sink.old) (sink_told K.taken K.counts K.name sink.new) }
{
    end_of(send_response(alloc, sink, reply.status, reply.text.as_slice()))
}

/// Answers a body that cannot be read.
fn refuse<K: Sink>(alloc: Global, sink: &mut K) -> Result<(), GatewayEnd>
    ensures { RespondsOr result 400 unreadable_text (sink_told K.taken K.counts K.name sink.old) (sink_told K.taken K.counts K.name sink.new) }
{
    match refusal(alloc) {
        Ok(reply) => respond(alloc, sink, &reply),
        Err(_) => Err(GatewayEnd::Memory),
    }
}

/// Answers a request to watch a key.
#[tactic(auto, using(crate::proofs::Ending::watched, crate::proofs::Ending::refused, crate::proofs::Ending::unsent, crate::proofs::Reading::watchable))]
fn answer_watch<R: Wait + SystemClock, S: Source, K: Sink>(
    rt: &R,
    alloc: Global,
    store: &SharedStore,
    source: &mut S,
    sink: &mut K,
    route: Route,
    body: &[u8],
) -> Result<(), GatewayEnd>
    requires { route ≡ routes.Watch }
    ensures { OfBothEnds (AnswersOr result route body.now) S.given S.left S.counts S.ended S.name K.taken K.counts K.name source.old source.new sink.old sink.new }
{
    match read_watch(alloc, body) {
        Ok((from, key)) => {
            what_is_read_fits();
            let first = from.unsigned_abs();
            store.begin_watch(rt);
            let end = watch(rt, alloc, store, source, sink, key.as_slice(), first);
            store.end_watch(rt);
            end_of_watch(end)
        }
        Err(JsonFault::Memory) => Err(GatewayEnd::Memory),
        Err(_) => refuse(alloc, sink),
    }
}

/// Answers a request that is no watch.
#[tactic(auto, using(crate::proofs::Ending::asked, crate::proofs::Ending::unsent))]
fn answer_ask<R: Wait, K: Sink>(
    rt: &R,
    alloc: Global,
    store: &SharedStore,
    sink: &mut K,
    now: u64,
    route: Route,
    body: &[u8],
) -> Result<(), GatewayEnd>
    requires { route ≢ routes.Watch }
    ensures { (source : Told) → AnswersOr result route body.now source source (sink_told K.taken K.counts K.name sink.old) (sink_told K.taken K.counts K.name sink.new) }
{
    match reply_to(rt, alloc, store, now, route, body) {
        Ok(reply) => respond(alloc, sink, &reply),
        Err(_) => Err(GatewayEnd::Memory),
    }
}

/// Reads the next request.
fn receive<S: Source>(alloc: Global, source: &mut S) -> Result<(Route, Vec<u8>), HttpFault>
    ensures { Receives result (told S.given S.left S.counts S.ended S.name source.old) (told S.given S.left S.counts S.ended S.name source.new) }
{
    let request = read_request(alloc, source);
    request
}

/// Answers a request.
fn answer<R: Wait + SystemClock, S: Source, K: Sink, C: Clock>(
    rt: &R,
    alloc: Global,
    store: &SharedStore,
    source: &mut S,
    sink: &mut K,
    clock: &mut C,
    route: Route,
    body: &[u8],
) -> Result<(), GatewayEnd>
    ensures { OfBothEnds (AnswersOr result route body.now) S.given S.left S.counts S.ended S.name K.taken K.counts K.name source.old source.new sink.old sink.new }
{
    match route {
        Route::Watch => answer_watch(rt, alloc, store, source, sink, route, body),
        _ => {
            let now = clock.now();
            answer_ask(rt, alloc, store, sink, now, route, body)
        }
    }
}

/// Reads the next request and answers it.
#[tactic(auto, using(crate::proofs::Ending::turned, crate::proofs::Ending::cut))]
fn turn<R: Wait + SystemClock, S: Source, K: Sink, C: Clock>(
    rt: &R,
    alloc: Global,
    store: &SharedStore,
    source: &mut S,
    sink: &mut K,
    clock: &mut C,
) -> Result<(), GatewayEnd>
    ensures { OfBothEnds (Turns result) S.given S.left S.counts S.ended S.name K.taken K.counts K.name source.old source.new sink.old sink.new }
{
    match receive(alloc, source) {
        Ok((route, body)) => {
            let body = body.as_slice();
            answer(rt, alloc, store, source, sink, clock, route, body)
        }
        Err(fault) => Err(cut_by(fault)),
    }
}

/// Serves one connection to the etcd in memory, until it ends: reads a request, answers it, and so on, at most `limit` times. The
/// store stays open. Its leases lapse by this clock.
#[tactic(auto, using(crate::proofs::Ending::ended, crate::proofs::Ending::served_more))]
pub fn gateway<R: Wait + SystemClock, S: Source, K: Sink, C: Clock>(
    rt: &R,
    alloc: Global,
    store: &SharedStore,
    source: &mut S,
    sink: &mut K,
    clock: &mut C,
    limit: u64,
) -> GatewayEnd
    ensures { OfBothEnds (EndsBy result limit) S.given S.left S.counts S.ended S.name K.taken K.counts K.name source.old source.new sink.old sink.new }
{
    'turns: for served in 0..limit {
        if let Err(end) = turn(rt, alloc, store, source, sink, clock) {
            return end;
        }
    }
    GatewayEnd::Limit
}
