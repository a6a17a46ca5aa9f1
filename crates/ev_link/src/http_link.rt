//! A link to etcd's JSON gateway over one HTTP connection.

ghost use Rattle.std.specs.Prelude.{◌≡◌, [], length, IfOk, string_bytes};
ghost use Rattle.std.specs.Option.{option_copied};
ghost use Rattle.ev_call.specs.Asks.{IsGrantable};
ghost use Rattle.ev_call.specs.Calls.{failures_after, with_call, calls_of};
ghost use Rattle.ev_call.specs.Fitting.{Fits};
ghost use Rattle.ev_http.specs.Taking.{told};
ghost use Rattle.ev_json.specs.Ranges.{AnswerFits};
ghost use Rattle.ev_call.specs.Addresses.{IsAddress};
ghost use Rattle.ev_link.specs.Asking.{SendsAsk, Exchanges, Calls, Receives, is_memory, failure_in, answer_of, state_after};
ghost use Rattle.ev_http.specs.Sinks.{OfBothEnds, sink_told};
ghost use Rattle.ev_link.specs.declared.http_link.State.TheVariants.{Open};

use crate::failure::LinkFailure;
use ev_call::{CallFault, Etcd};
use ev_http::{HttpFault, read_response, send_request};
use ev_json::{JsonFault, read_answer, what_is_read_fits, write_ask};
use ev_types::{Answer, Ask};
use std::alloc::Global;
use zx_base::Memory;
use zx_history::GhostHistory;
use zx_outside::{Sink, Source};
use zx_random::{HangsUp, LetsGo};

/// How a link stands.
#[derive(Clone, Copy)]
enum State {
    Open,
    /// An exchange failed, for this reason. What the connection holds is not known any more.
    Failed(LinkFailure),
    /// Memory ran out during an exchange.
    Starved,
}

/// A link over one HTTP connection: one request and one response a call. After a failure each call fails for the same reason, and
/// once memory ran out, each answers so; neither sends anything, since the next response may be that of an earlier ask.
#[derive(Drop)]
pub struct HttpLink<S, K> {
    source: S,
    sink: K,
    host: String,
    alloc: Global,
    state: State,
    failures: u64,
    asks: GhostHistory<Ask>,
    results: GhostHistory<Result<Answer, CallFault>>,
    ghost paired: { length asks.items ≡ length results.items },
}

/// Sends the ask as one request.
fn send_ask<K: Sink>(alloc: Global, sink: &mut K, host: &str, ask: &Ask) -> Result<(), HttpFault>
    ensures { SendsAsk result host.now ask.now (sink_told K.taken K.counts K.name sink.old) (sink_told K.taken K.counts K.name sink.new) }
{
    match write_ask(alloc, ask) {
        Ok((route, text)) => send_request(alloc, sink, host, route, text.as_slice()),
        Err(_) => Err(HttpFault::Memory),
    }
}

/// Reads the next response.
fn receive<S: Source>(alloc: Global, source: &mut S) -> Result<Vec<u8>, HttpFault>
    ensures { Receives result (told S.given S.left S.counts S.ended S.name source.old) (told S.given S.left S.counts S.ended S.name source.new) }
{
    let response = read_response(alloc, source);
    response
}

/// Sends the ask as one request, and reads the next response as its answer.
fn exchange<S: Source, K: Sink>(
    alloc: Global,
    source: &mut S,
    sink: &mut K,
    host: &str,
    ask: &Ask,
) -> Result<Answer, LinkFailure>
    ensures { OfBothEnds (Exchanges result host.now ask.now) S.given S.left S.counts S.ended S.name K.taken K.counts K.name source.old source.new sink.old sink.new }
{
    if let Err(fault) = send_ask(alloc, sink, host, ask) {
        return Err(LinkFailure::Http(fault));
    }
    let body = match receive(alloc, source) {
        Ok(body) => body,
        Err(fault) => return Err(LinkFailure::Http(fault)),
    };
    match read_answer(alloc, ask, body.as_slice()) {
        Ok(answer) => Ok(answer),
        Err(fault) => Err(LinkFailure::Json(fault)),
    }
}

/// Whether a failure is out of memory.
fn is_memory(failure: LinkFailure) -> bool
    ensures { result ≡ is_memory failure }
{
    match failure {
        LinkFailure::Http(HttpFault::Memory) => true,
        LinkFailure::Json(JsonFault::Memory) => true,
        _ => false,
    }
}

/// How a link stands after an exchange.
fn state_after(came: &Result<Answer, LinkFailure>) -> State
    ensures { result ≡ state_after came.now }
{
    match came {
        Ok(_) => State::Open,
        Err(failure) => {
            if is_memory(*failure) {
                State::Starved
            } else {
                State::Failed(*failure)
            }
        }
    }
}

/// What an exchange is answered as.
fn answer_of(came: Result<Answer, LinkFailure>) -> Result<Answer, CallFault>
    ensures { result ≡ answer_of came }
{
    match came {
        Ok(answer) => Ok(answer),
        Err(failure) => {
            if is_memory(failure) {
                Err(CallFault::Memory)
            } else {
                Err(CallFault::Failed)
            }
        }
    }
}

impl<S: Source + Drop, K: Sink + Drop> HttpLink<S, K> {
    /// A link over the two ends of a connection to a gateway. Nothing is sent yet. `host` is what each request names as its host: one
    /// or more bytes of visible ASCII.
    pub fn new(alloc: Global, source: S, sink: K, host: &str) -> Result<HttpLink<S, K>, Memory>
        requires { IsAddress host.now }
        ensures source { IfOk result (λ link. link.source ≡ source) }
        ensures sink { IfOk result (λ link. link.sink ≡ sink) }
        ensures host { IfOk result (λ link. string_bytes link.host ≡ host.now) }
        ensures open { IfOk result (λ link. link.state ≡ Open) }
        ensures failures { IfOk result (λ link. link.failures ≡ 0) }
        ensures told { IfOk result (λ link. calls_of link.asks.items link.results.items ≡ []) }
    {
        let host = String::from_str(alloc, host)?;
        Ok(HttpLink {
            source,
            sink,
            host,
            alloc,
            state: State::Open,
            failures: 0,
            asks: GhostHistory::new(),
            results: GhostHistory::new(),
        })
    }

    /// What each request names as its host.
    pub fn host(&self) -> &str
        ensures { result.now ≡ string_bytes self.now.host }
    {
        self.host.as_str()
    }

    /// Why the link failed; `None` where it did not, or only ran out of memory.
    pub fn last_failure(&self) -> Option<&LinkFailure>
        ensures { option_copied result ≡ failure_in self.now.state }
    {
        match &self.state {
            State::Failed(failure) => Some(failure),
            State::Open | State::Starved => None,
        }
    }

    /// One call, not yet counted.
    fn ask(&mut self, ask: &Ask) -> Result<Answer, CallFault>
        ensures calls { Calls self.old.state self.new.state result (string_bytes self.old.host) ask.now
            (told S.given S.left S.counts S.ended S.name self.old.source) (told S.given S.left S.counts S.ended S.name self.new.source)
            (sink_told K.taken K.counts K.name self.old.sink) (sink_told K.taken K.counts K.name self.new.sink) }
        ensures host { self.new.host ≡ self.old.host }
        ensures failures { self.new.failures ≡ self.old.failures }
        ensures asks { self.new.asks ≡ self.old.asks }
        ensures results { self.new.results ≡ self.old.results }
    {
        match self.state {
            State::Failed(_) => return Err(CallFault::Failed),
            State::Starved => return Err(CallFault::Memory),
            State::Open => {}
        }
        let came = exchange(
            self.alloc,
            &mut self.source,
            &mut self.sink,
            self.host.as_str(),
            ask,
        );
        self.state = state_after(&came);
        answer_of(came)
    }
}

impl<S: HangsUp + Drop, K: LetsGo + Drop> HttpLink<S, K> {
    /// Ends the connection, and gives back what both of its ends hold of the system. What was asked and answered stays told. Over the
    /// system's sockets a call afterwards fails as one does over a connection that broke.
    pub fn hang_up(&mut self)
        ensures source { told S.given S.left S.counts S.ended S.name self.new.source ≡ told S.given S.left S.counts S.ended S.name self.old.source }
        ensures sink { sink_told K.taken K.counts K.name self.new.sink ≡ sink_told K.taken K.counts K.name self.old.sink }
        ensures host { self.new.host ≡ self.old.host }
        ensures state { self.new.state ≡ self.old.state }
        ensures failures { self.new.failures ≡ self.old.failures }
        ensures asks { self.new.asks ≡ self.old.asks }
        ensures results { self.new.results ≡ self.old.results }
    {
        self.source.hang_up();
        self.sink.let_go();
    }
}

impl<S: Source + Drop, K: Sink + Drop> Etcd for HttpLink<S, K> {
    ghost use Rattle.std.specs.Prelude.{◌≡◌, Some, IfOk};
    ghost use Rattle.ev_call.specs.Asks.{IsGrantable};
    ghost use Rattle.ev_call.specs.Calls.{failures_after, with_call, calls_of};
    ghost use Rattle.ev_call.specs.Fitting.{Fits};
    ghost use Rattle.ev_http.specs.Taking.{told};
    ghost use Rattle.ev_json.specs.Ranges.{AnswerFits};
    ghost use Rattle.ev_link.specs.Asking.{Calls};
    ghost use Rattle.ev_http.specs.Sinks.{sink_told};

    ghost failures = { λ l. l.failures };

    ghost told = { λ l. Some (calls_of l.asks.items l.results.items) };

    #[tactic(auto, using(ev_call::proofs::Told::calls_push))]
    fn call(&mut self, ask: &Ask) -> Result<Answer, CallFault>
        requires { IsGrantable ask.now }
        ensures fits { IfOk result (Fits ask.now) }
        ensures counts { self.new.failures ≡ failures_after result self.old.failures }
        ensures told { Some (calls_of self.new.asks.items self.new.results.items) ≡ with_call (Some (calls_of self.old.asks.items self.old.results.items)) ask.now result }
        ensures numbers { IfOk result (AnswerFits ask.now) }
        ensures calls { Calls self.old.state self.new.state result (string_bytes self.old.host) ask.now
            (told S.given S.left S.counts S.ended S.name self.old.source) (told S.given S.left S.counts S.ended S.name self.new.source)
            (sink_told K.taken K.counts K.name self.old.sink) (sink_told K.taken K.counts K.name self.new.sink) }
        ensures host { self.new.host ≡ self.old.host }
    {
        let result = self.ask(ask);
        if let Err(CallFault::Failed) = &result {
            self.failures = self.failures.saturating_add(1);
        }
        self.asks = self.asks.and(ask);
        self.results = self.results.and(&result);
        what_is_read_fits();
        result
    }
}
