//! A link over several endpoints.

ghost use Rattle.std.specs.Prelude.{◌≡◌, ◌<◌, ◌≤◌, ◌+◌, [], ◌∷◌, ◌++◌, length, All, true, IfOk};
ghost use Rattle.ev_call.specs.Asks.{IsGrantable};
ghost use Rattle.ev_call.specs.Calls.{calls_of, failures_after};
ghost use Rattle.ev_call.specs.Fitting.{Fits};
ghost use Rattle.ev_failover.specs.Endpoints.{IsSentBy};
ghost use Rattle.ev_failover.specs.Reading.{is_reading};
ghost use Rattle.ev_failover.specs.Turns.{Tries, answer_of, goes_on, place_after, places_after};

use crate::dial_endpoints::{DialEndpoints, name_all};
use crate::endpoints::{EndFault, Endpoints};
use crate::reading::is_reading;
use ev_call::{CallFault, Cluster, Etcd};
use ev_link::counted;
use ev_types::{Answer, Ask};
use zx_base::Memory;
use zx_history::GhostHistory;
use zx_net::Net;

/// A link over the endpoints of one etcd. It asks the current one, at first the first. An endpoint to which an ask was not sent, or at
/// which it failed, is the current one no longer: the next one is, and after the last the first.
#[derive(Drop)]
pub struct FailoverLink<E: Endpoints> {
    ends: E,
    current: u32,
    failures: u64,
    asks: GhostHistory<Ask>,
    results: GhostHistory<Result<Answer, CallFault>>,
    /// What the tries of the last call came to, in turn.
    tries: GhostHistory<Result<Answer, EndFault>>,
    ghost within: { current < E.size ends },
    ghost paired: { length asks.items ≡ length results.items },
}

impl<E: Endpoints + Drop> FailoverLink<E> {
    /// A link over these endpoints, of which the first is the current one. Nothing is asked yet.
    pub fn new(ends: E) -> FailoverLink<E>
        ensures ends { result.ends ≡ ends }
        ensures current { result.current ≡ 0 }
        ensures failures { result.failures ≡ 0 }
        ensures told { calls_of result.asks.items result.results.items ≡ [] }
    {
        // Proof only: there is an endpoint.
        ends.size();
        FailoverLink {
            ends,
            current: 0,
            failures: 0,
            asks: GhostHistory::new(),
            results: GhostHistory::new(),
            tries: GhostHistory::new(),
        }
    }

    /// The endpoints.
    pub fn ends(&self) -> &E
        ensures { result.now ≡ self.now.ends }
    {
        &self.ends
    }

    /// The number of the endpoint that is asked next.
    pub fn current(&self) -> u32
        ensures { result ≡ self.now.current }
    {
        self.current
    }
}

/// The current endpoint after a try of it.
fn place_after(size: u32, endpoint: u32, came: &Result<Answer, EndFault>) -> u32
    requires { endpoint < size }
    ensures place { result ≡ place_after size endpoint came.now }
    ensures within { result < size }
{
    match came {
        Ok(_) | Err(EndFault::Memory) => endpoint,
        Err(EndFault::NotSent | EndFault::Failed) => {
            if endpoint + 1 < size { endpoint + 1 } else { 0 }
        }
    }
}

/// Whether a call goes on to the next endpoint.
fn goes_on(ask: &Ask, came: &Result<Answer, EndFault>) -> bool
    ensures { result ≡ goes_on ask.now came.now }
{
    match came {
        Ok(_) | Err(EndFault::Memory) => false,
        Err(EndFault::NotSent) => true,
        Err(EndFault::Failed) => is_reading(ask),
    }
}

/// What a call answers whose last try came to this.
fn answer_of(came: Result<Answer, EndFault>) -> Result<Answer, CallFault>
    ensures { result ≡ answer_of came }
{
    match came {
        Ok(answer) => Ok(answer),
        Err(EndFault::NotSent | EndFault::Failed) => Err(CallFault::Failed),
        Err(EndFault::Memory) => Err(CallFault::Memory),
    }
}

/// Tries the current endpoint.
fn try_one<E: Endpoints>(
    ends: &mut E,
    current: &mut u32,
    size: u32,
    ask: &Ask,
) -> Result<Answer, EndFault>
    requires granted { IsGrantable ask.now }
    requires size { E.size ends.old ≡ size }
    requires within { current.old < size }
    ensures fits { IfOk result (Fits ask.now) }
    ensures size { E.size ends.new ≡ size }
    ensures sent { IsSentBy result current.old ask.now (E.sent ends.old) (E.sent ends.new) }
    ensures came { E.came ends.old current.old ask.now result ends.new }
    ensures place { current.new ≡ place_after size current.old result }
    ensures within { current.new < size }
{
    let came = ends.call_at(*current, ask);
    *current = place_after(size, *current, &came);
    came
}

/// Tries the endpoints in turn, from the current one on, until a call goes on no further or each had its turn. Gives what the last try
/// came to; `earlier` has the others.
fn try_in_turn<E: Endpoints>(
    ends: &mut E,
    current: &mut u32,
    ask: &Ask,
    earlier: &mut GhostHistory<Result<Answer, EndFault>>,
) -> Result<Answer, EndFault>
    requires granted { IsGrantable ask.now }
    requires within { current.old < E.size ends.old }
    requires none { earlier.old.items ≡ [] }
    ensures fits { IfOk result (Fits ask.now) }
    ensures size { E.size ends.new ≡ E.size ends.old }
    ensures within { current.new < E.size ends.old }
    ensures tries { Tries E.came E.sent ask.now (E.size ends.old) current.old ends.old (earlier.new.items ++ result ∷ []) ends.new }
    ensures place { current.new ≡ places_after (E.size ends.old) current.old (earlier.new.items ++ result ∷ []) }
    ensures went_on { All (λ r. goes_on ask.now r ≡ true) earlier.new.items }
    ensures once { length earlier.new.items + 1 ≤ E.size ends.old }
    ensures over { goes_on ask.now result ≡ true → length earlier.new.items + 1 ≡ E.size ends.old }
{
    let size = ends.size();
    let mut came = try_one(ends, current, size, ask);
    let mut tried = 1;
    'ends: while tried < size && goes_on(ask, &came) {
        *earlier = earlier.and(&came);
        came = try_one(ends, current, size, ask);
        tried += 1;
    }
    came
}

impl<E: Endpoints + Drop> Etcd for FailoverLink<E> {
    ghost use Rattle.std.specs.Prelude.{◌≡◌, false, All, Some, Err, IfOk};
    ghost use Rattle.ev_types.specs.Store.{Store};
    ghost use Rattle.ev_call.specs.Asks.{IsGrantable};
    ghost use Rattle.ev_call.specs.Calls.{calls_of, failures_after, with_call};
    ghost use Rattle.ev_call.specs.Fitting.{Fits};
    ghost use Rattle.ev_call.specs.Honest.{CarriesCall, IsHonestAnswer};
    ghost use Rattle.ev_failover.specs.Reading.{is_reading};
    ghost use Rattle.ev_failover.specs.Theorem.{AreOfOneStore, FailsOnly, NoneTwice, SendsOnce};
    ghost use Rattle.ev_failover.specs.Turns.{IsCall, Tries, places, places_after};

    ghost failures = { λ l. l.failures };

    ghost told = { λ l. Some (calls_of l.asks.items l.results.items) };

    #[tactic(auto, using(ev_call::proofs::Told::calls_push))]
    fn call(&mut self, ask: &Ask) -> Result<Answer, CallFault>
        requires { IsGrantable ask.now }
        ensures fits { IfOk result (Fits ask.now) }
        ensures counts { self.new.failures ≡ failures_after result self.old.failures }
        ensures told { Some (calls_of self.new.asks.items self.new.results.items) ≡ with_call (Some (calls_of self.old.asks.items self.old.results.items)) ask.now result }
        ensures size { E.size self.new.ends ≡ E.size self.old.ends }
        // The endpoints are tried in turn, from the current one on.
        ensures tries { Tries E.came E.sent ask.now (E.size self.old.ends) self.old.current self.old.ends self.new.tries.items self.new.ends }
        ensures current { self.new.current ≡ places_after (E.size self.old.ends) self.old.current self.new.tries.items }
        ensures comes { IsCall ask.now (E.size self.old.ends) self.new.tries.items result }
        // No endpoint is tried twice.
        ensures once { NoneTwice (places (E.size self.old.ends) self.old.current self.new.tries.items) }
        // An ask that does not only read is sent at most once.
        ensures sends { is_reading ask.now ≡ false → SendsOnce ask.now (E.sent self.old.ends) (E.sent self.new.ends) }
        // The call fails only where such an ask was sent and failed, or no endpoint answered.
        ensures fails { result ≡ Err CallFault.Failed → FailsOnly ask.now (E.size self.old.ends) self.new.tries.items }
        // An answer is as honest as the endpoints' are.
        ensures honest { (s t : Store) → All (λ r. IfOk r (IsHonestAnswer s t ask.now)) self.new.tries.items → IfOk result (IsHonestAnswer s t ask.now) }
        // Over endpoints of one store that nobody else changes, so is the link.
        ensures alone { (store : E → Store) → AreOfOneStore E.came store ask.now → CarriesCall (store self.old.ends) ask.now result (store self.new.ends) }
    {
        let mut earlier = GhostHistory::new();
        let last = try_in_turn(&mut self.ends, &mut self.current, ask, &mut earlier);
        self.tries = earlier.and(&last);
        let result = answer_of(last);
        self.failures = counted(self.failures, &result);
        self.asks = self.asks.and(ask);
        self.results = self.results.and(&result);
        result
    }
}

impl<N: Net + Drop> Cluster for FailoverLink<DialEndpoints<N>> {
    ghost use Rattle.std.specs.Prelude.{◌≡◌, ◌+◌, length, All, None, Some, OnErr, OnOk, option_map, string_bytes, vec_len};
    ghost use Rattle.ev_addresses.specs.Lists.{addresses_in};
    ghost use Rattle.ev_call.specs.Addresses.{IsAddress};
    ghost use Rattle.ev_call.specs.Calls.{calls_of};

    /// Names the endpoints that the calls after this one ask, and makes the first of them the current one: the first five addresses of
    /// the text that are not empty, with commas between them, each `HOST:PORT`; `localhost` where there is none. The text is one or
    /// more bytes of visible ASCII. Nothing is dialled yet. Where memory is refused, nothing is changed.
    fn to(&mut self, endpoint: &str) -> Result<(), Memory>
        requires { IsAddress endpoint.now }
        ensures failures { self.new.failures ≡ self.old.failures }
        ensures told { Some (calls_of self.new.asks.items self.new.results.items) ≡ Some (calls_of self.old.asks.items self.old.results.items) }
        ensures named { OnOk result (option_map (λ n. string_bytes n.text) self.new.ends.named ≡ Some endpoint.now) }
        ensures size { OnOk result (vec_len self.new.ends.others + 1 ≡ length (addresses_in endpoint.now)) }
        ensures current { OnOk result (self.new.current ≡ 0) }
        ensures first { OnOk result (self.new.ends.first ≡ None) }
        ensures others { OnOk result (All (λ l. l ≡ None) self.new.ends.others.items) }
        ensures same { OnErr result ((self.new.ends.named ≡ self.old.ends.named) × (self.new.ends.first ≡ self.old.ends.first) × (self.new.ends.others ≡ self.old.ends.others)) }
        ensures stays { OnErr result (self.new.current ≡ self.old.current) }
        ensures net { self.new.ends.net ≡ self.old.ends.net }
    {
        name_all(
            self.ends.alloc,
            &mut self.ends.named,
            &mut self.ends.first,
            &mut self.ends.others,
            endpoint,
        )?;
        self.current = 0;
        Ok(())
    }

    fn at(&self) -> u32
        ensures { result ≡ self.now.current }
    {
        self.current
    }
}
