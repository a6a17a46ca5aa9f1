//! What stands under the lock of a shared store.

ghost use Rattle.std.specs.Prelude.{◌≡◌, ◌<◌, ℤ, All, List, true, Some, IfOk, OnOk, OnErr, vec_len, vec_capacity};
ghost use Rattle.ev_call.specs.Asks.{IsGrantable};
ghost use Rattle.ev_call.specs.Fitting.{Fits};
ghost use Rattle.ev_types.specs.Denials.{carry};
ghost use Rattle.ev_types.specs.Store as etcd;
ghost use Rattle.ev_store.specs.declared.fault.Denied.{Denied as Denial};
ghost use Rattle.ev_store.specs.FirstDenial.{first_denial};
ghost use Rattle.ev_shared.specs.History.{GoesOn, IsSettled, Replays, lapsed};
ghost use Rattle.ev_shared.specs.Terms.{IsLeft, IsSweptPartly, LapsesBy, Stay, swept, swept_one, terms_after};
ghost use Rattle.ev_shared.specs.declared.term.Term.{Term as Lasting};

use crate::event::Event;
use crate::term::{Term, begin, end_over, is_over};
use ev_store::{Store, StoreFault};
use ev_types::{Answer, Ask};
use std::alloc::Global;
use std::snapshot::Snapshot;
use zx_base::Memory;
use zx_history::GhostHistory;

/// The last revision that a store can stand at.
const LAST_REVISION: i64 = (1 << 62) - 1;

/// What stands under the lock: the store, with the history that it is the replay of, and how long its leases last.
#[derive(Drop)]
pub struct Kept {
    store: Store,
    first: Snapshot<Store>,
    events: GhostHistory<Event>,
    terms: Vec<Term>,
    closed: bool,
    ghost replays: { ∥ Replays first.value events.items store ∥₁ },
}

impl Kept {
    /// A store with no history yet. The terms of its leases begin with their next keepalives.
    #[tactic(auto, using(crate::proofs::Replaying::starts))]
    pub fn new(alloc: Global, store: Store) -> Kept
        ensures { result.store ≡ store }
    {
        Kept {
            first: Snapshot::of(&store),
            store,
            events: GhostHistory::new(),
            terms: Vec::new(alloc),
            closed: false,
        }
    }

    /// The present revision.
    pub fn revision(&self) -> i64
        ensures { result ≡ etcd.revision self.now.store }
    {
        self.store.revision()
    }

    /// Whether it was closed.
    pub fn is_closed(&self) -> bool
        ensures { result ≡ self.now.closed }
    {
        self.closed
    }

    /// Closes it, for good.
    pub fn close(&mut self)
        ensures closed { self.new.closed ≡ true }
        ensures store { self.new.store ≡ self.old.store }
    {
        self.closed = true;
    }

    /// Lets a lease lapse, unless the store is full.
    #[tactic(auto, using(crate::proofs::Replaying::goes_on, crate::proofs::Replaying::one_longer, crate::proofs::Replaying::as_long, crate::proofs::Lapsing::lapse_settles, crate::proofs::Lapsing::lapse_keeps, crate::proofs::Lapsing::lapsed_is))]
    fn lapse(&mut self, id: i64) -> Result<(), Memory>
        ensures lapses { OnOk result (self.new.store ≡ lapsed self.old.store id) }
        ensures settles { OnOk result (IsSettled self.new.store id) }
        ensures refused { OnErr result (self.new.store ≡ self.old.store) }
        ensures stays { (i : ℤ) → IsSettled self.old.store i → IsSettled self.new.store i }
        ensures terms { self.new.terms ≡ self.old.terms }
        ensures began { self.new.first ≡ self.old.first }
        ensures history { GoesOn self.old.events.items self.new.events.items }
    {
        match self.store.lapse(id) {
            Ok(_revision) => {
                self.events = self.events.and(&Event::Lapsed(id));
                Ok(())
            }
            Err(StoreFault::Denied(_)) => Ok(()),
            Err(StoreFault::Memory) => Err(Memory),
        }
    }

    /// Lets a lease lapse if its seconds have passed, unless the store is full.
    #[tactic(auto, using(crate::proofs::Replaying::as_long))]
    fn lapse_due(&mut self, now: u64, term: Term) -> Result<(), Memory>
        ensures swept { OnOk result (self.new.store ≡ swept_one now term self.old.store) }
        ensures lapses { OnOk result (LapsesBy now self.new.store term) }
        ensures refused { OnErr result (self.new.store ≡ self.old.store) }
        ensures stays { (i : ℤ) → IsSettled self.old.store i → IsSettled self.new.store i }
        ensures terms { self.new.terms ≡ self.old.terms }
        ensures began { self.new.first ≡ self.old.first }
        ensures history { GoesOn self.old.events.items self.new.events.items }
    {
        if is_over(now, term) {
            return self.lapse(term.id);
        }
        Ok(())
    }

    /// Lets each lease lapse whose seconds have passed, unless the store is full.
    #[tactic(auto, using(crate::proofs::Replaying::longer_still, crate::proofs::Sweeping::swept_so_far))]
    fn lapse_each(&mut self, now: u64) -> Result<(), Memory>
        ensures swept { OnOk result (self.new.store ≡ swept now self.old.terms.items self.old.store) }
        ensures lapses { OnOk result (All (LapsesBy now self.new.store) self.old.terms.items) }
        ensures refused { OnErr result (IsSweptPartly now self.old.terms.items self.old.store self.new.store) }
        ensures terms { self.new.terms ≡ self.old.terms }
        ensures began { self.new.first ≡ self.old.first }
        ensures history { GoesOn self.old.events.items self.new.events.items }
    {
        let mut index = 0;
        'terms: while index < self.terms.len() {
            let term = self.terms[index];
            self.lapse_due(now, term)?;
            index += 1;
        }
        Ok(())
    }

    /// Lets each lease lapse whose seconds have passed. A lapse that is denied since the store is full is left undone.
    pub fn lapse_over(&mut self, now: u64) -> Result<(), Memory>
        ensures swept { OnOk result (self.new.store ≡ swept now self.old.terms.items self.old.store) }
        ensures lapses { OnOk result (All (LapsesBy now self.new.store) self.old.terms.items) }
        ensures terms { OnOk result (Stay now self.new.store self.old.terms.items self.new.terms.items) }
        ensures kept { OnErr result (self.new.terms.items ≡ self.old.terms.items) }
        ensures refused { OnErr result (IsSweptPartly now self.old.terms.items self.old.store self.new.store) }
        ensures began { self.new.first ≡ self.old.first }
        ensures history { GoesOn self.old.events.items self.new.events.items }
    {
        self.lapse_each(now)?;
        if self.revision() < LAST_REVISION {
            end_over(&mut self.terms, now);
        }
        Ok(())
    }

    /// Carries out one ask.
    #[tactic(auto, using(crate::proofs::Replaying::goes_on, crate::proofs::Replaying::one_longer, crate::proofs::Replaying::as_long, crate::proofs::Carried::fits))]
    pub fn carry_out(&mut self, ask: &Ask) -> Result<Answer, StoreFault>
        requires { IsGrantable ask.now }
        ensures carried { IfOk result (λ a. carry self.old.store ask.now ≡ Some (self.new.store, a)) }
        ensures fits { IfOk result (Fits ask.now) }
        ensures first { (d : Denial) → result ≡ Err (StoreFault.Denied d) → first_denial self.old.store ask.now ≡ Some d }
        ensures stays { OnErr result (self.new.store ≡ self.old.store) }
        ensures terms { self.new.terms ≡ self.old.terms }
        ensures began { self.new.first ≡ self.old.first }
        ensures history { GoesOn self.old.events.items self.new.events.items }
    {
        let answer = self.store.carry_out(ask)?;
        let event = Event::Asked(Snapshot::of(ask), Snapshot::of(&answer));
        self.events = self.events.and(&event);
        Ok(answer)
    }

    /// Takes note of how long a lease lasts that was granted or kept alive at this moment.
    fn note(&mut self, now: u64, answer: &Answer)
        requires room { vec_len self.old.terms < vec_capacity self.old.terms }
        ensures terms { self.new.terms.items ≡ terms_after now answer.now self.old.terms.items }
        ensures store { self.new.store ≡ self.old.store }
        ensures began { self.new.first ≡ self.old.first }
        ensures history { self.new.events ≡ self.old.events }
    {
        let (id, seconds) = match answer {
            Answer::Granted { id, ttl, .. } => (*id, *ttl),
            Answer::Alive { ttl: 0, .. } => return,
            Answer::Alive { id, ttl, .. } => (*id, *ttl),
            Answer::Txn { .. } | Answer::Range { .. } => return,
        };
        let term = Term {
            id,
            seconds: seconds.unsigned_abs(),
            since: now,
        };
        begin(&mut self.terms, term);
    }

    /// Finds room for one more term.
    fn make_room(&mut self) -> Result<(), Memory>
        ensures room { OnOk result (vec_len self.new.terms < vec_capacity self.new.terms) }
        ensures terms { self.new.terms.items ≡ self.old.terms.items }
        ensures store { self.new.store ≡ self.old.store }
        ensures began { self.new.first ≡ self.old.first }
        ensures history { self.new.events ≡ self.old.events }
    {
        self.terms.reserve(1)?;
        Ok(())
    }

    /// Carries out one ask at this moment. Before it, each lease whose seconds have passed lapses, and no other; a lapse that is denied
    /// since the store is full is left undone. After a denial, and where memory runs out, leases may have lapsed; nothing else has
    /// changed.
    #[tactic(auto, using(crate::proofs::Replaying::longer_still, crate::proofs::Sweeping::left_before, crate::proofs::Sweeping::left_after))]
    pub fn call_at(&mut self, now: u64, ask: &Ask) -> Result<Answer, StoreFault>
        requires { IsGrantable ask.now }
        ensures carried { IfOk result (λ a. carry (swept now self.old.terms.items self.old.store) ask.now ≡ Some (self.new.store, a)) }
        ensures over { OnOk result (All (LapsesBy now (swept now self.old.terms.items self.old.store)) self.old.terms.items) }
        ensures fits { IfOk result (Fits ask.now) }
        ensures noted { IfOk result (λ a. (stay : List Lasting) × Stay now (swept now self.old.terms.items self.old.store) self.old.terms.items stay × (self.new.terms.items ≡ terms_after now a stay)) }
        ensures denied { (d : Denial) → result ≡ Err (StoreFault.Denied d) → self.new.store ≡ swept now self.old.terms.items self.old.store }
        ensures first { (d : Denial) → result ≡ Err (StoreFault.Denied d) → first_denial self.new.store ask.now ≡ Some d }
        ensures refused { result ≡ Err StoreFault.Memory → IsLeft now self.old.terms.items self.old.store self.new.terms.items self.new.store }
        ensures began { self.new.first ≡ self.old.first }
        ensures history { GoesOn self.old.events.items self.new.events.items }
    {
        self.lapse_over(now)?;
        self.make_room()?;
        let answer = self.carry_out(ask)?;
        self.note(now, &answer);
        Ok(answer)
    }
}
