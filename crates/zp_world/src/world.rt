//! The world, and what a script may do to it.

ghost use Rattle.std.specs.Prelude.{◌≡◌, IfOk, Some, pos, Err};
ghost use Rattle.std.specs.List.{AllByRecursion};
ghost use Rattle.ev_types.specs.Denials.{carry};
ghost use Rattle.ev_types.specs.Store.{new_store, present, revision};
ghost use Rattle.ev_types.specs.declared.answer.Answer.{Answer as AnyAnswer};
ghost use Rattle.zk_transcript.specs.History.{after, updates as updates_of, begin_lines};
ghost use Rattle.zn_layout.specs.Begin.{begin_ask as first_ask};
ghost use Rattle.zn_layout.specs.StandsFor.{StandsFor};
ghost use Rattle.zp_script.specs.Conversing.{conversations as conversations_of};
ghost use Rattle.zp_script.specs.Runs.{IsFirst, world_over};
ghost use Rattle.zt_text.specs.Transcripts.{IsWellFormed};
ghost use Rattle.zp_world.specs.Activities.{AreWithin};
ghost use Rattle.zp_world.specs.Applying.{Applies, IsOfScript, IsSpent};

use crate::activities::Activities;
use crate::fault::ApplyFault;
use crate::strays::Strays;
use ev_store::{Store, StoreFault};
use std::alloc::Global;
use std::marker::Model;
use zk_service::{Fresh, UpdateKind, UpdateRec};
use zk_transcript::{Conversation, TranscriptLine};
use zn_layout::{begin_ask, begin_stands};
use zp_ledger::{Entries, Transcript};
use zt_text::Happening;
use zx_base::Memory;

/// One etcd, a clock, and the connections and reapers of all proxies, with the transcript of what happened.
#[derive(Drop)]
pub struct World {
    pub(crate) alloc: Global,
    pub(crate) store: Store,
    /// The script's clock, in milliseconds.
    pub(crate) clock: u64,
    pub(crate) activities: Activities,
    pub(crate) strays: Strays,
    pub(crate) transcript: Transcript,
    pub(crate) entries: Entries,
    /// The zxid of the last update, where it was looked up since the store changed.
    pub(crate) zxid: Option<i64>,
}

impl Model for World {
    ghost use Rattle.std.specs.Prelude.{◌≡◌, ◌≤◌, IfSome, ℕ};
    ghost use Rattle.std.specs.Coded.{codes, coded_ℕ};
    ghost use Rattle.std.specs.FinMap as map;
    ghost use Rattle.ev_store.specs.Codes.{store_code};
    ghost use Rattle.zk_model.specs.PathSets.{coded_watches};
    ghost use Rattle.std.specs.Ordering.{nat_cmp};
    ghost use Rattle.zp_script.specs.Worlds.{World as TheWorld, Conn, zxid_at};
    ghost use Rattle.zk_model.specs.Limits.{max_time};

    ghost Value = { TheWorld };

    ghost coded = { Prim.hlevel (codes, store_code, map.code {K = ℕ} {X = Conn} {R = nat_cmp} coded_ℕ (Prim.hlevel (codes, coded_watches))) };

    ghost view = { λ w. record {
      store = w.store;
      clock = w.clock;
      conns = w.activities;
      strays = w.strays;
      lines = w.transcript;
      entries = w.entries;
    } };

    ghost invariant = { λ w. (w.clock ≤ max_time) × IfSome w.zxid (λ z. z ≡ zxid_at w.store) };
}

impl World {
    /// A world in which nothing has happened: the store holds the root alone, made at time 0.
    pub fn new(alloc: Global) -> Result<World, Memory>
        ensures first { IfOk result IsFirst }
        ensures formed { IfOk result (λ w. AllByRecursion IsWellFormed w.lines) }
        ensures within { IfOk result (λ w. AreWithin w.conns) }
    {
        begin_stands();
        let store = first_store(alloc)?;
        let world = World::over(alloc, store)?;
        world.lines();
        world.activities.are_within();
        Ok(world)
    }

    /// A world over a store that holds the root alone.
    fn over(alloc: Global, store: Store) -> Result<World, Memory>
        requires revision { revision store ≡ pos 2 }
        requires stands { StandsFor (present store) (after (begin_lines 0)) }
        ensures { IfOk result (λ w. w ≡ world_over store) }
    {
        let zxid = store.revision();
        let mut store = store;
        let head = crate::head::head_of(alloc, &mut store)?;
        let mut transcript = Transcript::new(alloc);
        transcript.push_update(zxid, UpdateKind::Begin { now: 0 })?;
        let mut entries = Entries::new(alloc);
        entries.add(head.as_ref())?;
        Ok(World {
            alloc,
            store,
            clock: 0,
            activities: Activities::new(alloc),
            strays: Strays::new(alloc),
            transcript,
            entries,
            zxid: None,
        })
    }

    /// The transcript so far. Its text has one reading.
    pub fn lines(&self) -> &[TranscriptLine]
        ensures lines { result.now ≡ self.now.lines }
        ensures formed { AllByRecursion IsWellFormed self.now.lines }
    {
        self.transcript.lines()
    }

    /// The updates among the lines, in order.
    pub fn updates(&self) -> &[UpdateRec]
        ensures { result.now ≡ updates_of self.now.lines }
    {
        self.transcript.updates()
    }

    /// The lines of each connection but its updates, in the order in which they opened. They are copied; the time is linear in
    /// the lines but for the logarithm of the number of connections.
    pub fn conversations(&self) -> Result<Vec<Conversation>, Memory>
        ensures { IfOk result (λ found. found.items ≡ conversations_of self.now.lines) }
    {
        self.transcript.conversations(self.alloc)
    }

    /// Applies one happening, if it is possible. The number of a session that is offered or reaped is at least 1. Once memory
    /// was refused the world changes no more: its lines stay, and each later call answers `Memory`.
    pub fn apply(&mut self, happening: Happening) -> Result<(), ApplyFault>
        requires { IsOfScript happening }
        ensures applies { Applies self.old happening result self.new }
        ensures spent { result ≡ Err ApplyFault.Memory → IsSpent self.new }
        ensures again { IsSpent self.old → (result ≡ Err ApplyFault.Memory) × (self.new ≡ self.old) }
        ensures formed { AllByRecursion IsWellFormed self.new.lines }
        ensures within { AreWithin self.new.conns }
    {
        let applied = self.apply_unless_spent(happening);
        self.transcript.lines();
        self.activities.are_within();
        applied
    }

    /// Applies a happening, unless the world is spent: once out of memory it has no entry any more, not even that of the first
    /// update.
    fn apply_unless_spent(&mut self, happening: Happening) -> Result<(), ApplyFault>
        requires { IsOfScript happening }
        ensures applies { Applies self.old happening result self.new }
        ensures spent { result ≡ Err ApplyFault.Memory → IsSpent self.new }
        ensures again { IsSpent self.old → (result ≡ Err ApplyFault.Memory) × (self.new ≡ self.old) }
    {
        if self.entries.len() == 0 {
            return Err(ApplyFault::Memory);
        }
        let applied = self.applied(happening);
        if let Err(ApplyFault::Memory) = applied {
            self.entries = Entries::new(self.alloc);
        }
        applied
    }

    fn applied(&mut self, happening: Happening) -> Result<(), ApplyFault>
        requires { IsOfScript happening }
        ensures { Applies self.old happening result self.new }
    {
        match happening {
            Happening::Open {
                connection,
                proxy,
                id,
                passwd,
                layout,
            } => {
                let fresh = Fresh { id, passwd, layout };
                self.open_line(connection, proxy, fresh)
            }
            Happening::Frame { connection, bytes } => self.frame_line(connection, bytes),
            Happening::Arrive { connection, bytes } => self.bytes_line(connection, bytes),
            Happening::Exec { connection } => self.exec_line(connection),
            Happening::Answer { connection } => self.answer_line(connection),
            Happening::Cut { connection } => self.cut_line(connection),
            Happening::Refuse { connection } => self.refuse_line(connection),
            Happening::Stray { number } => self.stray_line(number),
            Happening::Entry { connection } => self.entry_line(connection),
            Happening::Lag { connection } => self.lag_line(connection),
            Happening::End { connection } => self.end_line(connection),
            Happening::Restart { proxy } => self.restart_line(proxy),
            Happening::Lapse { id } => self.lapse_line(id),
            Happening::Foreign { key, value } => self.foreign_line(key, value),
            Happening::Reap {
                connection,
                proxy,
                id,
            } => self.reap_line(connection, proxy, id),
            Happening::Tick { millis } => self.tick_line(millis),
            Happening::Settle { connection } => self.settle_line(connection),
        }
    }
}

/// A store that holds the root alone, made at time 0.
fn first_store(alloc: Global) -> Result<Store, Memory>
    ensures { IfOk result (λ s. (a : AnyAnswer) × (carry new_store (first_ask 0) ≡ Some (s, a))) }
{
    begin_stands();
    let mut store = Store::new(alloc)?;
    let ask = begin_ask(alloc, 0)?;
    match store.carry_out(&ask) {
        Ok(_) => Ok(store),
        Err(StoreFault::Denied(_)) => unreachable!(),
        Err(StoreFault::Memory) => Err(Memory),
    }
}
