//! The store carries out what was asked.

ghost use Rattle.std.specs.Prelude.{◌≡◌, IfOk, IfSome, None, OnOk, Some};
ghost use Rattle.ev_store.specs.Asks.{IsGrantable};
ghost use Rattle.zs_session.specs.Answering.{IsAnswerTo};
ghost use Rattle.zt_text.specs.declared.script.Happening.TheVariants as line;
ghost use Rattle.zt_text.specs.Transcripts.{IsWellFormedKind};
ghost use Rattle.zp_script.specs.Carrying.{CarriesOut, Executes, ExecutesStray, ShowsUpdate};
ghost use Rattle.zp_script.specs.Faults.{fault};
ghost use Rattle.zp_script.specs.Worlds.{zxid_at};
ghost use Rattle.zp_world.specs.Asking.{Asks, Shows, asked_out};
ghost use Rattle.zp_world.specs.Flying.{IsCarried, IsFit};

use crate::activity::Activity;
use crate::head::head_of;
use crate::world::World;
use ev_store::StoreFault;
use ev_types::{Answer, Ask};
use zk_service::UpdateKind;
use zp_script::{Asking, Flight};
use zx_base::Memory;

/// More updates than any memory holds, since each has an entry.
const MAX_ENTRIES: usize = 2_305_843_009_213_693_952;

impl World {
    /// The zxid of the last update.
    pub(crate) fn last_zxid(&mut self) -> Result<i64, Memory>
        ensures same { self.new ≡ self.old }
        ensures zxid { IfOk result (λ z. z ≡ zxid_at self.old.store) }
    {
        if let Some(zxid) = self.zxid {
            return Ok(zxid);
        }
        let zxid = match head_of(self.alloc, &mut self.store)? {
            Some(head) => head.mod_revision,
            None => 0,
        };
        self.zxid = Some(zxid);
        Ok(zxid)
    }

    /// What a connection or a reaper asked is carried out.
    pub(crate) fn execute(&mut self, connection: u32) -> Result<(), Memory>
        requires { fault self.old (line.Exec connection) ≡ None }
        ensures { OnOk result (Executes connection self.old self.new) }
    {
        let Some(activity) = self.activities.take(connection)? else {
            unreachable!()
        };
        let Activity {
            seat,
            actor,
            flight,
        } = activity;
        let Some(asking) = asking_out(flight) else {
            unreachable!()
        };
        let flight = self.carry(&asking)?;
        self.activities.put(
            connection,
            Activity {
                seat,
                actor,
                flight: Some(flight),
            },
        )
    }

    /// A stray is carried out; nobody takes its answer.
    pub(crate) fn execute_stray(&mut self, number: u32) -> Result<(), Memory>
        requires { fault self.old (line.Stray number) ≡ None }
        ensures { OnOk result (ExecutesStray number self.old self.new) }
    {
        let Some(asking) = self.strays.take(number) else {
            unreachable!()
        };
        self.carry(&asking)?;
        Ok(())
    }

    /// What the store does with an ask. Where that changed the head it was an update, which has a line and an entry.
    #[tactic(auto, using(crate::proofs::Carried::carried_shown, crate::proofs::Carried::carried_denied))]
    fn carry(&mut self, asking: &Asking) -> Result<Flight, Memory>
        requires { IsFit asking.now }
        ensures answer { IfOk result (IsCarried asking.now.ask) }
        ensures carries { IfOk result (λ flight. CarriesOut self.old asking.now flight self.new) }
    {
        let before = self.last_zxid()?;
        match self.ask(&asking.ask)? {
            Some(answer) => {
                self.show(before, asking.kind)?;
                Ok(Flight::Carried(answer))
            }
            None => Ok(Flight::Denied),
        }
    }

    /// What the store answers to an ask, or None where it denies it. What it did is not shown yet.
    fn ask(&mut self, ask: &Ask) -> Result<Option<Answer>, Memory>
        requires { IsGrantable ask.now }
        ensures answer { IfOk result (λ a. IfSome a (IsAnswerTo ask.now)) }
        ensures asks { IfOk result (λ a. Asks self.old ask.now a self.new) }
    {
        let revision = self.store.revision();
        let zxid = self.zxid;
        self.zxid = None;
        match self.store.carry_out(ask) {
            Ok(answer) => {
                if self.store.revision() == revision {
                    self.zxid = zxid;
                }
                Ok(Some(answer))
            }
            Err(StoreFault::Denied(_)) => Ok(None),
            Err(StoreFault::Memory) => Err(Memory),
        }
    }

    /// Where the head is not the one of this zxid any more, an ask of this kind was an update.
    fn show(&mut self, before: i64, kind: Option<UpdateKind>) -> Result<(), Memory>
        requires { IfSome kind IsWellFormedKind }
        ensures { OnOk result (Shows self.old before kind self.new) }
    {
        let zxid = self.last_zxid()?;
        if before == zxid {
            return Ok(());
        }
        match kind {
            Some(kind) => self.show_update(zxid, kind),
            None => Ok(()),
        }
    }

    /// The update that left the head.
    fn show_update(&mut self, zxid: i64, kind: UpdateKind) -> Result<(), Memory>
        requires formed { IsWellFormedKind kind }
        requires zxid { zxid ≡ zxid_at self.old.store }
        ensures { OnOk result (ShowsUpdate self.old self.old.store (Some kind) self.new) }
    {
        if self.entries.len() >= MAX_ENTRIES {
            return Err(Memory);
        }
        let head = head_of(self.alloc, &mut self.store)?;
        self.transcript.push_update(zxid, kind)?;
        self.entries.add(head.as_ref())
    }
}

/// What was asked and is not carried out.
fn asking_out(flight: Option<Flight>) -> Option<Asking>
    ensures { result ≡ asked_out flight }
{
    match flight {
        Some(Flight::Out(asking)) => Some(asking),
        Some(Flight::Carried(_)) => None,
        Some(Flight::Denied) => None,
        None => None,
    }
}
