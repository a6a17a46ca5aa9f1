//! An answer, a failure or an entry is delivered.

ghost use Rattle.std.specs.Prelude.{◌≡◌, ◌+◌, ◌≤ℤ◌, length, [], pos, false, Some, None, IfSome, OnOk, option_copied};
ghost use Rattle.zk_service.specs.declared.cause.Cause.TheVariants as cause;
ghost use Rattle.zk_service.specs.declared.cause.Ended.TheVariants as finish;
ghost use Rattle.zp_script.specs.Effects.{Delivers, EndsBy, EntersBy, LagsBy, new_reap, new_reaper};
ghost use Rattle.zp_script.specs.Entries.{cursor_at, next_entry};
ghost use Rattle.zp_script.specs.Faults.{ask_fault, fault, flight_at};
ghost use Rattle.zp_script.specs.Handing.{AnswerComesTo, FailureComes, FailureComesTo, Handed, Reaps, landed};
ghost use Rattle.zp_script.specs.Kinds.{kind_of_reap};
ghost use Rattle.zp_script.specs.Worlds.{Conn, Connection, conn_at, is_closed_actor, with_conn};
ghost use Rattle.zp_script.specs.declared.flight.Flight.TheVariants.{Carried};
ghost use Rattle.zp_step.specs.Stages.{Core as AnyCore, counted_up, is_shut};
ghost use Rattle.zp_step.specs.Steps.{IsFit};
ghost use Rattle.zs_reap.specs.Steps.{IsReaperHeld, MayStepReaper};
ghost use Rattle.zt_text.specs.declared.script.Happening.TheVariants as line;
ghost use Rattle.zt_text.specs.Transcripts.{IsWellFormedKind};
ghost use Rattle.zp_world.specs.Activities.{actor_of};
ghost use Rattle.zp_world.specs.Doing.{ReapsFrom, Stepped, ended, left, seated};
ghost use Rattle.zp_world.specs.Flying.{IsActive, IsFitFlight, LeavesFree, MayFail};

use crate::activity::{Activity, Actor, Seat};
use crate::arriving::Arrival;
use crate::formed::kind_is_formed;
use crate::refusals::MAX_KEPT;
use crate::world::World;
use ev_types::Answer;
use zk_service::{Cause, Ended, UpdateKind};
use zp_core::Core;
use zp_script::{Asking, Flight};
use zp_step::Input;
use zs_reap::{Phase, ReapStep, Reaper};
use zs_session::StepFault;
use zx_base::{Bytes, Memory};

impl World {
    /// An open connection is handed this. It has asked nothing that is not answered, or the input ends it.
    pub(crate) fn hand(&mut self, connection: u32, input: &Input) -> Result<(), Memory>
        requires { (x : Conn) (core : AnyCore) → conn_at connection self.old ≡ Some x → x.actor ≡ Connection core → IsFit core input.now × LeavesFree x.flight input.now }
        ensures { OnOk result ((x : Conn) (core : AnyCore) → conn_at connection self.old ≡ Some x → x.actor ≡ Connection core → Handed connection [] self.old input.now self.new) }
    {
        let Some(activity) = self.activities.take(connection)? else {
            return Ok(());
        };
        let Activity {
            seat,
            actor,
            flight,
        } = activity;
        match actor {
            Actor::Connection(core) => self.step(connection, seat, core, flight, input),
            Actor::Reaper(_) | Actor::Closed => self.activities.put(
                connection,
                Activity {
                    seat,
                    actor,
                    flight,
                },
            ),
        }
    }

    /// A connection takes a step, and what it does is done.
    fn step(
        &mut self,
        connection: u32,
        seat: Seat,
        mut core: Box<Core>,
        flight: Option<Flight>,
        input: &Input,
    ) -> Result<(), Memory>
        requires open { is_shut core.value.stage ≡ false }
        requires fit { IsFit core.value input.now }
        requires free { LeavesFree flight input.now }
        requires flight { IsFitFlight flight }
        ensures { OnOk result (Stepped connection [] self.old (left seat) core.value flight input.now self.new) }
    {
        let out = core.step(input, self.clock)?;
        let mut after = Vec::new(self.alloc).into_iter();
        // No frame is shown, so its zxid says nothing.
        let arrival = Arrival {
            connection,
            zxid: 0,
        };
        self.act(arrival, seat, core, flight, out, &mut after)
    }

    /// The answer to an ask is delivered. That of a denied ask is a failure.
    pub(crate) fn deliver(&mut self, connection: u32) -> Result<(), Memory>
        requires { fault self.old (line.Answer connection) ≡ None }
        ensures { OnOk result (Delivers connection self.old self.new (flight_at connection self.old)) }
    {
        let Some(activity) = self.activities.take(connection)? else {
            return Ok(());
        };
        let Activity {
            seat,
            actor,
            flight,
        } = activity;
        match flight {
            Some(Flight::Carried(answer)) => self.deliver_answer(connection, seat, actor, answer),
            Some(Flight::Denied) => self.deliver_failure(connection, seat, actor, None),
            Some(Flight::Out(_)) => unreachable!(),
            None => unreachable!(),
        }
    }

    fn deliver_answer(
        &mut self,
        connection: u32,
        seat: Seat,
        actor: Actor,
        answer: Answer,
    ) -> Result<(), Memory>
        requires active { IsActive (actor_of actor) (Some (Carried answer)) }
        requires open { is_closed_actor (actor_of actor) ≡ false }
        ensures { OnOk result (AnswerComesTo connection (with_conn self.old connection (seated seat (actor_of actor) None)) (seated seat (actor_of actor) None) answer self.new (actor_of actor)) }
    {
        match actor {
            Actor::Connection(core) => {
                self.step(connection, seat, core, None, &Input::Answer(answer))
            }
            Actor::Reaper(reaper) => self.reap_on(connection, seat, reaper, Some(&answer)),
            Actor::Closed => self.close(connection, seat),
        }
    }

    /// An asker is told that its ask failed. If it is not carried out yet, it may be later.
    pub(crate) fn fail(&mut self, connection: u32) -> Result<(), Memory>
        requires { ask_fault connection self.old None ≡ None }
        ensures { OnOk result (FailureComes connection self.old self.new) }
    {
        let Some(activity) = self.activities.take(connection)? else {
            return Ok(());
        };
        let Activity {
            seat,
            actor,
            flight,
        } = activity;
        self.deliver_failure(connection, seat, actor, flight)
    }

    /// An asker is told that its ask failed, and the ask is never carried out.
    pub(crate) fn refuse(&mut self, connection: u32) -> Result<(), Memory>
        requires { ask_fault connection self.old None ≡ None }
        ensures { OnOk result (FailureComes connection (landed connection self.old) self.new) }
    {
        let Some(activity) = self.activities.take(connection)? else {
            return Ok(());
        };
        let Activity { seat, actor, .. } = activity;
        self.deliver_failure(connection, seat, actor, None)
    }

    fn deliver_failure(
        &mut self,
        connection: u32,
        seat: Seat,
        actor: Actor,
        flight: Option<Flight>,
    ) -> Result<(), Memory>
        requires may { MayFail (actor_of actor) }
        requires fit { IsFitFlight flight }
        requires open { is_closed_actor (actor_of actor) ≡ false }
        ensures { OnOk result (FailureComesTo connection (with_conn self.old connection (seated seat (actor_of actor) flight)) (seated seat (actor_of actor) flight) self.new (actor_of actor)) }
    {
        match actor {
            Actor::Connection(core) => self.step(connection, seat, core, flight, &Input::Failed),
            Actor::Reaper(_reaper) => {
                self.end_reaper(connection, seat, Ended::Cause(Cause::LinkFault), flight)
            }
            Actor::Closed => self.close(connection, seat),
        }
    }

    /// The entry after the cursor is delivered.
    pub(crate) fn enter(&mut self, connection: u32) -> Result<(), Memory>
        requires { fault self.old (line.Entry connection) ≡ None }
        ensures { OnOk result (EntersBy connection self.old self.new (next_entry connection self.old)) }
    {
        let Some(cursor) = self.cursor_of(connection) else {
            return Ok(());
        };
        self.entries.are_numbered();
        match self.entries.after_cursor(cursor)? {
            Some(entry) => self.hand(connection, &Input::Entry(entry)),
            None => Ok(()),
        }
    }

    /// A connection is told that the entry after its cursor is no longer kept.
    pub(crate) fn lag(&mut self, connection: u32) -> Result<(), Memory>
        requires { fault self.old (line.Lag connection) ≡ None }
        ensures { OnOk result (LagsBy connection self.old self.new (cursor_at connection self.old)) }
    {
        let Some(cursor) = self.cursor_of(connection) else {
            return Ok(());
        };
        let lost = self.entries.len().saturating_sub(MAX_KEPT as usize);
        let Ok(floor) = i64::try_from(lost) else {
            return Err(Memory);
        };
        self.hand(connection, &Input::Lagged { cursor, floor })
    }

    /// The client's stream ends.
    pub(crate) fn end(&mut self, connection: u32) -> Result<(), Memory>
        requires { fault self.old (line.End connection) ≡ None }
        ensures { OnOk result (EndsBy connection self.old self.new (conn_at connection self.old)) }
    {
        let place = self.end_of(connection);
        self.hand(connection, &Input::ClientEnd { place })
    }

    /// How many bytes of its client came.
    fn end_of(&self, connection: u32) -> u64
        ensures { (x : Conn) → conn_at connection self.now ≡ Some x → result ≡ counted_up (x.stream.place + length x.stream.rest) }
    {
        match self.activities.get(connection) {
            Some(slot) => slot.end(),
            None => 0,
        }
    }

    /// A reaper of a session begins at a proxy.
    pub(crate) fn reap(&mut self, number: u32, proxy: u32, id: i64) -> Result<(), Memory>
        requires real { pos 1 ≤ℤ id }
        requires fresh { conn_at number self.old ≡ None }
        ensures { OnOk result (Reaps number self.old None self.new (new_reaper proxy id) (new_reap id)) }
    {
        let seat = Seat::new(self.alloc, proxy);
        let reaper = Box::new(self.alloc, Reaper::new(self.alloc, id))?;
        self.reap_on(number, seat, reaper, None)
    }

    /// A reaper takes a step, and what it does is done.
    fn reap_on(
        &mut self,
        number: u32,
        seat: Seat,
        mut reaper: Box<Reaper>,
        answer: Option<&Answer>,
    ) -> Result<(), Memory>
        requires { MayStepReaper reaper.value (option_copied answer) }
        ensures { OnOk result (ReapsFrom number self.old seat (option_copied answer.entry) self.new reaper.value) }
    {
        match reaper.step(answer) {
            Ok(ReapStep::Ask(ask)) => {
                let kind = reap_kind(&reaper);
                self.activities.put(
                    number,
                    Activity {
                        seat,
                        actor: Actor::Reaper(reaper),
                        flight: Some(Flight::Out(Asking { ask, kind })),
                    },
                )
            }
            Ok(ReapStep::Reaped { zxid }) => {
                self.end_reaper(number, seat, Ended::Reaped { zxid }, None)
            }
            Ok(ReapStep::Kept { rev }) => self.end_reaper(number, seat, Ended::Kept { rev }, None),
            Ok(ReapStep::Gone { rev }) => self.end_reaper(number, seat, Ended::Gone { rev }, None),
            Err(StepFault::Damaged { key, value }) => {
                self.end_reaper(number, seat, damaged(key, value), None)
            }
            Err(StepFault::Memory) => Err(Memory),
        }
    }

    /// The end of a reaper is shown, and nothing is done under its number any more.
    fn end_reaper(
        &mut self,
        number: u32,
        seat: Seat,
        end: Ended,
        flight: Option<Flight>,
    ) -> Result<(), Memory>
        requires { IsFitFlight flight }
        ensures { OnOk result (self.new ≡ ended number self.old seat end flight) }
    {
        self.show_end(number, end, flight)?;
        self.close(number, seat)
    }
}

/// The end of a reaper that found a value which is no record.
fn damaged(key: Bytes, value: Bytes) -> Ended
    ensures { result ≡ finish.Cause (cause.Damaged key value) }
{
    Ended::Cause(Cause::Damaged { key, value })
}

/// What a reaper's ask is, where it is an update.
fn reap_kind(reaper: &Reaper) -> Option<UpdateKind>
    requires { IsReaperHeld reaper.now }
    ensures kind { result ≡ kind_of_reap reaper.now.session reaper.now.phase }
    ensures formed { IfSome result IsWellFormedKind }
{
    let reap = reaper.reap();
    match &reap.phase {
        Phase::Removing { .. } => {
            let kind = UpdateKind::Reaped { id: reap.session };
            kind_is_formed(kind);
            Some(kind)
        }
        Phase::Unasked | Phase::Looking | Phase::Counting { .. } | Phase::Over => None,
    }
}
