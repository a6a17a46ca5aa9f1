//! The actions of a connection's step are done, and ends are shown.

ghost use Rattle.std.specs.Prelude.{◌≡◌, ◌++◌, ◌∷◌, [], false, if◌then◌else◌, IfOk, IfSome, Some, OnOk};
ghost use Rattle.std.specs.Vec.Iter.{into_iter_items};
ghost use Rattle.zp_core.specs.Held.{IsHeld};
ghost use Rattle.zk_service.specs.declared.cause.Cause.TheVariants as cause;
ghost use Rattle.zk_transcript.specs.declared.transcript.TranscriptLine.TheVariants.{Close as CloseLine};
ghost use Rattle.zp_script.specs.Effects.{restarted};
ghost use Rattle.zp_step.specs.Kinds.{kind_in_stage};
ghost use Rattle.zp_script.specs.StepOutcomes.{acts, ended_by, leaves, left_by, quiet};
ghost use Rattle.zp_script.specs.Worlds.{Closed, Conn, after_step, conn_at, with_conn};
ghost use Rattle.zp_step.specs.Stages.{is_shut};
ghost use Rattle.zt_text.specs.Transcripts.{IsWellFormedKind};
ghost use Rattle.zp_world.specs.Activities.{actor_of};
ghost use Rattle.zp_world.specs.Adding.{added, frames_left};
ghost use Rattle.zp_world.specs.Doing.{acted, left, lines_after, outcome};
ghost use Rattle.zp_world.specs.Flying.{IsFitFlight, IsFlyingOf};
ghost use Rattle.zp_world.specs.Leaving.{Leaves};

use crate::activity::{Activity, Actor, Seat};
use crate::arriving::Arrival;
use crate::formed::{are_bytes, end_is_formed, is_number, is_signed, kind_is_formed};
use crate::world::World;
use std::vec::IntoIter;
use zk_service::{Cause, Ended, UpdateKind};
use zk_transcript::TranscriptLine;
use zp_core::Core;
use zp_ledger::Transcript;
use zp_script::{Asking, Flight};
use zp_step::{Action, Wants};
use zx_base::{Bytes, Memory};

impl World {
    /// The actions of a connection's step are done. Where it closes, the frames that came with its last one are shown before its
    /// end.
    pub(crate) fn act(
        &mut self,
        arrival: Arrival,
        seat: Seat,
        core: Box<Core>,
        flight: Option<Flight>,
        out: Vec<Action>,
        after: &mut IntoIter<Bytes>,
    ) -> Result<(), Memory>
        requires leaves { Leaves flight core.value out.items }
        requires fit { IsFitFlight flight }
        ensures after { OnOk result (into_iter_items after.new ≡ (if is_shut core.value.stage then [] else into_iter_items after.old)) }
        ensures done { OnOk result (self.new ≡ acted arrival self.old (left seat) core.value (into_iter_items after.old) flight out.items) }
    {
        let first = seat.frames.number();
        let flight = self.act_all(arrival, &core, flight, out, first, after)?;
        let actor = actor_after(core);
        self.activities.put(
            arrival.connection,
            Activity {
                seat,
                actor,
                flight,
            },
        )
    }

    /// The actions of a step are done, in order; what is out then.
    fn act_all(
        &mut self,
        arrival: Arrival,
        core: &Core,
        flight: Option<Flight>,
        out: Vec<Action>,
        first: u64,
        after: &mut IntoIter<Bytes>,
    ) -> Result<Option<Flight>, Memory>
        requires leaves { Leaves flight core.now out.items }
        requires fit { IsFitFlight flight }
        ensures after { OnOk result (into_iter_items after.new ≡ (if is_shut core.now.stage then [] else into_iter_items after.old)) }
        ensures out { IfOk result (λ f. f ≡ (outcome arrival core.now first (into_iter_items after.old) flight out.items).flight) }
        ensures fit { IfOk result IsFitFlight }
        ensures flies { IfOk result (λ f. is_shut core.now.stage ≡ false → IsFlyingOf core.now f) }
        ensures done { OnOk result (self.new ≡ added self.old (outcome arrival core.now first (into_iter_items after.old) flight out.items)) }
    {
        let kind = kind_of(core, arrival.connection);
        let mut flight = flight;
        for action in out {
            flight = self.act_once(arrival, kind, flight, action, first, after)?;
        }
        Ok(flight)
    }

    /// One action is done; what is out then.
    fn act_once(
        &mut self,
        arrival: Arrival,
        kind: Option<UpdateKind>,
        flight: Option<Flight>,
        action: Action,
        first: u64,
        after: &mut IntoIter<Bytes>,
    ) -> Result<Option<Flight>, Memory>
        requires { IsFitFlight flight }
        ensures after { OnOk result (into_iter_items after.new ≡ frames_left action (into_iter_items after.old)) }
        ensures out { IfOk result (λ f. f ≡ (acts arrival.connection kind (lines_after arrival first (into_iter_items after.old)) (quiet flight) action).flight) }
        ensures done { OnOk result (self.new ≡ added self.old (acts arrival.connection kind (lines_after arrival first (into_iter_items after.old)) (quiet flight) action)) }
    {
        let connection = arrival.connection;
        match action {
            Action::Send(bytes) => {
                are_bytes(bytes.as_slice());
                self.transcript
                    .push(TranscriptLine::Send { connection, bytes })?;
                Ok(flight)
            }
            Action::Ask(ask) => Ok(Some(Flight::Out(Asking { ask, kind }))),
            Action::Close(why) => {
                show_frames(&mut self.transcript, arrival, first, after)?;
                self.show_end(connection, Ended::Cause(why), flight)?;
                Ok(None)
            }
        }
    }

    /// An end is shown. What was asked and not carried out may be carried out later.
    pub(crate) fn show_end(
        &mut self,
        connection: u32,
        end: Ended,
        flight: Option<Flight>,
    ) -> Result<(), Memory>
        requires { IsFitFlight flight }
        ensures { OnOk result (self.new ≡ record self.old { lines = self.old.lines ++ CloseLine connection end ∷ []; strays = self.old.strays ++ left_by flight }) }
    {
        end_is_formed(&end);
        self.transcript
            .push(TranscriptLine::Close { connection, end })?;
        match flight {
            Some(Flight::Out(asking)) => self.strays.leave(asking),
            Some(Flight::Carried(_) | Flight::Denied) | None => Ok(()),
        }
    }

    /// Nothing is done under a number any more.
    pub(crate) fn close(&mut self, connection: u32, seat: Seat) -> Result<(), Memory>
        ensures { OnOk result (self.new ≡ with_conn self.old connection (left seat)) }
    {
        self.activities.put(
            connection,
            Activity {
                seat,
                actor: Actor::Closed,
                flight: None,
            },
        )
    }

    /// All that is open at a proxy ends, in the order of the numbers.
    pub(crate) fn restart(&mut self, proxy: u32) -> Result<(), Memory>
        ensures { OnOk result (self.new ≡ restarted proxy self.old) }
    {
        let numbers = self.activities.open_at(self.alloc, proxy)?;
        for number in numbers {
            self.stop(number)?;
        }
        Ok(())
    }

    fn stop(&mut self, number: u32) -> Result<(), Memory>
        ensures { OnOk result ((x : Conn) → conn_at number self.old ≡ Some x → self.new ≡ leaves number self.old x Closed (ended_by number cause.Restart x.flight)) }
    {
        let Some(activity) = self.activities.take(number)? else {
            return Ok(());
        };
        let Activity { seat, flight, .. } = activity;
        self.show_end(number, Ended::Cause(Cause::Restart), flight)?;
        self.close(number, seat)
    }
}

/// These frames are shown; `first` is the index of the first of them.
fn show_frames(
    transcript: &mut Transcript,
    arrival: Arrival,
    first: u64,
    frames: &mut IntoIter<Bytes>,
) -> Result<(), Memory>
    ensures none { OnOk result (into_iter_items frames.new ≡ []) }
    ensures shown { OnOk result (transcript.new ≡ transcript.old ++ lines_after arrival first (into_iter_items frames.old)) }
{
    let Arrival { connection, zxid } = arrival;
    let mut index = first;
    is_signed(zxid);
    while let Some(bytes) = frames.next() {
        are_bytes(bytes.as_slice());
        is_number(index);
        transcript.push(TranscriptLine::Frame {
            connection,
            index,
            zxid,
            bytes,
        })?;
        index = index.saturating_add(1);
    }
    Ok(())
}

/// What is left of a connection after a step.
fn actor_after(core: Box<Core>) -> Actor
    ensures { actor_of result ≡ after_step core.value }
{
    match core.wants() {
        Wants::Nothing => Actor::Closed,
        Wants::Frame | Wants::Answer | Wants::Entry { .. } | Wants::FrameOrEntry { .. } =>
            Actor::Connection(core),
    }
}

/// What a connection's ask is, where it is an update.
fn kind_of(core: &Core, connection: u32) -> Option<UpdateKind>
    ensures kind { result ≡ kind_in_stage connection core.now core.now.stage }
    ensures held { IsHeld core.now }
    ensures formed { IfSome result IsWellFormedKind }
{
    let kind = core.update_asked(connection);
    if let Some(update) = kind {
        kind_is_formed(update);
    }
    kind
}
