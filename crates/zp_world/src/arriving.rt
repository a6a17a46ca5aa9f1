//! A connection opens, and bytes of its client arrive.

ghost use Rattle.std.specs.Prelude.{◌≡◌, ◌+◌, ◌++◌, ◌∷◌, ◌≤◌, ◌≤ℤ◌, ◌<◌, ◌^◌, ℕ, List, if◌then◌else◌, pos, length, [], IfOk, OnOk, All, Some, None};
ghost use Rattle.std.specs.Vec.Iter.{into_iter_items};
ghost use Rattle.zk_model.specs.Limits.{max_frame};
ghost use Rattle.zk_transcript.specs.declared.transcript.TranscriptLine.TheVariants.{Frame as FrameLine};
ghost use Rattle.zp_script.specs.Arriving.{Arrives, CutsFrames, EndsBadly, FramesArrive};
ghost use Rattle.zp_script.specs.Effects.{opened};
ghost use Rattle.zp_script.specs.Faults.{connection_fault};
ghost use Rattle.zp_script.specs.Worlds.{Conn, conn_at, is_open_conn, with_conn};
ghost use Rattle.zp_step.specs.Stages.{is_shut};
ghost use Rattle.zp_step.specs.Steps.{Steps};
ghost use Rattle.zp_step.specs.declared.input.Input.TheVariants as input;
ghost use Rattle.zp_world.specs.Doing.{acted, left};
ghost use Rattle.zp_world.specs.Flying.{IsFitFlight, IsServed};
ghost use Rattle.zp_world.specs.Leaving.{Leaves};
ghost use Rattle.zp_world.specs.Taking.{FrameComes, IsConnectionAt, IsCut, IsLeft, IsServing, StepsByFrame, left_next, shown};

use crate::activity::{Activity, Actor, Seat};
use crate::formed::{are_bytes, is_number, is_signed};
use crate::inbox::{Cut, Inbox};
use crate::world::World;
use std::alloc::Global;
use std::vec::IntoIter;
use zk_transcript::TranscriptLine;
use zp_core::Core;
use zp_script::Flight;
use zp_step::{Action, Fresh, Input};
use zx_base::{Bytes, Memory};

impl World {
    /// A connection opens at a proxy. A new session that it begins is made with this.
    pub(crate) fn open(&mut self, connection: u32, proxy: u32, fresh: Fresh) -> Result<(), Memory>
        requires { pos 1 ≤ℤ fresh.id }
        ensures { OnOk result (self.new ≡ opened self.old connection proxy fresh) }
    {
        let Fresh { id, passwd, layout } = fresh;
        are_bytes(&passwd);
        self.transcript.push(TranscriptLine::Open {
            connection,
            proxy,
            id,
            passwd,
            layout,
        })?;
        self.activities.open(connection, proxy, fresh)
    }

    /// Bytes of a client come: what is whole with them is shown and handed in, frame by frame.
    pub(crate) fn receive(&mut self, connection: u32, bytes: &[u8]) -> Result<(), Memory>
        requires { connection_fault connection self.old None ≡ None }
        ensures { OnOk result (Arrives connection self.old bytes.now self.new) }
    {
        let zxid = self.last_zxid()?;
        let piece = self.cut(connection, bytes)?;
        let Piece { frames, bad, place } = piece;
        self.take_frames(Arrival { connection, zxid }, frames)?;
        self.take_length(connection, place, bad)
    }

    /// Bytes are added to a connection's stream, and the frames that are whole with them are cut from it.
    fn cut(&mut self, connection: u32, bytes: &[u8]) -> Result<Piece, Memory>
        ensures short { IfOk result (λ piece. All (λ frame. length frame ≤ max_frame) piece.frames.items) }
        ensures cuts { IfOk result (λ piece. (x : Conn) → conn_at connection self.old ≡ Some x → IsCut connection self.old x bytes.now piece.frames.items piece.bad piece.place self.new) }
    {
        let Some(activity) = self.activities.take(connection)? else {
            return Ok(Piece {
                frames: Vec::new(self.alloc),
                bad: None,
                place: 0,
            });
        };
        let Activity {
            seat,
            actor,
            flight,
        } = activity;
        let cut = seat.inbox.with(bytes)?;
        let Cut { frames, bad, inbox } = cut;
        let place = inbox.place();
        let seat = Seat {
            proxy: seat.proxy,
            inbox,
            frames: seat.frames,
        };
        self.activities.put(
            connection,
            Activity {
                seat,
                actor,
                flight,
            },
        )?;
        Ok(Piece { frames, bad, place })
    }

    /// What came is shown and handed in, frame by frame.
    pub(crate) fn arrive(&mut self, connection: u32, cut: Cut) -> Result<(), Memory>
        requires short { All (λ frame. length frame ≤ max_frame) cut.frames.items }
        requires open { connection_fault connection self.old None ≡ None }
        ensures { OnOk result ((x : Conn) (bytes : List ℕ) → conn_at connection self.old ≡ Some x → CutsFrames x.stream bytes cut.frames.items cut.bad cut.inbox → Arrives connection self.old bytes self.new) }
    {
        let zxid = self.last_zxid()?;
        let Cut { frames, bad, inbox } = cut;
        let place = inbox.place();
        self.keep(connection, inbox)?;
        self.take_frames(Arrival { connection, zxid }, frames)?;
        self.take_length(connection, place, bad)
    }

    /// What is left of a connection's stream is kept.
    fn keep(&mut self, connection: u32, inbox: Inbox) -> Result<(), Memory>
        ensures { OnOk result ((x : Conn) → conn_at connection self.old ≡ Some x → self.new ≡ with_conn self.old connection (record x { stream = inbox })) }
    {
        let Some(activity) = self.activities.take(connection)? else {
            return Ok(());
        };
        let Activity {
            seat,
            actor,
            flight,
        } = activity;
        let seat = Seat {
            proxy: seat.proxy,
            inbox,
            frames: seat.frames,
        };
        self.activities.put(
            connection,
            Activity {
                seat,
                actor,
                flight,
            },
        )
    }

    /// Frames come, in order.
    fn take_frames(&mut self, arrival: Arrival, frames: Vec<Bytes>) -> Result<(), Memory>
        requires { All (λ frame. length frame ≤ max_frame) frames.items }
        ensures { OnOk result (IsServing arrival.connection arrival.zxid frames.items self.old → FramesArrive arrival.connection self.old frames.items self.new) }
    {
        let mut coming = frames.into_iter();
        while let Some(frame) = coming.next() {
            self.take_frame(arrival, frame, &mut coming)?;
        }
        Ok(())
    }

    /// A length out of range, if there is one, comes after the frames.
    fn take_length(&mut self, connection: u32, place: u64, bad: Option<i32>) -> Result<(), Memory>
        ensures { OnOk result (IsConnectionAt connection self.old → EndsBadly connection self.old place bad self.new) }
    {
        match bad {
            Some(length) => {
                if self.is_open(connection) {
                    self.hand(connection, &Input::BadLength { place, length })
                } else {
                    Ok(())
                }
            }
            None => Ok(()),
        }
    }

    fn is_open(&self, connection: u32) -> bool
        ensures { result ≡ is_open_conn (conn_at connection self.now) }
    {
        match self.activities.get(connection) {
            Some(slot) => !slot.is_closed(),
            None => false,
        }
    }

    /// A frame comes, and others came with it.
    fn take_frame(
        &mut self,
        arrival: Arrival,
        bytes: Bytes,
        after: &mut IntoIter<Bytes>,
    ) -> Result<(), Memory>
        requires { length bytes ≤ max_frame }
        ensures left { OnOk result (IsLeft (into_iter_items after.old) (into_iter_items after.new)) }
        ensures takes { OnOk result (FrameComes arrival self.old bytes (into_iter_items after.old) self.new (into_iter_items after.new)) }
    {
        let Some(activity) = self.activities.take(arrival.connection)? else {
            return Ok(());
        };
        let Activity {
            seat,
            actor,
            flight,
        } = activity;
        match actor {
            Actor::Connection(core) => {
                self.step_by_frame(arrival, seat, core, flight, bytes, after)
            }
            Actor::Reaper(_) | Actor::Closed => self.activities.put(
                arrival.connection,
                Activity {
                    seat,
                    actor,
                    flight,
                },
            ),
        }
    }

    /// A connection takes a step by a frame, which is shown before what it does.
    fn step_by_frame(
        &mut self,
        arrival: Arrival,
        seat: Seat,
        mut core: Box<Core>,
        flight: Option<Flight>,
        bytes: Bytes,
        after: &mut IntoIter<Bytes>,
    ) -> Result<(), Memory>
        requires served { IsServed core.value flight }
        requires short { length bytes ≤ max_frame }
        ensures after { OnOk result (into_iter_items after.new ≡ (if is_open_conn (conn_at arrival.connection self.new) then into_iter_items after.old else [])) }
        ensures done { OnOk result (StepsByFrame arrival self.old seat core.value flight bytes (into_iter_items after.old) self.new) }
    {
        let stepped = step_with(self.alloc, &mut core, bytes, self.clock)?;
        self.act_on_frame(arrival, seat, core, flight, stepped, after)
    }

    /// The frame is shown, and what the step by it does is done.
    fn act_on_frame(
        &mut self,
        arrival: Arrival,
        seat: Seat,
        core: Box<Core>,
        flight: Option<Flight>,
        stepped: SteppedFrame,
        after: &mut IntoIter<Bytes>,
    ) -> Result<(), Memory>
        requires leaves { Leaves flight core.value stepped.out.items }
        requires fit { IsFitFlight flight }
        ensures after { OnOk result (into_iter_items after.new ≡ (if is_shut core.value.stage then [] else into_iter_items after.old)) }
        ensures done { OnOk result (self.new ≡ acted arrival (shown arrival self.old seat stepped.bytes) (left_next seat) core.value (into_iter_items after.old) flight stepped.out.items) }
    {
        let SteppedFrame { bytes, out } = stepped;
        self.show_frame(arrival, seat.frames.number(), bytes)?;
        let seat = seat_after(seat)?;
        self.act(arrival, seat, core, flight, out, after)
    }

    /// A frame is shown.
    fn show_frame(&mut self, arrival: Arrival, index: u64, bytes: Bytes) -> Result<(), Memory>
        ensures { OnOk result (self.new ≡ record self.old { lines = self.old.lines ++ FrameLine arrival.connection index arrival.zxid bytes ∷ [] }) }
    {
        let Arrival { connection, zxid } = arrival;
        are_bytes(bytes.as_slice());
        is_number(index);
        is_signed(zxid);
        self.transcript.push(TranscriptLine::Frame {
            connection,
            index,
            zxid,
            bytes,
        })
    }
}

/// A connection's number, and the zxid at which its frames are shown.
#[derive(Clone, Copy)]
pub(crate) struct Arrival {
    pub(crate) connection: u32,
    pub(crate) zxid: i64,
}

/// What was cut from a connection's stream.
#[derive(Drop)]
struct Piece {
    frames: Vec<Bytes>,
    /// The length that follows those, if it is out of range.
    bad: Option<i32>,
    /// How many bytes came before those that are left.
    place: u64,
}

/// A frame that a connection took, and what it does then.
#[derive(Drop)]
struct SteppedFrame {
    bytes: Bytes,
    out: Vec<Action>,
}

/// The step of a connection by a frame.
fn step_with(alloc: Global, core: &mut Core, bytes: Bytes, now: u64) -> Result<SteppedFrame, Memory>
    requires short { length bytes ≤ max_frame }
    requires time { now < 2 ^ 62 }
    ensures bytes { IfOk result (λ stepped. stepped.bytes ≡ bytes) }
    ensures steps { IfOk result (λ stepped. Steps core.old (input.Frame bytes) now core.new stepped.out.items) }
{
    let input = Input::Frame(bytes);
    let out = core.step(&input, now)?;
    Ok(SteppedFrame {
        bytes: frame_in(alloc, input),
        out,
    })
}

/// The seat of a connection after a frame.
fn seat_after(seat: Seat) -> Result<Seat, Memory>
    ensures { IfOk result (λ next. left next ≡ left_next seat) }
{
    let frames = seat.frames.next()?;
    Ok(Seat {
        proxy: seat.proxy,
        inbox: seat.inbox,
        frames,
    })
}

/// The bytes of a frame that was handed in.
fn frame_in(alloc: Global, taken: Input) -> Bytes
    ensures { (bytes : List ℕ) → taken ≡ input.Frame bytes → result ≡ bytes }
{
    match taken {
        Input::Frame(bytes) => bytes,
        _other => Bytes::new(alloc),
    }
}
