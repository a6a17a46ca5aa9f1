//! What a number of a script stands for: a connection or a reaper.

ghost use Rattle.std.specs.Prelude.{◌≡◌, ◌+◌, ◌<◌, length, Some};
ghost use Rattle.std.specs.Option.{option_map};
ghost use Rattle.zp_script.specs.Effects.{is_open_at};
ghost use Rattle.zp_script.specs.Entries.{cursor_of};
ghost use Rattle.zp_script.specs.Faults.{has_part};
ghost use Rattle.zp_script.specs.Effects.{new_conn};
ghost use Rattle.zp_script.specs.Happens.{asks_at, is_waiting};
ghost use Rattle.zp_step.specs.Stages.{counted_up, max_count};
ghost use Rattle.zp_script.specs.Worlds as worlds;
ghost use Rattle.zp_world.specs.Doing.{left};
ghost use Rattle.zp_world.specs.Flying.{IsActive};

use crate::frames::Frames;
use crate::inbox::Inbox;
use std::alloc::Global;
use std::marker::Model;
use zp_core::Core;
use zp_script::Flight;
use zp_step::Wants;
use zs_reap::Reaper;

/// An open connection, a reaper at work, or one of the two that has ended. What is at work is boxed, so that it is short to move
/// and to drop.
#[derive(Drop)]
pub enum Actor {
    Connection(Box<Core>),
    Reaper(Box<Reaper>),
    Closed,
}

/// What is kept of a connection or a reaper also when it has ended.
#[derive(Drop)]
pub struct Seat {
    pub proxy: u32,
    pub inbox: Inbox,
    /// How many frames were handed in.
    pub frames: Frames,
}

/// A connection or a reaper, open or closed, and what it asked, until the answer is delivered.
#[derive(Drop)]
pub struct Activity {
    pub seat: Seat,
    pub actor: Actor,
    pub flight: Option<Flight>,
}

impl Model for Activity {
    ghost use Rattle.std.specs.Coded.{codes};
    ghost use Rattle.zk_model.specs.PathSets.{coded_watches};
    ghost use Rattle.zp_script.specs.Worlds.{Conn};

    ghost Value = { Conn };

    ghost coded = { Prim.hlevel (codes, coded_watches) };

    ghost use Rattle.zp_world.specs.Activities.{actor_of};
    ghost use Rattle.zp_world.specs.Flying.{IsActive};

    ghost view = { λ a. record {
      proxy = a.seat.proxy;
      actor = actor_of a.actor;
      stream = a.seat.inbox;
      frames = a.seat.frames;
      flight = a.flight;
    } };

    ghost invariant = { λ a. IsActive (actor_of a.actor) a.flight };
}

impl Seat {
    /// A seat at a proxy, to which no byte has come.
    pub fn new(alloc: Global, proxy: u32) -> Seat
        ensures { left result ≡ new_conn proxy worlds.Closed }
    {
        Seat {
            proxy,
            inbox: Inbox::new(alloc),
            frames: Frames::none(),
        }
    }
}

impl Activity {
    /// Proof only: what was asked is what its stage awaits, and its count of frames is not at its end.
    pub fn know(&self)
        ensures active { IsActive self.now.actor self.now.flight }
        ensures within { self.now.frames < max_count }
    {
        let _ = self.seat.frames.number();
    }

    pub fn is_closed(&self) -> bool
        ensures { result ≡ worlds.is_closed_actor self.now.actor }
    {
        match &self.actor {
            Actor::Closed => true,
            Actor::Connection(_) | Actor::Reaper(_) => false,
        }
    }

    pub fn is_reaper(&self) -> bool
        ensures { result ≡ worlds.is_reaper self.now.actor }
    {
        match &self.actor {
            Actor::Reaper(_) => true,
            Actor::Connection(_) | Actor::Closed => false,
        }
    }

    /// What it asked, or what came of that, until the answer is delivered.
    pub fn flight(&self) -> Option<&Flight>
        ensures { option_map (λ f. f.now) result ≡ self.now.flight }
    {
        self.flight.as_ref()
    }

    /// The bytes of its client that are no whole frame yet.
    pub fn inbox(&self) -> &Inbox
        ensures { result.now ≡ self.now.stream }
    {
        &self.seat.inbox
    }

    /// Whether a part of a frame has come.
    pub fn has_part(&self) -> bool
        ensures { result ≡ has_part (Some self.now) }
    {
        self.seat.inbox.has_part()
    }

    /// How many bytes its client has sent. At 2^64 - 1 the count stays.
    pub fn end(&self) -> u64
        ensures { result ≡ counted_up (self.now.stream.place + length self.now.stream.rest) }
    {
        self.seat.inbox.end()
    }

    /// Whether it is open, at this proxy.
    pub fn is_open_at(&self, proxy: u32) -> bool
        ensures { result ≡ is_open_at proxy self.now }
    {
        self.seat.proxy == proxy && !self.is_closed()
    }

    /// The most asks of the frames so far: 64 for each and 64 more, and one for each byte, since a path has one at least.
    pub fn max_asks(&self) -> u64
        ensures { result ≡ counted_up (asks_at (Some self.now)) }
    {
        let frames = self.seat.frames.number().saturating_add(1);
        frames
            .saturating_mul(64)
            .saturating_add(self.seat.inbox.place())
    }

    /// The number of the last entry that it took, where it waits for the next one.
    pub fn cursor(&self) -> Option<i64>
        ensures { result ≡ cursor_of self.now.actor }
    {
        let Actor::Connection(core) = &self.actor else {
            return None;
        };
        match core.wants() {
            Wants::Entry { cursor } | Wants::FrameOrEntry { cursor } => Some(cursor),
            Wants::Frame | Wants::Answer | Wants::Nothing => None,
        }
    }

    /// Whether a reply waits for an entry.
    pub fn is_waiting(&self) -> bool
        ensures { result ≡ is_waiting self.now.actor }
    {
        let Actor::Connection(core) = &self.actor else {
            return false;
        };
        match core.wants() {
            Wants::Entry { .. } => true,
            Wants::Frame | Wants::Answer | Wants::FrameOrEntry { .. } | Wants::Nothing => false,
        }
    }
}
