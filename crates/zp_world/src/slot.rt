//! What a world keeps under a number.

ghost use Rattle.std.specs.Prelude.{◌≡◌, ◌+◌, ◌≤◌, ◌≤ℤ◌, pos, length, Some, All, IfOk};
ghost use Rattle.std.specs.Option.{option_map};
ghost use Rattle.zk_jute.specs.JuteWriting.{with_length};
ghost use Rattle.zk_model.specs.Limits.{max_frame};
ghost use Rattle.zp_script.specs.Arriving.{CutsFrames};
ghost use Rattle.zp_script.specs.Effects.{is_open_at, new_conn};
ghost use Rattle.zp_script.specs.Entries.{cursor_of};
ghost use Rattle.zp_script.specs.Faults.{has_part};
ghost use Rattle.zp_script.specs.Happens.{asks_at, is_waiting};
ghost use Rattle.zp_script.specs.Worlds as worlds;
ghost use Rattle.zp_step.specs.Stages.{counted_up, new_core};

use crate::activity::{Activity, Actor, Seat};
use crate::inbox::{Cut, Inbox};
use std::alloc::Global;
use std::marker::Model;
use zp_core::Core;
use zp_script::Flight;
use zp_step::Fresh;
use zx_base::{Bytes, Memory};

/// What stands in a slot.
#[derive(Drop)]
pub enum Content {
    /// A connection that has opened at a proxy, and to which nothing has come. It has no core yet, since there may be very many of
    /// them, and a core is large.
    Opened { proxy: u32, fresh: Fresh },
    /// Any other connection or a reaper, open or closed.
    Full(Box<Activity>),
}

/// What is kept under a number. Contracts see a connection or a reaper.
#[derive(Drop)]
pub struct Slot {
    content: Content,
}

impl Model for Slot {
    ghost use Rattle.std.specs.Coded.{codes};
    ghost use Rattle.zk_model.specs.PathSets.{coded_watches};
    ghost use Rattle.zp_script.specs.Worlds.{Conn};

    ghost Value = { Conn };

    ghost coded = { Prim.hlevel (codes, coded_watches) };

    ghost use Rattle.zp_world.specs.Slots.{IsOffered, conn_of};

    ghost view = { λ s. conn_of s.content };

    ghost invariant = { λ s. IsOffered s.content };
}

impl Slot {
    /// A connection that has opened at a proxy. `fresh` is what a new session would be made with.
    pub fn opened(proxy: u32, fresh: Fresh) -> Slot
        requires { pos 1 ≤ℤ fresh.id }
        ensures { result ≡ new_conn proxy (worlds.Connection (new_core fresh)) }
    {
        Slot {
            content: Content::Opened { proxy, fresh },
        }
    }

    /// What a connection or a reaper has come to.
    pub fn full(alloc: Global, activity: Activity) -> Result<Slot, Memory>
        ensures { IfOk result (λ slot. slot ≡ activity) }
    {
        Ok(Slot {
            content: Content::Full(Box::new(alloc, activity)?),
        })
    }

    /// The same, taken out of the slot. A connection to which nothing has come gets its core.
    pub fn into_activity(self, alloc: Global) -> Result<Activity, Memory>
        ensures { IfOk result (λ activity. activity ≡ self) }
    {
        match self.content {
            Content::Opened { proxy, fresh } => Ok(Activity {
                seat: Seat::new(alloc, proxy),
                actor: Actor::Connection(Box::new(alloc, Core::new(alloc, fresh))?),
                flight: None,
            }),
            Content::Full(activity) => Ok(Box::into_inner(activity)),
        }
    }

    pub fn is_closed(&self) -> bool
        ensures { result ≡ worlds.is_closed_actor self.now.actor }
    {
        match &self.content {
            Content::Opened { .. } => false,
            Content::Full(activity) => activity.is_closed(),
        }
    }

    pub fn is_reaper(&self) -> bool
        ensures { result ≡ worlds.is_reaper self.now.actor }
    {
        match &self.content {
            Content::Opened { .. } => false,
            Content::Full(activity) => activity.is_reaper(),
        }
    }

    /// What it asked, or what came of that, until the answer is delivered.
    pub fn flight(&self) -> Option<&Flight>
        ensures { option_map (λ f. f.now) result ≡ self.now.flight }
    {
        match &self.content {
            Content::Opened { .. } => None,
            Content::Full(activity) => activity.flight(),
        }
    }

    /// What comes of a whole frame, where no part of one has come. `bytes` lacks its length.
    pub fn framed(&self, alloc: Global, bytes: Bytes) -> Result<Cut, Memory>
        requires size { length bytes ≤ max_frame }
        requires none { length self.now.stream.rest ≡ 0 }
        ensures cuts { IfOk result (λ cut. CutsFrames self.now.stream (with_length bytes) cut.frames.items cut.bad cut.inbox) }
        ensures short { IfOk result (λ cut. All (λ frame. length frame ≤ max_frame) cut.frames.items) }
    {
        match &self.content {
            Content::Opened { .. } => Inbox::new(alloc).with_frame(bytes),
            Content::Full(activity) => activity.inbox().with_frame(bytes),
        }
    }

    /// Whether a part of a frame has come.
    pub fn has_part(&self) -> bool
        ensures { result ≡ has_part (Some self.now) }
    {
        match &self.content {
            Content::Opened { .. } => false,
            Content::Full(activity) => activity.has_part(),
        }
    }

    /// How many bytes its client has sent. At 2^64 - 1 the count stays.
    pub fn end(&self) -> u64
        ensures { result ≡ counted_up (self.now.stream.place + length self.now.stream.rest) }
    {
        match &self.content {
            Content::Opened { .. } => 0,
            Content::Full(activity) => activity.end(),
        }
    }

    /// Whether it is open, at this proxy.
    pub fn is_open_at(&self, proxy: u32) -> bool
        ensures { result ≡ is_open_at proxy self.now }
    {
        match &self.content {
            Content::Opened { proxy: own, .. } => *own == proxy,
            Content::Full(activity) => activity.is_open_at(proxy),
        }
    }

    /// The most asks of the frames so far: 64 for each and 64 more, and one for each byte, since a path has one at least.
    pub fn max_asks(&self) -> u64
        ensures { result ≡ counted_up (asks_at (Some self.now)) }
    {
        match &self.content {
            Content::Opened { .. } => 64,
            Content::Full(activity) => activity.max_asks(),
        }
    }

    /// The number of the last entry that it took, where it waits for the next one.
    pub fn cursor(&self) -> Option<i64>
        ensures { result ≡ cursor_of self.now.actor }
    {
        match &self.content {
            Content::Opened { .. } => None,
            Content::Full(activity) => activity.cursor(),
        }
    }

    /// Whether a reply waits for an entry.
    pub fn is_waiting(&self) -> bool
        ensures { result ≡ is_waiting self.now.actor }
    {
        match &self.content {
            Content::Opened { .. } => false,
            Content::Full(activity) => activity.is_waiting(),
        }
    }
}
