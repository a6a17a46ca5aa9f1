//! How far a connection has come.

ghost use Rattle.std.specs.Prelude.{◌≡◌, IfOk};
ghost use Rattle.zk_transcript.specs.Walks.{at_start};
ghost use Rattle.zk_judge.specs.Seen.{walker_of};

use crate::packets::Due;
use std::alloc::Global;
use zk_answers::Watches;
use zx_base::Memory;

/// The connection whose conversation is judged: its number, and the session that its own line attached to it.
#[derive(Clone, Copy)]
pub struct Party {
    pub connection: u32,
    pub session: i64,
}

/// How far a connection has come.
#[derive(Drop)]
pub struct Walker {
    /// The zxid up to which the client has been told, and the moment right after that update.
    pub zxid: i64,
    pub since: usize,
    pub watches: Watches,
    /// The index of the next frame to answer.
    pub next: u64,
    /// The moment of the last reply that had one.
    pub moment: usize,
    /// No further request is answered.
    pub is_over: bool,
}

impl Walker {
    /// A connection whose session was attached at this zxid, by the update before this moment.
    pub fn new(alloc: Global, zxid: i64, since: usize) -> Walker
        ensures { walker_of result ≡ at_start zxid since }
    {
        Walker {
            zxid,
            since,
            watches: Watches::new(alloc),
            next: 1,
            moment: 0,
            is_over: false,
        }
    }

    /// A copy, which takes a step for each watch.
    pub fn copy(&self) -> Result<Walker, Memory>
        ensures { IfOk result (λ w. w ≡ self.now) }
    {
        Ok(Walker {
            zxid: self.zxid,
            since: self.since,
            watches: self.watches.copy()?,
            next: self.next,
            moment: self.moment,
            is_over: self.is_over,
        })
    }
}

/// A step of a walk: how far it brings the connection, and the packets that are due with it.
#[derive(Drop)]
pub struct Step {
    pub walker: Walker,
    pub due: Vec<Due>,
}

/// What is armed, and the packets that are due so far.
#[derive(Drop)]
pub struct Fired {
    pub watches: Watches,
    pub due: Vec<Due>,
}
