//! What is decided on a request.

ghost use Rattle.std.specs.Prelude.{◌≡◌, ◌++◌, ◌∷◌, [], IfOk};
ghost use Rattle.ev_types.specs.Reads.{read_key};
ghost use Rattle.zn_layout.specs.Changes.{act_of, head_put};
ghost use Rattle.zn_layout.specs.Keys.{HeadKey, key_bytes};
ghost use Rattle.zn_layout.specs.Records.{IsHeadRec};

use crate::want::Want;
use ev_types::{Act, Guard};
use std::alloc::Global;
use zk_model::{Path, Reply, Trigger};
use zn_layout::{HeadRec, get_head, put_head};
use zx_base::{Memory, Seq};

/// A session, as one of its connections knows it.
#[derive(Clone, Copy)]
pub struct Who {
    /// The session's number.
    pub session: i64,
    /// The mod_revision that the record of the session's life got when the session was attached to this connection.
    pub mine: i64,
}

/// A watch that a reply leaves behind (Programmer's Guide, "ZooKeeper Watches").
#[derive(Drop)]
pub struct Arm {
    pub path: Path,
    /// A child watch; otherwise a data watch.
    pub child: bool,
}

/// An update: a transaction, and the reply that it earns where it succeeds.
#[derive(Drop)]
pub struct Plan {
    /// Each key that it was decided on, but for the head, at the revision that was seen.
    pub guards: Seq<Guard>,
    /// The update's changes; the head is put last, and then read.
    pub success: Seq<Act>,
    /// What is read where a guard does not hold: the guarded keys, and the head.
    pub again: Seq<Want>,
    /// The reply, with 0 in place of the zxid that the update gets.
    pub draft: Reply,
    /// What watches see of the update.
    pub triggers: Seq<Trigger>,
}

/// What a request comes to on a view.
#[derive(Drop)]
pub enum Decision {
    /// A reply that changes nothing, and the watch that is armed with it.
    Answered { reply: Reply, arm: Option<Arm> },
    /// An update, which is yet to be carried out.
    Planned(Plan),
    /// The session is closed or has lapsed.
    Expired,
    /// The session was attached to another connection, at this revision.
    Moved { found: i64 },
}

/// The operations of an update's transaction: these, then the put of the head, then the read of it.
pub fn success(alloc: Global, acts: Seq<Act>, head: &HeadRec) -> Result<Seq<Act>, Memory>
    requires { IsHeadRec head.now.triggers }
    ensures { IfOk result (λ l. l ≡ (acts ++ act_of (head_put head.now.triggers) ∷ []) ++ read_key (key_bytes HeadKey) ∷ []) }
{
    let mut list = acts;
    list.push(put_head(alloc, head)?)?;
    list.push(get_head(alloc)?)?;
    Ok(list)
}

/// A refusal, as a decision.
pub fn refused(code: i32) -> Decision
    ensures { result ≡ Decision.Answered (Reply.Refused code) None }
{
    Decision::Answered {
        reply: Reply::Refused(code),
        arm: None,
    }
}
