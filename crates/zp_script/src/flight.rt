//! What was asked of the store and not answered yet.

use ev_types::{Answer, Ask};
use zk_service::UpdateKind;

/// An ask, with the update that the transcript shows for it where it changes the head.
#[derive(Drop)]
pub struct Asking {
    pub ask: Ask,
    /// None for an ask that is no update: a read, a grant, a keepalive.
    pub kind: Option<UpdateKind>,
}

/// How far the ask of a connection or a reaper has come, until its answer is delivered.
#[derive(Drop)]
pub enum Flight {
    /// It is not carried out yet.
    Out(Asking),
    /// The store carried it out, with this answer.
    Carried(Answer),
    /// The store denied it, which is delivered as a failure.
    Denied,
}
