//! What is chosen for a request: a refusal, or the operations of an update.

use ev_types::Act;
use zk_model::{PartResult, Trigger};
use zx_base::Seq;

/// An update, as it was chosen.
#[derive(Drop)]
pub struct Update {
    /// Its operations, but for those on the head.
    pub acts: Seq<Act>,
    /// What watches see of it.
    pub triggers: Seq<Trigger>,
    /// Its result, with 0 in place of its zxid.
    pub draft: PartResult,
}

/// What is chosen for a request.
#[derive(Drop)]
pub enum Chosen {
    /// The error code of the refusal. Nothing changes.
    Refused(i32),
    Made(Update),
}
