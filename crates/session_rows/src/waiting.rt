//! What waits for an answer of the etcd.

use crate::connects::Begun;
use crate::reaps::BegunReap;

/// What waits for an answer.
#[derive(Drop)]
pub enum Waiting {
    Nothing,
    Connect(Begun),
    Reap(BegunReap),
}
