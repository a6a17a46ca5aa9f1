//! A reap, from the session's number to its end.

use ev_types::Ask;
use zn_view::Want;
use zx_base::Seq;

/// What a reaper waits for.
#[derive(Drop)]
pub enum Phase {
    /// Nothing was asked yet.
    Unasked,
    /// The head, the record of the session's life, and the list of its nodes.
    Looking,
    /// The keys that were looked at first, and the counts of the nodes' parents, all at this revision.
    Counting { revision: i64, wants: Seq<Want> },
    /// The transaction that ends the session; where a guard of it fails, it reads these keys.
    Removing { again: Seq<Want> },
    /// Nothing more.
    Over,
}

/// A reap and how far it has come.
#[derive(Drop)]
pub struct Reap {
    /// The session's number.
    pub session: i64,
    pub phase: Phase,
}

/// What a step of a reap answers.
#[derive(Drop)]
pub enum ReapStep {
    /// This is to be carried out; the next step takes its answer.
    Ask(Ask),
    /// The session and all its nodes are gone, by the update of this zxid.
    Reaped { zxid: i64 },
    /// The record of the session's life was there at this revision: the session lives.
    Kept { rev: i64 },
    /// Neither the record of the session's life nor the list of its nodes was there at this revision, or the number is below 1:
    /// no such session is open.
    Gone { rev: i64 },
}
