//! Follows the head through the lines of a watch.

ghost use Rattle.std.specs.Prelude.{◌≡◌, ◌<ℤ◌, ◌≤ℤ◌, ◌+ℤ◌, ◌⊎◌, pos, ◌^◌, IfOk, length};
ghost use Rattle.zw_feed.specs.Following.{Gives, LineFits};

use crate::fault::FeedFault;
use crate::found::entries_of;
use ev_json::Line;
use std::alloc::Global;
use std::marker::Model;
use zn_layout::Entry;
use zx_base::Bytes;

/// Turns the lines of a watch on the head into entries with consecutive numbers.
#[derive(Drop)]
pub struct Follower {
    alloc: Global,
    number: i64,
    fault: Option<FeedFault>,
}

impl Model for Follower {
    ghost use Rattle.zw_feed.specs.Following.{FollowerState};

    ghost Value = { FollowerState };

    ghost view = { λ f. record { number = f.number; fault = f.fault } };

    ghost use Rattle.std.specs.Prelude.{pos, ◌≤ℤ◌, ◌<ℤ◌, ◌^◌};

    ghost invariant = { λ f. (pos 0 ≤ℤ f.number) × (f.number <ℤ pos (2 ^ 62)) };
}

/// A copy of the fault, or `Memory`.
fn again(alloc: Global, fault: &FeedFault) -> FeedFault
    ensures { (result ≡ fault.now) ⊎ (result ≡ FeedFault.Memory) }
{
    match fault {
        FeedFault::Ended => FeedFault::Ended,
        FeedFault::Compacted { rev } => FeedFault::Compacted { rev: *rev },
        FeedFault::Gap { expected, found } => FeedFault::Gap {
            expected: *expected,
            found: *found,
        },
        FeedFault::Damaged { key, value } => damaged(alloc, key, value),
        FeedFault::Memory => FeedFault::Memory,
    }
}

fn damaged(alloc: Global, key: &Bytes, value: &Bytes) -> FeedFault
    ensures { (result ≡ FeedFault.Damaged key.now value.now) ⊎ (result ≡ FeedFault.Memory) }
{
    match (
        Bytes::copy_of(alloc, key.as_slice()),
        Bytes::copy_of(alloc, value.as_slice()),
    ) {
        (Ok(key), Ok(value)) => FeedFault::Damaged { key, value },
        _ => FeedFault::Memory,
    }
}

/// What a line gives after the entry with this number.
fn read_line(alloc: Global, number: i64, line: &Line) -> Result<Vec<Entry>, FeedFault>
    requires number { (pos 0 ≤ℤ number) × (number <ℤ pos (2 ^ 62)) }
    requires line { LineFits line.now }
    ensures gives { Gives number line.now result }
    ensures small { IfOk result (λ es. (number +ℤ pos (length es.items)) <ℤ pos (2 ^ 62)) }
{
    match line {
        Line::Created { .. } => Ok(Vec::new(alloc)),
        Line::Events { kvs, .. } => entries_of(alloc, number, kvs.as_slice()),
        Line::Compacted { rev } => Err(FeedFault::Compacted { rev: *rev }),
        Line::Ended => Err(FeedFault::Ended),
    }
}

impl Follower {
    ghost use Rattle.std.specs.Prelude.{◌≡◌, ◌≤ℤ◌, ◌<ℤ◌, ◌^◌, pos, None};
    ghost use Rattle.zw_feed.specs.Following.{LineFits, Takes};

    /// A follower whose next entry is to have the number after this one, which is from 0 to 2^62 - 1. Takes no memory.
    pub fn new(alloc: Global, number: i64) -> Follower
        requires { (pos 0 ≤ℤ number) × (number <ℤ pos (2 ^ 62)) }
        ensures { result ≡ record { number = number; fault = None } }
    {
        Follower {
            alloc,
            number,
            fault: None,
        }
    }

    /// The entries of the watch's next line, in order; none where the line has no put of the head. Versions are from 0 to
    /// 2^62 - 1.
    ///
    /// `Ended` and `Compacted` where the line says so. Of the puts of the head, at the first one that is not as it should be:
    /// `Gap` where its version is not the next number, and else `Damaged` where its value is no record. The entries before it in
    /// the line are not given. Each call after such a fault answers it again. `Memory` leaves the follower as it was: the line
    /// was not taken, and a fault that could not be copied is not kept.
    pub fn take(&mut self, line: &Line) -> Result<Vec<Entry>, FeedFault>
        requires { LineFits line.now }
        ensures { Takes self.old line.now result self.new }
    {
        if let Some(fault) = &self.fault {
            return Err(again(self.alloc, fault));
        }
        match read_line(self.alloc, self.number, line) {
            Ok(entries) => {
                self.number += entries.len() as i64;
                Ok(entries)
            }
            Err(fault) => match again(self.alloc, &fault) {
                FeedFault::Memory => Err(FeedFault::Memory),
                kept => {
                    self.fault = Some(kept);
                    Err(fault)
                }
            },
        }
    }
}
