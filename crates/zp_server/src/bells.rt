//! Who is woken when entries were published.

use std::alloc::Global;
use std::sync::{Arc, Mutex, Wait};
use zw_follow::Rings;
use zx_base::Memory;
use zx_net::Bell;

/// The bells of the connections that are open, by their numbers.
#[derive(Drop)]
pub struct Bells<B: Bell + Drop> {
    all: Mutex<Vec<(u64, Arc<B, Global>)>>,
}

impl<B: Bell + Drop> Bells<B> {
    /// No bells yet, with room for so many.
    pub fn with_room(alloc: Global, room: usize) -> Result<Bells<B>, Memory> {
        let all = Vec::with_capacity(alloc, room)?;
        Ok(Bells {
            all: Mutex::new(all),
        })
    }

    /// One bell more: that of this connection.
    pub fn add<R: Wait>(&self, rt: &R, number: u64, bell: Arc<B, Global>) -> Result<(), Memory> {
        let mut all = self.all.lock(rt);
        match all.push((number, bell)) {
            Ok(()) => Ok(()),
            Err(_refused) => Err(Memory),
        }
    }

    /// The bell of this connection is rung no more.
    pub fn remove<R: Wait>(&self, rt: &R, number: u64) {
        let mut all = self.all.lock(rt);
        all.retain(|one| one.0 != number);
    }
}

/// Each connection has a turn once in two to the power of this many entries: it is rung whatever it waits for, so that none is left far behind.
const TURN: u32 = 5;

/// The turn in which the connection is once this entry was published. Connections have theirs at different entries.
fn turn_of(connection: u64, entry: i64) -> u64 {
    entry.cast_unsigned().wrapping_add(connection) >> TURN
}

impl<B: Bell + Drop> Rings for Bells<B> {
    fn ring<R: Wait>(&self, rt: &R) {
        let all = self.all.lock(rt);
        for one in all.iter() {
            one.1.ring(u64::MAX);
        }
    }

    fn ring_for<R: Wait>(&self, rt: &R, bits: u64, before: i64, after: i64) {
        let all = self.all.lock(rt);
        for one in all.iter() {
            let is_due = turn_of(one.0, before) != turn_of(one.0, after);
            one.1.ring(if is_due { u64::MAX } else { bits });
        }
    }
}
