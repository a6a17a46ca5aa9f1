//! A hub, with what has to be known of it to go on.

ghost use Rattle.std.specs.Prelude.{◌≡◌, IfOk, true, None};
ghost use Rattle.std.specs.Arc.{arc_value};
ghost use Rattle.zw_hub.specs.Lists.{last_number};
ghost use Rattle.zw_hub.specs.Ends.{IsProper};

use std::alloc::Global;
use std::io;
use std::sync::{Arc, Wait};
use zn_layout::Entry;
use zw_hub::{FeedEnd, Hub, HubReader, Keeper, hub};
use zx_base::Seq;

/// A hub, with the number of its last entry and whether it is open.
#[derive(Drop)]
pub struct Publisher<R: Wait + Drop> {
    hub: Hub<R>,
    last: i64,
    is_open: bool,
    ghost counted: { last ≡ last_number hub.list },
    ghost opened: { is_open ≡ true → hub.list.end ≡ None },
}

impl<R: Wait + Drop> Publisher<R> {
    /// A new hub with so many readers, and its keeper; its first entry has the number `first + 1`.
    pub fn open(
        rt: R,
        alloc: Global,
        first: i64,
        readers: usize,
    ) -> io::Result<(Publisher<R>, Vec<HubReader>, Keeper<R>)> {
        let Ok((hub, readers, keeper)) = hub(rt, alloc, first, readers) else {
            return Err(out_of_memory());
        };
        let publisher = Publisher {
            hub,
            last: first,
            is_open: true,
        };
        Ok((publisher, readers, keeper))
    }

    /// Publishes `count` entries, each with a zxid that is its number plus 2.
    pub fn publish_all(&mut self, alloc: Global, count: i64) -> io::Result<()> {
        for _ in 0..count {
            self.publish(alloc)?;
        }
        Ok(())
    }

    fn publish(&mut self, alloc: Global) -> io::Result<()> {
        if !self.is_open || self.last == i64::MAX {
            return Err(io::Error::from(io::ErrorKind::InvalidInput));
        }
        let number = self.last + 1;
        let entry = entry_of(alloc, number)?;
        match self.hub.publish(entry) {
            Ok(()) => {
                self.last = number;
                Ok(())
            }
            Err(_) => Err(out_of_memory()),
        }
    }

    /// Has readers be told nothing of what was published so far. A fault where the hub is closed.
    pub fn forget(&mut self) -> io::Result<()> {
        if !self.is_open {
            return Err(io::Error::from(io::ErrorKind::InvalidInput));
        }
        match self.hub.forget() {
            Ok(()) => Ok(()),
            Err(_) => Err(out_of_memory()),
        }
    }

    /// Closes the hub. A fault where it is closed already, or the end is not a proper one.
    pub fn close(&mut self, end: FeedEnd) -> io::Result<()> {
        if !self.is_open || !is_proper(&end) {
            return Err(io::Error::from(io::ErrorKind::InvalidInput));
        }
        match self.hub.close(end) {
            Ok(()) => {
                self.is_open = false;
                Ok(())
            }
            Err(_) => Err(out_of_memory()),
        }
    }
}

/// Whether a hub may be closed by this end. Damaged ones are not tried.
fn is_proper(end: &FeedEnd) -> bool
    ensures { result ≡ true → IsProper end.now }
{
    match end {
        FeedEnd::Gap { expected, found } => *expected != *found,
        FeedEnd::Damaged { .. } => false,
        _ => true,
    }
}

/// An entry without triggers.
pub fn entry_of(alloc: Global, number: i64) -> io::Result<Arc<Entry, Global>>
    ensures { IfOk result (λ entry. (arc_value entry).number ≡ number) }
{
    let entry = Entry {
        number,
        zxid: zxid_of(number),
        triggers: Seq::new(alloc),
    };
    match Arc::new(alloc, entry) {
        Ok(entry) => Ok(entry),
        Err(_) => Err(out_of_memory()),
    }
}

/// The zxid that the entry of this number has here.
pub fn zxid_of(number: i64) -> i64 {
    number.wrapping_add(2)
}

pub fn out_of_memory() -> io::Error {
    io::Error::from(io::ErrorKind::OutOfMemory)
}
