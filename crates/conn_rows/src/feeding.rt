//! Feeds with entries.

ghost use Rattle.std.specs.Prelude.{◌≡◌, IfOk, None};
ghost use Rattle.std.specs.Arc.{arc_value};
ghost use Rattle.zw_hub.specs.Lists.{last_number};

use std::alloc::Global;
use std::sync::{Arc, Wait};
use zn_layout::{Entry, head_in};
use zw_hub::{FeedEnd, Hub, HubReader, Keeper, hub};
use zx_base::{Memory, Seq};

/// What the feed has before the connection comes.
#[derive(Clone, Copy)]
pub struct Entered<'a> {
    /// The number before the first entry's.
    pub first: u32,
    /// How many entries there are.
    pub count: u32,
    /// The record of the head that each of them left.
    pub record: &'a [u8],
    /// Whether the feed was closed after them.
    pub closed: bool,
}

/// An open feed without entries, as the tree was begun.
pub const OPEN: Entered<'static> = Entered {
    first: 1,
    count: 0,
    record: b"",
    closed: false,
};

/// The same, closed.
pub const CLOSED: Entered<'static> = Entered {
    first: 1,
    count: 0,
    record: b"",
    closed: true,
};

/// An open hub, with the number of its last entry.
#[derive(Drop)]
struct Publisher<R: Wait + Drop> {
    hub: Hub<R>,
    last: i64,
    ghost counted: { last ≡ last_number hub.list },
    ghost opened: { hub.list.end ≡ None },
}

impl<R: Wait + Drop> Publisher<R> {
    /// Publishes an entry with this record.
    fn publish(&mut self, alloc: Global, record: &[u8]) -> Result<(), Memory> {
        if self.last == i64::MAX {
            return Err(Memory);
        }
        let number = self.last + 1;
        let entry = entry_of(alloc, number, record)?;
        match self.hub.publish(entry) {
            Ok(()) => {
                self.last = number;
                Ok(())
            }
            Err(_refused) => Err(Memory),
        }
    }

    /// Closes the hub, if that is wanted, and lets it go. Its readers read on as long as its keeper is there.
    fn leave(self, closed: bool) -> Result<(), Memory> {
        let Publisher { mut hub, last: _ } = self;
        if closed {
            hub.close(FeedEnd::NoLine)?;
        }
        Ok(())
    }
}

/// The entry of this number by the record of the head that its update left; its zxid is its number plus 1.
fn entry_of(alloc: Global, number: i64, record: &[u8]) -> Result<Arc<Entry, Global>, Memory>
    ensures { IfOk result (λ entry. (arc_value entry).number ≡ number) }
{
    let triggers = match head_in(alloc, record)? {
        Some(head) => head.triggers,
        None => Seq::new(alloc),
    };
    let entry = Entry {
        number,
        zxid: number.wrapping_add(1),
        triggers,
    };
    Ok(Arc::new(alloc, entry)?)
}

/// A reader of such a feed, and what keeps the feed.
pub fn feed_of<'a, R: Wait>(
    rt: &'a R,
    alloc: Global,
    entered: Entered<'_>,
) -> Result<(HubReader, Keeper<&'a R>), Memory> {
    let first = i64::from(entered.first);
    let (hub, mut readers, keeper) = hub(rt, alloc, first, 1)?;
    let mut publisher = Publisher { hub, last: first };
    for _ in 0..entered.count {
        publisher.publish(alloc, entered.record)?;
    }
    publisher.leave(entered.closed)?;
    match readers.pop() {
        Some(reader) => Ok((reader, keeper)),
        None => Err(Memory),
    }
}
