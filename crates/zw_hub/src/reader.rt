//! Reads the list.

ghost use Rattle.std.specs.Prelude.{◌≡◌, ◌≢◌, ◌+◌, ◌<◌, ◌<ℤ◌};
ghost use Rattle.left_right.specs.Sides.{view};
ghost use Rattle.zw_hub.specs.Lists.{floor, Extends};
ghost use Rattle.zw_hub.specs.Feeds.{IsFed, IsLagged, IsOneRead};

use crate::feed::{Fed, Feed};
use crate::rule::{Growing, Sees, View};
use crate::window::Window;
use core::mem::replace_with;
use left_right::reader::Reader;
use std::marker::Model;
use zx_history::GhostHistory;

/// The seat in `left_right` from which one reader reads.
pub type ListReader = Reader<Window, View, Growing>;

/// A reader of the list, for one connection at a time. A hub makes no further readers, so one that is dropped is gone.
#[derive(Drop)]
pub struct HubReader {
    reader: ListReader,
    lags: GhostHistory<()>,
    closings: GhostHistory<()>,
}

impl Model for HubReader {
    ghost use Rattle.std.specs.Prelude.{length};
    ghost use Rattle.left_right.specs.Sides as sides;
    ghost use Rattle.zw_hub.specs.Readers.{ReaderState};

    ghost Value = { ReaderState };

    ghost view = { λ r. record {
      table = r.reader.place.table_id;
      list = (sides.view r.reader.place).list;
      reads = (sides.view r.reader.place).steps;
      lags = length r.lags.items;
      closings = length r.closings.items;
    } };
}

/// One read of the list. Where the list is gone there is none, and the answer is `Memory`; it stays while the hub or its keeper
/// is there.
fn read_at(reader: ListReader, cursor: i64) -> (ListReader, Fed)
    ensures once { IsOneRead result.1
        (view reader.place).steps (view result.0.place).steps
        (view reader.place).list (view result.0.place).list }
    ensures extends { 0 < (view reader.place).steps → Extends (view result.0.place).list (view reader.place).list }
    ensures answer { IsFed (view result.0.place).list cursor result.1 }
    ensures below { cursor <ℤ floor (view result.0.place).list → result.1 ≢ Fed.Memory → IsLagged result.1 }
{
    match reader.enter_as::<Sees>() {
        Ok(reading) => {
            let fed = reading.get().look(cursor);
            (reading.leave(), fed)
        }
        Err(reader) => (reader, Fed::Memory),
    }
}

impl HubReader {
    ghost use Rattle.std.specs.Prelude.{◌≡◌};
    ghost use Rattle.left_right.specs.Sides.{view};
    ghost use Rattle.zw_hub.specs.Readers.{new_reader};
    ghost use Rattle.zw_hub.specs.Steps.{nothing_seen};

    /// A reader at this seat, from which nothing was read yet.
    pub(crate) fn over(reader: ListReader) -> HubReader
        requires { view reader.place ≡ nothing_seen }
        ensures { result ≡ new_reader reader.place.table_id }
    {
        HubReader {
            reader,
            lags: GhostHistory::new(),
            closings: GhostHistory::new(),
        }
    }
}

impl Feed for HubReader {
    ghost use Rattle.zw_hub.specs.Readers.{ReaderState};

    ghost list = { λ r. r.list };

    ghost reads = { λ r. r.reads };

    ghost lags = { λ r. r.lags };

    ghost closings = { λ r. r.closings };

    fn next(&mut self, cursor: i64) -> Fed {
        let fed = replace_with(&mut self.reader, cursor, |reader, cursor| {
            read_at(reader, cursor)
        });
        match &fed {
            Fed::Lagged { .. } => self.lags = self.lags.and(&()),
            Fed::Closed(_) => self.closings = self.closings.and(&()),
            _ => {}
        }
        fed
    }

    fn heed(&mut self, _bits: u64) {}
}
