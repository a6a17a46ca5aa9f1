//! The writer.

ghost use Rattle.std.specs.Prelude.{◌≡◌, [], drop, fold};
ghost use Rattle.left_right.specs.Sides.{view};
ghost use Rattle.zw_hub.specs.ListChanges.{list_after};
ghost use Rattle.zw_hub.specs.Steps.{SeesOnce};

use crate::change::{Change, Ending};
use crate::feed::FeedEnd;
use crate::rest::{Place, leave};
use crate::rule::{Growing, Sees, View};
use crate::window::Window;
use core::mem::replace_with;
use left_right::reader::Factory;
use left_right::writer::Writer;
use std::alloc::Global;
use std::marker::Model;
use std::sync::{Arc, Wait};
use zn_layout::Entry;
use zx_base::Memory;

/// The two copies of the list, and the changes that one of them still lacks.
pub type ListWriter = Writer<Window, Change, View, Growing>;

/// The writer of a list that readers in other threads read. Contracts see the list. A publish, a close and a drop wait for readers
/// that are inside a read. Where memory is refused the hub is as before, and a later publish or close may succeed. After a drop the
/// readers read on in the list as it was published last.
pub struct Hub<R: Wait + Drop> {
    writer: ListWriter,
    alloc: Global,
    rt: R,
    rest: Place<R>,
}

impl<R: Wait + Drop> Model for Hub<R> {
    ghost use Rattle.std.specs.Prelude.{◌≡◌, ◌<◌, [], drop};
    ghost use Rattle.left_right.specs.Sides as sides;
    ghost use Rattle.zw_hub.specs.Hubs.{HubState};

    ghost Value = { HubState };

    ghost view = { λ h. record { table = h.writer.desk.place.table_id; list = h.writer.desk.shown.value; steps = (sides.view h.writer.desk.place).steps } };

    // No change waits; and once the hub has published, its own view is the list that readers see.
    ghost invariant = { λ h. (drop h.writer.behind h.writer.log.items ≡ [])
        × (0 < (sides.view h.writer.desk.place).steps → (sides.view h.writer.desk.place).list ≡ h.writer.desk.shown.value) };
}

impl<R: Wait + Drop> Drop for Hub<R> {
    fn drop(self) {
        let Hub {
            writer,
            alloc: _,
            rt,
            rest,
        } = self;
        leave(&rest, writer, rt);
    }
}

/// Shows readers the list with the changes that it still lacks.
fn shown<R: Wait>(writer: ListWriter, rt: &R) -> ListWriter
    ensures list { result.desk.shown.value ≡ fold list_after writer.desk.shown.value (drop writer.behind writer.log.items) }
    ensures none_waits { drop result.behind result.log.items ≡ [] }
    ensures once { SeesOnce (view writer.desk.place) writer.desk.shown.value result.desk.shown.value (view result.desk.place) }
{
    let (writer, _done) = writer.publish_as::<Sees, R>(rt);
    writer
}

impl<R: Wait + Drop> Hub<R> {
    ghost use Rattle.std.specs.Prelude.{◌≡◌, ◌+◌, [], drop, OnOk, OnErr, None, ◌+ℤ◌, pos};
    ghost use Rattle.std.specs.Arc.{arc_value};
    ghost use Rattle.left_right.specs.Sides.{view};
    ghost use Rattle.zw_hub.specs.ListChanges.{list_after};
    ghost use Rattle.zw_hub.specs.Ends.{IsProper};
    ghost use Rattle.zw_hub.specs.Lists.{last_number, with_entry, with_end, forgetting};
    ghost use Rattle.zw_hub.specs.Steps.{nothing_seen};

    /// A hub over this writer, which has published nothing yet.
    pub(crate) fn over(writer: ListWriter, alloc: Global, rt: R, rest: Place<R>) -> Hub<R>
        requires none_waits { drop writer.behind writer.log.items ≡ [] }
        requires nothing { view writer.desk.place ≡ nothing_seen }
        ensures table { result.table ≡ writer.desk.place.table_id }
        ensures list { result.list ≡ writer.desk.shown.value }
        ensures steps { result.steps ≡ 0 }
    {
        Hub {
            writer,
            alloc,
            rt,
            rest,
        }
    }

    /// What hands out seats to readers.
    pub(crate) fn factory(&self) -> &Factory<Window, View, Growing>
        ensures { (arc_value result.now.board).shared.table_id ≡ self.now.table }
    {
        self.writer.factory()
    }

    /// Publishes the next entry. Where memory is refused, the hub is as before.
    pub fn publish(&mut self, entry: Arc<Entry, Global>) -> Result<(), Memory>
        requires next { (arc_value entry).number ≡ last_number self.old.list +ℤ pos 1 }
        requires is_open { self.old.list.end ≡ None }
        ensures ok { OnOk result (self.new.list ≡ with_entry self.old.list (arc_value entry)) }
        ensures err { OnErr result (self.new ≡ self.old) }
        ensures once { OnOk result (self.new.steps ≡ self.old.steps + 1) }
    {
        self.show(Change::Entry(entry))
    }

    /// Closes the list for good. Where memory is refused, the hub is as before, still open.
    pub fn close(&mut self, end: FeedEnd) -> Result<(), Memory>
        requires is_open { self.old.list.end ≡ None }
        requires proper { IsProper end }
        ensures ok { OnOk result (self.new.list ≡ with_end self.old.list end) }
        ensures err { OnErr result (self.new ≡ self.old) }
        ensures once { OnOk result (self.new.steps ≡ self.old.steps + 1) }
    {
        let end = Arc::new(self.alloc, end)?;
        self.show(Change::End(Ending::of(end)))
    }

    /// Has readers be told no entry so far any more: one whose next entry is among them is told that it lagged. Where memory is refused, the
    /// hub is as before.
    pub fn forget(&mut self) -> Result<(), Memory>
        requires { self.old.list.end ≡ None }
        ensures ok { OnOk result (self.new.list ≡ forgetting self.old.list) }
        ensures err { OnErr result (self.new ≡ self.old) }
        ensures once { OnOk result (self.new.steps ≡ self.old.steps + 1) }
    {
        self.show(Change::Forget)
    }

    fn show(&mut self, change: Change) -> Result<(), Memory>
        ensures ok { OnOk result (self.new.list ≡ list_after self.old.list change) }
        ensures err { OnErr result (self.new ≡ self.old) }
        ensures once { OnOk result (self.new.steps ≡ self.old.steps + 1) }
    {
        if self.writer.append(change).is_err() {
            return Err(Memory);
        }
        replace_with(
            &mut self.writer,
            &self.rt,
            |writer, rt| (shown(writer, rt), ()),
        );
        Ok(())
    }
}
