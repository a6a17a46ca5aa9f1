//! What a hub leaves to its readers when it is dropped.

use crate::writer::ListWriter;
use std::alloc::Global;
use std::sync::{Arc, Mutex, Wait};

/// The list as it was published last.
pub struct Rest<R: Wait + Drop> {
    writer: ListWriter,
    rt: R,
}

/// Where a hub puts its list when it is dropped. The hub and its keeper own the place, so what lies there goes with the later of
/// them. Nobody reads it there: a reader reads the list as it always did.
pub type Place<R> = Arc<Mutex<Option<Rest<R>>>, Global>;

impl<R: Wait + Drop> Drop for Rest<R> {
    fn drop(self) {
        let Rest { writer, rt } = self;
        drop(writer.take(&rt));
    }
}

/// Leaves a list there. If the lock is taken, which nobody else does, the list goes.
pub(crate) fn leave<R: Wait + Drop>(place: &Place<R>, writer: ListWriter, rt: R) {
    let rest = Rest { writer, rt };
    if let Some(mut left) = place.try_lock() {
        *left = Some(rest);
    }
}

/// Keeps the list of a hub that was dropped for its readers, as long as it is there itself. Whoever has the readers has it too,
/// until they are done. A drop after that of the hub waits for readers that are inside a read.
#[derive(Drop)]
pub struct Keeper<R: Wait + Drop> {
    rest: Place<R>,
}

impl<R: Wait + Drop> Keeper<R> {
    /// The keeper of this place.
    pub(crate) fn of(rest: Place<R>) -> Keeper<R> {
        Keeper { rest }
    }
}
