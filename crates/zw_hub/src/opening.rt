//! Makes a hub with its readers.

ghost use Rattle.std.specs.Prelude.{◌≡◌, All, IfOk, vec_len};
ghost use Rattle.std.specs.Arc.{arc_value};
ghost use Rattle.zw_hub.specs.Hubs.{new_hub};
ghost use Rattle.zw_hub.specs.Readers.{new_reader};

use crate::reader::HubReader;
use crate::rest::Keeper;
use crate::rule::{Growing, View};
use crate::window::Window;
use crate::writer::Hub;
use left_right::reader::Factory;
use left_right::writer::Writer;
use std::alloc::Global;
use std::sync::{Arc, Mutex, Wait};
use zx_base::Memory;

/// The most readers: `left_right` has room for 2^32 - 1 seats, and one stays free. More are refused as out of memory.
const MAX_READERS: usize = 4_294_967_294;

/// A hub whose first entry is to have the number `first + 1`, and so many readers of it. No more can be made later.
pub fn hub<R: Wait + Drop>(
    rt: R,
    alloc: Global,
    first: i64,
    readers: usize,
) -> Result<(Hub<R>, Vec<HubReader>, Keeper<R>), Memory>
    ensures hub { IfOk result (λ made. made.0 ≡ new_hub made.0.table first) }
    ensures count { IfOk result (λ made. vec_len made.1 ≡ readers) }
    ensures readers { IfOk result (λ made. All (λ reader. reader ≡ new_reader made.0.table) made.1.items) }
{
    if readers > MAX_READERS {
        return Err(Memory);
    }
    let (one, other) = (Window::new(alloc, first)?, Window::new(alloc, first)?);
    let rest = Arc::new(alloc, Mutex::new(None))?;
    let mine = Arc::try_clone(&rest)?;
    let hub = Hub::over(
        Writer::new(alloc, one, other, readers + 1)?,
        alloc,
        rt,
        mine,
    );
    let readers = readers_of(alloc, hub.factory(), readers)?;
    Ok((hub, readers, Keeper::of(rest)))
}

fn readers_of(
    alloc: Global,
    places: &Factory<Window, View, Growing>,
    count: usize,
) -> Result<Vec<HubReader>, Memory>
    ensures count { IfOk result (λ readers. vec_len readers ≡ count) }
    ensures readers { IfOk result (λ readers. All (λ reader. reader ≡ new_reader (arc_value places.now.board).shared.table_id) readers.items) }
{
    let mut readers = Vec::with_capacity(alloc, count)?;
    for _ in 0..count {
        readers.push(HubReader::over(places.reader()?))?;
    }
    Ok(readers)
}
