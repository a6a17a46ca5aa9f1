//! What workers hand back to the listener.

ghost use Rattle.std.specs.Prelude.{◌≡◌, ◌<◌};
ghost use Rattle.zk_service.specs.declared.cause.Cause.TheVariants.{FeedClosed};

use crate::served::Served;
use std::alloc::Global;
use std::sync::{Condvar, Mutex, Wait};
use zp_run::Trace;
use zw_hub::HubReader;
use zx_base::Memory;
use zx_outside::{Sink, Source};

/// A connection that has ended, and the reader that served it. Where the connection ended since the hub is closed, that reader was
/// told so.
#[derive(Drop)]
pub struct Returned<I: Source + Drop, O: Sink + Drop, T: Trace + Drop> {
    pub served: Served<I, O, T>,
    pub reader: HubReader,
    pub ghost fed: { served.cause ≡ FeedClosed → 0 < reader.closings },
}

/// What came back.
#[derive(Drop)]
struct Kept<I: Source + Drop, O: Sink + Drop, T: Trace + Drop> {
    returned: Vec<Returned<I, O, T>>,
    /// One was lost.
    is_short: bool,
}

/// What workers hand back, the last first.
#[derive(Drop)]
pub struct Back<I: Source + Drop, O: Sink + Drop, T: Trace + Drop> {
    kept: Mutex<Kept<I, O, T>>,
    came: Condvar,
}

impl<I: Source + Drop, O: Sink + Drop, T: Trace + Drop> Back<I, O, T> {
    /// Nothing came back yet; room for so many at once.
    pub fn with_room(alloc: Global, room: usize) -> Result<Back<I, O, T>, Memory> {
        let returned = Vec::with_capacity(alloc, room)?;
        Ok(Back {
            kept: Mutex::new(Kept {
                returned,
                is_short: false,
            }),
            came: Condvar::new(),
        })
    }

    /// Hands one back.
    pub fn put<W: Wait>(&self, rt: &W, returned: Returned<I, O, T>) {
        let mut kept = self.kept.lock(rt);
        if kept.returned.push(returned).is_err() {
            kept.is_short = true;
        }
        self.came.notify_one();
    }

    /// One that came back; `None` where none did.
    fn look<W: Wait>(&self, rt: &W) -> Result<Option<Returned<I, O, T>>, Memory> {
        let mut kept = self.kept.lock(rt);
        if kept.is_short {
            return Err(Memory);
        }
        Ok(kept.returned.pop())
    }

    /// Waits until one comes back.
    pub fn wait<W: Wait>(&self, rt: &W) -> Result<Returned<I, O, T>, Memory> {
        let mut kept = self.came.wait_while(
            rt,
            self.kept.lock(rt),
            |kept| kept.returned.is_empty() && !kept.is_short,
        );
        match kept.returned.pop() {
            Some(returned) => Ok(returned),
            None => Err(Memory),
        }
    }

    /// One that came back. Where none did, `None` if nobody needs one, and otherwise the next that does.
    pub fn next<W: Wait>(
        &self,
        rt: &W,
        is_needed: bool,
    ) -> Result<Option<Returned<I, O, T>>, Memory> {
        match self.look(rt)? {
            Some(returned) => Ok(Some(returned)),
            None if is_needed => match self.wait(rt) {
                Ok(returned) => Ok(Some(returned)),
                Err(refused) => Err(refused),
            },
            None => Ok(None),
        }
    }
}
