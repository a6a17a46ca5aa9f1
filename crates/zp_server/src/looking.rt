//! Whether the hub is closed.

ghost use Rattle.zp_server.specs.Looking.{Closes, Looks};

use crate::ends::Stop;
use zk_service::Cause;
use zw_hub::{Fed, Feed, HubReader};

/// A cursor above which no entry stands: a look with it tells only whether the list is closed.
const LAST_CURSOR: i64 = i64::MAX;

/// Whether this reader finds the hub closed. No entry stands above the cursor, so one that is found there, or lacking there, counts as
/// out of memory.
pub fn look(reader: &mut HubReader) -> Result<(), Stop>
    ensures { Looks result reader.old reader.new }
{
    match reader.next(LAST_CURSOR) {
        Fed::None => Ok(()),
        Fed::Closed(end) => Err(Stop::Feed(end)),
        Fed::Memory | Fed::Entry(_) | Fed::Lagged { .. } => Err(Stop::Memory),
    }
}

/// Why the hub is closed, where a connection ended for that; its reader tells. It is closed for good, so a reader that finds it
/// open again, which none does, counts as out of memory.
pub fn closing_of(cause: &Cause, reader: &mut HubReader) -> Result<(), Stop>
    ensures { Closes result cause.now reader.old reader.new }
{
    match cause {
        Cause::FeedClosed => match look(reader) {
            Ok(()) => Err(Stop::Memory),
            Err(stop) => Err(stop),
        },
        _ => Ok(()),
    }
}
