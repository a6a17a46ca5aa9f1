//! Which open sessions are attached to a connection.

ghost use Rattle.std.specs.Prelude.{◌≡◌, option_map, IfOk};
ghost use Rattle.std.specs.FinMap.{get, insert, remove};
ghost use Rattle.zk_service.specs.States.{Session as Opened, Sessions as Numbered};
ghost use Rattle.zk_history.specs.Attachments.{AreAttached, IsLeastAttached};

use crate::session::Session;
use std::collections::BTreeSet;
use zx_base::Memory;

/// The connection and the number of each open session.
pub type Attachments = BTreeSet<(u32, i64)>;

/// The least number of a session that is attached to a connection.
pub fn first_attached(attachments: &Attachments, connection: u32) -> Option<i64>
    ensures { IsLeastAttached attachments.now connection result }
{
    let first = attachments.range((connection, i64::MIN)..).next()?;
    if first.0 == connection {
        Some(first.1)
    } else {
        None
    }
}

/// The attachments after the session of this number, if it was open, is closed.
pub fn detached(attachments: Attachments, session: Option<&Session>, id: i64) -> Attachments
    ensures { (m : Numbered) → get m id ≡ option_map (λ s. s.now) session.entry → AreAttached m attachments → AreAttached (remove m id) result }
{
    let mut rest = attachments;
    if let Some(session) = session {
        rest.remove(&(session.connection(), id));
    }
    rest
}

/// The attachments after a session opens, attached to this connection, under a number that had none.
pub fn attached(attachments: Attachments, connection: u32, id: i64) -> Result<Attachments, Memory>
    ensures { IfOk result (λ a. (m : Numbered) (s : Opened) → s.connection ≡ connection → AreAttached (remove m id) attachments → AreAttached (insert m id s) a) }
{
    let mut more = attachments;
    more.insert((connection, id))?;
    Ok(more)
}
