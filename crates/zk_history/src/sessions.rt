//! The open sessions.

ghost use Rattle.std.specs.Prelude.{◌≡◌, option_map, IfOk};
ghost use Rattle.std.specs.FinMap.{empty, entries, get, insert, remove};
ghost use Rattle.zk_service.specs.States.{attached_in};

use crate::attachments::{Attachments, attached, detached, first_attached};
use crate::session::Session;
use std::alloc::Global;
use std::collections::{BTreeMap, BTreeSet};
use std::marker::Model;
use zx_base::Memory;

/// The open sessions by their numbers. Each call takes the logarithm of how many are open.
#[derive(Drop)]
pub struct Sessions {
    open: BTreeMap<i64, Session>,
    attachments: Attachments,
}

impl Model for Sessions {
    ghost use Rattle.std.specs.FinMap as map;
    ghost use Rattle.zk_service.specs.States.{Sessions as Numbered};
    ghost use Rattle.zk_history.specs.Attachments.{AreAttached};
    ghost use Rattle.zk_history.specs.Codes.{coded_sessions};

    ghost Value = { Numbered };

    ghost coded = { coded_sessions };

    ghost view = { λ s. map.from_entries s.open.entries };

    ghost invariant = { λ s. AreAttached (map.from_entries s.open.entries) s.attachments };
}

impl Sessions {
    /// No sessions.
    pub fn new(alloc: Global) -> Sessions
        ensures { result ≡ empty }
    {
        Sessions {
            open: BTreeMap::new(alloc),
            attachments: BTreeSet::new(alloc),
        }
    }

    /// The session of a number.
    pub fn get(&self, id: i64) -> Option<&Session>
        ensures { option_map (λ s. s.now) result ≡ get self.now id }
    {
        self.open.get(&id)
    }

    /// The session that is attached to a connection, with its number.
    pub fn attached_to(&self, connection: u32) -> Option<(i64, &Session)>
        ensures { option_map (λ e. (e.0, e.1.now)) result ≡ attached_in connection (entries self.now) }
    {
        let id = first_attached(&self.attachments, connection)?;
        let session = self.get(id)?;
        Some((id, session))
    }

    /// The sessions with this one under its number.
    pub fn with(self, id: i64, session: Session) -> Result<Sessions, Memory>
        ensures { IfOk result (λ s. s ≡ insert self id session) }
    {
        let rest = detached(self.attachments, self.open.get(&id), id);
        let attachments = attached(rest, session.connection(), id)?;
        let mut open = self.open;
        open.insert(id, session)?;
        Ok(Sessions { open, attachments })
    }

    /// The sessions without the one of this number.
    pub fn without(self, id: i64) -> Sessions
        ensures { result ≡ remove self id }
    {
        let mut open = self.open;
        let session = open.remove(&id);
        Sessions {
            open,
            attachments: detached(self.attachments, session.as_ref(), id),
        }
    }
}
