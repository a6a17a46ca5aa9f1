//! The state of the service.

ghost use Rattle.std.specs.Prelude.{◌≡◌, [], ◌+◌, ◌<◌, option_map, IfOk, IfErr};
ghost use Rattle.std.specs.FinMap.{empty, insert, remove};
ghost use Rattle.zk_service.specs.Answers.{owned_limit_in};
ghost use Rattle.zk_service.specs.States.{advanced, attached_session, nothing_yet, removed_all, session_at};
ghost use Rattle.zk_history.specs.Commits.{changed};
ghost use Rattle.zk_machine.specs.Faults.{BeyondUnless};

use crate::ended::removed_all;
use crate::outcome::Change;
use crate::session::Session;
use crate::sessions::Sessions;
use std::alloc::Global;
use std::marker::Model;
use zk_machine::{Fault, Tree};
use zk_model::{Path, Trigger};
use zx_base::{Memory, Seq};

/// The state of the service: its tree, its open sessions, and of the last update the zxid, the number and what watches see.
#[derive(Drop)]
pub struct State {
    tree: Tree,
    zxid: i64,
    updates: u64,
    triggers: Seq<Trigger>,
    sessions: Sessions,
}

impl Model for State {
    ghost use Rattle.zk_service.specs.States.{State as Reached};
    ghost use Rattle.zk_history.specs.Codes.{coded_state};

    ghost Value = { Reached };

    ghost coded = { coded_state };

    ghost view = { λ s. record { tree = s.tree; zxid = s.zxid; updates = s.updates; triggers = s.triggers; sessions = s.sessions } };
}

/// The number of updates, and one more.
fn counted(updates: u64) -> Result<u64, Fault>
    ensures ok { IfOk result (λ n. n ≡ updates + 1) }
    ensures beyond { IfErr result (BeyondUnless (updates < 18446744073709551615)) }
{
    match updates.checked_add(1) {
        Some(more) => Ok(more),
        None => Err(Fault::Beyond),
    }
}

impl State {
    /// The state before the first update.
    pub fn new(alloc: Global) -> State
        ensures { result ≡ nothing_yet }
    {
        State {
            tree: Tree::new(alloc),
            zxid: 0,
            updates: 0,
            triggers: Seq::new(alloc),
            sessions: Sessions::new(alloc),
        }
    }

    /// The state after the first update, which makes this tree.
    pub fn begun(alloc: Global, tree: Tree, zxid: i64) -> State
        ensures { result ≡ record { tree = tree; zxid = zxid; updates = 1; triggers = []; sessions = empty } }
    {
        State {
            tree,
            zxid,
            updates: 1,
            triggers: Seq::new(alloc),
            sessions: Sessions::new(alloc),
        }
    }

    /// The state after one more update, with its zxid and what watches see of it. `Beyond` where 2^64 - 1 updates were made before.
    pub fn advanced(self, zxid: i64, triggers: Seq<Trigger>) -> Result<State, Fault>
        ensures ok { IfOk result (λ s. s ≡ advanced self zxid self.tree triggers self.sessions) }
        ensures beyond { IfErr result (BeyondUnless (self.updates < 18446744073709551615)) }
    {
        let updates = counted(self.updates)?;
        Ok(State {
            tree: self.tree,
            zxid,
            updates,
            triggers,
            sessions: self.sessions,
        })
    }

    /// The state with a change of its tree, which is carried out in place.
    pub fn changed(self, alloc: Global, change: Change) -> Result<State, Memory>
        ensures { IfOk result (λ s. s ≡ record self { tree = changed self.tree change }) }
    {
        Ok(State {
            tree: change.carried_out(alloc, self.tree)?,
            zxid: self.zxid,
            updates: self.updates,
            triggers: self.triggers,
            sessions: self.sessions,
        })
    }

    /// The state without these nodes, removed one by one at one zxid.
    pub fn without_nodes(self, alloc: Global, paths: &[Path], zxid: i64) -> Result<State, Memory>
        ensures { IfOk result (λ s. s ≡ record self { tree = removed_all self.tree paths.now zxid }) }
    {
        Ok(State {
            tree: removed_all(alloc, self.tree, paths, zxid)?,
            zxid: self.zxid,
            updates: self.updates,
            triggers: self.triggers,
            sessions: self.sessions,
        })
    }

    /// The state with this session open under its number.
    pub fn with_session(self, id: i64, session: Session) -> Result<State, Memory>
        ensures { IfOk result (λ s. s ≡ record self { sessions = insert self.sessions id session }) }
    {
        Ok(State {
            tree: self.tree,
            zxid: self.zxid,
            updates: self.updates,
            triggers: self.triggers,
            sessions: self.sessions.with(id, session)?,
        })
    }

    /// The state without the session of this number.
    pub fn without_session(self, id: i64) -> State
        ensures { result ≡ record self { sessions = remove self.sessions id } }
    {
        State {
            tree: self.tree,
            zxid: self.zxid,
            updates: self.updates,
            triggers: self.triggers,
            sessions: self.sessions.without(id),
        }
    }

    /// The znodes.
    pub fn tree(&self) -> &Tree
        ensures { result.now ≡ self.now.tree }
    {
        &self.tree
    }

    /// The zxid of the last update, or 0 before the first.
    pub fn zxid(&self) -> i64
        ensures { result ≡ self.now.zxid }
    {
        self.zxid
    }

    /// How many updates there were.
    pub fn updates(&self) -> u64
        ensures { result ≡ self.now.updates }
    {
        self.updates
    }

    /// What watches see of the last update, in order.
    pub fn triggers(&self) -> &[Trigger]
        ensures { result.now ≡ self.now.triggers }
    {
        self.triggers.as_slice()
    }

    /// The session that is attached to a connection, with its number.
    pub fn attached_to(&self, connection: u32) -> Option<(i64, &Session)>
        ensures { option_map (λ e. (e.0, e.1.now)) result ≡ attached_session connection self.now }
    {
        self.sessions.attached_to(connection)
    }

    /// The open session of this number.
    pub fn session(&self, id: i64) -> Option<&Session>
        ensures { option_map (λ s. s.now) result ≡ session_at id self.now }
    {
        self.sessions.get(id)
    }

    /// How many ephemeral nodes the session of this number may own, 0 where it is not open.
    pub fn owned_limit(&self, id: i64) -> usize
        ensures { result ≡ owned_limit_in (session_at id self.now) }
    {
        match self.session(id) {
            Some(session) => session.limit(),
            None => 0,
        }
    }
}
