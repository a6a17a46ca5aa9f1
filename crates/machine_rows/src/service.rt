//! A service with one connection, which takes one step after another.

use crate::texts::{push_body, push_node, push_notices, push_reply, push_session, push_triggers};
use row_files::{Piece, Steps, Words, joined, push};
use row_words::request;
use std::alloc::Global;
use std::mem;
use zk_answers::{Told, Watches, plain_request, tree_reply};
use zk_history::{Commit, Past, Session, State, change, commit};
use zk_machine::{Fault, Turn, begin};
use zk_model::{ConnectRequest, Layout, Request, Trigger};
use zk_service::{Fresh, UpdateKind, UpdateRec};
use zk_transcript::TranscriptLine;
use zx_base::{Bytes, Memory, Seq};

/// The state, what the connection has armed, its session, and how many ephemeral nodes a session may own.
#[derive(Drop)]
pub struct Service {
    state: State,
    watches: Watches,
    session: i64,
    limit: usize,
}

/// The time of each create, create2, delete, setData and multi, in milliseconds.
const TIME: u64 = 1000;

impl Steps for Service {
    fn step(&mut self, alloc: Global, step: &str) -> Result<Option<String>, Memory> {
        let mut text = String::new(alloc);
        match self.take(alloc, &mut text, step) {
            Ok(true) => Ok(Some(text)),
            Ok(false) | Err(Fault::Beyond) => Ok(None),
            Err(Fault::Memory) => Err(Memory),
        }
    }
}

impl Service {
    /// A service whose first update is at zxid 2, and a connection of session 17.
    pub fn new(alloc: Global) -> Result<Service, Memory> {
        let turn = Turn {
            limit: 40,
            session: 0,
            zxid: 2,
            time: 0,
        };
        Ok(Service {
            state: State::begun(alloc, begin(alloc, &turn)?, 2),
            watches: Watches::new(alloc),
            session: 17,
            limit: 40,
        })
    }

    /// Takes a step, and adds what comes of it; false where it cannot be read. `Beyond` where a number does not fit its field:
    /// the row does not go on then.
    fn take(&mut self, alloc: Global, text: &mut String, step: &str) -> Result<bool, Fault> {
        let Some((word, rest)) = step.split_once(' ') else {
            return self.shown(alloc, text, step, "");
        };
        match word.parse::<i64>() {
            Ok(zxid) => self.at(alloc, text, zxid, rest),
            Err(_) => self.shown(alloc, text, word, rest),
        }
    }

    /// A step without a zxid: one that shows something of the service, or has a number.
    fn shown(
        &mut self,
        alloc: Global,
        text: &mut String,
        word: &str,
        rest: &str,
    ) -> Result<bool, Fault> {
        match word {
            "count" => self.push_count(alloc, text)?,
            "seen" => push_triggers(text, self.state.triggers())?,
            "node" => push_node(alloc, text, self.state.tree(), rest.as_bytes())?,
            "begin" => return begun(alloc, text, rest),
            _ => return self.numbered(alloc, text, word, rest),
        }
        Ok(true)
    }

    /// The last zxid and the number of updates.
    fn push_count(&self, alloc: Global, text: &mut String) -> Result<(), Memory> {
        let pieces = [
            Piece::Number(self.state.zxid()),
            Piece::Text(" "),
            Piece::Count(self.state.updates()),
        ];
        push(text, joined(alloc, &pieces)?.as_str())
    }

    /// `session ID`, `as ID`, `limit N` or `lapse ID`
    fn numbered(
        &mut self,
        alloc: Global,
        text: &mut String,
        word: &str,
        rest: &str,
    ) -> Result<bool, Fault> {
        let Ok(number) = rest.parse::<i64>() else {
            return Ok(false);
        };
        match word {
            "session" => push_session(alloc, text, self.state.session(number))?,
            "as" => {
                self.session = number;
                push(text, "ok")?;
            }
            "limit" => {
                let Ok(limit) = usize::try_from(number) else {
                    return Ok(false);
                };
                self.limit = limit;
                push(text, "ok")?;
            }
            "lapse" => self.line(
                alloc,
                text,
                &TranscriptLine::Lapse {
                    revision: 0,
                    id: number,
                },
            )?,
            _ => return Ok(false),
        }
        Ok(true)
    }

    /// A step at a zxid: a request, or an update of a session.
    fn at(
        &mut self,
        alloc: Global,
        text: &mut String,
        zxid: i64,
        rest: &str,
    ) -> Result<bool, Fault> {
        let mut words = Words::new(rest);
        let kind = words.word();
        if kind == Some("begins") {
            return self.begins(alloc, text, zxid, &mut words);
        }
        let Some(kind) = update_of(kind, &mut words) else {
            return self.requested(alloc, text, zxid, rest);
        };
        self.line(
            alloc,
            text,
            &TranscriptLine::Update(UpdateRec { zxid, kind }),
        )?;
        Ok(true)
    }

    /// A step that is a line of a transcript, for which no earlier line is looked up.
    fn line(
        &mut self,
        alloc: Global,
        text: &mut String,
        line: &TranscriptLine,
    ) -> Result<(), Fault> {
        let past = Past::new(alloc, &[]);
        self.state = change(alloc, &past, self.taken(alloc), line)?;
        Ok(push(text, "ok")?)
    }

    /// Takes the state out.
    fn taken(&mut self, alloc: Global) -> State {
        mem::replace(&mut self.state, State::new(alloc))
    }

    /// A session begins: its number, its connection and the timeout that was asked for.
    fn begins(
        &mut self,
        alloc: Global,
        text: &mut String,
        zxid: i64,
        words: &mut Words,
    ) -> Result<bool, Fault> {
        let (Some(id), Some(connection), Some(timeout)) = (
            words.long(),
            words.number(),
            words.int(),
        ) else {
            return Ok(false);
        };
        let session = session_of(alloc, id, connection, timeout, zxid)?;
        let opened = self.taken(alloc).with_session(id, session)?;
        self.state = opened.advanced(zxid, Seq::new(alloc))?;
        push(text, "ok")?;
        Ok(true)
    }

    fn requested(
        &mut self,
        alloc: Global,
        text: &mut String,
        zxid: i64,
        rest: &str,
    ) -> Result<bool, Fault> {
        let mut words = Words::new(rest);
        match request(alloc, &mut words)? {
            Some(request) if words.word().is_none() => self.asked(alloc, text, zxid, request),
            _ => Ok(false),
        }
    }

    /// A request is answered: without the tree, by the tree, or by what it commits.
    fn asked(
        &mut self,
        alloc: Global,
        text: &mut String,
        zxid: i64,
        request: Request,
    ) -> Result<bool, Fault> {
        match self.answer(alloc, &request)? {
            Some(told) => self.told(alloc, text, told),
            None => self.carried_out(alloc, text, zxid, request),
        }
    }

    /// The answer to a request without the tree, or else by the tree; `None` where it commits something.
    fn answer(&self, alloc: Global, request: &Request) -> Result<Option<Told>, Fault> {
        if let Some(told) = plain_request(alloc, &self.watches, request)? {
            return Ok(Some(told));
        }
        tree_reply(
            alloc,
            self.state.tree(),
            self.limit,
            self.session,
            &self.watches,
            request,
        )
    }

    /// What is told: the reply, and after `told` the notices that come before it.
    fn told(&mut self, alloc: Global, text: &mut String, told: Told) -> Result<bool, Fault> {
        push_reply(alloc, text, &told.reply)?;
        push_notices(alloc, text, told.notices.as_slice())?;
        self.watches = told.watches;
        Ok(true)
    }

    /// A create, create2, delete, setData or multi is carried out.
    fn carried_out(
        &mut self,
        alloc: Global,
        text: &mut String,
        zxid: i64,
        request: Request,
    ) -> Result<bool, Fault> {
        let turn = Turn {
            limit: self.limit,
            session: self.session,
            zxid,
            time: TIME,
        };
        match commit(alloc, self.state.tree(), &turn, request)? {
            Some(done) => self.committed(alloc, text, zxid, done),
            None => Ok(false),
        }
    }

    /// What an update did: its reply, and after `told` the notices that it gives, which come before the reply.
    fn committed(
        &mut self,
        alloc: Global,
        text: &mut String,
        zxid: i64,
        done: Commit,
    ) -> Result<bool, Fault> {
        push_body(alloc, text, &done.response)?;
        self.fire(alloc, text, done.triggers.as_slice())?;
        let changed = self.taken(alloc).changed(alloc, done.change)?;
        self.state = changed.advanced(zxid, done.triggers)?;
        Ok(true)
    }

    /// Fires the watches that wait for these changes.
    fn fire(
        &mut self,
        alloc: Global,
        text: &mut String,
        triggers: &[Trigger],
    ) -> Result<(), Memory> {
        let armed = mem::replace(&mut self.watches, Watches::new(alloc));
        let fired = armed.fire_all(alloc, triggers)?;
        push_notices(alloc, text, fired.notices.as_slice())?;
        self.watches = fired.watches;
        Ok(())
    }
}

/// `attach ID CONNECTION`, `closed ID` or `reaped ID`
fn update_of(kind: Option<&str>, words: &mut Words) -> Option<UpdateKind> {
    match kind? {
        "attach" => {
            let id = words.long()?;
            let connection = words.number()?;
            Some(UpdateKind::Attach { id, connection })
        }
        "closed" => Some(UpdateKind::Closed {
            id: words.long()?,
            connection: 1,
            index: 1,
        }),
        "reaped" => Some(UpdateKind::Reaped { id: words.long()? }),
        _ => None,
    }
}

/// A session as it begins, with the password that rows give it.
fn session_of(
    alloc: Global,
    id: i64,
    connection: u32,
    timeout: i32,
    zxid: i64,
) -> Result<Session, Memory> {
    let asked = Some(ConnectRequest {
        protocol: 0,
        last_zxid: 0,
        timeout,
        session: 0,
        passwd: Bytes::new(alloc),
        read_only: None,
    });
    let fresh = Fresh {
        id,
        passwd: [0xaa; 16],
        layout: Layout::Two,
    };
    Session::new(alloc, Some(fresh), &asked, connection, zxid)
}

/// Whether a service can begin at a time, in milliseconds.
fn begun(alloc: Global, text: &mut String, rest: &str) -> Result<bool, Fault> {
    let Ok(now) = rest.parse::<u64>() else {
        return Ok(false);
    };
    let line = TranscriptLine::Update(UpdateRec {
        zxid: 2,
        kind: UpdateKind::Begin { now },
    });
    let past = Past::new(alloc, &[]);
    match change(alloc, &past, State::new(alloc), &line) {
        Ok(_begun) => push(text, "begun")?,
        Err(Fault::Beyond) => push(text, "beyond")?,
        Err(Fault::Memory) => return Err(Fault::Memory),
    }
    Ok(true)
}
