//! Open sessions (Programmer's Guide, "ZooKeeper Sessions").

ghost use Rattle.std.specs.Prelude.{◌≡◌, [], pos, option_map, IfOk, true};
ghost use Rattle.zk_model.specs.declared.layout.Layout.TheVariants.{Two};
ghost use Rattle.zk_service.specs.States.{limit_of, new_session, or_nothing};

use std::alloc::Global;
use std::marker::Model;
use zk_model::limit::{MAX_TIMEOUT, MIN_TIMEOUT};
use zk_model::{ConnectRequest, Layout};
use zk_service::Fresh;
use zx_base::{Bytes, Memory};

/// An open session, with its password, its timeout, and the connection that it is attached to.
#[derive(Drop)]
pub struct Session {
    passwd: Bytes,
    /// The granted timeout, in milliseconds.
    timeout: i32,
    layout: Layout,
    /// The connection that it is attached to, and the zxid of that attachment.
    connection: u32,
    attached: i64,
    lapsed: bool,
}

impl Model for Session {
    ghost use Rattle.zk_service.specs.States.{Session as Opened};
    ghost use Rattle.zk_history.specs.Codes.{coded_session};

    ghost Value = { Opened };

    ghost coded = { coded_session };

    ghost view = { λ s. record { passwd = s.passwd; timeout = s.timeout; layout = s.layout; connection = s.connection; attached = s.attached; lapsed = s.lapsed } };
}

/// The password that a connection offered, or no bytes where no open line is shown.
fn offered(alloc: Global, opened: Option<Fresh>) -> Result<Bytes, Memory>
    ensures { IfOk result (λ passwd. passwd ≡ or_nothing [] (option_map (λ f. f.passwd) opened)) }
{
    match opened {
        Some(opened) => {
            let passwd = opened.passwd;
            Bytes::copy_of(alloc, passwd.as_slice())
        }
        None => Ok(Bytes::new(alloc)),
    }
}

/// The layout that a connection offered, or layout 2 where no open line is shown.
fn offered_layout(opened: Option<Fresh>) -> Layout
    ensures { result ≡ or_nothing Two (option_map (λ f. f.layout) opened) }
{
    match opened {
        Some(opened) => opened.layout,
        None => Layout::Two,
    }
}

/// The timeout that a connect asked for, in milliseconds, or 0 where no connect was read.
fn asked_timeout(asked: &Option<ConnectRequest>) -> i32
    ensures { result ≡ or_nothing (pos 0) (option_map (λ r. r.timeout) asked.now) }
{
    match asked {
        Some(request) => request.timeout,
        None => 0,
    }
}

impl Session {
    /// A session that begins, by what the transcript shows of its connection. The timeout that its connect asked for is brought
    /// between 4 and 40 seconds.
    pub fn new(
        alloc: Global,
        opened: Option<Fresh>,
        asked: &Option<ConnectRequest>,
        connection: u32,
        zxid: i64,
    ) -> Result<Session, Memory>
        ensures { IfOk result (λ s. s ≡ new_session opened asked.now connection zxid) }
    {
        Ok(Session {
            passwd: offered(alloc, opened)?,
            timeout: MAX_TIMEOUT.min(MIN_TIMEOUT.max(asked_timeout(asked))),
            layout: offered_layout(opened),
            connection,
            attached: zxid,
            lapsed: false,
        })
    }

    /// The session attached to another connection.
    pub fn attached_anew(
        &self,
        alloc: Global,
        connection: u32,
        zxid: i64,
    ) -> Result<Session, Memory>
        ensures { IfOk result (λ s. s ≡ record self.now { connection = connection; attached = zxid }) }
    {
        Ok(Session {
            passwd: Bytes::copy_of(alloc, self.passwd.as_slice())?,
            timeout: self.timeout,
            layout: self.layout,
            connection,
            attached: zxid,
            lapsed: self.lapsed,
        })
    }

    /// The session once its lease has lapsed.
    pub fn lapsed(&self, alloc: Global) -> Result<Session, Memory>
        ensures { IfOk result (λ s. s ≡ record self.now { lapsed = true }) }
    {
        Ok(Session {
            passwd: Bytes::copy_of(alloc, self.passwd.as_slice())?,
            timeout: self.timeout,
            layout: self.layout,
            connection: self.connection,
            attached: self.attached,
            lapsed: true,
        })
    }

    /// The password that a client has to show to resume the session.
    pub fn passwd(&self) -> &[u8]
        ensures { result.now ≡ self.now.passwd }
    {
        self.passwd.as_slice()
    }

    /// The granted timeout, in milliseconds.
    pub fn timeout(&self) -> i32
        ensures { result ≡ self.now.timeout }
    {
        self.timeout
    }

    /// How many ephemeral nodes the session may own.
    pub fn limit(&self) -> usize
        ensures { result ≡ limit_of self.now }
    {
        self.layout.max_owned()
    }

    /// The connection that the session is attached to.
    pub fn connection(&self) -> u32
        ensures { result ≡ self.now.connection }
    {
        self.connection
    }

    /// The zxid of its attachment to the connection.
    pub fn attached(&self) -> i64
        ensures { result ≡ self.now.attached }
    {
        self.attached
    }

    /// Whether the session's lease has lapsed.
    pub fn is_lapsed(&self) -> bool
        ensures { result ≡ self.now.lapsed }
    {
        self.lapsed
    }
}
