//! What holds of every legal history. Each function does nothing, and its contract is the law: only what a contract names is
//! proved.

ghost use Rattle.zk_transcript.specs.Laws.{AliveSinceOwnLine, AttachedByOwnLine, AttachedLast, AttachedSinceOwnLine, AttachedToOwnLine, AttachesComeAfter, AttachesShowThePassword, BeginComesAfterAnOpenLine, BeginComesBeforeLapses, LegalHistoriesAreBounded, LegalHistoriesAreSound, ReapedSessionsHadLapsed, RequestsAreCarriedOutInOrder, SessionsBeginAsOffered, UpdatesAreCounted, ZxidsRise};

/// Begin may have any zxid up to the greatest of a `long`, and may follow a line that is neither an update nor a lapse.
pub fn begin_comes_after_an_open_line()
    ensures { BeginComesAfterAnOpenLine }
{}

/// No lapse stands before Begin.
pub fn begin_comes_before_lapses()
    ensures { BeginComesBeforeLapses }
{}

/// The state after each legal history is sound.
pub fn legal_histories_are_sound()
    ensures { LegalHistoriesAreSound }
{}

/// The numbers of the state after each legal history are in their ranges.
pub fn legal_histories_are_bounded()
    ensures { LegalHistoriesAreBounded }
{}

/// The zxids of a legal history's updates rise.
pub fn zxids_rise()
    ensures { ZxidsRise }
{}

/// The state after a legal history counts its updates.
pub fn updates_are_counted()
    ensures { UpdatesAreCounted }
{}

/// The session that is attached to a connection was attached by that connection's own line.
pub fn attached_by_own_line()
    ensures { AttachedByOwnLine }
{}

/// Of the own lines that attached a session, the last is that of the connection to which the session is attached.
pub fn attached_last()
    ensures { AttachedLast }
{}

/// A session whose last attachment has the zxid of a connection's own line is attached to that connection.
pub fn attached_to_own_line()
    ensures { AttachedToOwnLine }
{}

/// While a session is attached to a connection, no line after the connection's own line opens, attaches or ends that session.
pub fn attached_since_own_line()
    ensures { AttachedSinceOwnLine }
{}

/// While a session is attached to a connection and has not lapsed, no line after the connection's own line lapses it.
pub fn alive_since_own_line()
    ensures { AliveSinceOwnLine }
{}

/// A new session has the number that its connection offered, which no open session had, and the connect asked for a new session:
/// it named session 0.
pub fn sessions_begin_as_offered()
    ensures { SessionsBeginAsOffered }
{}

/// A session is attached to a connection whose connect names it and shows its password, while it is open and has not lapsed,
/// and at a zxid above the last that the client has seen.
pub fn attaches_show_the_password()
    ensures shown { AttachesShowThePassword }
    ensures after { AttachesComeAfter }
{}

/// Only a session that has lapsed is reaped.
pub fn reaped_sessions_had_lapsed()
    ensures { ReapedSessionsHadLapsed }
{}

/// A connection's requests are carried out in the order of their frames, each at most once.
pub fn requests_are_carried_out_in_order()
    ensures { RequestsAreCarriedOutInOrder }
{}
