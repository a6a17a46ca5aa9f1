//! The laws of sessions. Each function does nothing, and its contract is the law: only what a contract names is proved.

ghost use Rattle.zs_session.specs.Laws.{AttachmentIsReadAgain, AttachmentIsSendable, AttachmentShowsItsNumber, NewSessionIsReadAgain, NewSessionIsSendable, NewSessionShowsItsNumber};

/// An etcd takes the transactions of sessions: they keep its bounds.
pub fn a_session_is_sendable()
    ensures opened { NewSessionIsSendable }
    ensures attached { AttachmentIsSendable }
{}

/// Where a guard fails, the transactions of sessions read and change nothing.
pub fn sessions_are_read_again()
    ensures opened { NewSessionIsReadAgain }
    ensures attached { AttachmentIsReadAgain }
{}

/// The answer of a session's transaction that succeeded shows the number of its update: that of the state for which the keys stand
/// then.
pub fn a_session_shows_its_number()
    ensures opened { NewSessionShowsItsNumber }
    ensures attached { AttachmentShowsItsNumber }
{}
