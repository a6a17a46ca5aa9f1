//! Single requests: what each looks up, what is decided on it, and the reply that its plan earns.
//!
//! [`needs`] names what a request still has to look up, and [`decide`] decides it on a view that lacks nothing. A request is
//! tested in this order: its form, which needs no view; its session, by the record of the session's life; and then the tree.
//! What is decided is an answer with the watch that it arms, or the plan of an update, whose reply [`finish`] gives once the
//! update has its zxid. A multi and a closeSession are not decided here ([`is_single`]).
//!
//! [`decide`] tests a path twice, once for the form and once for what it looks up; a view is read as `zn_view` says.
#![tactic(auto)]

mod deciding;
mod form;
mod kinds;
mod laws;
mod wanting;

pub use deciding::{attached_at, decide};
pub use form::plain_reply;
pub use kinds::{is_short, is_single};
pub use laws::planned_where_not_refused;
pub use wanting::needs;
pub use zn_updates::finish;
