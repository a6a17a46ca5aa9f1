//! The top call: [`zetcd`] is the whole program as a function. It takes the words of the command line, a source, a sink, and what
//! `etcd` and `serve` need besides (a net, an etcd to ask, threads, a clock, random words), and returns a [`Status`]. [`plain`] is the
//! part for the commands that need no net.
//!
//! The program `zetcd` hands it the process's own, and ends with the status's number. On standard error `serve` and `etcd` write faults,
//! and `serve` the session of each connection; `replay` and `judge` write why a line cannot be read, which no clause speaks of.
//!
//! `specs/Outcomes.antt` says what each status means; for `replay` it cites `Replayed` and `Claims`, for `judge` `Judged`.
//! `specs/Serving.antt` says the same for `etcd`, `specs/Proxying.antt` for `serve`. The other files of `specs/` are contracts between
//! the parts.
#![tactic(auto)]

mod command;
mod judge;
mod replay;
mod report;
mod script;
mod show;
mod status;
mod streams;
mod stress;
mod tells;
mod top;
mod words;

pub use command::plain;
pub use status::Status;
pub use tells::Tells;
pub use top::zetcd;
