//! The clients of a schedule: what they draw and send, and what is counted of what they are sent.
//!
//! A schedule is a run of several clients that a number makes. [`seeded`] gives the generator of the number, and each step
//! takes one [`Draw`] from it, by [`drawn`]: a connection, a kind of request and a path. The same number gives the same draws
//! wherever it runs. [`wish_of`] says what a kind asks for, and [`packet_of`] spells the request as its client sends it; each
//! client connects by [`connect_packet`]. What the clients are sent stands in a transcript: [`awaits_reply`] says whether a
//! client awaits a reply, and [`summary_of`] counts.
//!
//! Drawing takes no memory. A packet costs its bytes; `awaits_reply` looks from the last line of the transcript back to the one
//! that tells, and `summary_of` goes through the lines three times.
//!
//! In `specs/`, in reading order:
//!
//! - `Draws`: the generator, and what a step draws;
//! - `Wishes`: the requests that are drawn, and the packets that spell them and the connect;
//! - `Sent`: what a transcript says of a client and its replies;
//! - `Summaries`: what is counted, and its text.
#![tactic(auto)]

mod connect;
mod draw;
mod laws;
mod sent;
mod summary;
mod wish;

pub use connect::connect_packet;
pub use draw::{Draw, drawn, seeded};
pub use laws::packets_are_told_apart;
pub use sent::awaits_reply;
pub use summary::{Summary, push_summary, summary_of};
pub use wish::{Wish, last_after, packet_of, wish_of};
