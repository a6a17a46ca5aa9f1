//! What holds of every world that a script leads to: its updates are one history of the service, and what each connection was
//! sent is a walk of that history.
//!
//! A world is *whole* (`Whole`) where its store serves its transcript, whatever may still be carried out is bound to what was
//! seen, and each connection with a session stands where its conversation has come. It is *accounted for* (`IsAccounted`) where
//! besides each number is known, of a connection in whatever stage or of a reaper, each update has its entry, and what each
//! connection was sent stands within it. The first world is accounted for, and each line of a script leaves it so; so every run
//! of a script is one history, in which each connection is served (`every_run_is_one_history`).
//!
//! In `specs/`, in reading order:
//!
//! - `Serving`: a store serves a transcript, and what a transaction makes of that (`Commits`);
//! - `Bounds`: what an ask is bound to (`IsBoundAsk`): a request's plan, a reaper's, a session's transaction;
//! - `Holding`: what may still be carried out (`air`), conversations (`Talks`), and what holds of a world (`Holds`);
//! - `Connections`: a connection with a session (`IsServingConn`), and all of them (`Whole`);
//! - `Naming`, `Counting`: the lines that name a connection; the frames of an open one (`HasFrames`);
//! - `Connecting`: a connection without a session (`IsConnecting`); `Reaping`: a reaper (`IsReapFlight`);
//! - `Knowing`: each number (`Known`); `Entering`: the entries of a world (`AreEntries`);
//! - `Accounting`: all of it (`IsAccounted`), and what is asked of a script for that; `Settled`: a connection at rest (`IsIdle`);
//! - `Giving`: what a whole world gives (`IsOneHistory`), and what every run gives (`IsServedRun`);
//! - `Keeping`: what the laws say.
//!
//! In `proofs/` by topic: `Packets`, `Talking` (conversations); `Moments`, `Commits`, `Transactions`, `Plans`, `Connects`,
//! `Growing`, `Outcomes`, `Carrying` (what is carried out); `Lines`, `Numbers`, `Effects` (what holds); `Serving`, `Looking`,
//! `Executing`, `Kept` (attached connections); `Closing`, `Ends`, `Restarting` (ends); `Actions`, `Speaking`, `Setting`,
//! `Asking`, `Handing`, `Delivering` (steps); `First`, `Opening`, `Giving`, `Entering`, `Happenings`; `Naming`, `Knowing`,
//! `Within`, `Acting`, `Stepping` (one that acts by itself leaves all others); `Connecting`, `Refusing`, `Welcoming`, `Greeting`
//! (connects); `Arriving`, `Frames`, `Arrivals` (bytes of a client); `Reaping`, `Reapers`; `Rising` (counts); `Accounts`,
//! `Lives`, `Running` (each line, settle, and whole scripts); `Since`, `Timing` (times); `Settled` (rest).
#![tactic(auto)]

mod laws;

pub use laws::{
    a_whole_world_is_one_history, asks_are_carried_out, attached_connections_go_on,
    connections_end, connections_open, every_line_is_accounted_for, every_run_is_one_history,
    settled_connections_are_idle, the_first_world_is_whole, the_store_changes_by_itself,
    updates_have_entries,
};
