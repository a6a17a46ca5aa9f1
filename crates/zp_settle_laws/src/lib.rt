//! When a settle ends. It carries out and answers what a connection or a reaper asks, and takes the entries that a reply waits for,
//! until nothing is left. Nobody else acts meanwhile, so the number of lines that are left has a bound. A frame asks for a
//! keepalive and a look at its session, looks up each key that it reads once, and asks for one transaction, whose guards then hold.
//! What was looked up before the settle may be of an earlier state; then its plan fails once, and all of it is looked up anew.
//!
//! By what nothing ends in a replay. A line's bytes are read and written without a fault, no line closes the list of entries, none
//! shows that memory ran out, and each value that is found under a key of the service is a record.
//!
//! When a connection stays open. While its session lives and is attached to it, only these end it: its own requests and bytes, the
//! lines of a script that end it, and a full store, which denies what it asks.
//!
//! In `specs/`: `Looks` (how much a request looks up, and how many asks a frame takes), `Lines` (how many lines are left at
//! most), `Bytes` (the bytes of the frames that came), `Settling` (a settle ends), `Answering` (then each frame has its answer,
//! by the lines alone), `Staying` (a connection stays open at its own lines), `Undisturbed` (and in every run), `Causes` (what
//! nothing ends by), `Possible` (a possible line has a world after it).
//! In `proofs/` by topic: `Places` (each look-up has its place), `Coming` (the asks that are still to come),
//! `Answered`, `Carried` (an answer comes, an ask is carried out), `Truths` (a plan on the present is carried out), `Reaps`,
//! `Entered` (an entry brings the cursor on), `Lasting` (a line leaves fewer), `Sizes` (what a frame looks up is bounded by its
//! bytes), `Bytes`, `Enough` (the bound is enough), `Ending`, `Replied` (what a walk gives is one reply a frame); `Homes` (a
//! life that is there now was there since the attachment), `Shown` (each answer shows it), `Staying`, `Open`, `Arriving`;
//! `Room` (a store with room denies nothing), `Few` (a round looks up few things), `Onward` (the store and the transcript go
//! on), `Roomy` (what was denied was denied by a full store), `Sessions` (a session lives from its attachment on), `Begun`
//! (nothing at work ends the connection), `Ongoing` (at its own lines it stays open), `Undisturbed` (at all lines); `Causes`
//! (by what a step closes), `Replays` (and by what each line ends), `Outside`, `Undamaged` (each answer shows records).
#![tactic(auto)]

mod laws;

pub use laws::{
    a_settle_comes_to_its_end, attached_connections_stay_open, every_settle_answers,
    every_settle_ends, possible_lines_happen, replays_never_end_by_faults,
    the_bytes_of_frames_are_counted, undisturbed_connections_stay_open,
};
