//! What holds of each step of a connection (`zp_step`), for a proof about many connections over one store.
//!
//! A transcript of many connections is a run of the service if each connection's packets are a walk of it, and each update is
//! one that the service could make. Both are shown step by step, from what is known of one connection: where its core *stands*
//! (`Stands`), that is, at which walker of its conversation and with which frames, and that what its stage holds is true of
//! the store. The laws say that a step leads from there to where the core stands next, by moves of the walk, and that what it asks
//! is bound to the store. Their premises are that the core stands somewhere and that the input is true.
//! None assumes anything of etcd, of histories or of plans: those are definitions and theorems of the crates below.
//!
//! Whether a reply is *fresh*, as of a moment after the line of its frame, is no part of where a core stands. It is a premise
//! beside it (`IsFreshLook`): a step that looked late enough sends what is fresh, and one that looked too early sends what is a
//! walk all the same.
//!
//! In `specs/`, in reading order:
//!
//! - `Frames`: the frames of a connection in a transcript and in a core;
//! - `Standing`: where a core stands, and whether it looked late enough for a fresh reply;
//! - `Inputs`: which inputs are true of the store and of the transcript;
//! - `Walking`: a step is a walk (`SendsAreWalks`), and what it asks is bound (`PlansAreBound`);
//! - `Planning`: the time of a plan (`PlansAreMadeNow`);
//! - `Welcomes`: a step without a session (`ConnectsAre`);
//! - `Growing`: what leaves a core where it stands (`StandingLasts`), and its looks fresh (`FreshnessLasts`);
//! - `Honest`: an etcd that keeps its guarantees shows records;
//! - `Opening`: what keys stand for after the transaction of a new session, or of an attachment.
//!
//! In `proofs/` by topic: `Updates`, `WalkMoves`, `Strides` (the walk); `Going`, `Replying`, `Entering` (frames, replies,
//! entries); `Revisions`, `Arming`, `Attached`, `Telling`, `Deciding`, `Parts` (what is decided on a view); `Carried` (a plan
//! that was carried out); `Steps`, `Asking` (whole steps); `Planning`, `Welcoming`, `Growing`, `Honest`; `NewSessions`,
//! `Attachments` (a session's transactions).
#![tactic(auto)]

mod laws;

pub use laws::{
    a_new_session_commits, a_session_is_attached, connects_are_answered, honest_values_are_records,
    plans_are_bound, plans_are_made_now, sends_are_walks, standing_lasts,
};
