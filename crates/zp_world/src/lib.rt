//! The service as one deterministic world, which a script drives: one etcd, a clock, and the connections and reapers of all
//! proxies.
//!
//! A [`World`] begins with the store's first update, which makes the root at time 0. What happens is applied to it one
//! [`Happening`] at a time. That the store carries out an ask and that its answer is delivered are happenings of their own, so a
//! script may let others happen in between, lose an answer, or carry out an ask whose asker has ended. Each happening leaves its
//! lines in the world's transcript, [`World::lines`]. One that is not possible is refused with its cause and changes nothing.
//!
//! What each line of a script does is said in `zp_script`: `fault`, which tests it makes, and `Happens`, what it leaves. A
//! connection is a [`Core`](zp_core::Core), a reaper a [`Reaper`](zs_reap::Reaper): a world only carries what they ask to the
//! store and hands them what they wait for. It does not look into a request.
//!
//! A happening costs what its own lines and its asks cost: what was written is never copied or read again, and a connection is
//! found by its number in the logarithm of their count. Bytes that come in pieces are kept as they come, and cut once their frame
//! is whole. A connection to which nothing has come is kept without a core.
//!
//! In `specs/`: `Applying` (what `apply` answers), `Activities` and `Slots` (what is kept under a number, as `zp_script` sees it), `Flying`
//! (what is known of an ask until its answer is delivered), `Doing` (a step of what is held apart from its world). The others say
//! what one function of this crate hands to the next.
//!
//! [`Happening`]: zt_text::Happening
#![tactic(auto)]

mod activities;
mod activity;
mod arriving;
mod carrying;
mod delivering;
mod ending;
mod fault;
mod formed;
mod frames;
mod head;
mod inbox;
mod lines;
mod refusals;
mod settling;
mod slot;
mod strays;
mod world;

pub use fault::ApplyFault;
pub use world::World;
