//! One connection of a client, as code that does no IO and reads no clock.
//!
//! [`Core::step`] takes an [`Input`] with the time at which it comes, and answers with what the connection does then. Its
//! contract is the definition of a step (`Steps` in `zp_step`): contracts see a [`Core`] as the definition's core, and an input
//! may be handed in where `MayTake` says so. [`Core::wants`] says what the connection waits for, and [`Core::bits`] for which entries.
//!
//! A driver makes a core by [`Core::new`], with the number and the password that a new session would get, and repeats one turn:
//!
//! 1. It gets one input of the kind that [`Core::wants`] names: the client's next frame; the answer to the ask that is out, or that it
//!    failed; or the entry after the cursor, that it is no longer kept, or that no more will come. Where a frame or an entry is wanted, it
//!    takes whichever is there first. A length out of range and the client's end may be handed in at any time, each once all
//!    frames before it were.
//! 2. It reads its clock, whose time is in milliseconds, and calls [`Core::step`].
//! 3. It does the actions in their order: it writes each packet, and it sends the one ask, whose answer is the next one that it hands in.
//!    After a close it stops. A core that is shut wants nothing, and answers every input with nothing.
//!
//! Such a loop stands in `zp_conn`, over streams, and in `zp_world`, where a script says what comes next.
//!
//! Running out of memory ends the connection: it is shut, and none of that step's actions are given. A packet whose length does not fit
//! an int counts as out of memory, since no client has memory for it.
//!
//! In `specs/`, in reading order: `Meanings` (what the code keeps, as the definition's data), `Held` (what is true of every
//! core), `Going` (how a step goes on with the frames that wait), `OnKept` (a plan on a kept view), `Guessing` (a plan on a guess),
//! `Left` (requests whose reads no answer changes). In `proofs/`, `HeldAfter` shows that a step leaves `Held` true, `Restaged` that most of a step does not look at
//! the stage, and `StillLacking` that of a setWatches what was left to ask is what is lacking after an answer.
//!
//! Views of up to 16 paths that were used are kept (`zp_kept`). An update on such a path is planned on the kept view at once, and
//! takes one ask where that view is current; where it is not, a guard of the transaction fails and shows what is. Each answer and
//! each refusal is by a view that was read after its frame was taken up.
//!
//! A sequence node's create that lacks the record of its node alone is planned as if that were absent (`guesses`), which spares a
//! round. The view is copied for that once, since it must stay as it is where the guess gives no plan.
//!
//! What a request lacks is worked out once for each of its rounds, but once for all rounds of a setWatches, whose reads no answer
//! changes: the keys after those that are out are kept with them (`round`). So a setWatches takes time in proportion to the number
//! of its paths, times the logarithm of that number.
//!
//! A frame is copied once, where it is handed in, and the transaction of a plan once, where it is asked: what the update leaves of
//! its view is worked out from the plan. What a stage holds is boxed, so that a stage is short to move and to drop.
#![tactic(auto)]

mod asks;
mod at_once;
mod client;
mod commits;
mod connects;
mod copies;
mod decisions;
mod entries;
mod frames;
mod guesses;
mod inputs;
mod keepalives;
mod keeping;
mod looks;
mod moves;
mod packets;
mod replies;
mod round;
mod rounds;
mod stage;
mod steps;
mod updates;

pub use steps::Core;
pub use zp_step::{Action, Fresh, Input, Wants};
