//! Several requests as one transaction (`multi` of the ZooKeeper API), decided on a view.
//!
//! [`needs_multi`] names what a multi still has to look up: a sequence node once the parts before it are carried out, and none
//! after a part that is refused. [`decide_multi`] decides a multi on a view that lacks nothing. Its parts are chosen one after
//! the other, as single requests are (`zn_updates`), each on the view over which the keys are laid that the earlier parts wrote.
//! So each part sees the earlier ones, and each key is written once, with its last record; a key that was absent and is absent
//! again is not written. A multi with a refused part changes nothing, and its reply says which part. A multi has at most
//! `MAX_PARTS` parts (`zk_model::limit`). Their data, and the paths of the nodes that each touched session owned before, have at
//! most 1,000,000 bytes together.
//!
//! The keys that were laid over a view are looked up one after the other: the time grows with the square of the parts. The data
//! of a part is copied once, into the node's value.
#![tactic(auto)]

mod carrying;
mod creator;
mod deciding;
mod laws;
mod laying;
mod leaving;
mod load;
mod looked;
mod reading;
mod wanting;

pub use deciding::decide_multi;
pub use laws::{
    each_key_is_laid_once, later_parts_see_earlier_ones, parts_are_carried_out_in_turn,
    refusals_do_not_depend_on_the_time, what_parts_look_at_was_seen,
};
pub use wanting::needs_multi;
