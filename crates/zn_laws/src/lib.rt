//! Laws of requests that nothing else stands on.
//!
//! What the parts of a multi leave on a view (`Leaving` of `zn_view`) goes over them as `needs_multi` of `zn_multi` does, to say
//! after which parts the key of a sequence node is looked up. A law ties it to the machine: parts that leave something are parts
//! that the machine carries out, in each sound state that the view shows.
//!
//! The Stat that a create2 is answered is made of its fields (`made_stat` of `zk_service`). A law ties it to the tree: it is the
//! Stat of the node that is there then.
//!
//! In `specs/`: `Carried` and `Created` (the laws). In `proofs/`: `Shown` (what a view shows of a tree), `Passing` (a part that leaves
//! something has passed each test of the machine, and so have all parts before it), `Created` (a new node has no children).
#![tactic(auto)]

mod laws;

pub use laws::{a_create2_shows_its_node, parts_that_leave_something_are_carried_out};
