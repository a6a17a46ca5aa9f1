//! The laws. Each function does nothing, and its contract is the law: only what a contract names is proved.

ghost use Rattle.zn_laws.specs.Carried.{LeftPartsAreCarriedOut};
ghost use Rattle.zn_laws.specs.Created.{Create2ShowsItsNode};

/// Where a view that shows a sound state, with the session open, tells what earlier parts leave, the machine carries all of these
/// parts out there. So the key of a sequence node is looked up after no part that is refused.
pub fn parts_that_leave_something_are_carried_out()
    ensures { LeftPartsAreCarriedOut }
{}

/// A create2 that is carried out in a sound state is answered the path of the node that it made, and the Stat that a read of this node
/// has right after it.
pub fn a_create2_shows_its_node()
    ensures { Create2ShowsItsNode }
{}
