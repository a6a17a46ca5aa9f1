//! The law of links. The function does nothing, and its contract is the law: only what a contract names is proved.

ghost use Rattle.ev_call.specs.Honest.{AloneIsHonest};

/// Where nobody else changes the store, a link that carries each ask out at once, or fails and has carried it out or not, gives the
/// answers of an etcd that keeps its guarantees; and the store has every earlier revision still.
pub fn links_alone_are_honest()
    ensures { AloneIsHonest }
{}
