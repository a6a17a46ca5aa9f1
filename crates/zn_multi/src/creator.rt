//! Who makes the node of a create.

ghost use Rattle.std.specs.Prelude.{◌≡◌};
ghost use Rattle.zn_view.specs.Leaving.{owner_of};

/// The session of a create.
#[derive(Drop)]
pub(crate) struct Creator {
    /// Its number, at least 1.
    pub session: i64,
    /// Whether it is to own the new node.
    pub ephemeral: bool,
}

/// The owner of the new node: 0 where it is not ephemeral.
pub(crate) fn creator_id(by: &Creator) -> i64
    ensures { result ≡ owner_of by.now.ephemeral by.now.session }
{
    if by.ephemeral { by.session } else { 0 }
}
