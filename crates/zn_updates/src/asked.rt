//! What a create asks for.

ghost use Rattle.std.specs.Prelude.{◌≡◌};

use zk_model::Acl;
use zx_base::{Bytes, Seq};

/// The fields of a create, with or without Stat.
#[derive(Drop)]
pub(crate) struct CreateAsked<'a> {
    pub path: &'a [u8],
    pub content: &'a [u8],
    pub acl: &'a [Acl],
    pub flags: i32,
}

/// The fields of a create, borrowed from its request.
pub(crate) fn asked<'a>(
    path: &'a Bytes,
    content: &'a Bytes,
    acl: &'a Seq<Acl>,
    flags: i32,
) -> CreateAsked<'a>
    ensures path { result.path.now ≡ path.now }
    ensures content { result.content.now ≡ content.now }
    ensures acl { result.acl.now ≡ acl.now }
    ensures flags { result.flags ≡ flags }
{
    CreateAsked {
        path: path.as_slice(),
        content: content.as_slice(),
        acl: acl.as_slice(),
        flags,
    }
}

/// The node that a create asks for, once the form of the create is found valid.
#[derive(Drop)]
pub struct NewNode<'a> {
    /// The path as the create has it: that of a sequence node lacks its number.
    pub path: &'a [u8],
    pub content: &'a [u8],
    pub sequential: bool,
    pub ephemeral: bool,
    /// The session that creates it; its number is at least 1.
    pub session: i64,
    /// The time of the create in milliseconds since 1970, below 2^62.
    pub time: u64,
}
