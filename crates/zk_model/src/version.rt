//! The version of a node's data.

ghost use Rattle.std.specs.Prelude.{◌≡◌};
ghost use Rattle.zk_model.specs.Single.{matches};

/// Whether a node's version is the one that a request asks for; -1 asks for any.
pub fn matches(asked: i32, version: i32) -> bool
    ensures { result ≡ matches asked version }
{
    asked == -1 || asked == version
}
