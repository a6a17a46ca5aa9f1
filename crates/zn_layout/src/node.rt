//! What the record of a node tells of its create.

ghost use Rattle.std.specs.Prelude.{◌≡◌};
ghost use Rattle.zn_layout.specs.StandsFor.{czxid_of};

/// The zxid of a node's create: the stored one, or if that is 0 the revision of the record.
pub fn czxid(stored: i64, revision: i64) -> i64
    ensures { result ≡ czxid_of stored revision }
{
    if stored == 0 { revision } else { stored }
}
