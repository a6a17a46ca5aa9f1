//! Access lists (Programmer's Guide, "ZooKeeper access control using ACLs").

ghost use Rattle.std.specs.Prelude.{◌≡◌};
ghost use Rattle.zk_model.specs.Access.{is_open_acl};

use crate::request::Acl;

/// All permissions: read, write, create, delete and admin.
const ALL_PERMISSIONS: i32 = 31;

/// Whether the list is `ZooDefs.Ids.OPEN_ACL_UNSAFE`, which allows everything to everyone: the one access list that is taken.
pub fn is_open_acl(entries: &[Acl]) -> bool
    ensures { result ≡ is_open_acl entries.now }
{
    match entries {
        [entry] => {
            entry.perms == ALL_PERMISSIONS && entry.scheme.is(b"world") && entry.id.is(b"anyone")
        }
        _ => false,
    }
}
