//! Flags of a create (`CreateMode`).

ghost use Rattle.std.specs.Prelude.{◌≡◌, pos, if◌then◌else◌};
ghost use Rattle.zk_model.specs.Single.{is_create_mode, is_ephemeral, is_sequential};

/// Whether these are the flags of one of the four modes, 0 to 3.
pub fn is_create_mode(flags: i32) -> bool
    ensures { result ≡ is_create_mode flags }
{
    matches!(flags, 0..=3)
}

/// Whether a node created with these flags is ephemeral: 1, and 3 where it is sequential too.
pub fn is_ephemeral(flags: i32) -> bool
    ensures { result ≡ is_ephemeral flags }
{
    flags == 1 || flags == 3
}

/// Whether a node created with these flags gets a number at the end of its name: 2, and 3 where it is ephemeral too.
pub fn is_sequential(flags: i32) -> bool
    ensures { result ≡ is_sequential flags }
{
    flags == 2 || flags == 3
}

/// The owner of a node that a session creates with these flags: the session where the node is ephemeral, and 0 where it is not.
pub fn owner_of(flags: i32, session: i64) -> i64
    ensures { result ≡ if is_ephemeral flags then session else pos 0 }
{
    if is_ephemeral(flags) { session } else { 0 }
}
