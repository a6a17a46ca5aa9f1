//! Types of watches, as a checkWatches and a removeWatches name them (`Watcher.WatcherType`, release 3.5).

ghost use Rattle.std.specs.Prelude.{◌≡◌};
ghost use Rattle.zk_model.specs.Watches.{is_watcher_type, names_children, names_data};

/// The child watch of a path.
pub const CHILDREN: i32 = 1;

/// The data watch of a path.
pub const DATA: i32 = 2;

/// Both.
pub const ANY: i32 = 3;

/// Whether this is a type of watches.
pub fn is_watcher_type(kind: i32) -> bool
    ensures { result ≡ is_watcher_type kind }
{
    kind == CHILDREN || kind == DATA || kind == ANY
}

/// Whether a type of watches takes in child watches.
pub fn names_children(kind: i32) -> bool
    ensures { result ≡ names_children kind }
{
    kind == CHILDREN || kind == ANY
}

/// Whether a type of watches takes in data watches.
pub fn names_data(kind: i32) -> bool
    ensures { result ≡ names_data kind }
{
    kind == DATA || kind == ANY
}
