//! Whether numbers are in an etcd's range.

ghost use Rattle.std.specs.Prelude.{◌≡◌, ◌↔◌, IsTrue};
ghost use Rattle.zn_view.specs.Adding.{AreNumbers, are_counts, are_numbers, has_counts, is_count};
ghost use Rattle.zn_view.specs.Seen.{IsCountNumber};

use ev_types::{ActAns, Kv};

/// The greatest revision, version or count of an etcd, 2^62 - 1.
const MAX_COUNT: i64 = 4_611_686_018_427_387_903;

/// Whether this is a number that an etcd's revisions, versions and counts can have: from 0 to 2^62 - 1.
pub fn is_count(number: i64) -> bool
    ensures is { result ≡ is_count number }
    ensures count { IsTrue result ↔ IsCountNumber number }
{
    0 <= number && number <= MAX_COUNT
}

fn has_counts(kv: &Kv) -> bool
    ensures { result ≡ has_counts kv.now }
{
    is_count(kv.mod_revision) && is_count(kv.version)
}

fn are_counts(part: &ActAns) -> bool
    ensures { result ≡ are_counts part.now }
{
    match part {
        ActAns::Range(found) => found.kvs.as_slice().iter().all(|kv| has_counts(kv)),
        ActAns::Put | ActAns::Deleted(_) => true,
    }
}

fn all_counts(parts: &[ActAns]) -> bool
    ensures { result ≡ are_numbers parts.now }
{
    parts.iter().all(|part| are_counts(part))
}

/// Whether the mod_revisions and versions of all keys that these answers show are from 0 to 2^62 - 1, as
/// [`View::add`](crate::View::add) requires.
pub fn are_numbers(parts: &[ActAns]) -> bool
    ensures { IsTrue result ↔ AreNumbers parts.now }
{
    all_counts(parts)
}
