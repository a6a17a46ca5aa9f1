//! What a view found under a key.

ghost use Rattle.std.specs.Prelude.{◌≡◌, option_copied};
ghost use Rattle.zn_view.specs.Seen.{seen, found_of};

use ev_types::Kv;
use zn_view::View;

/// What was found under a key; `None` where it was absent, and where it was not looked up.
pub(crate) fn found<'a>(view: &'a View, key: &[u8]) -> Option<&'a Kv>
    ensures { option_copied result ≡ found_of (seen view.now key.now) }
{
    match view.found(key) {
        Some(found) => found,
        None => None,
    }
}
