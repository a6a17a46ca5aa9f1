//! What the layout of a session means for its keys.

ghost use Rattle.std.specs.Prelude.{◌≡◌};
ghost use Rattle.zn_layout.specs.Records.{has_counts, layout_byte};

use zk_model::Layout;

/// The first byte of the record of the session's nodes.
pub(crate) fn layout_byte(layout: Layout) -> u8
    ensures { result ≡ layout_byte layout }
{
    match layout {
        Layout::One => 1,
        Layout::Two => 2,
    }
}

/// Whether each ephemeral node of the session has a record of its children's counts.
pub fn has_counts(layout: Layout) -> bool
    ensures { result ≡ has_counts layout }
{
    match layout {
        Layout::One => true,
        Layout::Two => false,
    }
}
