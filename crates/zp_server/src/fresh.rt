//! Numbers and passwords of new sessions.

ghost use Rattle.std.specs.Prelude.{◌≡◌, pos, ◌≤ℤ◌};
ghost use Rattle.zk_model.specs.declared.layout.Layout.TheVariants.{Two};

use zk_model::Layout;
use zp_core::Fresh;
use zx_random::Random;

/// A word's low 63 bits are below this.
const PAST_63_BITS: u64 = 9_223_372_036_854_775_808;

/// The low 63 bits of a word as a session's number, or 1 where these are 0.
fn id_of(word: u64) -> i64
    ensures { pos 1 ≤ℤ result }
{
    let low = word % PAST_63_BITS;
    if low == 0 { 1 } else { low as i64 }
}

/// The session that a client is given who asks for a new one: its number is the low 63 bits of a word, or 1 where these are 0, and
/// its password the two next words. It may own up to sixty ephemeral nodes.
pub fn fresh<R: Random>(random: &mut R) -> Fresh
    ensures least { pos 1 ≤ℤ result.id }
    ensures layout { result.layout ≡ Two }
{
    let id = id_of(random.word());
    let mut passwd = [0u8; 16];
    passwd[..8].copy_from_slice(&random.word().to_be_bytes());
    passwd[8..].copy_from_slice(&random.word().to_be_bytes());
    Fresh {
        id,
        passwd,
        layout: Layout::Two,
    }
}
