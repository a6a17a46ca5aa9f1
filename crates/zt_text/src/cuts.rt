//! Bytes, cut at the first of a kind.

ghost use Rattle.std.specs.Prelude.{◌≡◌};
ghost use Rattle.zt_text.specs.Scripts.{Lacks};
ghost use Rattle.zt_text.specs.Words.{joined_at};

/// The bytes before the first that is equal to this one, and those after it; None where there is none.
pub fn cut(bytes: &[u8], at: u8) -> (&[u8], Option<&[u8]>)
    ensures parts { bytes.now ≡ joined_at at result.0.now result.1 }
    ensures first { Lacks at result.0.now }
{
    for (place, byte) in bytes.iter().enumerate() {
        if *byte == at {
            return (&bytes[..place], Some(&bytes[place + 1..]));
        }
    }
    (bytes, None)
}
