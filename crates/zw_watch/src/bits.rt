//! By which bits an update finds the connections that may watch what it touches.

ghost use Rattle.std.specs.Prelude.{◌≡◌, ◌<◌, ℕ};
ghost use Rattle.std.specs.Int.{bit_at};
ghost use Rattle.zw_watch.specs.Bits as definition;

use zk_model::Trigger;

/// The hash of no bytes, and the factor of each byte (FNV-1a).
const START: u64 = 0xcbf2_9ce4_8422_2325;

const PRIME: u64 = 0x100_0000_01b3;

/// The factor that gives each bit of a hash a part in the highest six, 2^64 over the golden ratio.
const SCATTER: u64 = 0x9e37_79b9_7f4a_7c15;

/// How many values 32 bits have.
const HALF: u64 = 1 << 32;

fn hashed(path: &[u8]) -> u64
    ensures { result ≡ definition.hashed 14695981039346656037 path.now }
{
    let mut hash = START;
    for byte in path {
        hash = (hash ^ u64::from(*byte)).wrapping_mul(PRIME);
    }
    hash
}

#[tactic(auto, unfolding(crate::specs::Bits::scattered))]
fn scattered(hash: u64) -> usize
    ensures place { result ≡ definition.scattered hash }
    ensures below { result < 64 }
{
    (hash.wrapping_mul(SCATTER) / (1 << 58)) as usize
}

/// The place of a path, from 0 to 63, in a step for each byte.
pub(crate) fn place_of(path: &[u8]) -> usize
    ensures place { result ≡ definition.place_of path.now }
    ensures below { result < 64 }
{
    scattered(hashed(path))
}

/// The bits of child watches, from those of data watches on the same paths.
pub(crate) fn across(bits: u64) -> u64
    ensures { (i : ℕ) → i < 64 → bit_at result (definition.across i) ≡ bit_at bits i }
{
    bits % HALF * HALF + bits / HALF
}

fn data_bit(path: &[u8]) -> u64
    ensures { result ≡ definition.data_bit path.now }
{
    1 << place_of(path)
}

fn child_bit(path: &[u8]) -> u64
    ensures { result ≡ definition.child_bit path.now }
{
    1 << ((place_of(path) + 32) % 64)
}

fn trigger_bits(trigger: &Trigger) -> u64
    ensures { result ≡ definition.trigger_bits trigger.now }
{
    match trigger {
        Trigger::Created(path) | Trigger::Changed(path) => data_bit(path.bytes()),
        Trigger::Deleted(path) => data_bit(path.bytes()) | child_bit(path.bytes()),
        Trigger::Children(path) => child_bit(path.bytes()),
    }
}

/// The bits of those watches that these changes may fire, in a step for each byte of their paths.
pub fn bits_of(triggers: &[Trigger]) -> u64
    ensures { result ≡ definition.bits_of triggers.now }
{
    let mut bits = 0;
    for trigger in triggers {
        bits |= trigger_bits(trigger);
    }
    bits
}
