//! What is drawn from the generator.

ghost use Rattle.std.specs.Prelude.{◌≡◌, ◌<◌, ◌≤◌};
ghost use Rattle.zp_clients.specs.Draws.{IsInRange, below, after, after_draw, drawn, seeded};

use rand_core::SeedableRng;
use rand_core::utils::NextWord;
use rand_pcg::Pcg32;

/// How many kinds of steps there are, and how many paths.
const KINDS: u32 = 10;

const PATHS: u32 = 20;

/// What one step draws.
#[derive(Clone, Copy)]
pub struct Draw {
    /// From 1 on.
    pub connection: u32,
    /// Below 10.
    pub kind: u32,
    /// Below 20.
    pub path: u32,
}

/// The generator that a number seeds.
pub fn seeded(number: u64) -> Pcg32
    ensures { result ≡ seeded number }
{
    Pcg32::seed_from_u64(number)
}

/// The next word of the generator, modulo `count`.
#[tactic(auto, using(std::proofs::lemmas::Nat::mod_below))]
fn below(words: &mut Pcg32, count: u32) -> u32
    requires { 0 < count }
    ensures value { result ≡ below count words.old }
    ensures next { words.new ≡ after words.old }
    ensures small { result < count }
{
    words.next_word() % count
}

/// Draws a step of one of so many connections.
#[tactic(auto, using(crate::proofs::Drawing::drawn_in_range))]
pub fn drawn(words: &mut Pcg32, connections: u32) -> Draw
    requires some { 0 < connections }
    requires few { connections ≤ 256 }
    ensures value { result ≡ drawn connections words.old }
    ensures next { words.new ≡ after_draw words.old }
    ensures range { IsInRange result connections }
{
    let connection = 1 + below(words, connections);
    let kind = below(words, KINDS);
    let path = below(words, PATHS);
    Draw {
        connection,
        kind,
        path,
    }
}
