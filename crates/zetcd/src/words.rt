//! The words of the command line.

ghost use Rattle.std.specs.Prelude.{◌≡◌, IfOk, List, ℕ, map, string_bytes};
ghost use Rattle.std.specs.Vec.Iter.{into_iter_items};
ghost use denote.Ref.{Bor};

use std::alloc::{AllocError, Global};
use std::env::Args;

/// The words of the command line, the program's name among them.
pub fn words_of(alloc: Global, args: Args) -> Result<Vec<String>, AllocError>
    ensures { IfOk result (λ words. words.items ≡ into_iter_items args) }
{
    let mut words = Vec::new(alloc);
    for word in args {
        words.push(word)?;
    }
    Ok(words)
}

/// Each of the words, borrowed.
pub fn lent<'a>(alloc: Global, words: &'a [String]) -> Result<Vec<&'a str>, AllocError>
    ensures { IfOk result (λ all. map (λ (w : Bor (List ℕ)). w.now) all.items ≡ map string_bytes words.now) }
{
    let mut all = Vec::new(alloc);
    for word in words {
        all.push(word.as_str())?;
    }
    Ok(all)
}
