//! The words of a line, between single blanks.

ghost use Rattle.std.specs.Prelude.{◌≡◌, ◌∷◌, option_copied};
ghost use Rattle.zt_text.specs.Scripts.{pieces, one_word as one_word_of, two_words as two_words_of, three_words as three_words_of, four_words as four_words_of};
ghost use Rattle.zt_text.specs.Words.{words_of, seen_two, seen_three, seen_four};

use crate::cuts::cut;

const BLANK: u8 = b' ';

/// What follows a blank: one word or more. None where the line has no further word.
pub type Words<'a> = Option<&'a [u8]>;

/// The first word of a line, and the words after it.
#[tactic(auto, using(crate::proofs::WordCounts::words_of_cut))]
pub fn first_word(line: &[u8]) -> (&[u8], Words<'_>)
    ensures { pieces 32 line.now ≡ result.0.now ∷ words_of result.1 }
{
    cut(line, BLANK)
}

/// The word, if there is exactly one.
#[tactic(auto, using(crate::proofs::WordCounts::one_word_and_more))]
pub fn one_word(words: Words<'_>) -> Option<&[u8]>
    ensures { option_copied result ≡ one_word_of (words_of words.entry) }
{
    let (a, rest) = first_word(words?);
    match rest {
        None => Some(a),
        Some(_) => None,
    }
}

/// The words, if there are exactly two.
#[tactic(auto, using(crate::proofs::WordCounts::two_words_and_more))]
pub fn two_words(words: Words<'_>) -> Option<(&[u8], &[u8])>
    ensures { seen_two result ≡ two_words_of (words_of words.entry) }
{
    let (a, rest) = first_word(words?);
    let (b, rest) = first_word(rest?);
    match rest {
        None => Some((a, b)),
        Some(_) => None,
    }
}

/// The words, if there are exactly three.
#[tactic(auto, using(crate::proofs::WordCounts::three_words_and_more))]
pub fn three_words(words: Words<'_>) -> Option<(&[u8], &[u8], &[u8])>
    ensures { seen_three result ≡ three_words_of (words_of words.entry) }
{
    let (a, rest) = first_word(words?);
    let (b, rest) = first_word(rest?);
    let (c, rest) = first_word(rest?);
    match rest {
        None => Some((a, b, c)),
        Some(_) => None,
    }
}

/// The words, if there are exactly four.
#[tactic(auto, using(crate::proofs::WordCounts::four_words_and_more))]
pub fn four_words(words: Words<'_>) -> Option<(&[u8], &[u8], &[u8], &[u8])>
    ensures { seen_four result ≡ four_words_of (words_of words.entry) }
{
    let (a, rest) = first_word(words?);
    let (b, rest) = first_word(rest?);
    let (c, rest) = first_word(rest?);
    let (d, rest) = first_word(rest?);
    match rest {
        None => Some((a, b, c, d)),
        Some(_) => None,
    }
}
