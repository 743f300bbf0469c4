//! The words of a claim.
ghost use Rattle.std.specs.Prelude.{◌≡◌, ◌==◌, IfOk, map};
ghost use Rattle.std.specs.List.{slice_split};
ghost use Rattle.histar_never.specs.Claims.{letters_word, path_word, who_words};
ghost use Rattle.histar_never.specs.Faults.{are_of_a_claim};

use std::alloc::{AllocError, Global};

/// Splits a text at its spaces.
pub fn split_at_spaces(alloc: Global, text: &[u8]) -> Result<Vec<&[u8]>, AllocError>
    ensures { IfOk result (λ words.
        map (λ word. word.now) words.items ≡ slice_split (λ b. b == 32) text.now) }
{
    text.split(|b| *b == b' ').collect(alloc)
}

/// Returns the path among the words of a claim.
pub(crate) fn path_word<'a>(words: &[&'a [u8]]) -> &'a [u8]
    ensures { result.now ≡ path_word (map (λ word. word.now) words.now) }
{
    match words {
        [_, path, ..] => path,
        _ => &[],
    }
}

/// Returns the words of a claim between its path and its letters.
pub(crate) fn who_words<'a, 'b>(words: &'b [&'a [u8]]) -> &'b [&'a [u8]]
    ensures { map (λ word. word.now) result.now ≡ who_words (map (λ word. word.now) words.now) }
{
    match words {
        [_, _, who @ .., _] => who,
        _ => &[],
    }
}

/// Returns the letters among the words of a claim.
pub(crate) fn letters_word<'a>(words: &[&'a [u8]]) -> &'a [u8]
    ensures { result.now ≡ letters_word (map (λ word. word.now) words.now) }
{
    match words {
        [.., letters] => letters,
        [] => &[],
    }
}

/// Checks whether there are four words, or there are more and the third is `all-but`.
pub(crate) fn are_of_a_claim(words: &[&[u8]]) -> bool
    ensures { result ≡ are_of_a_claim (map (λ word. word.now) words.now) }
{
    match words {
        [_, _, _, _] => true,
        [_, _, word, _, _, ..] => *word == b"all-but".as_slice(),
        _ => false,
    }
}
