//! The sentence on a bad claim.
ghost use Rattle.std.specs.Prelude.{◌≡◌, IfOk, map};
ghost use Rattle.std.specs.Option.{option_copied};
ghost use Rattle.histar_lint.specs.Lines.{first_sentence};
ghost use Rattle.histar_never.specs.Faults.{never_rules, word_rules};

use crate::claims::read_whom;
use crate::letters::read_letters;
use crate::words::{are_of_a_claim, letters_word, path_word, split_at_spaces, who_words};
use histar_flat::{Accounts, read_path};
use std::alloc::{AllocError, Global};

/// What a path has to be.
pub const PATH: &str =
    "a path is / or up to 8 names, each behind a slash and of 1 to 32 of a-z, 0-9, dot, underscore and hyphen";

/// What letters have to be.
const LETTERS: &str = "letters are some of s, r, w and d in this order";

/// Returns the sentence of the first rule that a claim breaks, by its text without `#`.
pub fn never_sentence(
    alloc: Global,
    accounts: &Accounts,
    text: &[u8],
) -> Result<Option<&'static str>, AllocError>
    ensures { IfOk result (λ said.
        option_copied said ≡ first_sentence (never_rules accounts.now text.now)) }
{
    let words = split_at_spaces(alloc, text)?;
    words_sentence(alloc, accounts, words.as_slice())
}

/// Returns the sentence of the first rule that the words of a claim break.
fn words_sentence(
    alloc: Global,
    accounts: &Accounts,
    words: &[&[u8]],
) -> Result<Option<&'static str>, AllocError>
    ensures { IfOk result (λ said. option_copied said
        ≡ first_sentence (word_rules accounts.now (map (λ word. word.now) words.now))) }
{
    if !are_of_a_claim(words) {
        return Ok(Some("a claim is `#never PATH WHO LETTERS`"));
    }
    if read_path(path_word(words)).is_none() {
        return Ok(Some(PATH));
    }
    if read_letters(letters_word(words)).is_none() {
        return Ok(Some(LETTERS));
    }
    if read_whom(alloc, accounts, who_words(words))?.is_none() {
        return Ok(Some("there is no user of this name"));
    }
    Ok(None)
}
