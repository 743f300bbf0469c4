//! The rules for numbers.
ghost use Rattle.std.specs.Prelude.{◌≡◌, ◌++◌, IfOk, codes, decimal, is_none, not, nat_le, option_map};
ghost use Rattle.std.specs.List.{list_all};
ghost use Rattle.histar_flat.specs.Words.{number_of};
ghost use Rattle.histar_lint.specs.Lines.{first_sentence};
ghost use Rattle.histar_rawtext.specs.Reading.{number_in};
ghost use Rattle.histar_raw_lint.specs.Values.{are_digits, digit_rules, has_zero, is_digit, number_rules, positive_rules};

use crate::texts::said_of;
use histar_lint::line_rules::begins_with;
use histar_lint::texts::push_number;
use itoa::Buffer;
use std::alloc::{AllocError, Global};

/// Checks whether a byte is a decimal digit.
pub(crate) fn is_digit(byte: u8) -> bool
    ensures { result ≡ is_digit byte }
{
    matches!(byte, b'0'..=b'9')
}

/// Checks whether all bytes are decimal digits.
fn has_digits_alone(word: &[u8]) -> bool
    ensures { result ≡ list_all is_digit word.now }
{
    word.iter().all(|b| is_digit(*b))
}

/// Checks whether a word consists of digits, and of at least one.
pub(crate) fn are_digits(word: &[u8]) -> bool
    ensures { result ≡ are_digits word.now }
{
    !word.is_empty() && has_digits_alone(word)
}

/// Checks whether there is a zero before other digits.
fn has_zero(word: &[u8]) -> bool
    ensures { result ≡ has_zero word.now }
{
    begins_with(word, b'0') && word.len() > 1
}

/// Returns the number that a word spells, if it spells one.
pub(crate) fn number_in(word: &[u8]) -> Option<u64>
    ensures { result ≡ number_in word.now }
{
    let Ok(text) = std::str::from_utf8(word) else {
        return None;
    };
    let Ok(number) = text.parse::<u64>() else {
        return None;
    };
    let mut digits = Buffer::new();
    if digits.format(number).as_bytes() != word {
        return None;
    }
    Some(number)
}

/// Checks whether a word spells no number up to this one.
fn is_beyond(word: &[u8], most: u64) -> bool
    ensures { result ≡ is_none (number_of (λ n. nat_le n most) word.now) }
{
    match number_in(word) {
        Some(number) => number > most,
        None => true,
    }
}

/// Returns the sentence that states the greatest number.
fn greatest_sentence(alloc: Global, noun: &str, most: u64) -> Result<Vec<u8>, AllocError>
    ensures { IfOk result (λ said. said.items ≡ noun.now ++ codes " is at most " ++ decimal most) }
{
    let mut text = Vec::from_slice(alloc, noun.as_bytes())?;
    text.extend_from_slice(b" is at most ")?;
    push_number(&mut text, most)?;
    Ok(text)
}

/// Returns the sentence of the first rule that a word breaks as the digits of a number.
pub(crate) fn digit_sentence(
    alloc: Global,
    noun: &str,
    most: u64,
    word: &[u8],
) -> Result<Option<Vec<u8>>, AllocError>
    ensures { IfOk result (λ said. option_map (λ text. text.items) said
        ≡ first_sentence (digit_rules noun.now most word.now)) }
{
    if has_zero(word) {
        return said_of(alloc, noun, " has no zero before its digits");
    }
    if is_beyond(word, most) {
        return Ok(Some(greatest_sentence(alloc, noun, most)?));
    }
    Ok(None)
}

/// Returns the sentence of the first rule that a word breaks as a number.
pub(crate) fn number_sentence(
    alloc: Global,
    noun: &str,
    most: u64,
    word: &[u8],
) -> Result<Option<Vec<u8>>, AllocError>
    ensures { IfOk result (λ said. option_map (λ text. text.items) said
        ≡ first_sentence (number_rules noun.now most word.now)) }
{
    if !are_digits(word) {
        return said_of(alloc, noun, " is a number");
    }
    digit_sentence(alloc, noun, most, word)
}

/// Returns the sentence of the first rule that a word breaks as a number from 1 on.
pub(crate) fn positive_sentence(
    alloc: Global,
    noun: &str,
    most: u64,
    word: &[u8],
) -> Result<Option<Vec<u8>>, AllocError>
    ensures { IfOk result (λ said. option_map (λ text. text.items) said
        ≡ first_sentence (positive_rules noun.now most word.now)) }
{
    if word == b"0".as_slice() {
        return said_of(alloc, noun, " is 1 or more");
    }
    number_sentence(alloc, noun, most, word)
}
