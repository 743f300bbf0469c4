//! The rules for labels.
ghost use Rattle.std.specs.Prelude.{◌≡◌, ◌==◌, None, Some, IfOk, if◌then◌else◌, length, map, option_map};
ghost use Rattle.std.specs.List.{slice_split};
ghost use Rattle.std.specs.Option.{option_copied};
ghost use Rattle.histar_lint.specs.Lines.{first_sentence};
ghost use Rattle.histar_raw_lint.specs.Values.{category_of_part, category_rules, exception_rules, exceptions_rules, in_braces, is_braced};
ghost use Rattle.histar_raw_lint.specs.Values.{is_late, is_level, label_rules, lacks_default, list_rules, part_rules};

use crate::numbers::{number_in, number_sentence};
use crate::texts::said;
use histar_flat::split_at_first;
use histar_lint::line_rules::{begins_with, ends_with};
use std::alloc::{AllocError, Global};

/// The sentence that lists the levels.
const LEVEL: &str = "a level is *, 0, 1, 2 or 3";

/// Checks whether a text is a level.
fn is_level(text: &[u8]) -> bool
    ensures { result ≡ is_level text.now }
{
    matches!(text, [b'*' | b'0'..=b'3'])
}

/// Checks whether a text spells a number that is not above another one.
fn is_late(before: u64, word: &[u8]) -> bool
    ensures { result ≡ is_late before word.now }
{
    match number_in(word) {
        Some(number) => number <= before,
        None => false,
    }
}

/// Returns the sentence of the first rule that a word breaks as a category after another one.
fn category_sentence(alloc: Global, before: u64, word: &[u8]) -> Result<Option<Vec<u8>>, AllocError>
    ensures { IfOk result (λ said. option_map (λ text. text.items) said
        ≡ first_sentence (category_rules before word.now)) }
{
    if word == b"0".as_slice() {
        return said(alloc, "a category is 1 or more");
    }
    if is_late(before, word) {
        return said(alloc, "the categories of a label rise");
    }
    number_sentence(alloc, "a category", u64::MAX, word)
}

/// Returns the sentence of the first rule that a part of a label breaks as a category with its level.
fn exception_sentence(
    alloc: Global,
    default: &[u8],
    before: u64,
    part: &[u8],
) -> Result<Option<Vec<u8>>, AllocError>
    ensures { IfOk result (λ said. option_map (λ text. text.items) said
        ≡ first_sentence (exception_rules default.now before part.now)) }
{
    let (category, level) = split_at_first(part, b':');
    let Some(level) = level else {
        return said(
            alloc,
            "a category has its level behind a colon, as in {4:3,1}",
        );
    };
    if !is_level(level) {
        return said(alloc, LEVEL);
    }
    if level == default {
        return said(alloc, "a category with the default level is left out");
    }
    category_sentence(alloc, before, category)
}

/// Returns the category of a part of a label, or 0.
fn category_of(part: &[u8]) -> u64
    ensures { result ≡ category_of_part part.now }
{
    number_in(split_at_first(part, b':').0).unwrap_or(0)
}

/// Returns the sentence of the first rule that the parts of a label break as its exceptions.
fn exceptions_sentence(
    alloc: Global,
    default: &[u8],
    parts: &[&[u8]],
) -> Result<Option<Vec<u8>>, AllocError>
    ensures { IfOk result (λ said. option_map (λ text. text.items) said
        ≡ first_sentence (exceptions_rules default.now 0 (map (λ part. part.now) parts.now))) }
{
    let mut before = 0u64;
    'parts: for part in parts {
        if let Some(said) = exception_sentence(alloc, default, before, part)? {
            return Ok(Some(said));
        }
        before = category_of(part);
    }
    Ok(None)
}

/// Splits a text at its commas.
fn split_at_commas(alloc: Global, text: &[u8]) -> Result<Vec<&[u8]>, AllocError>
    ensures { IfOk result (λ parts.
        map (λ part. part.now) parts.items ≡ slice_split (λ b. b == 44) text.now) }
{
    text.split(|b| *b == b',').collect(alloc)
}

/// Checks whether a text is no default: it is empty or a category.
fn lacks_default(text: &[u8]) -> bool
    ensures { result ≡ lacks_default text.now }
{
    text.is_empty() || split_at_first(text, b':').1.is_some()
}

/// Returns the sentence of the first rule that the default of a label or its exceptions break.
fn list_sentence(
    alloc: Global,
    default: &[u8],
    exceptions: &[&[u8]],
) -> Result<Option<Vec<u8>>, AllocError>
    ensures { IfOk result (λ said. option_map (λ text. text.items) said
        ≡ first_sentence (list_rules default.now (map (λ part. part.now) exceptions.now))) }
{
    if lacks_default(default) {
        return said(
            alloc,
            "a label is levels by category and a default at last, as in {4:3,1}",
        );
    }
    if !is_level(default) {
        return said(alloc, LEVEL);
    }
    exceptions_sentence(alloc, default, exceptions)
}

/// Returns the sentence of the first rule that the text in the braces of a label breaks.
fn part_sentence(alloc: Global, text: &[u8]) -> Result<Option<Vec<u8>>, AllocError>
    ensures { IfOk result (λ said. option_map (λ text. text.items) said
        ≡ first_sentence (part_rules (slice_split (λ b. b == 44) text.now))) }
{
    let mut parts = split_at_commas(alloc, text)?;
    let default = parts.pop().unwrap_or(&[]);
    list_sentence(alloc, default, parts.as_slice())
}

/// Returns the text in the braces of a text, if it has them.
fn in_braces(word: &[u8]) -> Option<&[u8]>
    ensures { option_copied result
        ≡ (if is_braced word.now then Some (in_braces word.now) else None) }
{
    if !begins_with(word, b'{') || !ends_with(word, b'}') {
        return None;
    }
    match word {
        [_, inside @ .., _] => Some(inside),
        _ => None,
    }
}

/// Returns the sentence of the first rule that a word breaks as a label.
pub(crate) fn label_sentence(alloc: Global, word: &[u8]) -> Result<Option<Vec<u8>>, AllocError>
    ensures { IfOk result (λ said. option_map (λ text. text.items) said
        ≡ first_sentence (label_rules word.now)) }
{
    match in_braces(word) {
        Some(inside) => part_sentence(alloc, inside),
        None => said(alloc, "a label stands in braces, as in {4:3,1}"),
    }
}
