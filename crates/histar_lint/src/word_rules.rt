//! The free part of a line, and the rules for the words of any line.
ghost use Rattle.std.specs.Prelude.{◌≡◌};
ghost use Rattle.std.specs.Option.{option_and_then, option_copied};
ghost use Rattle.histar_lint.specs.Lines.{first_sentence};
ghost use Rattle.histar_lint.specs.FreeParts.{behind_spaces, free_in, free_in_call, free_of, one_word, word_rules};
ghost use Rattle.histar_lint.specs.FreeParts.{words_behind};

use crate::line_rules::{rest_of, space_sentence};
use crate::shapes::{Kind, Shape, shape_named};
use histar_script::split_word;

/// Returns a text without the spaces at its beginning.
fn behind_spaces(text: &[u8]) -> &[u8]
    ensures { result.now ≡ behind_spaces text.now }
{
    let mut rest = text;
    while let [first, behind @ ..] = rest {
        if *first != b' ' {
            return rest;
        }
        rest = behind;
    }
    rest
}

/// Returns what follows the first word of a text and the spaces behind it.
fn words_behind(text: &[u8]) -> &[u8]
    ensures { result.now ≡ words_behind text.now }
{
    behind_spaces(rest_of(text))
}

/// Returns a text, if it is one word.
fn one_word(text: &[u8]) -> Option<&[u8]>
    ensures { option_copied result ≡ one_word text.now }
{
    if text.is_empty() || split_word(text).1.is_some() {
        None
    } else {
        Some(text)
    }
}

/// Returns the free part of an argument of this kind, with which its line ends.
fn free_in(kind: Kind, text: &[u8]) -> Option<&[u8]>
    ensures { option_copied result ≡ free_in kind text.now }
{
    match kind {
        Kind::Bytes => Some(text),
        Kind::Password => one_word(behind_spaces(text)),
        _ => None,
    }
}

/// Returns the free part of an argument of this kind, if the argument is there.
fn free_in_argument(kind: Kind, argument: Option<&[u8]>) -> Option<&[u8]>
    ensures { option_copied result ≡ option_and_then (free_in kind) (option_copied argument.entry) }
{
    match argument {
        Some(text) => free_in(kind, text),
        None => None,
    }
}

/// Returns the free part of a call of this shape.
fn free_in_call(shape: Option<Shape>, text: &[u8]) -> Option<&[u8]>
    ensures { option_copied result ≡ free_in_call shape text.now }
{
    match shape {
        None => split_word(text).1,
        Some(Shape::Alone) => None,
        Some(Shape::One(kind)) => free_in_argument(kind, split_word(text).1),
        Some(Shape::Two(_, kind)) => free_in_argument(kind, split_word(words_behind(text)).1),
    }
}

/// Returns the free part of a line: the bytes of a call, or a password.
fn free_of(line: &[u8]) -> Option<&[u8]>
    ensures { option_copied result ≡ free_of line.now }
{
    let word = split_word(line).0;
    if word == b"user".as_slice() {
        free_in_call(Some(Shape::Two(Kind::Name, Kind::Password)), line)
    } else if word == b"group".as_slice() {
        None
    } else {
        let words = words_behind(line);
        free_in_call(shape_named(split_word(words).0), words)
    }
}

/// Returns the sentence of the first rule for words that a line breaks.
pub(crate) fn word_sentence(line: &[u8]) -> Option<&'static str>
    ensures { option_copied result ≡ first_sentence (word_rules line.now) }
{
    if let Some(said) = space_sentence(line, free_of(line)) {
        return Some(said);
    }
    if split_word(line).1.is_none() {
        return Some("a line is `user NAME PASSWORD`, `group NAME USER..` or `PROC CALL`");
    }
    None
}
