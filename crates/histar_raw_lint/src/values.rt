//! The rules for bytes, for a gate's entry, and for a value of any kind.
ghost use Rattle.std.specs.Prelude.{◌≡◌, ◌%◌, ◌==◌, IfOk, drop, length, option_map};
ghost use Rattle.std.specs.List.{list_all};
ghost use Rattle.histar_lint.specs.Lines.{first_sentence};
ghost use Rattle.histar_raw_lint.specs.Rules.{value_rules};
ghost use Rattle.histar_raw_lint.specs.Values.{bytes_rules, entry_rules, is_hex_digit};

use crate::kinds::Kind;
use crate::labels::label_sentence;
use crate::numbers::{is_digit, number_sentence, positive_sentence};
use crate::texts::said;
use histar_flat::split_at_first;
use histar_lint::line_rules::begins_with;
use std::alloc::{AllocError, Global};

/// The sentence that shows the forms of a gate's entry.
const ENTRY: &str = "an entry is login:USER or mark:NUMBER";

/// Checks whether a byte is a hexadecimal digit.
fn is_hex_digit(byte: u8) -> bool
    ensures { result ≡ is_hex_digit byte }
{
    is_digit(byte) || matches!(byte, b'a'..=b'f')
}

/// Returns the text after the first byte of a text.
fn behind_first(text: &[u8]) -> &[u8]
    ensures { result.now ≡ drop 1 text.now }
{
    match text {
        [_, behind @ ..] => behind,
        [] => text,
    }
}

/// Checks whether all bytes are hexadecimal digits.
fn are_hex_digits(digits: &[u8]) -> bool
    ensures { result ≡ list_all is_hex_digit digits.now }
{
    digits.iter().all(|b| is_hex_digit(*b))
}

/// Checks whether the number of digits is odd.
fn is_odd(digits: &[u8]) -> bool
    ensures { result ≡ (length digits.now % 2 == 1) }
{
    digits.len() % 2 == 1
}

/// Returns the sentence of the first rule that a word breaks as bytes.
fn bytes_sentence(alloc: Global, word: &[u8]) -> Result<Option<Vec<u8>>, AllocError>
    ensures { IfOk result (λ said. option_map (λ text. text.items) said
        ≡ first_sentence (bytes_rules word.now)) }
{
    let digits = behind_first(word);
    if !begins_with(word, b'x') {
        return said(alloc, "bytes are x and two digits for each, as in x0aff");
    }
    if !are_hex_digits(digits) {
        return said(alloc, "a digit of a byte is 0 to 9 or a to f");
    }
    if is_odd(digits) {
        return said(alloc, "the last byte has one digit, and a byte has two");
    }
    Ok(None)
}

/// Returns the sentence of the first rule that a word breaks as a gate's entry.
fn entry_sentence(alloc: Global, word: &[u8]) -> Result<Option<Vec<u8>>, AllocError>
    ensures { IfOk result (λ said. option_map (λ text. text.items) said
        ≡ first_sentence (entry_rules word.now)) }
{
    let (name, number) = split_at_first(word, b':');
    let Some(number) = number else {
        return said(alloc, ENTRY);
    };
    if name == b"login".as_slice() {
        positive_sentence(alloc, "a user", 255, number)
    } else if name == b"mark".as_slice() {
        number_sentence(alloc, "a mark", 4_294_967_295, number)
    } else {
        said(alloc, ENTRY)
    }
}

/// Returns the sentence of the first rule that a word breaks as a value of a kind.
pub(crate) fn value_sentence(
    alloc: Global,
    kind: Kind,
    word: &[u8],
) -> Result<Option<Vec<u8>>, AllocError>
    ensures { IfOk result (λ said. option_map (λ text. text.items) said
        ≡ first_sentence (value_rules kind word.now)) }
{
    match kind {
        Kind::Container => number_sentence(alloc, "a container", u64::MAX, word),
        Kind::Object => number_sentence(alloc, "an object", u64::MAX, word),
        Kind::Segment => number_sentence(alloc, "a segment", u64::MAX, word),
        Kind::Gate => number_sentence(alloc, "a gate", u64::MAX, word),
        Kind::Keep => number_sentence(alloc, "KEEP", 4_294_967_295, word),
        Kind::Label | Kind::Clearance | Kind::Verify => label_sentence(alloc, word),
        Kind::Bytes => bytes_sentence(alloc, word),
        Kind::Entry => entry_sentence(alloc, word),
    }
}
