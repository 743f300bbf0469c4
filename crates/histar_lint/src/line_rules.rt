//! The rules for the bytes of a line and for its spaces.
ghost use Rattle.std.specs.Prelude.{◌≡◌, ◌==◌, ◌&&◌, IfOk, is_none, option_map};
ghost use Rattle.std.specs.Option.{option_copied};
ghost use Rattle.histar_lint.specs.Lines.{before_free, begins_with, byte_rules, ends_with, first_sentence, has_after_space};
ghost use Rattle.histar_lint.specs.Lines.{long_text, printable_rules, rest_of, space_rules, unprintable_from, unprintable_text};

use crate::texts::{push_hex, push_number};
use histar_script::split_word;
use std::alloc::{AllocError, Global};

/// The most bytes of a line.
const MOST_LINE_BYTES: usize = 1_024;

/// Returns what follows the first word of a text.
pub fn rest_of(text: &[u8]) -> &[u8]
    ensures { result.now ≡ rest_of text.now }
{
    split_word(text).1.unwrap_or(&[])
}

/// Checks whether a text begins with a byte.
pub fn begins_with(text: &[u8], byte: u8) -> bool
    ensures { result ≡ begins_with byte text.now }
{
    match text {
        [first, ..] => *first == byte,
        [] => false,
    }
}

/// Checks whether a text ends with a byte.
pub fn ends_with(text: &[u8], byte: u8) -> bool
    ensures { result ≡ ends_with byte text.now }
{
    match text.last() {
        Some(last) => *last == byte,
        None => false,
    }
}

/// Checks whether a byte is a space and the text behind it begins with another byte.
fn is_space_before(first: u8, behind: &[u8], byte: u8) -> bool
    ensures { result ≡ (first == 32 && begins_with byte behind.now) }
{
    first == b' ' && begins_with(behind, byte)
}

/// Checks whether a text has a space directly followed by a byte.
fn has_after_space(text: &[u8], byte: u8) -> bool
    ensures { result ≡ has_after_space byte text.now }
{
    let mut rest = text;
    while let [first, behind @ ..] = rest {
        if is_space_before(*first, behind, byte) {
            return true;
        }
        rest = behind;
    }
    false
}

/// Returns a line up to its free part, if it ends in one.
fn before_free<'a>(line: &'a [u8], free: Option<&[u8]>) -> &'a [u8]
    ensures { result.now ≡ before_free line.now (option_copied free.entry) }
{
    match free {
        Some(part) => &line[..line.len().saturating_sub(part.len())],
        None => line,
    }
}

/// Checks whether a line has no free part and ends with a space.
fn ends_in_space(line: &[u8], free: Option<&[u8]>) -> bool
    ensures { result ≡ (is_none (option_copied free.entry) && ends_with 32 line.now) }
{
    free.is_none() && ends_with(line, b' ')
}

/// Returns the column and the value of the first byte that is not printable.
fn unprintable(line: &[u8]) -> Option<(usize, u8)>
    ensures { result ≡ unprintable_from 1 line.now }
{
    'bytes: for (place, byte) in line.iter().enumerate() {
        if !matches!(*byte, b' '..=b'~') {
            return Some((place + 1, *byte));
        }
    }
    None
}

/// Returns the sentence that a line has too many bytes, with their number.
fn long_text(alloc: Global, line: &[u8]) -> Result<Vec<u8>, AllocError>
    ensures { IfOk result (λ said. said.items ≡ long_text line.now) }
{
    let mut said = Vec::from_slice(alloc, b"the line has ".as_slice())?;
    push_number(&mut said, line.len() as u64)?;
    said.extend_from_slice(b" bytes, and 1024 is the most")?;
    Ok(said)
}

/// Returns the sentence that a byte is not printable, with its column.
fn unprintable_text(alloc: Global, column: usize, byte: u8) -> Result<Vec<u8>, AllocError>
    ensures { IfOk result (λ said. said.items ≡ unprintable_text (column, byte)) }
{
    let mut said = Vec::from_slice(alloc, b"byte ".as_slice())?;
    push_hex(&mut said, byte)?;
    said.extend_from_slice(b" at column ")?;
    push_number(&mut said, column as u64)?;
    said.extend_from_slice(b" is not printable")?;
    Ok(said)
}

/// Returns the sentence of the first rule for printable bytes that a line breaks.
pub fn printable_sentence(alloc: Global, line: &[u8]) -> Result<Option<Vec<u8>>, AllocError>
    ensures { IfOk result (λ said. option_map (λ text. text.items) said
        ≡ first_sentence (printable_rules line.now)) }
{
    if ends_with(line, b'\r') {
        let said = Vec::from_slice(
            alloc,
            b"the line ends with a carriage return (0x0d)".as_slice(),
        )?;
        return Ok(Some(said));
    }
    match unprintable(line) {
        None => Ok(None),
        Some((column, byte)) => Ok(Some(unprintable_text(alloc, column, byte)?)),
    }
}

/// Returns the sentence of the first rule for bytes that a line breaks.
pub fn byte_sentence(alloc: Global, line: &[u8]) -> Result<Option<Vec<u8>>, AllocError>
    ensures { IfOk result (λ said. option_map (λ text. text.items) said
        ≡ first_sentence (byte_rules line.now)) }
{
    if line.len() > MOST_LINE_BYTES {
        return Ok(Some(long_text(alloc, line)?));
    }
    printable_sentence(alloc, line)
}

/// Returns the sentence of the first rule for spaces that a line breaks, given the free part in which it may
/// end.
pub fn space_sentence(line: &[u8], free: Option<&[u8]>) -> Option<&'static str>
    ensures { option_copied result
        ≡ first_sentence (space_rules line.now (option_copied free.entry)) }
{
    let words = before_free(line, free);
    if begins_with(line, b' ') {
        Some("a space stands at the beginning of the line")
    } else if ends_in_space(line, free) {
        Some("a space stands at the end of the line")
    } else if has_after_space(words, b'#') {
        Some("a comment has a line of its own")
    } else if has_after_space(words, b' ') {
        Some("two spaces stand one behind the other")
    } else {
        None
    }
}
