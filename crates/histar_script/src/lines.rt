//! Lines and their words.
ghost use Rattle.std.specs.Prelude.{◌≡◌, ◌<◌, ◌∷◌, length};
ghost use Rattle.std.specs.Option.{option_copied};
ghost use Rattle.std.specs.List.{list_all};
ghost use Rattle.histar_script.specs.Lines.{lines_of, is_plain as plain, is_plain_byte as plain_byte, split_word as word_split};

use histar_flat::split_at_first;
use memchr::memchr;

/// The most bytes of a line.
const MOST_LINE_BYTES: usize = 1_024;

/// Returns the first line of a text that is not empty, and what follows it.
pub fn split_line(text: &[u8]) -> (&[u8], &[u8])
    requires { 0 < length text.now }
    ensures first { lines_of text.now ≡ result.0.now ∷ lines_of result.1.now }
    ensures shorter { length result.1.now < length text.now }
{
    match memchr(b'\n', text) {
        None => (text, &text[text.len()..]),
        Some(at) => (&text[..at], &text[at + 1..]),
    }
}

/// Returns how many lines a text has.
pub fn count_lines(text: &[u8]) -> usize
    ensures { result ≡ length (lines_of text.now) }
{
    let mut rest = text;
    let mut count = 0;
    while !rest.is_empty() {
        let (_, after) = split_line(rest);
        rest = after;
        count += 1;
    }
    count
}

/// Returns the bytes before the first space, and those after it if there is one.
pub fn split_word(text: &[u8]) -> (&[u8], Option<&[u8]>)
    ensures word { result.0.now ≡ (word_split text.now).0 }
    ensures rest { option_copied result.1 ≡ (word_split text.now).1 }
{
    split_at_first(text, b' ')
}

/// Returns whether a line is short enough and printable.
#[tactic(auto, unfolding(crate::specs::Lines::is_plain))]
pub fn is_plain(line: &[u8]) -> bool
    ensures { result ≡ plain line.now }
{
    line.len() <= MOST_LINE_BYTES && has_plain_bytes(line)
}

// Returns whether all bytes are printable. It doesn't stop at one that isn't, which is rare, and can then
// test many bytes at once.
fn has_plain_bytes(line: &[u8]) -> bool
    ensures { result ≡ list_all plain_byte line.now }
{
    let mut are_plain = true;
    for b in line {
        are_plain &= is_plain_byte(*b);
    }
    are_plain
}

fn is_plain_byte(b: u8) -> bool
    ensures { result ≡ plain_byte b }
{
    matches!(b, b' '..=b'~')
}
