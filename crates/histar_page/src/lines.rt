//! The lines of a run's output, by what they begin with.
ghost use Rattle.std.specs.Prelude.{◌≡◌, ◌<◌, ◌∷◌, filter, length, map, IfOk, unwrap_or, []};
ghost use Rattle.std.specs.List.{prefix_len};
ghost use Rattle.std.specs.Option.{option_copied};
ghost use Rattle.histar_script.specs.Lines.{lines_of};
ghost use Rattle.histar_page.specs.Texts.{texts};
ghost use Rattle.histar_page.specs.LineKinds.{is_of};
ghost use Rattle.histar_page.specs.Lines.{after_word, front_number, has_mark, is_denied, is_own, is_reply, mark_number, without_first, words_of};

use histar_flat::read_number;
use histar_script::{split_line, split_word};
use std::alloc::{AllocError, Global};

/// The most lines of a script.
const MOST_SCRIPT_LINES: u64 = 16_384;

/// The mark of a raw call in the output of a run.
const RAW_MARK: u8 = b'@';

/// The mark of a reason in the output of a run.
const REASON_MARK: u8 = b'!';

/// The mark of an explanation in the output of a run.
const WHY_MARK: u8 = b'?';

/// What a line in the output of a run is.
#[derive(Clone, Copy)]
pub(crate) enum LineKind {
    Reply,
    RawCall,
    Explanation,
    Reason,
}

/// Returns the lines of a text, without their line ends.
pub(crate) fn lines_in<'a>(alloc: Global, text: &'a [u8]) -> Result<Vec<&'a [u8]>, AllocError>
    ensures { IfOk result (λ lines. texts lines.items ≡ lines_of text.entry.now) }
{
    let mut lines = Vec::new(alloc);
    let mut rest = text;
    'lines: while !rest.is_empty() {
        let (line, after) = split_line(rest);
        lines.push(line)?;
        rest = after;
    }
    Ok(lines)
}

/// Returns the number that a line begins with, if it is that of a line of a script.
pub(crate) fn front_number(line: &[u8]) -> Option<u64>
    ensures { result ≡ front_number line.now }
{
    let (word, _) = split_word(line);
    read_number(word, MOST_SCRIPT_LINES)
}

/// Checks whether a line is a reply.
fn is_reply(line: &[u8]) -> bool
    ensures { result ≡ is_reply line.now }
{
    front_number(line).is_some()
}

/// Checks whether a line begins with a mark.
pub(crate) fn has_mark(mark: u8, line: &[u8]) -> bool
    ensures { result ≡ has_mark mark line.now }
{
    match line {
        [] => false,
        [first, ..] => *first == mark,
    }
}

/// Returns the list without its first text.
pub(crate) fn without_first<'s, 'a>(lines: &'s [&'a [u8]]) -> &'s [&'a [u8]]
    ensures { texts result.now ≡ without_first (texts lines.entry.now) }
{
    match lines {
        [] => lines,
        [_, later @ ..] => later,
    }
}

/// Checks whether a line is of a kind.
fn is_of(kind: LineKind, line: &[u8]) -> bool
    ensures { result ≡ is_of kind line.now }
{
    match kind {
        LineKind::Reply => is_reply(line),
        LineKind::RawCall => has_mark(RAW_MARK, line),
        LineKind::Explanation => has_mark(WHY_MARK, line),
        LineKind::Reason => has_mark(REASON_MARK, line),
    }
}

/// Returns the lines of a kind.
pub(crate) fn among<'a>(
    alloc: Global,
    kind: LineKind,
    lines: &[&'a [u8]],
) -> Result<Vec<&'a [u8]>, AllocError>
    ensures { IfOk result (λ found. texts found.items ≡ filter (is_of kind) (texts lines.now)) }
{
    let mut found = Vec::new(alloc);
    let mut rest = lines;
    'lines: while let [line, more @ ..] = rest {
        if is_of(kind, line) {
            found.push(*line)?;
        }
        rest = more;
    }
    Ok(found)
}

/// Returns the word after a mark.
pub(crate) fn mark_number<'a>(line: &'a [u8]) -> &'a [u8]
    ensures { result.now ≡ mark_number line.entry.now }
{
    match line {
        [] => line,
        [_, rest @ ..] => split_word(rest).0,
    }
}

/// Checks whether a line has this word after its mark.
fn is_own(word: &[u8], line: &[u8]) -> bool
    ensures { result ≡ is_own word.now line.now }
{
    mark_number(line) == word
}

/// Returns how many lines at the front have this word after their mark.
pub(crate) fn own_count(lines: &[&[u8]], word: &[u8]) -> usize
    ensures { result ≡ prefix_len (is_own word.now) (texts lines.now) }
{
    let mut rest = lines;
    let mut count = 0;
    'lines: while let [line, more @ ..] = rest {
        if !is_own(word, line) {
            return count;
        }
        count += 1;
        rest = more;
    }
    count
}

/// Returns what is after the first word of a line.
pub(crate) fn after_word<'a>(line: &'a [u8]) -> &'a [u8]
    ensures { result.now ≡ after_word line.entry.now }
{
    or_nothing(split_word(line).1)
}

/// Returns the text, or an empty one if there is none.
pub(crate) fn or_nothing<'a>(text: Option<&'a [u8]>) -> &'a [u8]
    ensures { result.now ≡ unwrap_or (option_copied text.entry) [] }
{
    match text {
        Some(text) => text,
        None => &[],
    }
}

/// Checks whether a raw call was denied.
pub(crate) fn is_denied(line: &[u8]) -> bool
    ensures { result ≡ is_denied line.now }
{
    !line.ends_with(b" = ok")
}

/// Returns the words of a line.
pub(crate) fn words_in<'a>(alloc: Global, line: &'a [u8]) -> Result<Vec<&'a [u8]>, AllocError>
    ensures { IfOk result (λ words. texts words.items ≡ words_of line.entry.now) }
{
    let mut words = Vec::new(alloc);
    let mut rest = line;
    'words: while !rest.is_empty() {
        let (word, after) = next_word(rest);
        words.push(word)?;
        rest = after;
    }
    Ok(words)
}

/// Returns the first word of a line that is not empty, and what follows it.
fn next_word(line: &[u8]) -> (&[u8], &[u8])
    requires { 0 < length line.now }
    ensures first { words_of line.now ≡ result.0.now ∷ words_of result.1.now }
    ensures shorter { length result.1.now < length line.now }
{
    let (word, after) = split_word(line);
    (word, or_nothing(after))
}
