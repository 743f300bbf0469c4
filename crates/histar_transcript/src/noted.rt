//! The lines of an output with notes, each reply after its call and before its notes.
ghost use Rattle.std.specs.Prelude.{◌≡◌, ◌++◌, codes, map, IfOk, OnOk};
ghost use Rattle.std.specs.List.{filter};
ghost use Rattle.histar_script.specs.Lines.{lines_of};
ghost use Rattle.histar_transcript.specs.Noted.{behind_first, is_about, is_marked, is_note};
ghost use Rattle.histar_transcript.specs.Noted.{denials_after, denials_behind, noted_transcript};
ghost use Rattle.histar_transcript.specs.Noted.{notes_behind, reason_behind, reasons_after};
ghost use Rattle.histar_transcript.specs.Transcript.{with_call};

use crate::extended::push_line;
use crate::transcript::{lines_in, push_with_call};
use histar_script::{split_line, split_word};
use std::alloc::{AllocError, Global};

/// Returns the output of a run of a script with each reply after the text of its call, and behind it
/// why it was refused, and why its raw calls were denied.
pub(crate) fn noted_transcript(
    alloc: Global,
    script: &[u8],
    output: &[u8],
) -> Result<Vec<u8>, AllocError>
    ensures { IfOk result (λ text. text.items ≡ noted_transcript script.now output.now) }
{
    let lines = lines_in(alloc, script)?;
    let found_reasons = marked_lines(alloc, output, b'!')?;
    let found_denials = marked_lines(alloc, output, b'?')?;
    let mut text = Vec::new(alloc);
    let mut reasons = found_reasons.as_slice();
    let mut denials = found_denials.as_slice();
    let mut rest = output;
    'lines: while !rest.is_empty() {
        let (line, after) = split_line(rest);
        if !is_note(line) {
            push_with_notes(&mut text, lines.as_slice(), line, reasons, denials)?;
            reasons = reasons_after(line, reasons);
            denials = denials_after(line, denials);
        }
        rest = after;
    }
    Ok(text)
}

/// Returns the lines of a text that begin with this byte.
pub(crate) fn marked_lines<'a>(
    alloc: Global,
    text: &'a [u8],
    mark: u8,
) -> Result<Vec<&'a [u8]>, AllocError>
    ensures { IfOk result (λ found. map (λ line. line.now) found.items
        ≡ filter (is_marked mark) (lines_of text.entry.now)) }
{
    let mut found = Vec::new(alloc);
    let mut rest = text;
    'lines: while !rest.is_empty() {
        let (line, after) = split_line(rest);
        if is_marked(line, mark) {
            found.push(line)?;
        }
        rest = after;
    }
    Ok(found)
}

/// Checks whether a line begins with this byte.
fn is_marked(line: &[u8], mark: u8) -> bool
    ensures { result ≡ is_marked mark line.now }
{
    match line {
        [first, ..] => *first == mark,
        [] => false,
    }
}

/// Checks whether a line of an output says why a call was refused, or why a raw call was denied.
fn is_note(line: &[u8]) -> bool
    ensures { result ≡ is_note line.now }
{
    is_marked(line, b'!') || is_marked(line, b'?')
}

/// Adds a line of an output to a text, a reply after its call and before its notes.
fn push_with_notes(
    text: &mut Vec<u8>,
    lines: &[&[u8]],
    line: &[u8],
    reasons: &[&[u8]],
    denials: &[&[u8]],
) -> Result<(), AllocError>
    ensures { OnOk result (text.new.items ≡ text.old.items
        ++ ((with_call (map (λ line. line.now) lines.now) line.now ++ codes "\n")
        ++ notes_behind line.now (map (λ reason. reason.now) reasons.now) (map (λ denial. denial.now) denials.now))) }
{
    push_with_call(text, lines, line)?;
    text.extend_from_slice(b"\n")?;
    push_reason(text, line, reasons)?;
    push_denials(text, line, denials)
}

/// Adds the first of these reasons and the end of its line, if it is of the reply on this line.
fn push_reason(text: &mut Vec<u8>, line: &[u8], reasons: &[&[u8]]) -> Result<(), AllocError>
    ensures { OnOk result (text.new.items ≡ text.old.items
        ++ reason_behind line.now (map (λ reason. reason.now) reasons.now)) }
{
    match reasons {
        [reason, ..] if is_about(reason, line) => {
            text.extend_from_slice(reason)?;
            text.extend_from_slice(b"\n")
        }
        _ => Ok(()),
    }
}

/// Adds the first of these denials that are of the reply on this line, each with the end of its line.
fn push_denials(text: &mut Vec<u8>, line: &[u8], denials: &[&[u8]]) -> Result<(), AllocError>
    ensures { OnOk result (text.new.items ≡ text.old.items
        ++ denials_behind line.now (map (λ denial. denial.now) denials.now)) }
{
    let mut left = denials;
    'denials: while let [denial, more @ ..] = left {
        if !is_about(denial, line) {
            return Ok(());
        }
        push_line(text, denial)?;
        left = more;
    }
    Ok(())
}

/// Returns these reasons without the first one, if that is of the reply on this line.
fn reasons_after<'r, 'a>(line: &[u8], reasons: &'r [&'a [u8]]) -> &'r [&'a [u8]]
    ensures { map (λ reason. reason.now) result.now
        ≡ reasons_after line.now (map (λ reason. reason.now) reasons.entry.now) }
{
    match reasons {
        [reason, more @ ..] if is_about(reason, line) => more,
        _ => reasons,
    }
}

/// Returns these denials without the first ones that are of the reply on this line.
fn denials_after<'r, 'a>(line: &[u8], denials: &'r [&'a [u8]]) -> &'r [&'a [u8]]
    ensures { map (λ denial. denial.now) result.now
        ≡ denials_after line.now (map (λ denial. denial.now) denials.entry.now) }
{
    let mut rest = denials;
    'denials: while let [denial, more @ ..] = rest {
        if !is_about(denial, line) {
            return rest;
        }
        rest = more;
    }
    rest
}

/// Checks whether a note is of the reply on this line.
fn is_about(note: &[u8], line: &[u8]) -> bool
    ensures { result ≡ is_about note.now line.now }
{
    let (word, _) = split_word(note);
    let (number, _) = split_word(line);
    behind_first(word) == number
}

/// Returns a word without its first character.
fn behind_first(word: &[u8]) -> &[u8]
    ensures { result.now ≡ behind_first word.entry.now }
{
    match word {
        [_, more @ ..] => more,
        [] => &[],
    }
}
