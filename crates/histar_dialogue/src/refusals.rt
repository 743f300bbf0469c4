//! Why the last call of a session that was refused was refused, and why its raw calls were denied.
ghost use Rattle.std.specs.Prelude.{◌≡◌, ◌++◌, IfErr, IfOk, OnOk};
ghost use Rattle.std.specs.List.{flat_map};
ghost use Rattle.histar_dialogue.specs.Refusals.{Explains, denial_mark, denials_of, is_reason, last_reason_of, marked_line};
ghost use Rattle.histar_dialogue.specs.Refusals.{no_refusal_text, reason_number, why_text, with_denials};
ghost use Rattle.histar_script.specs.Lines.{lines_of};
ghost use Rattle.histar_script.specs.Reading.{script_of};

use crate::asked::explained_of;
use crate::running::run_behind;
use crate::texts::{ended, push_line};
use histar_script::{Fault, split_line, split_word};
use std::alloc::{AllocError, Global};

/// Returns the line that says why the last refused call of the session in a text was refused, with
/// those of the denials on its line behind it, or that no call was refused.
pub(crate) fn explained_reason(alloc: Global, text: &[u8]) -> Result<Vec<u8>, Fault>
    ensures ok { IfOk result (λ said. Explains text.now said.items) }
    ensures err { IfErr result (λ fault. fault ≡ Fault.OutOfMemory) }
{
    let reason = why_text(alloc, text)?;
    match explained_of(alloc, text) {
        Ok(explained) => Ok(with_denials(alloc, reason, explained.as_slice())?),
        Err(Fault::BadScript(_)) => Ok(reason),
        Err(Fault::TooLong) => Ok(reason),
        Err(_) => Err(Fault::OutOfMemory),
    }
}

/// Returns a reason with the denials on its line behind it, of those of an output.
fn with_denials(alloc: Global, reason: Vec<u8>, output: &[u8]) -> Result<Vec<u8>, AllocError>
    ensures { IfOk result (λ said. said.items ≡ with_denials reason.items (lines_of output.now)) }
{
    if !is_reason(reason.as_slice()) {
        return Ok(reason);
    }
    let mark = denial_mark(alloc, reason_number(reason.as_slice()))?;
    let mut said = reason;
    push_marked(&mut said, output, mark.as_slice())?;
    Ok(said)
}

/// Returns the number of a line that says why a call was refused.
fn reason_number<'a>(line: &'a [u8]) -> &'a [u8]
    ensures { result.now ≡ reason_number line.entry.now }
{
    match line {
        [] => line,
        [_, rest @ ..] => split_word(rest).0,
    }
}

/// Returns what the lines of the denials on the line of a number begin with.
fn denial_mark(alloc: Global, number: &[u8]) -> Result<Vec<u8>, AllocError>
    ensures { IfOk result (λ mark. mark.items ≡ denial_mark number.now) }
{
    let mut mark = Vec::from_slice(alloc, b"?".as_slice())?;
    mark.extend_from_slice(number)?;
    mark.push(b' ')?;
    Ok(mark)
}

/// Adds the lines of an output that begin with a mark.
fn push_marked(text: &mut Vec<u8>, output: &[u8], mark: &[u8]) -> Result<(), AllocError>
    ensures { OnOk result (text.new.items
        ≡ text.old.items ++ flat_map (marked_line mark.now) (lines_of output.now)) }
{
    let mut rest = output;
    'lines: while !rest.is_empty() {
        let (line, after) = split_line(rest);
        push_if_marked(text, line, mark)?;
        rest = after;
    }
    Ok(())
}

/// Adds a line, if it begins with a mark.
fn push_if_marked(text: &mut Vec<u8>, line: &[u8], mark: &[u8]) -> Result<(), AllocError>
    ensures { OnOk result (text.new.items ≡ text.old.items ++ marked_line mark.now line.now) }
{
    if line.starts_with(mark) {
        push_line(text, line)?;
    }
    Ok(())
}

/// Runs the session in a text, and returns the line that says why its last refused call was
/// refused, or that no call was.
fn why_text(alloc: Global, text: &[u8]) -> Result<Vec<u8>, Fault>
    ensures ok { IfOk result (λ said. said.items ≡ why_text (script_of text.now)) }
    ensures err { IfErr result (λ fault. fault ≡ Fault.OutOfMemory) }
{
    match run_behind(alloc, text, 0) {
        Ok((running, answers)) => {
            drop(running);
            Ok(last_reason_of(alloc, answers.as_slice())?)
        }
        Err(Fault::BadScript(_)) => Ok(no_refusal_text(alloc)?),
        Err(Fault::TooLong) => Ok(no_refusal_text(alloc)?),
        Err(_) => Err(Fault::OutOfMemory),
    }
}

/// Returns the last line of answers that says why a call was refused, or that no call was.
fn last_reason_of(alloc: Global, answers: &[u8]) -> Result<Vec<u8>, AllocError>
    ensures { IfOk result (λ said. said.items ≡ last_reason_of answers.now) }
{
    let mut said = no_refusal_text(alloc)?;
    let mut rest = answers;
    'lines: while !rest.is_empty() {
        let (line, after) = split_line(rest);
        if is_reason(line) {
            said = ended(alloc, line)?;
        }
        rest = after;
    }
    Ok(said)
}

/// Checks whether a line says why a call was refused.
fn is_reason(line: &[u8]) -> bool
    ensures { result ≡ is_reason line.now }
{
    match line {
        [first, ..] => *first == b'!',
        [] => false,
    }
}

/// Returns the answer where no call was refused.
fn no_refusal_text(alloc: Global) -> Result<Vec<u8>, AllocError>
    ensures { IfOk result (λ text. text.items ≡ no_refusal_text) }
{
    Vec::from_slice(alloc, b"no call was refused\n".as_slice())
}
