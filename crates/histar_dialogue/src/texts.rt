//! The text of a session, which grows by a line.
ghost use Rattle.std.specs.Prelude.{◌≡◌, [], ◌∷◌, ◌++◌, ◌+◌, ◌<◌, ◌≤◌, true, Err, IfErr, IfOk, OnErr, OnOk, length};
ghost use Rattle.histar_dialogue.specs.Texts.{SaysRule, with_line};
ghost use Rattle.histar_script.specs.Lines.{lines_of, most_script_bytes, most_script_lines};
ghost use Rattle.histar_script.specs.Reading.{script_of};

use histar_lint::sentence_on;
use histar_script::{Fault, split_line};
use std::alloc::{AllocError, Global};

/// The most bytes of a script.
const MOST_SCRIPT_BYTES: usize = 1_048_576;

/// The most lines of a script.
const MOST_SCRIPT_LINES: usize = 16_384;

/// Returns a line with its end.
pub(crate) fn ended(alloc: Global, line: &[u8]) -> Result<Vec<u8>, AllocError>
    ensures { IfOk result (λ text. text.items ≡ line.now ++ 10 ∷ []) }
{
    let mut text = Vec::from_slice(alloc, line)?;
    text.push(b'\n')?;
    Ok(text)
}

/// Returns a text, and another one behind it.
pub(crate) fn joined(alloc: Global, text: &[u8], more: &[u8]) -> Result<Vec<u8>, AllocError>
    ensures { IfOk result (λ whole. whole.items ≡ text.now ++ more.now) }
{
    let mut whole = Vec::from_slice(alloc, text)?;
    whole.extend_from_slice(more)?;
    Ok(whole)
}

/// Adds a line and its end, or nothing.
pub(crate) fn push_line(text: &mut Vec<u8>, line: &[u8]) -> Result<(), AllocError>
    ensures ok { OnOk result (text.new.items ≡ with_line text.old.items line.now) }
    ensures kept { OnErr result (text.new.items ≡ text.old.items) }
{
    let length = text.len();
    text.extend_from_slice(line)?;
    let done = text.extend_from_slice(b"\n");
    if done.is_err() {
        text.truncate(length);
    }
    done
}

/// Returns how many lines a text has.
pub(crate) fn count_lines(text: &[u8]) -> usize
    ensures { result ≡ length (lines_of text.now) }
{
    let mut rest = text;
    let mut count = 0;
    'lines: while !rest.is_empty() {
        let (_, after) = split_line(rest);
        rest = after;
        count += 1;
    }
    count
}

/// Checks whether a text with this many lines may have this line more.
pub(crate) fn has_room(text: &[u8], count: usize, line: &[u8]) -> bool
    ensures lines { result ≡ true → count < most_script_lines }
    ensures bytes { result ≡ true → length text.now + length line.now + 1 ≤ most_script_bytes }
{
    count < MOST_SCRIPT_LINES && line.len() < MOST_SCRIPT_BYTES.saturating_sub(text.len())
}

/// Returns the sentence of the rule that the first bad line of a text breaks, and a line end.
pub(crate) fn rule_text(alloc: Global, text: &[u8], bad: u32) -> Result<Vec<u8>, Fault>
    requires { script_of text.now ≡ Err (Fault.BadScript bad) }
    ensures ok { IfOk result (λ said. SaysRule text.now bad said.items) }
    ensures err { IfErr result (λ fault. fault ≡ Fault.OutOfMemory) }
{
    let mut said = sentence_on(alloc, text, bad)?;
    said.push(b'\n')?;
    Ok(said)
}
