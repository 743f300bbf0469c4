//! The lines of an output, each reply after its call.
ghost use Rattle.std.specs.Prelude.{◌≡◌, ◌++◌, ◌-◌, ℕ, [], codes, decimal, map, IfOk, OnOk, slice_index_or, unwrap_or};
ghost use Rattle.std.specs.Option.{option_copied};
ghost use Rattle.histar_script.specs.Lines.{lines_of};
ghost use Rattle.histar_transcript.specs.Transcript.{reply_number, transcript_of, with_call};

use histar_flat::read_number;
use histar_script::{split_line, split_word};
use itoa::Buffer;
use std::alloc::{AllocError, Global};

/// The most lines of a script.
const MOST_SCRIPT_LINES: u64 = 16_384;

/// Returns the output of a run of a script with each reply after the text of its call.
pub(crate) fn transcript_of(
    alloc: Global,
    script: &[u8],
    output: &[u8],
) -> Result<Vec<u8>, AllocError>
    ensures { IfOk result (λ text. text.items ≡ transcript_of script.now output.now) }
{
    let lines = lines_in(alloc, script)?;
    let mut text = Vec::new(alloc);
    let mut rest = output;
    'lines: while !rest.is_empty() {
        let (line, after) = split_line(rest);
        push_with_call(&mut text, lines.as_slice(), line)?;
        text.push(b'\n')?;
        rest = after;
    }
    Ok(text)
}

/// Returns the lines of a text.
pub(crate) fn lines_in<'a>(alloc: Global, text: &'a [u8]) -> Result<Vec<&'a [u8]>, AllocError>
    ensures { IfOk result (λ lines. map (λ line. line.now) lines.items ≡ lines_of text.entry.now) }
{
    let mut lines = Vec::new(alloc);
    let mut rest = text;
    'lines: while !rest.is_empty() {
        let (line, after) = split_line(rest);
        lines.push(line)?;
        rest = after;
    }
    Ok(lines)
}

/// Adds a line of an output to a text, a reply after its call.
pub(crate) fn push_with_call(
    text: &mut Vec<u8>,
    lines: &[&[u8]],
    line: &[u8],
) -> Result<(), AllocError>
    ensures { OnOk result (text.new.items ≡ text.old.items
        ++ with_call (map (λ line. line.now) lines.now) line.now) }
{
    let (word, reply) = split_word(line);
    let Some(number) = read_number(word, MOST_SCRIPT_LINES) else {
        return text.extend_from_slice(line);
    };
    push_reply(text, number, call_on(lines, number), or_nothing(reply))
}

/// Adds the number of a line, its call and the reply.
pub(crate) fn push_reply(
    text: &mut Vec<u8>,
    number: u64,
    call: &[u8],
    reply: &[u8],
) -> Result<(), AllocError>
    ensures { OnOk result (text.new.items ≡ text.old.items
        ++ (decimal number ++ codes "  " ++ call.now ++ codes "  " ++ reply.now)) }
{
    text.extend_from_slice(Buffer::new().format(number).as_bytes())?;
    text.extend_from_slice(b"  ")?;
    text.extend_from_slice(call)?;
    text.extend_from_slice(b"  ")?;
    text.extend_from_slice(reply)
}

/// Returns the text, or an empty one if there is none.
pub(crate) fn or_nothing(rest: Option<&[u8]>) -> &[u8]
    ensures { result.now ≡ unwrap_or (option_copied rest.entry) [] }
{
    match rest {
        Some(rest) => rest,
        None => &[],
    }
}

/// Returns the line of this number, or an empty one if there is none.
pub(crate) fn call_on<'a>(lines: &[&'a [u8]], number: u64) -> &'a [u8]
    ensures { result.now ≡ slice_index_or (map (λ line. line.now) lines.now) (number - 1) [] }
{
    match lines.get((number as usize).saturating_sub(1)) {
        Some(line) => line,
        None => &[],
    }
}
