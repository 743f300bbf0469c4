//! The lines that are written of an attack.
ghost use Rattle.std.specs.Prelude.{◌≡◌, ◌<◌, ◌++◌, codes, decimal, length, OnOk};
ghost use Rattle.histar_rawtext.specs.RawText.{trace_text};
ghost use Rattle.histar_attack.specs.Answering.{AddsEntry, trace_if_asked};
ghost use Rattle.histar_raw_session.specs.Answers.{line_text as raw_line_text};
ghost use Rattle.histar_shell.specs.Answers.{line_text};

use histar_flat::Reply;
use histar_raw_session::{answer_line, denial_line};
use histar_rawtext::trace_line;
use histar_rules::Denied;
use histar_shell::reply_text;
use histar_syscall::{Answer, Trace};
use itoa::Buffer;
use std::alloc::{AllocError, Global};

/// Adds a line with the number of a call's line and a text.
pub(crate) fn push_line(text: &mut Vec<u8>, number: u32, said: &[u8]) -> Result<(), AllocError>
    ensures { OnOk result (text.new.items
        ≡ text.old.items ++ (decimal number ++ codes " " ++ said.now ++ codes "\n")) }
{
    text.extend_from_slice(Buffer::new().format(number).as_bytes())?;
    text.extend_from_slice(b" ")?;
    text.extend_from_slice(said)?;
    text.extend_from_slice(b"\n")
}

/// Adds the line of a reply.
pub(crate) fn push_reply(
    alloc: Global,
    text: &mut Vec<u8>,
    number: u32,
    reply: &Reply,
) -> Result<(), AllocError>
    ensures { OnOk result (text.new.items ≡ text.old.items ++ line_text number reply.now) }
{
    let said = reply_text(alloc, reply)?;
    push_line(text, number, said.as_slice())
}

/// Adds the line of a raw call's outcome.
pub(crate) fn push_outcome(
    alloc: Global,
    text: &mut Vec<u8>,
    number: u32,
    outcome: Result<Answer, Denied>,
) -> Result<(), AllocError>
    ensures { OnOk result (text.new.items ≡ text.old.items ++ raw_line_text number outcome) }
{
    let line = match outcome {
        Ok(answer) => answer_line(alloc, number, &answer)?,
        Err(denied) => denial_line(alloc, number, denied)?,
    };
    text.extend_from_slice(line.as_slice())
}

/// Adds the lines of a trace, if it is asked for.
pub(crate) fn push_trace_if(
    alloc: Global,
    text: &mut Vec<u8>,
    trace: &Trace,
    asked: bool,
) -> Result<(), AllocError>
    ensures { OnOk result (text.new.items
        ≡ text.old.items ++ trace_if_asked asked trace.now.entries) }
{
    if asked {
        push_trace(alloc, text, trace)?;
    }
    Ok(())
}

/// Adds the lines of a trace.
fn push_trace(alloc: Global, text: &mut Vec<u8>, trace: &Trace) -> Result<(), AllocError>
    ensures { OnOk result (text.new.items ≡ text.old.items ++ trace_text trace.now.entries) }
{
    'lines: for at in 0..trace.len() {
        push_entry(alloc, text, trace, at)?;
    }
    Ok(())
}

/// Adds the line of the entry at a place of a trace.
fn push_entry(alloc: Global, text: &mut Vec<u8>, trace: &Trace, at: usize) -> Result<(), AllocError>
    requires { at < length trace.now.entries }
    ensures { OnOk result (AddsEntry trace.now.entries at text.old.items text.new.items) }
{
    let entry = trace.entry(alloc, at)?;
    let line = trace_line(alloc, &entry);
    drop(entry);
    text.extend_from_slice(line?.as_slice())
}
