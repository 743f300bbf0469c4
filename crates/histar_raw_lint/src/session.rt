//! Linting a raw session, from bytes to bytes.
ghost use Rattle.std.specs.Prelude.{◌≡◌, false, IfOk, IfErr, IfSome};
ghost use Rattle.histar_io.specs.Device.{CountsFailure};
ghost use Rattle.histar_script.specs.Runs.{LeavesSink, RunsInput, is_read_failed, is_write_failed};
ghost use Rattle.histar_raw_session.specs.Session.{IsFirstBadLine};
ghost use Rattle.histar_lint.specs.Session.{IsMemory, finding_text};
ghost use Rattle.histar_raw_lint.specs.Session.{IsFinding, IsFirstBad, LintsRaw};

use crate::findings::sentence;
use histar_command::{Command, run_command};
use histar_io::{Sink, Source, write_bytes};
use histar_lint::texts::push_number;
use histar_raw_session::read_session::read_session;
use histar_script::{Fault, split_line};
use std::alloc::{AllocError, Global};

/// Reads a raw session, and returns whether it is right. For a bad one it writes a line: the name of the
/// file, the number of the first bad line, and the sentence of the first rule that this line breaks.
///
/// It doesn't flush the sink.
pub fn lint_raw<R: Source, W: Sink>(
    alloc: Global,
    file: &[u8],
    reader: &mut R,
    writer: &mut W,
) -> Result<bool, Fault>
    // After a session that is too long or a failed read the sink is as it was.
    ensures nothing { IfErr result (LeavesSink writer.old writer.new) }

    // A device has failed exactly where its fault is returned.
    ensures reads { CountsFailure (R.failures reader.old) (R.failures reader.new)
        (is_read_failed result) }
    ensures writes { CountsFailure (W.failures writer.old) (W.failures writer.new)
        (is_write_failed result) }

    // Whatever the source knows of its input, bytes of it were taken, to its end but never more than
    // 1,048,577, and linted.
    ensures runs { RunsInput (LintsRaw file.now) (R.left reader.old) (R.left reader.new)
        (W.written writer.old) (W.written writer.new) result }

    // So where the input is known, the whole input was linted.
    ensures known { IfSome (R.left reader.old) (λ input. LintsRaw file.now input
        (W.written writer.old) (W.written writer.new) result) }
{
    run_command(alloc, reader, writer, RawLinting { file })
}

/// The command of `lint_raw`.
#[derive(Drop)]
struct RawLinting<'a> {
    file: &'a [u8],
}

impl<'a> Command for RawLinting<'a> {
    ghost use Rattle.std.proofs.Common.{rules};

    type Answer = bool;

    type Memory = Global;

    ghost Runs = { λ command. LintsRaw command.file.now };

    fn on_text<W: Sink>(self, alloc: Global, text: Vec<u8>, writer: &mut W) -> Result<bool, Fault> {
        lint_text(alloc, self.file, text.as_slice(), writer)
    }

    ghost unread = { Prim.search rules };

    ghost long = { Prim.search rules };
}

/// Lints a text as a raw session.
fn lint_text<W: Sink>(
    alloc: Global,
    file: &[u8],
    text: &[u8],
    writer: &mut W,
) -> Result<bool, Fault>
    ensures nothing { IfErr result (LeavesSink writer.old writer.new) }
    ensures reads { is_read_failed result ≡ false }
    ensures writes { CountsFailure (W.failures writer.old) (W.failures writer.new)
        (is_write_failed result) }
    ensures runs { LintsRaw file.now text.now (W.written writer.old) (W.written writer.new) result }
{
    match read_session(alloc, text) {
        Ok(_calls) => Ok(true),
        Err(Fault::BadScript(line)) => {
            let said = said_at(alloc, text, line)?;
            let found = finding(alloc, file, line, said.as_slice())?;
            write_bytes(writer, found.as_slice())?;
            Ok(false)
        }
        Err(fault) => Err(fault),
    }
}

/// Returns the line that is written for a bad session.
fn finding(alloc: Global, file: &[u8], line: u32, said: &[u8]) -> Result<Vec<u8>, Fault>
    ensures ok { IfOk result (λ text. text.items ≡ finding_text file.now line said.now) }
    ensures err { IfErr result IsMemory }
{
    let mut text = Vec::from_slice(alloc, file)?;
    text.extend_from_slice(b":")?;
    push_number(&mut text, line.into())?;
    text.extend_from_slice(b": ")?;
    text.extend_from_slice(said)?;
    text.extend_from_slice(b"\n")?;
    Ok(text)
}

/// Returns the first bad line of a text, from its number.
fn bad_line(text: &[u8], bad: u32) -> &[u8]
    requires { IsFirstBadLine text.now bad }
    ensures { IsFirstBad text.now bad result.now }
{
    let mut rest = text;
    let mut left = bad;
    'ahead: while left > 1 {
        rest = split_line(rest).1;
        left -= 1;
    }
    split_line(rest).0
}

/// Returns the sentence about the first bad line of a text, from the line's number.
fn said_at(alloc: Global, text: &[u8], bad: u32) -> Result<Vec<u8>, AllocError>
    requires { IsFirstBadLine text.now bad }
    ensures { IfOk result (λ said. IsFinding text.now bad said.items) }
{
    match sentence(alloc, bad_line(text, bad))? {
        Some(said) => Ok(said),
        None => unreachable!(),
    }
}
