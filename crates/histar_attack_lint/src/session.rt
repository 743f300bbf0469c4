//! Linting a mixed session, from bytes to bytes.
ghost use Rattle.std.specs.Prelude.{◌≡◌, false, true, is_some, IfOk, IfErr, IfSome, OnOk};
ghost use Rattle.histar_io.specs.Device.{CountsFailure};
ghost use Rattle.histar_script.specs.Lines.{lines_of};
ghost use Rattle.histar_script.specs.Reading.{with_line};
ghost use Rattle.histar_script.specs.Runs.{LeavesSink, RunsInput, is_read_failed, is_write_failed};
ghost use Rattle.histar_lint.specs.Session.{IsMemory};
ghost use Rattle.histar_mixed.specs.Mixed.{IsFirstBad, unix_line};
ghost use Rattle.histar_attack_lint.specs.Session.{IsFinding, LintsMixed, said_of};

use crate::findings::mixed_sentence;
use histar_command::{Command, run_command};
use histar_io::{Sink, Source, write_bytes};
use histar_lint::{finding, take_line};
use histar_mixed::{raw_part, read_mixed};
use histar_script::{Fault, Script, split_line};
use std::alloc::{AllocError, Global};

/// Reads a mixed session, and returns whether it is right. For a bad one it writes a line: the name of
/// the file, the number of the first bad line, and the sentence of the first rule that it breaks.
///
/// It doesn't flush the sink.
pub fn lint_attack<R: Source, W: Sink>(
    alloc: Global,
    file: &[u8],
    reader: &mut R,
    writer: &mut W,
) -> Result<bool, Fault>
    // After a session that is too long or a failed read the sink is as it was.
    ensures nothing { IfErr result (LeavesSink writer.old writer.new) }

    // A device has failed exactly where its fault is returned.
    ensures reads { CountsFailure (R.failures reader.old) (R.failures reader.new)
        (is_read_failed result) }
    ensures writes { CountsFailure (W.failures writer.old) (W.failures writer.new)
        (is_write_failed result) }

    // Whatever the source knows of its input, bytes of it were taken, to its end but never more
    // than 1,048,577, and linted.
    ensures runs { RunsInput (LintsMixed file.now) (R.left reader.old) (R.left reader.new)
        (W.written writer.old) (W.written writer.new) result }

    // So where the input is known, the whole input was linted.
    ensures known { IfSome (R.left reader.old) (λ input. LintsMixed file.now input
        (W.written writer.old) (W.written writer.new) result) }
{
    run_command(alloc, reader, writer, MixedLinting { file })
}

/// The command of `lint_attack`.
#[derive(Drop)]
struct MixedLinting<'a> {
    file: &'a [u8],
}

impl<'a> Command for MixedLinting<'a> {
    ghost use Rattle.std.proofs.Common.{rules};

    type Answer = bool;

    type Memory = Global;

    ghost Runs = { λ command. LintsMixed command.file.now };

    fn on_text<W: Sink>(self, alloc: Global, text: Vec<u8>, writer: &mut W) -> Result<bool, Fault> {
        lint_text(alloc, self.file, text.as_slice(), writer)
    }

    ghost unread = { Prim.search rules };

    ghost long = { Prim.search rules };
}

/// Lints a text as a mixed session.
fn lint_text<W: Sink>(
    alloc: Global,
    file: &[u8],
    text: &[u8],
    writer: &mut W,
) -> Result<bool, Fault>
    ensures nothing { IfErr result (LeavesSink writer.old writer.new) }
    ensures reads { is_read_failed result ≡ false }
    ensures writes { CountsFailure (W.failures writer.old) (W.failures writer.new)
        (is_write_failed result) }
    ensures runs { LintsMixed file.now text.now (W.written writer.old) (W.written writer.new)
        result }
{
    match read_mixed(alloc, text) {
        Ok(_mixed) => Ok(true),
        Err(Fault::BadScript(line)) => {
            let said = sentence_on(alloc, text, line)?;
            let found = finding(alloc, file, line, said.as_slice())?;
            write_bytes(writer, found.as_slice())?;
            Ok(false)
        }
        Err(fault) => Err(fault),
    }
}

/// Adds a line that is right to the script. A line with a raw call adds nothing.
fn pass_line(alloc: Global, script: &mut Script, number: u32, line: &[u8]) -> Result<(), Fault>
    requires { is_some (with_line script.old number (unix_line line.now)) ≡ true }
    ensures ok { OnOk result (with_line script.old number (unix_line line.now) ≡ Some script.new) }
    ensures err { IfErr result IsMemory }
{
    match raw_part(line) {
        Some(_call) => Ok(()),
        None => take_line(alloc, script, number, line),
    }
}

/// Returns the sentence for the first bad line of the rest of a text, given the script of the lines
/// above.
fn said_of(alloc: Global, text: &[u8], script: Script, rest: &[u8]) -> Result<Vec<u8>, AllocError>
    requires { is_some (said_of (lines_of text.now) script (lines_of rest.now)) ≡ true }
    ensures { IfOk result (λ said.
        said_of (lines_of text.now) script (lines_of rest.now) ≡ Some said.items) }
{
    if rest.is_empty() {
        return Vec::from_slice(alloc, b"there is no user line".as_slice());
    }
    let (line, _after) = split_line(rest);
    let (accounts, calls) = script.into_parts();
    match mixed_sentence(alloc, text, &accounts, calls.as_slice(), line)? {
        Some(said) => Ok(said),
        None => unreachable!(),
    }
}

/// Returns the sentence for the bad line of this number of a text. The lines before it are read once
/// more.
fn sentence_on(alloc: Global, text: &[u8], bad: u32) -> Result<Vec<u8>, Fault>
    requires { IsFirstBad text.now bad }
    ensures ok { IfOk result (λ said. IsFinding text.now bad said.items) }
    ensures err { IfErr result IsMemory }
{
    let mut script = Script::new(alloc);
    let mut rest = text;
    let mut count = 0u32;
    'right: while count + 1 < bad {
        let (line, after) = split_line(rest);
        count += 1;
        pass_line(alloc, &mut script, count, line)?;
        rest = after;
    }
    let said = said_of(alloc, text, script, rest)?;
    Ok(said)
}
