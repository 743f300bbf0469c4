//! The warnings on a script, from bytes to bytes.
ghost use Rattle.std.specs.Prelude.{◌≡◌, ◌≤◌, false, length, IfErr, IfSome};
ghost use Rattle.histar_io.specs.Device.{CountsFailure};
ghost use Rattle.histar_script.specs.Lines.{most_script_bytes};
ghost use Rattle.histar_script.specs.Reading.{reading, script_of};
ghost use Rattle.histar_script.specs.Runs.{LeavesSink, RunsInput, is_read_failed, is_write_failed};
ghost use Rattle.histar_script.specs.Script.{IsDeclared};
ghost use Rattle.histar_policy.specs.Session.{LintsPolicy};

use crate::answers::notes_on;
use crate::warnings::warnings_on;
use histar_command::{Command, run_command};
use histar_io::{Sink, Source, write_bytes};
use histar_lint::{finding, sentence_on};
use histar_script::{Fault, Script, read_script};
use std::alloc::Global;

/// What was found in a script.
#[derive(Clone, Copy, Drop)]
pub enum Found {
    /// It is right, and there is no warning.
    Nothing,
    /// It is right, and its warnings were written.
    Warnings,
    /// It is bad, and its first bad line was written with a sentence.
    BadLine,
}

/// Reads a script, runs it, and writes what a reader would want to know of it, a line each: the name of
/// the file, the number of the line, and a sentence. Of a bad script it writes what `lint` writes.
///
/// It writes once the script has run. It doesn't flush the sink.
pub fn lint_policy<R: Source, W: Sink>(
    alloc: Global,
    file: &[u8],
    reader: &mut R,
    writer: &mut W,
) -> Result<Found, Fault>
    // After a failed read or a script that is too long, the sink is as it was.
    ensures nothing { IfErr result (LeavesSink writer.old writer.new) }

    // A device has failed exactly if its fault is returned.
    ensures reads { CountsFailure (R.failures reader.old) (R.failures reader.new)
        (is_read_failed result) }
    ensures writes { CountsFailure (W.failures writer.old) (W.failures writer.new)
        (is_write_failed result) }

    // Some bytes of the source were read, to its end but never more than 1,048,577, and these were
    // linted.
    ensures runs { RunsInput (LintsPolicy file.now) (R.left reader.old) (R.left reader.new)
        (W.written writer.old) (W.written writer.new) result }

    // If the input is known, it was linted as a whole.
    ensures known { IfSome (R.left reader.old) (λ input. LintsPolicy file.now input
        (W.written writer.old) (W.written writer.new) result) }
{
    run_command(alloc, reader, writer, PolicyLinting { file })
}

/// The command of `lint_policy`.
#[derive(Drop)]
struct PolicyLinting<'a> {
    file: &'a [u8],
}

impl<'a> Command for PolicyLinting<'a> {
    ghost use Rattle.std.proofs.Common.{rules};

    type Answer = Found;

    type Memory = Global;

    ghost Runs = { λ command. LintsPolicy command.file.now };

    fn on_text<W: Sink>(
        self,
        alloc: Global,
        text: Vec<u8>,
        writer: &mut W,
    ) -> Result<Found, Fault> {
        lint_text(alloc, self.file, text.as_slice(), writer)
    }

    ghost unread = { Prim.search rules };

    ghost long = { Prim.search rules };
}

/// Lints a text as a script, and writes its warnings.
fn lint_text<W: Sink>(
    alloc: Global,
    file: &[u8],
    text: &[u8],
    writer: &mut W,
) -> Result<Found, Fault>
    ensures nothing { IfErr result (LeavesSink writer.old writer.new) }
    ensures reads { is_read_failed result ≡ false }
    ensures writes { CountsFailure (W.failures writer.old) (W.failures writer.new)
        (is_write_failed result) }
    ensures runs { LintsPolicy file.now text.now (W.written writer.old) (W.written writer.new)
        result }
{
    match read_script(alloc, text) {
        Ok(script) => write_warnings(alloc, file, text, script, writer),
        Err(Fault::BadScript(line)) => write_sentence(alloc, file, text, line, writer),
        Err(fault) => Err(fault),
    }
}

/// Writes the warnings on a right script, and returns whether there are any.
fn write_warnings<W: Sink>(
    alloc: Global,
    file: &[u8],
    text: &[u8],
    script: Script,
    writer: &mut W,
) -> Result<Found, Fault>
    requires declared { IsDeclared script.accounts }
    requires read { script_of text.now ≡ Ok script }
    ensures nothing { IfErr result (LeavesSink writer.old writer.new) }
    ensures reads { is_read_failed result ≡ false }
    ensures writes { CountsFailure (W.failures writer.old) (W.failures writer.new)
        (is_write_failed result) }
    ensures runs { LintsPolicy file.now text.now (W.written writer.old) (W.written writer.new)
        result }
{
    let notes = notes_on(alloc, script)?;
    let warnings = warnings_on(alloc, file, notes.as_slice())?;
    if warnings.is_empty() {
        return Ok(Found::Nothing);
    }
    write_bytes(writer, warnings.as_slice())?;
    Ok(Found::Warnings)
}

/// Writes the line for a bad script.
fn write_sentence<W: Sink>(
    alloc: Global,
    file: &[u8],
    text: &[u8],
    line: u32,
    writer: &mut W,
) -> Result<Found, Fault>
    requires short { length text.now ≤ most_script_bytes }
    requires bad { reading text.now ≡ Err (Fault.BadScript line) }
    requires script { script_of text.now ≡ Err (Fault.BadScript line) }
    ensures nothing { IfErr result (LeavesSink writer.old writer.new) }
    ensures reads { is_read_failed result ≡ false }
    ensures writes { CountsFailure (W.failures writer.old) (W.failures writer.new)
        (is_write_failed result) }
    ensures runs { LintsPolicy file.now text.now (W.written writer.old) (W.written writer.new)
        result }
{
    let said = sentence_on(alloc, text, line)?;
    let found = finding(alloc, file, line, said.as_slice())?;
    write_bytes(writer, found.as_slice())?;
    Ok(Found::BadLine)
}
