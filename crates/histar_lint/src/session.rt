//! Linting a script, from bytes to bytes.
ghost use Rattle.std.specs.Prelude.{◌≡◌, ◌≤◌, false, true, length, is_some, IfOk, IfErr, IfSome, OnOk};
ghost use Rattle.histar_io.specs.Device.{CountsFailure};
ghost use Rattle.histar_script.specs.Lines.{lines_of, most_script_bytes};
ghost use Rattle.histar_script.specs.Reading.{reading, script_of, with_line};
ghost use Rattle.histar_script.specs.Runs.{LeavesSink, RunsInput, is_read_failed, is_write_failed};
ghost use Rattle.histar_lint.specs.Session.{IsFinding, IsMemory, Lints, finding_text, said_of};

use crate::findings::sentence;
use crate::texts::push_number;
use histar_command::{Command, run_command};
use histar_io::{Sink, Source, write_bytes};
use histar_script::{Fault, Script, read_item, read_script, split_line};
use std::alloc::{AllocError, Global};

/// Reads a script, and returns whether it is right. For a bad one it writes a line: the name of the file, the
/// number of the first bad line, and the sentence of the first rule that this line breaks.
///
/// It doesn't flush the sink.
pub fn lint<R: Source, W: Sink>(
    alloc: Global,
    file: &[u8],
    reader: &mut R,
    writer: &mut W,
) -> Result<bool, Fault>
    // After a failed read or a script that is too long, the sink is as it was.
    ensures nothing { IfErr result (LeavesSink writer.old writer.new) }

    // A device has failed exactly if its fault is returned.
    ensures reads { CountsFailure (R.failures reader.old) (R.failures reader.new) (is_read_failed result) }
    ensures writes { CountsFailure (W.failures writer.old) (W.failures writer.new) (is_write_failed result) }

    // Some bytes of the source were read, to its end but never more than 1,048,577, and these were linted.
    ensures runs { RunsInput (Lints file.now) (R.left reader.old) (R.left reader.new)
        (W.written writer.old) (W.written writer.new) result }

    // If the input is known, it was linted as a whole.
    ensures known { IfSome (R.left reader.old) (λ input. Lints file.now input
        (W.written writer.old) (W.written writer.new) result) }
{
    run_command(alloc, reader, writer, Linting { file })
}

/// The command that lints a text, which it says is the file of this name.
#[derive(Drop)]
struct Linting<'a> {
    file: &'a [u8],
}

impl<'a> Command for Linting<'a> {
    ghost use Rattle.std.proofs.Common.{rules};

    type Answer = bool;

    type Memory = Global;

    ghost Runs = { λ command. Lints command.file.now };

    fn on_text<W: Sink>(self, alloc: Global, text: Vec<u8>, writer: &mut W) -> Result<bool, Fault> {
        match read_script(alloc, text.as_slice()) {
            Ok(_script) => Ok(true),
            Err(Fault::BadScript(line)) => write_finding(
                alloc,
                self.file,
                text.as_slice(),
                line,
                writer,
            ),
            Err(fault) => Err(fault),
        }
    }

    ghost unread = { Prim.search rules };

    ghost long = { Prim.search rules };
}

/// Writes the line for a bad script, and returns false.
fn write_finding<W: Sink>(
    alloc: Global,
    file: &[u8],
    text: &[u8],
    line: u32,
    writer: &mut W,
) -> Result<bool, Fault>
    requires short { length text.now ≤ most_script_bytes }
    requires bad { reading text.now ≡ Err (Fault.BadScript line) }
    requires script { script_of text.now ≡ Err (Fault.BadScript line) }
    ensures nothing { IfErr result (LeavesSink writer.old writer.new) }
    ensures reads { is_read_failed result ≡ false }
    ensures writes { CountsFailure (W.failures writer.old) (W.failures writer.new)
        (is_write_failed result) }
    ensures runs { Lints file.now text.now (W.written writer.old) (W.written writer.new) result }
{
    let said = sentence_on(alloc, text, line)?;
    let found = finding(alloc, file, line, said.as_slice())?;
    write_bytes(writer, found.as_slice())?;
    Ok(false)
}

/// Returns the line that is written for a bad script.
pub fn finding(alloc: Global, file: &[u8], line: u32, said: &[u8]) -> Result<Vec<u8>, AllocError>
    ensures { IfOk result (λ text. text.items ≡ finding_text file.now line said.now) }
{
    let mut text = Vec::from_slice(alloc, file)?;
    text.extend_from_slice(b":")?;
    push_number(&mut text, line.into())?;
    text.extend_from_slice(b": ")?;
    text.extend_from_slice(said)?;
    text.extend_from_slice(b"\n")?;
    Ok(text)
}

/// Adds a line that is right to the script.
pub fn take_line(alloc: Global, script: &mut Script, number: u32, line: &[u8]) -> Result<(), Fault>
    requires { is_some (with_line script.old number line.now) ≡ true }
    ensures ok { OnOk result (with_line script.old number line.now ≡ Some script.new) }
    ensures err { IfErr result IsMemory }
{
    match read_item(alloc, line)? {
        Some(item) => script.add(alloc, number, item),
        None => unreachable!(),
    }
}

/// Returns the sentence for the first bad line of the rest of a text, given the script of the lines above.
fn said_of(alloc: Global, text: &[u8], script: Script, rest: &[u8]) -> Result<Vec<u8>, AllocError>
    requires { is_some (said_of (lines_of text.now) script (lines_of rest.now)) ≡ true }
    ensures { IfOk result (λ said. said_of (lines_of text.now) script (lines_of rest.now) ≡ Some said.items) }
{
    if rest.is_empty() {
        return Vec::from_slice(alloc, b"there is no user line".as_slice());
    }
    let (line, _after) = split_line(rest);
    let (accounts, calls) = script.into_parts();
    match sentence(alloc, text, &accounts, calls.as_slice(), line)? {
        Some(said) => Ok(said),
        None => unreachable!(),
    }
}

/// Returns the sentence for the bad line of this number of a text. The lines before it are read once more.
pub fn sentence_on(alloc: Global, text: &[u8], bad: u32) -> Result<Vec<u8>, Fault>
    requires short { length text.now ≤ most_script_bytes }
    requires bad { reading text.now ≡ Err (Fault.BadScript bad) }
    ensures ok { IfOk result (λ said. IsFinding text.now bad said.items) }
    ensures err { IfErr result IsMemory }
{
    let mut script = Script::new(alloc);
    let mut rest = text;
    let mut count = 0u32;
    'right: while count + 1 < bad {
        let (line, after) = split_line(rest);
        count += 1;
        take_line(alloc, &mut script, count, line)?;
        rest = after;
    }
    let said = said_of(alloc, text, script, rest)?;
    Ok(said)
}
