//! How what is at a path is leaked and changed after the calls of a script, from bytes to bytes.
ghost use Rattle.std.specs.Prelude.{◌≡◌, false, IfErr, IfSome, None};
ghost use Rattle.histar_io.specs.Device.{CountsFailure};
ghost use Rattle.histar_script.specs.Runs.{LeavesSink, is_read_failed, is_write_failed, RunsInput};
ghost use Rattle.histar_prefix.specs.Prefix.{IsMachineOf};
ghost use Rattle.histar_leak.specs.Session.{LeakOf, MakesText, leak_before};
ghost use Rattle.histar_leak.specs.Titles.{TitlesText, titles_after};

use crate::output::leak_lines;
use crate::titles::all_titles;
use histar_command::{Command, run_command};
use histar_flat::Path;
use histar_io::{Sink, Source, write_bytes};
use histar_label::LabelStore;
use histar_prefix::{discard, machine_before};
use histar_script::{Fault, read_script};
use histar_shell::Machine;
use std::alloc::Global;

/// Reads a script, runs it on a machine of its own, and writes how each process that is trusted
/// with the file at a path reveals what is in it, how each login reads it, and how each changer
/// changes what is at the path: lines of a script, each with the reply that is expected of it. With
/// a line number it runs the calls on the lines before that one, and else all.
///
/// The whole script is read and checked before the first call. It doesn't flush the sink.
pub fn leak<R: Source, W: Sink>(
    alloc: Global,
    path: &Path,
    reader: &mut R,
    writer: &mut W,
    at: Option<u32>,
) -> Result<(), Fault>
    // After a bad script, one that is too long or a failed read, the sink is as it was.
    ensures nothing { IfErr result (LeavesSink writer.old writer.new) }

    // A device has failed exactly if its fault is returned.
    ensures reads { CountsFailure (R.failures reader.old) (R.failures reader.new)
        (is_read_failed result) }
    ensures writes { CountsFailure (W.failures writer.old) (W.failures writer.new)
        (is_write_failed result) }

    // Some bytes of the source were read, to its end but never more than 1,048,577: the fault of
    // their script is returned, or exactly the text of the flat state after its calls is written.
    ensures runs { RunsInput (LeakOf at path.now) (R.left reader.old) (R.left reader.new)
        (W.written writer.old) (W.written writer.new) result }

    // If the input is known, this is the text of the script of the whole input.
    ensures known { IfSome (R.left reader.old) (λ input.
        LeakOf at path.now input (W.written writer.old) (W.written writer.new) result) }
{
    run_command(alloc, reader, writer, Leaking { path, at })
}

/// The command that writes the text on what is at a path after the calls of the script in a text.
#[derive(Drop)]
struct Leaking<'a> {
    path: &'a Path,
    at: Option<u32>,
}

impl<'a> Command for Leaking<'a> {
    ghost use Rattle.std.proofs.Common.{rules};

    type Answer = ();

    type Memory = Global;

    ghost Runs = { λ command. LeakOf command.at command.path.now };

    fn on_text<W: Sink>(self, alloc: Global, text: Vec<u8>, writer: &mut W) -> Result<(), Fault> {
        leak_text(alloc, text.as_slice(), self.path, writer, self.at)
    }

    ghost unread = { Prim.search rules };

    ghost long = { Prim.search rules };
}

/// Writes the text on what is at a path after the calls of the script in a text.
fn leak_text<W: Sink>(
    alloc: Global,
    text: &[u8],
    path: &Path,
    writer: &mut W,
    at: Option<u32>,
) -> Result<(), Fault>
    ensures nothing { IfErr result (LeavesSink writer.old writer.new) }
    ensures reads { is_read_failed result ≡ false }
    ensures writes { CountsFailure (W.failures writer.old) (W.failures writer.new)
        (is_write_failed result) }
    ensures runs { LeakOf at path.now text.now (W.written writer.old) (W.written writer.new)
        result }
{
    let machine = machine_before(alloc, text, at)?;
    let shown = script_lines(alloc, &machine, text, path, at);
    discard(machine);
    let lines = shown?;
    write_bytes(writer, lines.as_slice())?;
    Ok(())
}

/// Returns the text on what is at a path of the machine of a script, which is read once more for
/// the passwords of its users.
fn script_lines<S: LabelStore + Drop>(
    alloc: Global,
    machine: &Machine<S>,
    text: &[u8],
    path: &Path,
    at: Option<u32>,
) -> Result<Vec<u8>, Fault>
    requires { IsMachineOf at text.now machine.now }
    ensures { MakesText (leak_before at path.now) text.now result }
{
    let script = read_script(alloc, text)?;
    Ok(leak_lines(alloc, machine, script.accounts(), path)?)
}

/// Reads a script, runs it on a machine of its own, and writes for each file that not everyone may
/// read a line with its path, and then the titles of what `leak` writes of it: who reveals it to
/// whom, who reads it by a login, and who changes it. It writes nothing where there are too many
/// such files, entries and processes.
///
/// The whole script is read and checked before the first call. It doesn't flush the sink.
pub fn secret_titles<R: Source, W: Sink>(
    alloc: Global,
    reader: &mut R,
    writer: &mut W,
) -> Result<(), Fault>
    // After a bad script, one that is too long or a failed read, the sink is as it was.
    ensures nothing { IfErr result (LeavesSink writer.old writer.new) }

    // A device has failed exactly if its fault is returned.
    ensures reads { CountsFailure (R.failures reader.old) (R.failures reader.new)
        (is_read_failed result) }
    ensures writes { CountsFailure (W.failures writer.old) (W.failures writer.new)
        (is_write_failed result) }

    // Some bytes of the source were read, to its end but never more than 1,048,577: the fault of
    // their script is returned, or exactly the titles of the flat state after its calls are written.
    ensures runs { RunsInput TitlesText (R.left reader.old) (R.left reader.new)
        (W.written writer.old) (W.written writer.new) result }

    // If the input is known, these are the titles of the script of the whole input.
    ensures known { IfSome (R.left reader.old) (λ input.
        TitlesText input (W.written writer.old) (W.written writer.new) result) }
{
    run_command(alloc, reader, writer, Titling)
}

/// The command that writes the titles of the secret files after the calls of the script in a text.
#[derive(Drop)]
struct Titling;

impl Command for Titling {
    ghost use Rattle.std.proofs.Common.{rules};

    type Answer = ();

    type Memory = Global;

    ghost Runs = { λ _. TitlesText };

    fn on_text<W: Sink>(self, alloc: Global, text: Vec<u8>, writer: &mut W) -> Result<(), Fault> {
        titles_text(alloc, text.as_slice(), writer)
    }

    ghost unread = { Prim.search rules };

    ghost long = { Prim.search rules };
}

/// Writes the titles of the secret files after the calls of the script in a text.
fn titles_text<W: Sink>(alloc: Global, text: &[u8], writer: &mut W) -> Result<(), Fault>
    ensures nothing { IfErr result (LeavesSink writer.old writer.new) }
    ensures reads { is_read_failed result ≡ false }
    ensures writes { CountsFailure (W.failures writer.old) (W.failures writer.new)
        (is_write_failed result) }
    ensures runs { TitlesText text.now (W.written writer.old) (W.written writer.new) result }
{
    let machine = machine_before(alloc, text, None)?;
    let shown = script_titles(alloc, &machine, text);
    discard(machine);
    let lines = shown?;
    write_bytes(writer, lines.as_slice())?;
    Ok(())
}

/// Returns the titles of the secret files of the machine of a script, which is read once more for
/// its users.
fn script_titles<S: LabelStore + Drop>(
    alloc: Global,
    machine: &Machine<S>,
    text: &[u8],
) -> Result<Vec<u8>, Fault>
    requires { IsMachineOf None text.now machine.now }
    ensures { MakesText titles_after text.now result }
{
    let script = read_script(alloc, text)?;
    Ok(all_titles(alloc, machine, script.accounts())?)
}
