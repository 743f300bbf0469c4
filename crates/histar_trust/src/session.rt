//! Which processes have to be trusted after the calls of a script, and to whom each can pass on what it
//! learns, from bytes to bytes.
ghost use Rattle.std.specs.Prelude.{◌≡◌, false, IfErr, IfSome};
ghost use Rattle.histar_io.specs.Device.{CountsFailure};
ghost use Rattle.histar_script.specs.Runs.{LeavesSink, is_read_failed, is_write_failed, RunsInput};
ghost use Rattle.histar_trust.specs.Session.{FlowsText, SecretsText, TrustText};

use crate::files::secret_lines;
use crate::flow_lines::flow_lines;
use crate::output::trust_lines;
use histar_command::{Command, run_command};
use histar_flat::Path;
use histar_io::{Sink, Source, write_bytes};
use histar_prefix::{discard, machine_before};
use histar_script::Fault;
use std::alloc::Global;

/// Before which line `trust` stops, and what it writes.
#[derive(Clone, Copy)]
pub struct TrustOptions {
    /// The line before which the calls are run, or `None` for all.
    pub at: Option<u32>,
    /// Whether each changer and each confined process has the reason why it is one.
    pub why: bool,
}

/// Reads a script, runs it on a machine of its own, and writes which processes have to be trusted to keep
/// what is at a path secret, and unchanged. It runs the calls that the options say, and writes the reasons that
/// they ask for.
///
/// The whole script is read and checked before the first call. It doesn't flush the sink.
pub fn trust<R: Source, W: Sink>(
    alloc: Global,
    path: &Path,
    reader: &mut R,
    writer: &mut W,
    options: TrustOptions,
) -> Result<(), Fault>
    // After a bad script, one that is too long or a failed read, the sink is as it was.
    ensures nothing { IfErr result (LeavesSink writer.old writer.new) }

    // A device has failed exactly if its fault is returned.
    ensures reads { CountsFailure (R.failures reader.old) (R.failures reader.new)
        (is_read_failed result) }
    ensures writes { CountsFailure (W.failures writer.old) (W.failures writer.new)
        (is_write_failed result) }

    // Some bytes of the source were read, to its end but never more than 1,048,577: the fault of their script
    // is returned, or exactly the text of the flat state after its calls is written.
    ensures runs { RunsInput (TrustText options path.now) (R.left reader.old) (R.left reader.new)
        (W.written writer.old) (W.written writer.new) result }

    // If the input is known, this is the text of the script of the whole input.
    ensures known { IfSome (R.left reader.old) (λ input.
        TrustText options path.now input (W.written writer.old) (W.written writer.new) result) }
{
    run_command(alloc, reader, writer, Trusted { path, options })
}

/// The command that writes the lines on what is at a path after the calls of the script in a text.
#[derive(Drop)]
struct Trusted<'a> {
    path: &'a Path,
    options: TrustOptions,
}

impl<'a> Command for Trusted<'a> {
    ghost use Rattle.std.proofs.Common.{rules};

    type Answer = ();

    type Memory = Global;

    ghost Runs = { λ command. TrustText command.options command.path.now };

    fn on_text<W: Sink>(self, alloc: Global, text: Vec<u8>, writer: &mut W) -> Result<(), Fault> {
        trust_text(alloc, text.as_slice(), self.path, writer, self.options)
    }

    ghost unread = { Prim.search rules };

    ghost long = { Prim.search rules };
}

/// Writes the lines on what is at a path after the calls of the script in a text.
fn trust_text<W: Sink>(
    alloc: Global,
    text: &[u8],
    path: &Path,
    writer: &mut W,
    options: TrustOptions,
) -> Result<(), Fault>
    ensures nothing { IfErr result (LeavesSink writer.old writer.new) }
    ensures reads { is_read_failed result ≡ false }
    ensures writes { CountsFailure (W.failures writer.old) (W.failures writer.new)
        (is_write_failed result) }
    ensures runs { TrustText options path.now text.now (W.written writer.old) (W.written writer.new)
        result }
{
    let machine = machine_before(alloc, text, options.at)?;
    let shown = trust_lines(alloc, &machine, path, options.why);
    discard(machine);
    let lines = shown?;
    write_bytes(writer, lines.as_slice())?;
    Ok(())
}

/// Reads a script, runs it on a machine of its own, and writes a line with each process that runs then and
/// its user, and then a line for each file that not everyone may read: its path, each process that is trusted
/// with it, each that is confined, and each user as whom a process could log in to read it.
///
/// The whole script is read and checked before the first call. It doesn't flush the sink.
pub fn secrets<R: Source, W: Sink>(
    alloc: Global,
    reader: &mut R,
    writer: &mut W,
) -> Result<(), Fault>
    // After a bad script, one that is too long or a failed read, the sink is as it was.
    ensures nothing { IfErr result (LeavesSink writer.old writer.new) }

    // A device has failed exactly if its fault is returned.
    ensures reads { CountsFailure (R.failures reader.old) (R.failures reader.new)
        (is_read_failed result) }
    ensures writes { CountsFailure (W.failures writer.old) (W.failures writer.new)
        (is_write_failed result) }

    // Some bytes of the source were read, to its end but never more than 1,048,577: the fault of their script
    // is returned, or exactly the lines of the flat state after its calls are written.
    ensures runs { RunsInput SecretsText (R.left reader.old) (R.left reader.new)
        (W.written writer.old) (W.written writer.new) result }

    // If the input is known, these are the lines of the script of the whole input.
    ensures known { IfSome (R.left reader.old) (λ input.
        SecretsText input (W.written writer.old) (W.written writer.new) result) }
{
    run_command(alloc, reader, writer, SecretFiles)
}

/// The command that writes the lines of the files after the calls of the script in a text.
#[derive(Drop)]
struct SecretFiles;

impl Command for SecretFiles {
    ghost use Rattle.std.proofs.Common.{rules};

    type Answer = ();

    type Memory = Global;

    ghost Runs = { λ _. SecretsText };

    fn on_text<W: Sink>(self, alloc: Global, text: Vec<u8>, writer: &mut W) -> Result<(), Fault> {
        secrets_text(alloc, text.as_slice(), writer)
    }

    ghost unread = { Prim.search rules };

    ghost long = { Prim.search rules };
}

/// Writes the lines of the files after the calls of the script in a text.
fn secrets_text<W: Sink>(alloc: Global, text: &[u8], writer: &mut W) -> Result<(), Fault>
    ensures nothing { IfErr result (LeavesSink writer.old writer.new) }
    ensures reads { is_read_failed result ≡ false }
    ensures writes { CountsFailure (W.failures writer.old) (W.failures writer.new)
        (is_write_failed result) }
    ensures runs { SecretsText text.now (W.written writer.old) (W.written writer.new) result }
{
    let machine = machine_before(alloc, text, None)?;
    let shown = secret_lines(alloc, &machine);
    discard(machine);
    let lines = shown?;
    write_bytes(writer, lines.as_slice())?;
    Ok(())
}

/// Reads a script, runs it on a machine of its own, and writes to whom each running process can pass on what
/// it learns: a line of those in no job, and a line for each in a job, with all other processes that know each
/// job that it is in. With a line number it runs the calls on the lines before that one, and else all.
///
/// The whole script is read and checked before the first call. It doesn't flush the sink.
pub fn flows<R: Source, W: Sink>(
    alloc: Global,
    reader: &mut R,
    writer: &mut W,
    at: Option<u32>,
) -> Result<(), Fault>
    // After a bad script, one that is too long or a failed read, the sink is as it was.
    ensures nothing { IfErr result (LeavesSink writer.old writer.new) }

    // A device has failed exactly if its fault is returned.
    ensures reads { CountsFailure (R.failures reader.old) (R.failures reader.new)
        (is_read_failed result) }
    ensures writes { CountsFailure (W.failures writer.old) (W.failures writer.new)
        (is_write_failed result) }

    // Some bytes of the source were read, to its end but never more than 1,048,577: the fault of their script
    // is returned, or exactly the text of the flat state after its calls is written.
    ensures runs { RunsInput (FlowsText at) (R.left reader.old) (R.left reader.new)
        (W.written writer.old) (W.written writer.new) result }

    // If the input is known, this is the text of the script of the whole input.
    ensures known { IfSome (R.left reader.old) (λ input.
        FlowsText at input (W.written writer.old) (W.written writer.new) result) }
{
    run_command(alloc, reader, writer, FlowsBefore { at })
}

/// The command that writes to whom each process can pass on what it learns after the calls of the script in
/// a text.
#[derive(Drop)]
struct FlowsBefore {
    at: Option<u32>,
}

impl Command for FlowsBefore {
    ghost use Rattle.std.proofs.Common.{rules};

    type Answer = ();

    type Memory = Global;

    ghost Runs = { λ command. FlowsText command.at };

    fn on_text<W: Sink>(self, alloc: Global, text: Vec<u8>, writer: &mut W) -> Result<(), Fault> {
        flows_text(alloc, text.as_slice(), writer, self.at)
    }

    ghost unread = { Prim.search rules };

    ghost long = { Prim.search rules };
}

/// Writes to whom each process can pass on what it learns, after the calls of the script in a text.
fn flows_text<W: Sink>(
    alloc: Global,
    text: &[u8],
    writer: &mut W,
    at: Option<u32>,
) -> Result<(), Fault>
    ensures nothing { IfErr result (LeavesSink writer.old writer.new) }
    ensures reads { is_read_failed result ≡ false }
    ensures writes { CountsFailure (W.failures writer.old) (W.failures writer.new)
        (is_write_failed result) }
    ensures runs { FlowsText at text.now (W.written writer.old) (W.written writer.new) result }
{
    let machine = machine_before(alloc, text, at)?;
    let shown = flow_lines(alloc, &machine);
    discard(machine);
    let lines = shown?;
    write_bytes(writer, lines.as_slice())?;
    Ok(())
}
