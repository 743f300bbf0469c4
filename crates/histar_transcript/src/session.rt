//! A run that is printed with its calls or with notes, from bytes to bytes.
ghost use Rattle.std.specs.Prelude.{◌≡◌, false, IfErr, IfOk, IfSome};
ghost use Rattle.histar_io.specs.Device.{CountsFailure};
ghost use Rattle.histar_script.specs.Runs.{LeavesSink, RunsInput, is_read_failed, is_write_failed};
ghost use Rattle.histar_run_explain.specs.Output.{GivesText};
ghost use Rattle.histar_transcript.specs.Session.{IsFullOutput, IsNotedOutput, IsPlainOutput};
ghost use Rattle.histar_transcript.specs.Session.{IsReasonedOutput, WritesNoted, printed_text};

use crate::extended::push_lines;
use crate::noted::{marked_lines, noted_transcript};
use crate::transcript::transcript_of;
use histar_command::{Command, run_command};
use histar_io::{Sink, Source, write_bytes};
use histar_run_explain::{explained_output, in_memory};
use histar_script::Fault;
use histar_shell::{Counted, Options, run};
use histar_why::run_with_reasons;
use std::alloc::{AllocError, Global};

/// What is printed with the replies of a run.
#[derive(Clone, Copy)]
pub struct Notes {
    /// The text of its call before each reply, and the notes behind it.
    pub calls: bool,
    /// Why calls were refused, by the rules.
    pub why: bool,
    /// Why raw calls were denied.
    pub explain: bool,
}

/// Reads a script, runs it as `run` does, and writes the output with these notes.
///
/// With `calls` the text of its call is before each reply, and the notes of a call are behind its reply; else they are
/// behind all else, first those of refused calls, and then those of denied raw calls. It writes once the script has
/// run. It doesn't flush the sink.
pub fn run_with_notes<R: Source, W: Sink>(
    alloc: Global,
    reader: &mut R,
    writer: &mut W,
    options: Options,
    notes: Notes,
) -> Result<(), Fault>
    // After a bad script, one that is too long or a failed read, the sink is as it was.
    ensures nothing { IfErr result (LeavesSink writer.old writer.new) }

    // A device has failed exactly if its fault is returned.
    ensures reads { CountsFailure (R.failures reader.old) (R.failures reader.new) (is_read_failed result) }
    ensures writes { CountsFailure (W.failures writer.old) (W.failures writer.new) (is_write_failed result) }

    // Some bytes of the source were read, to its end but never more than 1,048,577, and run: the fault of
    // their script is returned, or the output of its run is written with these notes.
    ensures runs { RunsInput (WritesNoted options notes) (R.left reader.old) (R.left reader.new)
        (W.written writer.old) (W.written writer.new) result }

    // If the input is known, the script of the whole input was run.
    ensures known { IfSome (R.left reader.old) (λ input. WritesNoted options notes input
        (W.written writer.old) (W.written writer.new) result) }
{
    run_command(alloc, reader, writer, Noting { options, notes })
}

/// The command of `run_with_notes`.
#[derive(Drop)]
struct Noting {
    options: Options,
    notes: Notes,
}

impl Command for Noting {
    ghost use Rattle.std.proofs.Common.{rules};

    type Answer = ();

    type Memory = Global;

    ghost Runs = { λ command. WritesNoted command.options command.notes };

    fn on_text<W: Sink>(self, alloc: Global, text: Vec<u8>, writer: &mut W) -> Result<(), Fault> {
        run_text(alloc, text.as_slice(), writer, self.options, self.notes)
    }

    ghost unread = { Prim.search rules };

    ghost long = { Prim.search rules };
}

/// Runs the script in a text, and writes its output with these notes.
fn run_text<W: Sink>(
    alloc: Global,
    text: &[u8],
    writer: &mut W,
    options: Options,
    notes: Notes,
) -> Result<(), Fault>
    ensures nothing { IfErr result (LeavesSink writer.old writer.new) }
    ensures reads { is_read_failed result ≡ false }
    ensures writes { CountsFailure (W.failures writer.old) (W.failures writer.new) (is_write_failed result) }
    ensures runs { WritesNoted options notes text.now (W.written writer.old) (W.written writer.new) result }
{
    let output = output_of(alloc, text, options, notes)?;
    let printed = printed_text(alloc, text, output, notes)?;
    write_bytes(writer, printed.as_slice())?;
    Ok(())
}

/// Returns what is printed of the output of a run of the script in a text, with these notes.
fn printed_text(
    alloc: Global,
    text: &[u8],
    output: Vec<u8>,
    notes: Notes,
) -> Result<Vec<u8>, AllocError>
    ensures { IfOk result (λ printed. printed.items ≡ printed_text notes text.now output.items) }
{
    if !notes.calls {
        return Ok(output);
    }
    if notes.why || notes.explain {
        noted_transcript(alloc, text, output.as_slice())
    } else {
        transcript_of(alloc, text, output.as_slice())
    }
}

/// Returns the output of a run of the script in a text, with these notes behind all else.
fn output_of(alloc: Global, text: &[u8], options: Options, notes: Notes) -> Result<Vec<u8>, Fault>
    ensures { GivesText (IsNotedOutput options notes) text.now result }
{
    match (notes.why, notes.explain) {
        (false, false) => plain_output(alloc, text, options),
        (true, false) => reasoned_output(alloc, text, options),
        (false, true) => explained_output(alloc, text, options),
        (true, true) => full_output(alloc, text, options),
    }
}

/// Returns the output of a run of the script in a text.
fn plain_output(alloc: Global, text: &[u8], options: Options) -> Result<Vec<u8>, Fault>
    ensures { GivesText (IsPlainOutput options) text.now result }
{
    let mut reader = Counted::new(text);
    let mut writer = Counted::new(Vec::new(alloc));
    match run(alloc, &mut reader, &mut writer, options) {
        Ok(_trace) => Ok(writer.into_inner()),
        Err(fault) => Err(in_memory(fault)),
    }
}

/// Returns the output of a run of the script in a text, with the lines of its refused calls.
fn reasoned_output(alloc: Global, text: &[u8], options: Options) -> Result<Vec<u8>, Fault>
    ensures { GivesText (IsReasonedOutput options) text.now result }
{
    let mut reader = Counted::new(text);
    let mut writer = Counted::new(Vec::new(alloc));
    match run_with_reasons(alloc, &mut reader, &mut writer, options) {
        Ok(()) => Ok(writer.into_inner()),
        Err(fault) => Err(in_memory(fault)),
    }
}

/// Returns the output of a run of the script in a text, with the lines of its refused calls and then those of its
/// denied raw calls.
fn full_output(alloc: Global, text: &[u8], options: Options) -> Result<Vec<u8>, Fault>
    ensures { GivesText (IsFullOutput options) text.now result }
{
    let mut output = reasoned_output(alloc, text, options)?;
    let explained = explained_output(alloc, text, options)?;
    let denials = marked_lines(alloc, explained.as_slice(), b'?')?;
    push_lines(&mut output, denials.as_slice())?;
    Ok(output)
}
