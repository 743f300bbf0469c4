//! A run with reasons, from bytes to bytes.
ghost use Rattle.std.specs.Prelude.{◌≡◌, [], false, IfErr, IfOk, IfSome, OnOk, OnErr};
ghost use Rattle.std.specs.Io.KnownBytes.{Appends};
ghost use Rattle.histar_io.specs.Device.{CountsFailure};
ghost use Rattle.histar_io.specs.Writing.{AppendsFront};
ghost use Rattle.histar_script.specs.Runs.{IsOutputFault, LeavesSink, RunsInput, is_read_failed};
ghost use Rattle.histar_script.specs.Runs.{is_write_failed};
ghost use Rattle.histar_shell.specs.AnsweredCalls.{BeginsAnswer, BeginsAnswers};
ghost use Rattle.histar_shell.specs.Answers.{line_text};
ghost use Rattle.histar_shell.specs.Ending.{HasTree};
ghost use Rattle.histar_shell.specs.AllAnswers.{EndsWithTree};
ghost use Rattle.histar_why.specs.Run.{RunsWithReasons};
ghost use Rattle.histar_why.specs.Session.{Answers, AppendsRest, BeginsCall, BeginsRest, BeginsRun};
ghost use Rattle.histar_why.specs.Session.{HasLogged, IsWithText, LogsCall, LogsCalls, WritesRun};

use crate::asked::asked_of;
use crate::logging::log_call;
use histar_command::{Command, run_command};
use histar_flat::{CallLine, Reply, each_call_is_right};
use histar_io::{Sink, Source, write_bytes};
use histar_label::{InternStore, LabelStore};
use histar_names::Purpose;
use histar_script::{Fault, read_script};
use histar_shell::{Machine, Options, set_reply_line, write_ending};
use std::alloc::Global;

/// How many answers of label comparisons the kernel remembers.
const REMEMBERED_ANSWERS: usize = 256;

/// The lines of refused calls, and what they are made from.
#[derive(Drop)]
pub struct Log {
    /// For each category, by its number, what it was made for.
    pub births: Vec<Option<Purpose>>,
    /// The lines so far.
    pub text: Vec<u8>,
    /// The line of the last reply.
    line: Vec<u8>,
}

impl Log {
    /// Returns the log of a machine that has made no call.
    pub fn new(alloc: Global) -> Log
        ensures births { result.births.items ≡ [] }
        ensures text { result.text.items ≡ [] }
    {
        Log {
            births: Vec::new(alloc),
            text: Vec::new(alloc),
            line: Vec::new(alloc),
        }
    }
}

/// Runs a script as `run` does, and writes after all that was asked for why each refused call was
/// refused.
///
/// A reason is read off the machine's own objects after its line, so a refused line costs the same
/// late in a script as early. The lines are kept until all else is written. It doesn't flush the
/// sink.
pub fn run_with_reasons<R: Source, W: Sink>(
    alloc: Global,
    reader: &mut R,
    writer: &mut W,
    options: Options,
) -> Result<(), Fault>
    // After a bad script, one that is too long and a failed read the sink is as it was.
    ensures nothing { IfErr result (LeavesSink writer.old writer.new) }

    // A device has failed exactly where its fault is the answer.
    ensures reads { CountsFailure (R.failures reader.old) (R.failures reader.new)
        (is_read_failed result) }
    ensures writes { CountsFailure (W.failures writer.old) (W.failures writer.new)
        (is_write_failed result) }

    // Whatever the source gives, bytes of it were taken, to its end but never over 1,048,577: the
    // fault of their script is returned, or exactly the text of its meaning is written, then a
    // trace of that meaning, if asked for, and then exactly the lines of its refused calls, as the
    // rules say.
    ensures runs { RunsInput (RunsWithReasons options) (R.left reader.old) (R.left reader.new)
        (W.written writer.old) (W.written writer.new) result }

    // If the input is known, the script of the whole input was run.
    ensures known { IfSome (R.left reader.old)
        (λ input. RunsWithReasons options input (W.written writer.old)
        (W.written writer.new) result) }
{
    run_command(alloc, reader, writer, ReasonedRun { options })
}

/// The command of `run_with_reasons`.
#[derive(Drop)]
struct ReasonedRun {
    options: Options,
}

impl Command for ReasonedRun {
    ghost use Rattle.std.proofs.Common.{rules};

    type Answer = ();

    type Memory = Global;

    ghost Runs = { λ command. RunsWithReasons command.options };

    fn on_text<W: Sink>(self, alloc: Global, text: Vec<u8>, writer: &mut W) -> Result<(), Fault> {
        run_text(alloc, text.as_slice(), writer, self.options)
    }

    ghost unread = { Prim.search rules };

    ghost long = { Prim.search rules };
}

/// Runs the script of a text, with reasons.
fn run_text<W: Sink>(
    alloc: Global,
    text: &[u8],
    writer: &mut W,
    options: Options,
) -> Result<(), Fault>
    ensures nothing { IfErr result (LeavesSink writer.old writer.new) }
    ensures reads { is_read_failed result ≡ false }
    ensures writes { CountsFailure (W.failures writer.old) (W.failures writer.new)
        (is_write_failed result) }
    ensures runs { RunsWithReasons options text.now (W.written writer.old)
        (W.written writer.new) result }
{
    let store = InternStore::new(alloc, REMEMBERED_ANSWERS)?;
    let script = read_script(alloc, text)?;
    let (accounts, calls) = script.into_parts();
    let Ok(mut machine) = Machine::boot(alloc, store, accounts) else {
        return Err(Fault::OutOfMemory);
    };
    let outcome = run_calls(alloc, &mut machine, calls, writer, options);
    drop(machine);
    outcome
}

/// Makes the calls on a machine that was booted, and writes the replies, what follows them, and the
/// lines of refused calls.
fn run_calls<S: LabelStore + Drop, W: Sink>(
    alloc: Global,
    machine: &mut Machine<S>,
    calls: Vec<CallLine>,
    writer: &mut W,
    options: Options,
) -> Result<(), Fault>
    requires { EndsWithTree machine.old calls.items }
    ensures ok { OnOk result (WritesRun options machine.old (W.written writer.old)
        (W.written writer.new) calls.items) }
    ensures err { OnErr result (BeginsRun options machine.old (W.written writer.old)
        (W.written writer.new) calls.items) }
    ensures faults { IfErr result IsOutputFault }
    ensures count { CountsFailure (W.failures writer.old) (W.failures writer.new)
        (is_write_failed result) }
{
    let text = log_calls(alloc, machine, calls, writer)?;
    write_rest(alloc, machine, writer, options, text.as_slice())
}

/// Makes the calls on a machine that was booted, writes the replies, and returns the lines of
/// refused calls.
fn log_calls<S: LabelStore + Drop, W: Sink>(
    alloc: Global,
    machine: &mut Machine<S>,
    calls: Vec<CallLine>,
    writer: &mut W,
) -> Result<Vec<u8>, Fault>
    ensures ok { IfOk result (λ text. HasLogged machine.old machine.new
        (W.written writer.old) (W.written writer.new) calls.items text.items) }
    ensures err { OnErr result (BeginsAnswers machine.old (W.written writer.old)
        (W.written writer.new) calls.items) }
    ensures faults { IfErr result IsOutputFault }
    ensures count { CountsFailure (W.failures writer.old) (W.failures writer.new)
        (is_write_failed result) }
{
    let mut log = Log::new(alloc);
    let outcome = answer_calls(alloc, machine, &mut log, calls, writer);
    with_text(outcome, log)
}

/// Returns the lines so far where the outcome is no fault.
fn with_text(outcome: Result<(), Fault>, log: Log) -> Result<Vec<u8>, Fault>
    ensures { IsWithText outcome log.text result }
{
    let Log { births, text, line } = log;
    drop(births);
    drop(line);
    match outcome {
        Ok(()) => Ok(text),
        Err(fault) => Err(fault),
    }
}

/// Writes what follows the replies, and then the lines of refused calls.
fn write_rest<S: LabelStore + Drop, W: Sink>(
    alloc: Global,
    machine: &Machine<S>,
    writer: &mut W,
    options: Options,
    text: &[u8],
) -> Result<(), Fault>
    requires { HasTree machine.now }
    ensures ok { OnOk result (AppendsRest options machine.now (W.written writer.old)
        (W.written writer.new) text.now) }
    ensures err { OnErr result (BeginsRest options machine.now (W.written writer.old)
        (W.written writer.new) text.now) }
    ensures faults { IfErr result IsOutputFault }
    ensures count { CountsFailure (W.failures writer.old) (W.failures writer.new)
        (is_write_failed result) }
{
    write_ending(alloc, machine, writer, options)?;
    write_lines(writer, text)
}

/// Writes the lines of refused calls.
fn write_lines<W: Sink>(writer: &mut W, text: &[u8]) -> Result<(), Fault>
    ensures ok { OnOk result (Appends (W.written writer.old) (W.written writer.new) text.now) }
    ensures err { OnErr result (AppendsFront (W.written writer.old)
        (W.written writer.new) text.now) }
    ensures faults { IfErr result IsOutputFault }
    ensures count { CountsFailure (W.failures writer.old) (W.failures writer.new)
        (is_write_failed result) }
{
    write_bytes(writer, text)?;
    Ok(())
}

/// Makes the calls on the machine in their order, writes a line for each, and keeps the lines of
/// those that were refused.
fn answer_calls<S: LabelStore + Drop, W: Sink>(
    alloc: Global,
    machine: &mut Machine<S>,
    log: &mut Log,
    calls: Vec<CallLine>,
    writer: &mut W,
) -> Result<(), Fault>
    requires births { log.old.births.items ≡ [] }
    requires text { log.old.text.items ≡ [] }
    ensures ok { OnOk result (LogsCalls machine.old machine.new (W.written writer.old)
        (W.written writer.new) calls.items log.new.births.items log.new.text.items) }
    ensures err { OnErr result (BeginsAnswers machine.old (W.written writer.old)
        (W.written writer.new) calls.items) }
    ensures faults { IfErr result IsOutputFault }
    ensures count { CountsFailure (W.failures writer.old) (W.failures writer.new)
        (is_write_failed result) }
{
    'calls: for call in calls {
        answer_and_log(alloc, machine, log, call, writer)?;
    }
    Ok(())
}

/// Makes one call on the machine, writes its line, and keeps the line of its refusal.
fn answer_and_log<S: LabelStore + Drop, W: Sink>(
    alloc: Global,
    machine: &mut Machine<S>,
    log: &mut Log,
    call: CallLine,
    writer: &mut W,
) -> Result<(), Fault>
    ensures ok { OnOk result (LogsCall machine.old machine.new (W.written writer.old)
        (W.written writer.new) call log.old log.new) }
    ensures err { OnErr result (BeginsCall machine.old machine.new (W.written writer.old)
        (W.written writer.new) call) }
    ensures faults { IfErr result IsOutputFault }
    ensures count { CountsFailure (W.failures writer.old) (W.failures writer.new)
        (is_write_failed result) }
{
    let asked = asked_of(&call);
    let reply = answer(alloc, machine, &mut log.line, call, writer)?;
    Ok(log_call(alloc, machine, log, &asked, &reply)?)
}

/// Makes one call on the machine, writes its line, for which there is a buffer, and returns its
/// reply.
fn answer<S: LabelStore + Drop, W: Sink>(
    alloc: Global,
    machine: &mut Machine<S>,
    buffer: &mut Vec<u8>,
    call: CallLine,
    writer: &mut W,
) -> Result<Reply, Fault>
    ensures ok { IfOk result (Answers machine.old machine.new (W.written writer.old)
        (W.written writer.new) call) }
    ensures err { OnErr result (BeginsAnswer machine.old machine.new (W.written writer.old)
        (W.written writer.new) call) }
    ensures faults { IfErr result IsOutputFault }
    ensures count { CountsFailure (W.failures writer.old) (W.failures writer.new)
        (is_write_failed result) }
{
    each_call_is_right(&call.call);
    let CallLine {
        line,
        process,
        call,
    } = call;
    let Ok(reply) = machine.step(alloc, line, &process, call) else {
        return Err(Fault::OutOfMemory);
    };
    match write_reply(alloc, buffer, line, &reply, writer) {
        Ok(()) => Ok(reply),
        Err(fault) => {
            drop(reply);
            Err(fault)
        }
    }
}

/// Writes the line of a reply, for which there is a buffer.
fn write_reply<W: Sink>(
    alloc: Global,
    buffer: &mut Vec<u8>,
    line: u32,
    reply: &Reply,
    writer: &mut W,
) -> Result<(), Fault>
    ensures ok { OnOk result (Appends (W.written writer.old) (W.written writer.new)
        (line_text line reply.now)) }
    ensures err { OnErr result (AppendsFront (W.written writer.old) (W.written writer.new)
        (line_text line reply.now)) }
    ensures faults { IfErr result IsOutputFault }
    ensures count { CountsFailure (W.failures writer.old) (W.failures writer.new)
        (is_write_failed result) }
{
    set_reply_line(alloc, buffer, line, reply)?;
    write_bytes(writer, buffer.as_slice())?;
    Ok(())
}
