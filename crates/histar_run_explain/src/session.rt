//! A run with explanations, from bytes to bytes.
ghost use Rattle.std.specs.Prelude.{◌≡◌, ◌≤◌, [], drop, length, false, IfErr, IfOk, IfSome, OnOk, OnErr};
ghost use Rattle.std.specs.Io.KnownBytes.{Appends};
ghost use Rattle.histar_io.specs.Device.{CountsFailure};
ghost use Rattle.histar_io.specs.Writing.{AppendsFront};
ghost use Rattle.histar_script.specs.Runs.{IsOutputFault, LeavesSink, RunsInput, is_read_failed, is_write_failed};
ghost use Rattle.histar_syscall.specs.KernelModel.{state};
ghost use Rattle.histar_shell.specs.AnsweredCalls.{BeginsAnswer, BeginsAnswers};
ghost use Rattle.histar_shell.specs.Ending.{HasTree};
ghost use Rattle.histar_shell.specs.Machine.{IsTraced};
ghost use Rattle.histar_run_explain.specs.Entries.{Adds, AddsEntries, EndsAsRun, IsRunFrom};
ghost use Rattle.histar_names.specs.Births.{births_after};
ghost use Rattle.histar_names.specs.NamedWords.{words_at};
ghost use Rattle.histar_run_explain.specs.Session.{AppendsRest, BeginsRest, BeginsRun, EndsWithTree, WritesRun};
ghost use Rattle.histar_run_explain.specs.Session.{ExplainsCall, ExplainsCalls, HasExplained, IsWithText, births_by};
ghost use Rattle.histar_run_explain.specs.Run.{ExplainsText};

use crate::replaying::{Entries, explain_entries};
use histar_command::{Command, run_command};
use histar_flat::CallLine;
use histar_io::{Sink, Source, write_bytes};
use histar_label::{InternStore, LabelStore, OutOfMemory};
use histar_names::{Clue, Names, Purpose, clue_of, note_births};
use histar_raw_explain::ByNumber;
use histar_script::{Fault, read_script};
use histar_shell::{Machine, Options, answer_call, write_ending};
use histar_syscall::{Kernel, Trace};
use std::alloc::Global;

/// How many answers of label comparisons each of the two kernels remembers.
const REMEMBERED_ANSWERS: usize = 256;

/// What explanations are made from, beside the machine.
#[derive(Drop)]
struct Explainer<S: LabelStore + Drop> {
    /// The kernel that is brought to the state before each raw call.
    second: Kernel<S>,
    /// For each category, by its number, what it was made for.
    births: Vec<Option<Purpose>>,
    /// The explanations so far.
    text: Vec<u8>,
}

/// Runs a script as `run` does, and writes after all that was asked for why each denied raw call was denied.
///
/// The raw calls of a line that change something are made once more on a second kernel, which then is in the
/// state before each of them. The explanations are kept until all else is written. It doesn't flush the sink.
pub fn explain_script<R: Source, W: Sink>(
    alloc: Global,
    reader: &mut R,
    writer: &mut W,
    options: Options,
) -> Result<(), Fault>
    // After a bad script, one that is too long and a failed read the sink is as it was.
    ensures nothing { IfErr result (LeavesSink writer.old writer.new) }

    // A device has failed exactly where its fault is the answer.
    ensures reads { CountsFailure (R.failures reader.old) (R.failures reader.new) (is_read_failed result) }
    ensures writes { CountsFailure (W.failures writer.old) (W.failures writer.new) (is_write_failed result) }

    // Whatever the source gives, bytes of it were taken, to its end but never over 1,048,577: the fault of
    // their script is returned, or exactly the text of its meaning is written, then a trace of that meaning,
    // if asked for, and then exactly the explanations of its denied calls, each at the state before its call.
    ensures runs { RunsInput (ExplainsText options) (R.left reader.old) (R.left reader.new)
        (W.written writer.old) (W.written writer.new) result }

    // If the input is known, the script of the whole input was run and explained.
    ensures known { IfSome (R.left reader.old)
        (λ input. ExplainsText options input (W.written writer.old) (W.written writer.new) result) }
{
    run_command(alloc, reader, writer, ExplainedRun { options })
}

/// The command of `explain_script`.
#[derive(Drop)]
struct ExplainedRun {
    options: Options,
}

impl Command for ExplainedRun {
    ghost use Rattle.std.proofs.Common.{rules};

    type Answer = ();

    type Memory = Global;

    ghost Runs = { λ command. ExplainsText command.options };

    fn on_text<W: Sink>(self, alloc: Global, text: Vec<u8>, writer: &mut W) -> Result<(), Fault> {
        explain_text(alloc, text.as_slice(), writer, self.options)
    }

    ghost unread = { Prim.search rules };

    ghost long = { Prim.search rules };
}

/// Runs and explains the script of a text.
fn explain_text<W: Sink>(
    alloc: Global,
    text: &[u8],
    writer: &mut W,
    options: Options,
) -> Result<(), Fault>
    ensures nothing { IfErr result (LeavesSink writer.old writer.new) }
    ensures reads { is_read_failed result ≡ false }
    ensures writes { CountsFailure (W.failures writer.old) (W.failures writer.new) (is_write_failed result) }
    ensures runs { ExplainsText options text.now (W.written writer.old) (W.written writer.new) result }
{
    let store = InternStore::new(alloc, REMEMBERED_ANSWERS)?;
    let script = read_script(alloc, text)?;
    let (accounts, calls) = script.into_parts();
    let Ok(mut machine) = Machine::boot(alloc, store, accounts) else {
        return Err(Fault::OutOfMemory);
    };
    let outcome = run_calls(alloc, &mut machine, calls, writer, options);
    drop(machine);
    outcome
}

/// Makes the calls on a machine that was booted, and writes the replies, what follows them, and the
/// explanations.
fn run_calls<S: LabelStore + Drop, W: Sink>(
    alloc: Global,
    machine: &mut Machine<S>,
    calls: Vec<CallLine>,
    writer: &mut W,
    options: Options,
) -> Result<(), Fault>
    requires traced { IsTraced machine.old.kernel }
    requires tree { EndsWithTree machine.old calls.items }
    ensures ok { OnOk result (WritesRun options machine.old (W.written writer.old)
        (W.written writer.new) calls.items) }
    ensures err { OnErr result (BeginsRun options machine.old (W.written writer.old)
        (W.written writer.new) calls.items) }
    ensures faults { IfErr result IsOutputFault }
    ensures count { CountsFailure (W.failures writer.old) (W.failures writer.new) (is_write_failed result) }
{
    let text = explain_calls(alloc, machine, calls, writer)?;
    write_rest(alloc, machine, writer, options, text.as_slice())
}

/// Makes the calls on a machine that was booted, writes the replies, and returns the explanations.
fn explain_calls<S: LabelStore + Drop, W: Sink>(
    alloc: Global,
    machine: &mut Machine<S>,
    calls: Vec<CallLine>,
    writer: &mut W,
) -> Result<Vec<u8>, Fault>
    requires { IsTraced machine.old.kernel }
    ensures ok { IfOk result (λ text. HasExplained machine.old machine.new
        (W.written writer.old) (W.written writer.new) calls.items text.items) }
    ensures err { OnErr result (BeginsAnswers machine.old (W.written writer.old)
        (W.written writer.new) calls.items) }
    ensures faults { IfErr result IsOutputFault }
    ensures count { CountsFailure (W.failures writer.old) (W.failures writer.new) (is_write_failed result) }
{
    let mut explainer = Explainer {
        second: second_kernel(alloc, machine)?,
        births: Vec::new(alloc),
        text: Vec::new(alloc),
    };
    let outcome = answer_calls(alloc, machine, &mut explainer, calls, writer);
    with_text(outcome, explainer)
}

/// Returns the explanations so far where the outcome is no fault.
fn with_text<S: LabelStore + Drop>(
    outcome: Result<(), Fault>,
    explainer: Explainer<S>,
) -> Result<Vec<u8>, Fault>
    ensures { IsWithText outcome explainer.text result }
{
    let Explainer {
        second,
        births,
        text,
    } = explainer;
    drop(second);
    drop(births);
    match outcome {
        Ok(()) => Ok(text),
        Err(fault) => Err(fault),
    }
}

/// Writes what follows the replies, and then the explanations.
fn write_rest<S: LabelStore + Drop, W: Sink>(
    alloc: Global,
    machine: &Machine<S>,
    writer: &mut W,
    options: Options,
    text: &[u8],
) -> Result<(), Fault>
    requires { HasTree machine.now }
    ensures ok { OnOk result (AppendsRest options machine.now (W.written writer.old)
        (W.written writer.new) text.now) }
    ensures err { OnErr result (BeginsRest options machine.now (W.written writer.old)
        (W.written writer.new) text.now) }
    ensures faults { IfErr result IsOutputFault }
    ensures count { CountsFailure (W.failures writer.old) (W.failures writer.new) (is_write_failed result) }
{
    write_ending(alloc, machine, writer, options)?;
    write_explanations(writer, text)
}

/// Writes the explanations.
fn write_explanations<W: Sink>(writer: &mut W, text: &[u8]) -> Result<(), Fault>
    ensures ok { OnOk result (Appends (W.written writer.old) (W.written writer.new) text.now) }
    ensures err { OnErr result (AppendsFront (W.written writer.old) (W.written writer.new) text.now) }
    ensures faults { IfErr result IsOutputFault }
    ensures count { CountsFailure (W.failures writer.old) (W.failures writer.new) (is_write_failed result) }
{
    write_bytes(writer, text)?;
    Ok(())
}

/// Returns a second kernel, which has made the raw calls of boot once more.
fn second_kernel<S: LabelStore + Drop>(
    alloc: Global,
    machine: &Machine<S>,
) -> Result<Kernel<InternStore>, OutOfMemory>
    requires { IsTraced machine.now.kernel }
    ensures { IfOk result (λ kernel. state kernel ≡ state machine.now.kernel) }
{
    let store = InternStore::new(alloc, REMEMBERED_ANSWERS)?;
    let mut kernel = Kernel::new(alloc, store)?;
    match replay_all(alloc, &mut kernel, machine.trace()) {
        Ok(()) => Ok(kernel),
        Err(error) => {
            drop(kernel);
            Err(error)
        }
    }
}

/// Brings a kernel to the state after a trace, and explains none of its entries.
fn replay_all<S: LabelStore + Drop>(
    alloc: Global,
    kernel: &mut Kernel<S>,
    trace: &Trace,
) -> Result<(), OutOfMemory>
    requires { IsRunFrom (state kernel.old) trace.now.entries }
    ensures { OnOk result (EndsAsRun (state kernel.old) trace.now.entries (state kernel.new)) }
{
    let mut text = Vec::new(alloc);
    let entries = Entries { trace, from: 0 };
    explain_entries(alloc, kernel, &ByNumber, &mut text, entries)
}

/// Makes the calls on the machine in their order, writes a line for each, and keeps the explanations of
/// the raw calls that were denied.
fn answer_calls<S: LabelStore + Drop, T: LabelStore + Drop, W: Sink>(
    alloc: Global,
    machine: &mut Machine<S>,
    explainer: &mut Explainer<T>,
    calls: Vec<CallLine>,
    writer: &mut W,
) -> Result<(), Fault>
    requires second { state explainer.old.second ≡ state machine.old.kernel }
    requires births { explainer.old.births.items ≡ [] }
    requires text { explainer.old.text.items ≡ [] }
    ensures ok { OnOk result (ExplainsCalls machine.old machine.new (W.written writer.old)
        (W.written writer.new)
        calls.items explainer.new.text.items explainer.new.births.items) }
    ensures err { OnErr result (BeginsAnswers machine.old (W.written writer.old)
        (W.written writer.new) calls.items) }
    ensures faults { IfErr result IsOutputFault }
    ensures count { CountsFailure (W.failures writer.old) (W.failures writer.new) (is_write_failed result) }
{
    'calls: for call in calls {
        answer_and_explain(alloc, machine, explainer, call, writer)?;
    }
    Ok(())
}

/// Makes one call on the machine, writes its line, and keeps the lines that explain its raw calls that were
/// denied.
fn answer_and_explain<S: LabelStore + Drop, T: LabelStore + Drop, W: Sink>(
    alloc: Global,
    machine: &mut Machine<S>,
    explainer: &mut Explainer<T>,
    call: CallLine,
    writer: &mut W,
) -> Result<(), Fault>
    requires { state explainer.old.second ≡ state machine.old.kernel }
    ensures ok { OnOk result (Adds (ExplainsCall machine.old machine.new (W.written writer.old)
        (W.written writer.new)
        call explainer.new.births.items) explainer.old.text.items explainer.new.text.items) }
    ensures births { OnOk result (explainer.new.births.items
        ≡ births_by machine.new call explainer.old.births.items) }
    ensures same { OnOk result (state explainer.new.second ≡ state machine.new.kernel) }
    ensures err { OnErr result (BeginsAnswer machine.old machine.new (W.written writer.old)
        (W.written writer.new) call) }
    ensures faults { IfErr result IsOutputFault }
    ensures count { CountsFailure (W.failures writer.old) (W.failures writer.new) (is_write_failed result) }
{
    let clue = clue_of(&call.process, &call.call);
    let before = machine.trace().len();
    answer_call(alloc, machine, call, writer)?;
    Ok(explain_answered(alloc, machine, explainer, &clue, before)?)
}

/// Notes the births of a line, and then explains it as `explain_line` does.
fn explain_answered<S: LabelStore + Drop, T: LabelStore + Drop>(
    alloc: Global,
    machine: &Machine<S>,
    explainer: &mut Explainer<T>,
    clue: &Clue,
    before: usize,
) -> Result<(), OutOfMemory>
    requires within { before ≤ length machine.now.kernel.trace }
    requires run { IsRunFrom (state explainer.old.second) (drop before machine.now.kernel.trace) }
    ensures explained { OnOk result (AddsEntries
        (words_at machine.now.users machine.now.roots (state machine.now.kernel) clue.now explainer.new.births.items)
        (state explainer.old.second) (drop before machine.now.kernel.trace) (state explainer.new.second)
        explainer.old.text.items explainer.new.text.items) }
    ensures births { OnOk result (explainer.new.births.items
        ≡ births_after (state machine.now.kernel) machine.now.roots clue.now.caller
        explainer.old.births.items) }
    ensures ends { OnOk result (EndsAsRun (state explainer.old.second) (drop before machine.now.kernel.trace)
        (state explainer.new.second)) }
{
    note_births(
        machine.kernel(),
        machine.roots(),
        &clue.caller,
        &mut explainer.births,
    )?;
    explain_line(alloc, machine, explainer, clue, before)
}

/// Brings the second kernel to the state after a line, whose raw calls come after this many entries of the
/// machine's trace, and keeps the lines that explain those that were denied.
fn explain_line<S: LabelStore + Drop, T: LabelStore + Drop>(
    alloc: Global,
    machine: &Machine<S>,
    explainer: &mut Explainer<T>,
    clue: &Clue,
    before: usize,
) -> Result<(), OutOfMemory>
    requires within { before ≤ length machine.now.kernel.trace }
    requires run { IsRunFrom (state explainer.old.second) (drop before machine.now.kernel.trace) }
    ensures explained { OnOk result (AddsEntries
        (words_at machine.now.users machine.now.roots (state machine.now.kernel) clue.now explainer.old.births.items)
        (state explainer.old.second) (drop before machine.now.kernel.trace) (state explainer.new.second)
        explainer.old.text.items explainer.new.text.items) }
    ensures births { explainer.new.births.items ≡ explainer.old.births.items }
    ensures ends { OnOk result (EndsAsRun (state explainer.old.second) (drop before machine.now.kernel.trace)
        (state explainer.new.second)) }
{
    let names = Names {
        kernel: machine.kernel(),
        roots: machine.roots(),
        users: machine.users(),
        clue,
        births: explainer.births.as_slice(),
    };
    let entries = Entries {
        trace: machine.trace(),
        from: before,
    };
    explain_entries(
        alloc,
        &mut explainer.second,
        &names,
        &mut explainer.text,
        entries,
    )
}
