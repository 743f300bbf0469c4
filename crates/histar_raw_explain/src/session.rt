//! A raw session with explanations, from bytes to bytes.
ghost use Rattle.std.specs.Prelude.{◌≡◌, ◌++◌, false, IfErr, IfOk, IfSome, OnOk, OnErr};
ghost use Rattle.histar_io.specs.Device.{CountsFailure};
ghost use Rattle.histar_script.specs.Runs.{IsOutputFault, LeavesSink, RunsInput, is_read_failed, is_write_failed};
ghost use Rattle.histar_syscall.specs.KernelModel.{state};
ghost use Rattle.histar_raw_session.specs.Answers.{AnswersCall, AnswersCalls, BeginsAnswer, BeginsAnswers};
ghost use Rattle.histar_raw_explain.specs.Explained.{ExplainsCall, ExplainsLast, ExplainsOne, ExplainsCalls};
ghost use Rattle.histar_raw_explain.specs.Explained.{ExplainsAnswered, BeginsExplaining, RunsExplained};

use crate::lines::push_explanation;
use crate::wording::ByNumber;
use histar_command::{Command, run_command};
use histar_explain::explain;
use histar_io::{Sink, Source, write_bytes};
use histar_label::{LabelStore, OutOfMemory};
use histar_raw_session::read_session::read_session;
use histar_raw_session::{RawLine, answer_call, empty_kernel};
use histar_script::Fault;
use histar_syscall::{Kernel, TraceEntry};
use std::alloc::Global;

/// Runs a raw session as `run_raw_script` does, and writes after its answers why each denied call was denied.
///
/// A denied call leaves the state of the kernel as it was, so it is explained as soon as it is answered.
/// The explanations are kept until all calls are answered. It doesn't flush the sink.
pub fn explain_raw_script<R: Source, W: Sink>(
    alloc: Global,
    reader: &mut R,
    writer: &mut W,
) -> Result<(), Fault>
    // After a bad session, one that is too long or a failed read the sink is as it was.
    ensures nothing { IfErr result (LeavesSink writer.old writer.new) }

    // A device has failed exactly where its fault is returned.
    ensures reads { CountsFailure (R.failures reader.old) (R.failures reader.new) (is_read_failed result) }
    ensures writes { CountsFailure (W.failures writer.old) (W.failures writer.new) (is_write_failed result) }

    // Whatever the source knows of its input, the run took bytes of it, to its end but never more than
    // 1,048,577, and ran these as a session: it returned their fault, or wrote exactly the lines of the
    // outcomes that the rules give, and then exactly the explanations of the denied calls, each at the state
    // before its call.
    ensures runs { RunsInput RunsExplained (R.left reader.old) (R.left reader.new)
        (W.written writer.old) (W.written writer.new) result }

    // So where the input is known, the session of the whole input was run.
    ensures known { IfSome (R.left reader.old)
        (λ input. RunsExplained input (W.written writer.old) (W.written writer.new) result) }
{
    run_command(alloc, reader, writer, ExplainedSession)
}

/// The command of `explain_raw_script`.
#[derive(Drop)]
struct ExplainedSession;

impl Command for ExplainedSession {
    ghost use Rattle.std.proofs.Common.{rules};

    type Answer = ();

    type Memory = Global;

    ghost Runs = { λ _. RunsExplained };

    fn on_text<W: Sink>(self, alloc: Global, text: Vec<u8>, writer: &mut W) -> Result<(), Fault> {
        explain_text(alloc, text.as_slice(), writer)
    }

    ghost unread = { Prim.search rules };

    ghost long = { Prim.search rules };
}

/// Runs a text as a raw session with explanations.
fn explain_text<W: Sink>(alloc: Global, text: &[u8], writer: &mut W) -> Result<(), Fault>
    ensures nothing { IfErr result (LeavesSink writer.old writer.new) }
    ensures reads { is_read_failed result ≡ false }
    ensures writes { CountsFailure (W.failures writer.old) (W.failures writer.new) (is_write_failed result) }
    ensures runs { RunsExplained text.now (W.written writer.old) (W.written writer.new) result }
{
    let calls = read_session(alloc, text)?;
    let mut kernel = empty_kernel(alloc)?;
    let outcome = explain_calls(alloc, &mut kernel, calls, writer);
    drop(kernel);
    outcome
}

/// Has the kernel make the calls in their order, writes a line for each, and then the explanations of
/// those that were denied.
fn explain_calls<S: LabelStore + Drop, W: Sink>(
    alloc: Global,
    kernel: &mut Kernel<S>,
    calls: Vec<RawLine>,
    writer: &mut W,
) -> Result<(), Fault>
    ensures ok { OnOk result (ExplainsAnswered (state kernel.old) (state kernel.new)
        (W.written writer.old) (W.written writer.new) calls.items) }
    ensures err { OnErr result (BeginsExplaining (state kernel.old) (W.written writer.old)
        (W.written writer.new) calls.items) }
    ensures faults { IfErr result IsOutputFault }
    ensures count { CountsFailure (W.failures writer.old) (W.failures writer.new) (is_write_failed result) }
{
    let explanations = answer_calls(alloc, kernel, calls, writer)?;
    write_bytes(writer, explanations.as_slice())?;
    Ok(())
}

/// Has the kernel make the calls in their order, writes a line for each, and returns the explanations of
/// those that were denied.
fn answer_calls<S: LabelStore + Drop, W: Sink>(
    alloc: Global,
    kernel: &mut Kernel<S>,
    calls: Vec<RawLine>,
    writer: &mut W,
) -> Result<Vec<u8>, Fault>
    ensures answered { OnOk result (AnswersCalls (state kernel.old) (state kernel.new)
        (W.written writer.old) (W.written writer.new) calls.items) }
    ensures explained { IfOk result (λ text. ExplainsCalls (state kernel.old) calls.items text.items
        (state kernel.new)) }
    ensures err { OnErr result (BeginsAnswers (state kernel.old) (W.written writer.old)
        (W.written writer.new) calls.items) }
    ensures faults { IfErr result IsOutputFault }
    ensures count { CountsFailure (W.failures writer.old) (W.failures writer.new) (is_write_failed result) }
{
    let mut explanations = Vec::new(alloc);
    'calls: for asked in calls {
        let lines = answer_and_explain(alloc, kernel, asked, writer)?;
        explanations.extend_from_slice(lines.as_slice())?;
    }
    Ok(explanations)
}

/// Has the kernel make one call, writes its line, and returns the lines that explain why it was denied,
/// if it was.
fn answer_and_explain<S: LabelStore + Drop, W: Sink>(
    alloc: Global,
    kernel: &mut Kernel<S>,
    asked: RawLine,
    writer: &mut W,
) -> Result<Vec<u8>, Fault>
    ensures answered { OnOk result (AnswersCall (state kernel.old) (state kernel.new)
        (W.written writer.old) (W.written writer.new) asked) }
    ensures explained { IfOk result (λ lines.
        ExplainsOne (state kernel.old) (state kernel.new) asked lines.items) }
    ensures err { OnErr result (BeginsAnswer (state kernel.old) (state kernel.new)
        (W.written writer.old) (W.written writer.new) asked) }
    ensures faults { IfErr result IsOutputFault }
    ensures count { CountsFailure (W.failures writer.old) (W.failures writer.new) (is_write_failed result) }
{
    answer_call(alloc, kernel, asked, writer)?;
    Ok(explain_last(alloc, kernel)?)
}

/// Returns the lines that explain why the last call of a kernel was denied, if it was.
fn explain_last<S: LabelStore + Drop>(
    alloc: Global,
    kernel: &Kernel<S>,
) -> Result<Vec<u8>, OutOfMemory>
    ensures { IfOk result (λ lines. ExplainsLast kernel.now lines.items) }
{
    let trace = kernel.trace();
    if trace.is_empty() {
        return Ok(Vec::new(alloc));
    }
    let entry = trace.entry(alloc, trace.len() - 1)?;
    let lines = explain_entry(alloc, kernel, &entry);
    drop(entry);
    lines
}

/// Returns the lines that explain why the call of an entry was denied, if it was, at the state of a kernel.
fn explain_entry<S: LabelStore + Drop>(
    alloc: Global,
    kernel: &Kernel<S>,
    entry: &TraceEntry,
) -> Result<Vec<u8>, OutOfMemory>
    ensures { IfOk result (λ lines. ExplainsCall (state kernel.now)
        entry.now.line entry.now.thread entry.now.call entry.now.denied lines.items) }
{
    let Some(denied) = entry.denied else {
        return Ok(Vec::new(alloc));
    };
    let explanation = explain(alloc, kernel, entry.thread, &entry.call, denied)?;
    let mut text = Vec::new(alloc);
    push_explanation(alloc, &mut text, &ByNumber, entry, &explanation)?;
    Ok(text)
}
