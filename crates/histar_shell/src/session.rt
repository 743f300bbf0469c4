//! A run, from bytes to bytes.
ghost use Rattle.std.specs.Prelude.{◌≡◌, false, IfErr, IfOk, IfSome, OnOk, OnErr};
ghost use Rattle.histar_io.specs.Device.{CountsFailure};
ghost use Rattle.histar_script.specs.Runs.{IsOutputFault, LeavesSink, is_read_failed, is_write_failed, RunsInput};
ghost use Rattle.histar_shell.specs.AllAnswers.{AnswersAll, BeginsAll, EndsWithTree};
ghost use Rattle.histar_shell.specs.AnsweredCalls.{AnswersCall, AnswersCalls, BeginsAnswer, BeginsAnswers};
ghost use Rattle.histar_shell.specs.Run.{RunsText};
ghost use Rattle.histar_shell.specs.Memory.{StillShows, WantsMemory};
ghost use Rattle.histar_script.specs.Memory.{OnOutOfMemory};
ghost use Rattle.histar_script.specs.Outcome.{Gives};
ghost use Rattle.histar_script.specs.Reading.{script_of};
ghost use Rattle.histar_script.specs.Script.{IsDeclared};

use crate::ending::write_ending;
use crate::machine::{Machine, Trace};
use crate::output::set_reply_line;
use histar_command::{Command, run_command};
use histar_flat::CallLine;
use histar_heap::Heap;
use histar_io::{Sink, Source, write_bytes};
use histar_label::{InternStore, LabelStore};
use histar_script::{Fault, Script, read_script};

/// What a run writes beside the replies.
#[derive(Clone, Copy)]
pub struct Options {
    /// The tree after the last call: a line for each file and directory, by rising paths.
    pub tree: bool,
    /// The trace: a line for each raw call of the run, those of boot first.
    pub trace: bool,
}

/// How many answers of label comparisons a run remembers.
const REMEMBERED_ANSWERS: usize = 256;

/// Reads a script, runs it on a machine of its own, and writes one line for each call line as soon
/// as the call is done; and then, where they are asked for, the tree and the trace.
///
/// The whole script is read and checked before the first call. It doesn't flush the sink. Equal labels are
/// kept once, and the answers of the latest comparisons are remembered. The kernel's objects are never freed,
/// since a program ends behind its run.
pub fn run<H: Heap, R: Source, W: Sink>(
    heap: H,
    reader: &mut R,
    writer: &mut W,
    options: Options,
) -> Result<Trace, Fault>
    // After a bad script, one that is too long and a failed read the sink is as it was.
    ensures nothing { IfErr result (LeavesSink writer.old writer.new) }

    // A device has failed exactly where its fault is the answer.
    ensures reads { CountsFailure (R.failures reader.old) (R.failures reader.new) (is_read_failed result) }
    ensures writes { CountsFailure (W.failures writer.old) (W.failures writer.new) (is_write_failed result) }

    // Whatever the source gives, the run took bytes of it, to its end but never over 1,048,577, and ran
    // their script: its fault is returned, or exactly the text of its meaning is written, and then the
    // trace, if it is asked for, line by line; the trace that is returned is that of the meaning.
    ensures runs { RunsInput (RunsText options) (R.left reader.old) (R.left reader.new)
        (W.written writer.old) (W.written writer.new) result }

    // If the input is known, the script of the whole input was run.
    ensures known { IfSome (R.left reader.old)
        (λ input. RunsText options input (W.written writer.old) (W.written writer.new) result) }

    // The answer is out of memory only where the heap refused memory, in this run.
    ensures memory { OnOutOfMemory result H.Refused }
{
    run_command(heap, reader, writer, InternedRun { heap, options })
}

/// Does the same over any store of labels, which is passed with no label in use: whatever it remembers, the
/// replies, the tree and the trace are the same.
pub fn run_with<H: Heap, S: LabelStore + Drop, R: Source, W: Sink>(
    heap: H,
    store: S,
    reader: &mut R,
    writer: &mut W,
    options: Options,
) -> Result<Trace, Fault>
    ensures nothing { IfErr result (LeavesSink writer.old writer.new) }
    ensures reads { CountsFailure (R.failures reader.old) (R.failures reader.new) (is_read_failed result) }
    ensures writes { CountsFailure (W.failures writer.old) (W.failures writer.new) (is_write_failed result) }
    ensures runs { RunsInput (RunsText options) (R.left reader.old) (R.left reader.new)
        (W.written writer.old) (W.written writer.new) result }
    ensures known { IfSome (R.left reader.old)
        (λ input. RunsText options input (W.written writer.old) (W.written writer.new) result) }
    ensures memory { OnOutOfMemory result H.Refused }
{
    run_command(
        heap,
        reader,
        writer,
        StoredRun {
            heap,
            store,
            options,
        },
    )
}

/// The command that runs a script over a store of its own, which keeps each label once.
#[derive(Drop)]
struct InternedRun<H> {
    heap: H,
    options: Options,
}

impl<H: Heap> Command for InternedRun<H> {
    ghost use Rattle.std.proofs.Common.{rules};

    type Answer = Trace;

    type Memory = H;

    ghost Runs = { λ command. RunsText command.options };

    fn on_text<W: Sink>(self, _heap: H, text: Vec<u8>, writer: &mut W) -> Result<Trace, Fault> {
        let InternedRun { heap, options } = self;
        let store = InternStore::new(heap, REMEMBERED_ANSWERS)?;
        run_text(heap, store, text, writer, options)
    }

    ghost unread = { Prim.search rules };

    ghost long = { Prim.search rules };
}

/// The command that runs a script over a store of the caller's.
#[derive(Drop)]
struct StoredRun<H, S> {
    heap: H,
    store: S,
    options: Options,
}

impl<H: Heap, S: LabelStore + Drop> Command for StoredRun<H, S> {
    ghost use Rattle.std.proofs.Common.{rules};

    type Answer = Trace;

    type Memory = H;

    ghost Runs = { λ command. RunsText command.options };

    fn on_text<W: Sink>(self, _heap: H, text: Vec<u8>, writer: &mut W) -> Result<Trace, Fault> {
        let StoredRun {
            heap,
            store,
            options,
        } = self;
        run_text(heap, store, text, writer, options)
    }

    ghost unread = { Prim.search rules };

    ghost long = { Prim.search rules };
}

/// Runs the script of a text, which it keeps no longer than it reads it.
fn run_text<H: Heap, S: LabelStore + Drop, W: Sink>(
    heap: H,
    store: S,
    text: Vec<u8>,
    writer: &mut W,
    options: Options,
) -> Result<Trace, Fault>
    ensures nothing { IfErr result (LeavesSink writer.old writer.new) }
    ensures reads { is_read_failed result ≡ false }
    ensures writes { CountsFailure (W.failures writer.old) (W.failures writer.new) (is_write_failed result) }
    ensures runs { RunsText options text.items (W.written writer.old) (W.written writer.new) result }
    ensures memory { OnOutOfMemory result H.Refused }
{
    let script = read_text(heap, text)?;
    let (accounts, calls) = script.into_parts();
    let Ok(mut machine) = Machine::boot(heap, store, accounts) else {
        return Err(Fault::OutOfMemory);
    };
    match answer_all(heap, &mut machine, calls, writer, options) {
        Ok(()) => Ok(machine.leak_into_trace()),
        Err(fault) => {
            drop(machine);
            Err(fault)
        }
    }
}

/// Reads the script that a text is, and frees the text: a session's trace takes its room.
fn read_text<H: Heap>(heap: H, text: Vec<u8>) -> Result<Script, Fault>
    ensures exact { Gives result (script_of text.items) }
    ensures declared { IfOk result (λ script. IsDeclared script.accounts) }
    ensures memory { OnOutOfMemory result H.Refused }
{
    read_script(heap, text.as_slice())
}

/// Makes the calls on the machine in their order, writes a line for each, and then what is asked for.
fn answer_all<H: Heap, S: LabelStore + Drop, W: Sink>(
    heap: H,
    machine: &mut Machine<S>,
    calls: Vec<CallLine>,
    writer: &mut W,
    options: Options,
) -> Result<(), Fault>
    requires { EndsWithTree machine.now calls.items }
    ensures ok { OnOk result (AnswersAll options machine.old machine.new (W.written writer.old)
        (W.written writer.new) calls.items) }
    ensures err { OnErr result (BeginsAll options machine.old (W.written writer.old)
        (W.written writer.new) calls.items) }
    ensures faults { IfErr result IsOutputFault }
    ensures count { CountsFailure (W.failures writer.old) (W.failures writer.new) (is_write_failed result) }
    ensures memory { WantsMemory H.Refused machine.old result }
{
    answer_calls(heap, machine, calls, writer)?;
    write_ending(heap, machine, writer, options)
}

/// Makes the calls on the machine in their order, and writes a line for each.
fn answer_calls<H: Heap, S: LabelStore + Drop, W: Sink>(
    heap: H,
    machine: &mut Machine<S>,
    calls: Vec<CallLine>,
    writer: &mut W,
) -> Result<(), Fault>
    ensures ok { OnOk result (AnswersCalls machine.old machine.new (W.written writer.old)
        (W.written writer.new) calls.items) }
    ensures err { OnErr result (BeginsAnswers machine.old (W.written writer.old)
        (W.written writer.new) calls.items) }
    ensures faults { IfErr result IsOutputFault }
    ensures count { CountsFailure (W.failures writer.old) (W.failures writer.new) (is_write_failed result) }
    ensures memory { WantsMemory H.Refused machine.old result }
{
    let mut line = Vec::new(heap.alloc());
    'calls: for call in calls {
        answer_by(heap, machine, call, &mut line, writer)?;
    }
    Ok(())
}

/// Makes one call on the machine, and writes its line.
pub fn answer_call<H: Heap, S: LabelStore + Drop, W: Sink>(
    heap: H,
    machine: &mut Machine<S>,
    call: CallLine,
    writer: &mut W,
) -> Result<(), Fault>
    ensures ok { OnOk result (AnswersCall machine.old machine.new (W.written writer.old)
        (W.written writer.new) call) }
    ensures err { OnErr result (BeginsAnswer machine.old machine.new (W.written writer.old)
        (W.written writer.new) call) }
    ensures faults { IfErr result IsOutputFault }
    ensures count { CountsFailure (W.failures writer.old) (W.failures writer.new) (is_write_failed result) }
    ensures memory { WantsMemory H.Refused machine.old result }
{
    let mut line = Vec::new(heap.alloc());
    answer_by(heap, machine, call, &mut line, writer)
}

/// Does the same, where the line is made in a buffer, whatever this holds.
fn answer_by<H: Heap, S: LabelStore + Drop, W: Sink>(
    heap: H,
    machine: &mut Machine<S>,
    call: CallLine,
    line: &mut Vec<u8>,
    writer: &mut W,
) -> Result<(), Fault>
    ensures ok { OnOk result (AnswersCall machine.old machine.new (W.written writer.old)
        (W.written writer.new) call) }
    ensures err { OnErr result (BeginsAnswer machine.old machine.new (W.written writer.old)
        (W.written writer.new) call) }
    ensures faults { IfErr result IsOutputFault }
    ensures count { CountsFailure (W.failures writer.old) (W.failures writer.new) (is_write_failed result) }
    ensures shows { OnOk result (StillShows machine.old machine.new) }
    ensures memory { WantsMemory H.Refused machine.old result }
{
    let CallLine {
        line: number,
        process,
        call,
    } = call;
    let Ok(reply) = machine.step(heap, number, &process, call) else {
        return Err(Fault::OutOfMemory);
    };
    let made = set_reply_line(heap, line, number, &reply);
    drop(reply);
    made?;
    write_bytes(writer, line.as_slice())?;
    Ok(())
}
