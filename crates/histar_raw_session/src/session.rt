//! A raw session, from bytes to bytes.
ghost use Rattle.std.specs.Prelude.{◌≡◌, false, IfErr, IfOk, IfSome, OnOk, OnErr};
ghost use Rattle.histar_io.specs.Device.{CountsFailure};
ghost use Rattle.histar_object.specs.State.{empty_state};
ghost use Rattle.histar_script.specs.Memory.{OnOutOfMemory};
ghost use Rattle.histar_script.specs.Runs.{IsOutputFault, LeavesSink, RunsInput, is_read_failed, is_write_failed};
ghost use Rattle.histar_syscall.specs.KernelModel.{state};
ghost use Rattle.histar_raw_session.specs.Answers.{AnswersCall, AnswersCalls, BeginsAnswer, BeginsAnswers, IsMadeOnLine, PrintsCall};
ghost use Rattle.histar_raw_session.specs.Run.{RunsSession};

use crate::lines::{answer_line, denial_line};
use crate::read_session::{RawLine, read_session};
use histar_command::{Command, run_command};
use histar_heap::Heap;
use histar_io::{Sink, Source, write_bytes};
use histar_label::{InternStore, LabelStore, OutOfMemory};
use histar_script::Fault;
use histar_syscall::{Kernel, Refusal};

/// How many answers of comparisons the store of labels remembers beside those at hand.
const REMEMBERED_ANSWERS: usize = 256;

/// Makes the kernel of a raw session, over a store that keeps each label once.
pub fn empty_kernel<H: Heap>(heap: H) -> Result<Kernel<InternStore>, OutOfMemory>
    ensures ok { IfOk result (λ kernel. state kernel ≡ empty_state) }
    ensures memory { OnErr result H.Refused }
{
    let store = InternStore::new(heap, REMEMBERED_ANSWERS)?;
    Kernel::new(heap, store)
}

/// Reads a raw session, has the kernel make its calls from the empty kernel on, and writes one line for each
/// as soon as it is made: its answer, or the reason of its denial.
///
/// The whole session is read and checked before the first call. A session without a call is right, and
/// writes nothing. It doesn't flush the sink.
pub fn run_raw_script<H: Heap, R: Source, W: Sink>(
    heap: H,
    reader: &mut R,
    writer: &mut W,
) -> Result<(), Fault>
    // After a bad session, one that is too long or a failed read the sink is as it was.
    ensures nothing { IfErr result (LeavesSink writer.old writer.new) }

    // A device has failed exactly where its fault is returned.
    ensures reads { CountsFailure (R.failures reader.old) (R.failures reader.new) (is_read_failed result) }
    ensures writes { CountsFailure (W.failures writer.old) (W.failures writer.new) (is_write_failed result) }

    // Whatever the source knows of its input, the run took bytes of it, to its end but never more than
    // 1,048,577, and ran these as a session: it returned their fault, or wrote exactly the lines of the
    // outcomes that the rules give.
    ensures runs { RunsInput RunsSession (R.left reader.old) (R.left reader.new)
        (W.written writer.old) (W.written writer.new) result }

    // So where the input is known, the session of the whole input was run.
    ensures known { IfSome (R.left reader.old)
        (λ input. RunsSession input (W.written writer.old) (W.written writer.new) result) }

    // It answers out of memory only where the heap refused memory, in this run.
    ensures memory { OnOutOfMemory result H.Refused }
{
    run_command(heap, reader, writer, RawSession { heap })
}

/// The command that runs a text as a raw session.
#[derive(Drop)]
struct RawSession<H> {
    heap: H,
}

impl<H: Heap> Command for RawSession<H> {
    ghost use Rattle.std.proofs.Common.{rules};

    type Answer = ();

    type Memory = H;

    ghost Runs = { λ _. RunsSession };

    fn on_text<W: Sink>(self, _heap: H, text: Vec<u8>, writer: &mut W) -> Result<(), Fault> {
        let RawSession { heap } = self;
        let calls = read_session(heap, text.as_slice())?;
        let mut kernel = empty_kernel(heap)?;
        answer_calls(heap, &mut kernel, calls, writer)
    }

    ghost unread = { Prim.search rules };

    ghost long = { Prim.search rules };
}

/// Has the kernel make the calls in their order, and writes a line for each.
fn answer_calls<H: Heap, S: LabelStore + Drop, W: Sink>(
    heap: H,
    kernel: &mut Kernel<S>,
    calls: Vec<RawLine>,
    writer: &mut W,
) -> Result<(), Fault>
    ensures ok { OnOk result (AnswersCalls (state kernel.old) (state kernel.new)
        (W.written writer.old) (W.written writer.new) calls.items) }
    ensures err { OnErr result (BeginsAnswers (state kernel.old) (W.written writer.old)
        (W.written writer.new) calls.items) }
    ensures faults { IfErr result IsOutputFault }
    ensures count { CountsFailure (W.failures writer.old) (W.failures writer.new) (is_write_failed result) }
    ensures memory { OnOutOfMemory result H.Refused }
{
    'calls: for asked in calls {
        answer_call(heap, kernel, asked, writer)?;
    }
    Ok(())
}

/// Has the kernel make one call, and writes its line.
pub fn answer_call<H: Heap, S: LabelStore + Drop, W: Sink>(
    heap: H,
    kernel: &mut Kernel<S>,
    asked: RawLine,
    writer: &mut W,
) -> Result<(), Fault>
    ensures ok { OnOk result (AnswersCall (state kernel.old) (state kernel.new)
        (W.written writer.old) (W.written writer.new) asked) }
    ensures made { OnOk result (IsMadeOnLine kernel.old asked kernel.new) }
    ensures err { OnErr result (BeginsAnswer (state kernel.old) (state kernel.new)
        (W.written writer.old) (W.written writer.new) asked) }
    ensures faults { IfErr result IsOutputFault }
    ensures count { CountsFailure (W.failures writer.old) (W.failures writer.new) (is_write_failed result) }
    ensures memory { OnOutOfMemory result H.Refused }
{
    let line = make_call(heap, kernel, asked)?;
    write_bytes(writer, line.as_slice())?;
    Ok(())
}

/// Has the kernel make one call, and prints its outcome in a line.
fn make_call<H: Heap, S: LabelStore + Drop>(
    heap: H,
    kernel: &mut Kernel<S>,
    asked: RawLine,
) -> Result<Vec<u8>, OutOfMemory>
    ensures prints { IfOk result (λ line. PrintsCall (state kernel.old) (state kernel.new) asked line.items) }
    ensures made { OnOk result (IsMadeOnLine kernel.old asked kernel.new) }
    ensures memory { OnErr result H.Refused }
{
    let RawLine {
        line: number,
        thread,
        call,
    } = asked;
    kernel.begin(number);
    match kernel.call(heap, thread, call) {
        Ok(answer) => answer_line(heap, number, &answer),
        Err(Refusal::Denied(denied)) => denial_line(heap, number, denied),
        Err(Refusal::OutOfMemory) => Err(OutOfMemory),
    }
}
