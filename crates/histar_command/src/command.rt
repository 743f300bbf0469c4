//! A command, and its run from bytes to bytes.
ghost use Rattle.std.specs.Prelude.{◌≡◌, false, IfErr, IfSome};
ghost use Rattle.histar_io.specs.Device.{CountsFailure};
ghost use Rattle.histar_script.specs.Memory.{OnOutOfMemory};
ghost use Rattle.histar_script.specs.Runs.{LeavesSink, Running, RunsInput, is_read_failed, is_write_failed};
ghost use Rattle.histar_command.specs.Inputs.{StopsUnread, TakesLongAlike};

use histar_heap::Heap;
use histar_io::{Sink, Source, read_input};
use histar_script::Fault;

/// What is made of a text: an answer, and bytes that are written.
pub trait Command: Drop {
    /// What a run answers.
    type Answer;

    /// Where its memory comes from.
    type Memory: Heap;

    // How a run of a text relates what was written before and after it, and its result.
    ghost Runs: { Self → Running Self.Answer };

    /// Runs the command on a text, which it need not keep to its end.
    fn on_text<W: Sink>(
        self,
        heap: Self::Memory,
        text: Vec<u8>,
        writer: &mut W,
    ) -> Result<Self::Answer, Fault>
        // After a bad text, or one that is too long, the sink is as it was.
        ensures nothing { IfErr result (LeavesSink writer.old writer.new) }
        // A write has failed exactly if its fault is returned.
        ensures reads { is_read_failed result ≡ false }
        ensures writes { CountsFailure (W.failures writer.old) (W.failures writer.new) (is_write_failed result) }
        ensures runs { Runs self text.items (W.written writer.old) (W.written writer.new) result }
        // It answers out of memory only where memory was refused.
        ensures memory { OnOutOfMemory result Self.Memory.Refused };

    // A run may end without a text: a read failed, or memory ran out.
    ghost unread: { (command : Self) → StopsUnread Self.Answer (Runs command) };

    // A run of a text that is too long is one of any other such text.
    ghost long: { (command : Self) → TakesLongAlike Self.Answer (Runs command) };
}

/// Reads a source, and runs a command on its text.
///
/// It doesn't flush the sink.
pub fn run_command<C: Command, R: Source, W: Sink>(
    heap: C::Memory,
    reader: &mut R,
    writer: &mut W,
    command: C,
) -> Result<C::Answer, Fault>
    // After a bad text, one that is too long or a failed read, the sink is as it was.
    ensures nothing { IfErr result (LeavesSink writer.old writer.new) }

    // A device has failed exactly if its fault is returned.
    ensures reads { CountsFailure (R.failures reader.old) (R.failures reader.new) (is_read_failed result) }
    ensures writes { CountsFailure (W.failures writer.old) (W.failures writer.new) (is_write_failed result) }

    // Some bytes of the source were read, to its end but never more than 1,048,577, and the command was run on
    // these.
    ensures runs { RunsInput (C.Runs command) (R.left reader.old) (R.left reader.new)
        (W.written writer.old) (W.written writer.new) result }

    // If the input is known, the command was run on the whole input.
    ensures known { IfSome (R.left reader.old) (λ input. C.Runs command input
        (W.written writer.old) (W.written writer.new) result) }

    // It answers out of memory only where memory was refused.
    ensures memory { OnOutOfMemory result C.Memory.Refused }
{
    let input = read_input(heap, reader)?;
    command.on_text(heap, input, writer)
}
