//! Writing what follows the replies: the tree and the trace.
ghost use Rattle.std.specs.Prelude.{◌≡◌, ◌<◌, IfErr, IfOk, OnErr, OnOk, length};
ghost use Rattle.std.specs.Io.KnownBytes.{Appends};
ghost use Rattle.histar_io.specs.Device.{CountsFailure};
ghost use Rattle.histar_io.specs.Writing.{AppendsFront};
ghost use Rattle.histar_rawtext.specs.RawText.{trace_text};
ghost use Rattle.histar_script.specs.Memory.{OnOutOfMemory};
ghost use Rattle.histar_script.specs.Runs.{IsOutputFault, is_write_failed};
ghost use Rattle.histar_syscall.specs.KernelModel.{state};
ghost use Rattle.histar_readout.specs.TreeLines.{lines_at};
ghost use Rattle.histar_shell.specs.Ending.{AppendsEnding, AppendsTree, BeginsTheEnding, BeginsTree, HasTree};
ghost use Rattle.histar_shell.specs.Ending.{IsEntryLine, asked_trace};
ghost use Rattle.histar_shell.specs.TreeText.{tree_text};

use crate::machine::Machine;
use crate::output::tree_line;
use crate::session::Options;
use histar_heap::Heap;
use histar_io::{Sink, write_bytes};
use histar_label::LabelStore;
use histar_rawtext::trace_line;
use histar_readout::TreeNode;
use histar_script::Fault;
use histar_syscall::Trace;
use std::alloc::AllocError;

/// Writes the tree of a machine and then its trace, if they are asked for.
pub fn write_ending<H: Heap, S: LabelStore + Drop, W: Sink>(
    heap: H,
    machine: &Machine<S>,
    writer: &mut W,
    options: Options,
) -> Result<(), Fault>
    requires { HasTree machine.now }
    ensures ok { OnOk result (AppendsEnding options machine.now (W.written writer.old) (W.written writer.new)) }
    ensures err { OnErr result (BeginsTheEnding options machine.now (W.written writer.old)
        (W.written writer.new)) }
    ensures faults { IfErr result IsOutputFault }
    ensures count { CountsFailure (W.failures writer.old) (W.failures writer.new) (is_write_failed result) }
    ensures memory { OnOutOfMemory result H.Refused }
{
    write_tree(heap, machine, writer, options)?;
    write_trace(heap, machine.trace(), writer, options)
}

/// Writes the tree of a machine, if it is asked for.
fn write_tree<H: Heap, S: LabelStore + Drop, W: Sink>(
    heap: H,
    machine: &Machine<S>,
    writer: &mut W,
    options: Options,
) -> Result<(), Fault>
    requires { HasTree machine.now }
    ensures ok { OnOk result (AppendsTree options machine.now (W.written writer.old) (W.written writer.new)) }
    ensures err { OnErr result (BeginsTree options machine.now (W.written writer.old) (W.written writer.new)) }
    ensures faults { IfErr result IsOutputFault }
    ensures count { CountsFailure (W.failures writer.old) (W.failures writer.new) (is_write_failed result) }
    ensures memory { OnOutOfMemory result H.Refused }
{
    if !options.tree {
        return Ok(());
    }
    let tree = machine.tree(heap)?;
    write_nodes(heap, machine, tree.as_slice(), writer)
}

/// Writes the lines of files and directories of a machine.
fn write_nodes<H: Heap, S: LabelStore + Drop, W: Sink>(
    heap: H,
    machine: &Machine<S>,
    nodes: &[TreeNode],
    writer: &mut W,
) -> Result<(), Fault>
    ensures ok { OnOk result (Appends (W.written writer.old) (W.written writer.new)
        (tree_text (lines_at (state machine.now.kernel) nodes.now))) }
    ensures err { OnErr result (AppendsFront (W.written writer.old) (W.written writer.new)
        (tree_text (lines_at (state machine.now.kernel) nodes.now))) }
    ensures faults { IfErr result IsOutputFault }
    ensures count { CountsFailure (W.failures writer.old) (W.failures writer.new) (is_write_failed result) }
    ensures memory { OnOutOfMemory result H.Refused }
{
    'lines: for node in nodes {
        let bytes = machine.bytes_of(node);
        let line = tree_line(heap, &node.path, node.stat(), bytes)?;
        write_bytes(writer, line.as_slice())?;
    }
    Ok(())
}

/// Writes a trace, if it is asked for.
fn write_trace<H: Heap, W: Sink>(
    heap: H,
    trace: &Trace,
    writer: &mut W,
    options: Options,
) -> Result<(), Fault>
    ensures ok { OnOk result (Appends (W.written writer.old) (W.written writer.new)
        (asked_trace options trace.now.entries)) }
    ensures err { OnErr result (AppendsFront (W.written writer.old) (W.written writer.new)
        (asked_trace options trace.now.entries)) }
    ensures faults { IfErr result IsOutputFault }
    ensures count { CountsFailure (W.failures writer.old) (W.failures writer.new) (is_write_failed result) }
    ensures memory { OnOutOfMemory result H.Refused }
{
    if !options.trace {
        return Ok(());
    }
    write_entries(heap, trace, writer)
}

/// Writes the lines of the entries of a trace.
fn write_entries<H: Heap, W: Sink>(heap: H, trace: &Trace, writer: &mut W) -> Result<(), Fault>
    ensures ok { OnOk result (Appends (W.written writer.old) (W.written writer.new)
        (trace_text trace.now.entries)) }
    ensures err { OnErr result (AppendsFront (W.written writer.old) (W.written writer.new)
        (trace_text trace.now.entries)) }
    ensures faults { IfErr result IsOutputFault }
    ensures count { CountsFailure (W.failures writer.old) (W.failures writer.new) (is_write_failed result) }
    ensures memory { OnOutOfMemory result H.Refused }
{
    'lines: for at in 0..trace.len() {
        let line = entry_line(heap, trace, at)?;
        write_bytes(writer, line.as_slice())?;
    }
    Ok(())
}

/// Returns the line of the entry at a place of a trace.
fn entry_line<H: Heap>(heap: H, trace: &Trace, at: usize) -> Result<Vec<u8>, AllocError>
    requires { at < length trace.now.entries }
    ensures ok { IfOk result (λ line. IsEntryLine trace.now.entries at line.items) }
    ensures memory { OnErr result H.Refused }
{
    let entry = trace.entry(heap, at)?;
    let line = trace_line(heap, &entry);
    drop(entry);
    line
}
