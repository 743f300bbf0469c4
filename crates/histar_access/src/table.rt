//! Writing the table of a machine.
ghost use Rattle.std.specs.Prelude.{◌≡◌, IfErr, IfOk, OnErr, OnOk, [], map};
ghost use Rattle.std.specs.Io.KnownBytes.{Appends};
ghost use Rattle.histar_io.specs.Device.{CountsFailure};
ghost use Rattle.histar_io.specs.Writing.{AppendsFront};
ghost use Rattle.histar_rights.specs.Table.{access_line_text, access_text};
ghost use Rattle.histar_script.specs.Runs.{IsOutputFault, is_write_failed};
ghost use Rattle.histar_syscall.specs.KernelModel.{state};
ghost use Rattle.histar_access.specs.Cells.{line_of_node, lines_from, node_line, node_row};
ghost use Rattle.histar_access.specs.Rows.{last_or};
ghost use Rattle.histar_access.specs.Shown.{AppendsTable, BeginsTable, IsShown, visitors_in};

use crate::cells::{push_cells, row_below};
use histar_cells::{Cell, visitor_at};
use histar_io::{Sink, write_bytes};
use histar_label::LabelStore;
use histar_prefix::processes;
use histar_readout::{ProcessNode, TreeNode};
use histar_script::Fault;
use histar_shell::{Machine, push_stat};
use histar_texts::push_path;
use std::alloc::{AllocError, Global};

/// Writes a line for each file and directory of a machine, by rising paths, with the rights of each running
/// process.
///
/// It goes down the tree once: the rights at a path are those that its directory gives, narrowed by one test
/// of each label, with at most two comparisons for each path and process.
pub fn write_table<S: LabelStore + Drop, W: Sink>(
    alloc: Global,
    machine: &Machine<S>,
    writer: &mut W,
) -> Result<(), Fault>
    requires { IsShown machine.now }
    ensures ok { OnOk result (AppendsTable machine.now (W.written writer.old) (W.written writer.new)) }
    ensures err { OnErr result (BeginsTable machine.now (W.written writer.old) (W.written writer.new)) }
    ensures faults { IfErr result IsOutputFault }
    ensures count { CountsFailure (W.failures writer.old) (W.failures writer.new) (is_write_failed result) }
{
    let tree = machine.tree(alloc)?;
    let processes = processes(alloc, machine)?;
    let visitors = visitors_among(alloc, machine, processes.as_slice())?;
    write_lines(alloc, machine, visitors.as_slice(), tree.as_slice(), writer)
}

/// Returns the processes that run, each with its thread.
pub(crate) fn visitors_among<S: LabelStore + Drop>(
    alloc: Global,
    machine: &Machine<S>,
    processes: &[ProcessNode],
) -> Result<Vec<Cell>, AllocError>
    ensures { IfOk result (λ visitors. visitors.items ≡ visitors_in machine.now processes.now) }
{
    let mut visitors = Vec::new(alloc);
    for process in processes {
        if let Some(visitor) = visitor_at(machine, &process.name) {
            visitors.push(visitor)?;
        }
    }
    Ok(visitors)
}

/// Writes the lines of files and directories of a machine, each after that of its directory.
fn write_lines<S: LabelStore + Drop, W: Sink>(
    alloc: Global,
    machine: &Machine<S>,
    visitors: &[Cell],
    tree: &[TreeNode],
    writer: &mut W,
) -> Result<(), Fault>
    ensures ok { OnOk result (Appends (W.written writer.old) (W.written writer.new)
        (access_text (lines_from (state machine.now.kernel) visitors.now [] tree.now))) }
    ensures err { OnErr result (AppendsFront (W.written writer.old) (W.written writer.new)
        (access_text (lines_from (state machine.now.kernel) visitors.now [] tree.now))) }
    ensures faults { IfErr result IsOutputFault }
    ensures count { CountsFailure (W.failures writer.old) (W.failures writer.new) (is_write_failed result) }
{
    let mut way: Vec<Vec<Cell>> = Vec::new(alloc);
    'lines: for node in tree {
        way.truncate(node.path.depth());
        let above = last_row(way.as_slice(), visitors);
        let row = write_node(alloc, machine, above, node, writer)?;
        way.push(row)?;
    }
    Ok(())
}

/// Writes the line of a file or a directory, given the rights at the directory above it, and returns the
/// rights there.
fn write_node<S: LabelStore + Drop, W: Sink>(
    alloc: Global,
    machine: &Machine<S>,
    above: &[Cell],
    node: &TreeNode,
    writer: &mut W,
) -> Result<Vec<Cell>, Fault>
    ensures row { IfOk result (λ row. row.items ≡ node_row (state machine.now.kernel) above.now node.now) }
    ensures ok { OnOk result (Appends (W.written writer.old) (W.written writer.new)
        (node_line (state machine.now.kernel) above.now node.now)) }
    ensures err { OnErr result (AppendsFront (W.written writer.old) (W.written writer.new)
        (node_line (state machine.now.kernel) above.now node.now)) }
    ensures faults { IfErr result IsOutputFault }
    ensures count { CountsFailure (W.failures writer.old) (W.failures writer.new) (is_write_failed result) }
{
    let row = row_below(alloc, machine.kernel(), node.object(), above)?;
    let line = access_line(alloc, node, row.as_slice())?;
    write_bytes(writer, line.as_slice())?;
    Ok(row)
}

/// Returns the last of these rows, or that of the rights above `/` if there is none.
pub(crate) fn last_row<'a, T>(way: &'a [Vec<T>], start: &'a [T]) -> &'a [T]
    ensures { result.now ≡ last_or start.now (map (λ row. row.items) way.now) }
{
    match way.last() {
        Some(row) => row.as_slice(),
        None => start,
    }
}

/// Returns the line of a file or a directory, with the rights of processes there.
fn access_line(alloc: Global, node: &TreeNode, row: &[Cell]) -> Result<Vec<u8>, AllocError>
    ensures { IfOk result (λ line. line.items ≡ access_line_text (line_of_node node.now row.now)) }
{
    let mut line = Vec::new(alloc);
    push_path(alloc, &mut line, &node.path)?;
    line.extend_from_slice(b" ")?;
    push_stat(alloc, &mut line, node.stat())?;
    push_cells(&mut line, row)?;
    line.extend_from_slice(b"\n")?;
    Ok(line)
}
