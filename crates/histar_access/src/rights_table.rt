//! The table of a machine, as a value.
ghost use Rattle.std.specs.Prelude.{◌≡◌, IfOk, OnOk, [], map};
ghost use Rattle.std.specs.List.{filter_map};
ghost use Rattle.histar_diff.specs.Shown.{rights_line};
ghost use Rattle.histar_diff.specs.Tables.{by_path};
ghost use Rattle.histar_syscall.specs.KernelModel.{state};
ghost use Rattle.histar_access.specs.Cells.{cell_rights, line_of_node, lines_from, node_row};
ghost use Rattle.histar_access.specs.Shown.{IsShown};
ghost use Rattle.histar_access.specs.RightsTable.{AddsLine, IsTableBy, line_rights, runner_of, ShowsTable};

use crate::cells::row_below;
use crate::table::{last_row, visitors_among};
use histar_cells::Cell;
use histar_diff::{Runner, Table, TableLine};
use histar_label::LabelStore;
use histar_prefix::processes;
use histar_readout::{Life, ProcessNode, TreeNode};
use histar_rights::Rights;
use histar_shell::Machine;
use std::alloc::{AllocError, Global};

/// Returns who may do what in a machine: the running processes with their users, and their rights at each
/// path. It goes down the tree once, as `write_table` does.
pub fn table_of<S: LabelStore + Drop>(
    alloc: Global,
    machine: &Machine<S>,
) -> Result<Table, AllocError>
    requires { IsShown machine.now }
    ensures { IfOk result (ShowsTable machine.now) }
{
    let tree = machine.tree(alloc)?;
    let processes = processes(alloc, machine)?;
    table_by(alloc, machine, processes.as_slice(), tree.as_slice())
}

/// Returns the running ones of these processes with their users, and their rights at the files and
/// directories of a machine.
fn table_by<S: LabelStore + Drop>(
    alloc: Global,
    machine: &Machine<S>,
    processes: &[ProcessNode],
    tree: &[TreeNode],
) -> Result<Table, AllocError>
    ensures { IfOk result (IsTableBy machine.now processes.now tree.now) }
{
    let visitors = visitors_among(alloc, machine, processes)?;
    let lines = table_lines(alloc, machine, visitors.as_slice(), tree)?;
    let runners = runners_among(alloc, processes)?;
    Ok(Table {
        processes: runners,
        lines,
    })
}

/// Returns the processes that run, each with its user.
fn runners_among(alloc: Global, processes: &[ProcessNode]) -> Result<Vec<Runner>, AllocError>
    ensures { IfOk result (λ runners. runners.items ≡ filter_map runner_of processes.now) }
{
    let mut runners = Vec::new(alloc);
    for process in processes {
        if let Some(runner) = runner_of(process) {
            runners.push(runner)?;
        }
    }
    Ok(runners)
}

/// Returns a process with its user, if it runs.
fn runner_of(process: &ProcessNode) -> Option<Runner>
    ensures { result ≡ runner_of process.now }
{
    match &process.life {
        Life::Running { user, .. } => Some(Runner {
            process: process.name,
            user: *user,
        }),
        Life::Exited(_) => None,
    }
}

/// Returns the rights at the files and directories of a machine, each computed from those at its directory.
fn table_lines<S: LabelStore + Drop>(
    alloc: Global,
    machine: &Machine<S>,
    visitors: &[Cell],
    tree: &[TreeNode],
) -> Result<Vec<TableLine>, AllocError>
    ensures { IfOk result (λ lines. by_path lines.items
        ≡ map rights_line (lines_from (state machine.now.kernel) visitors.now [] tree.now)) }
{
    let mut way: Vec<Vec<Cell>> = Vec::new(alloc);
    let mut lines = Vec::new(alloc);
    'nodes: for node in tree {
        way.truncate(node.path.depth());
        let above = last_row(way.as_slice(), visitors);
        let row = add_node(alloc, machine, above, node, &mut lines)?;
        way.push(row)?;
    }
    Ok(lines)
}

/// Adds the line of a file or a directory, given the rights at the directory above it, and returns the
/// rights there.
fn add_node<S: LabelStore + Drop>(
    alloc: Global,
    machine: &Machine<S>,
    above: &[Cell],
    node: &TreeNode,
    lines: &mut Vec<TableLine>,
) -> Result<Vec<Cell>, AllocError>
    ensures row { IfOk result (λ row. row.items ≡ node_row (state machine.now.kernel) above.now node.now) }
    ensures line { OnOk result (AddsLine node.now (node_row (state machine.now.kernel) above.now node.now)
        lines.old.items lines.new.items) }
{
    let row = row_below(alloc, machine.kernel(), node.object(), above)?;
    let line = table_line(alloc, node, row.as_slice())?;
    lines.push(line)?;
    Ok(row)
}

/// Returns the rights of processes at a file or a directory.
fn table_line(alloc: Global, node: &TreeNode, row: &[Cell]) -> Result<TableLine, AllocError>
    ensures { IfOk result (λ line.
        line_rights line ≡ rights_line (line_of_node node.now row.now)) }
{
    let rights = rights_in(alloc, row)?;
    Ok(TableLine {
        path: node.path,
        rights,
    })
}

/// Returns the rights of each cell.
fn rights_in(alloc: Global, row: &[Cell]) -> Result<Vec<Rights>, AllocError>
    ensures { IfOk result (λ rights. rights.items ≡ map cell_rights row.now) }
{
    let mut rights = Vec::with_capacity(alloc, row.len())?;
    for cell in row {
        rights.push(cell.rights)?;
    }
    Ok(rights)
}
