//! The rights of processes at one path.
ghost use Rattle.std.specs.Prelude.{◌≡◌, ◌++◌, IfOk, OnOk};
ghost use Rattle.std.specs.List.{flat_map};
ghost use Rattle.histar_syscall.specs.KernelModel.{state};
ghost use Rattle.histar_access.specs.Cells.{row_below, shown_text};

use histar_cells::Cell;
use histar_label::LabelStore;
use histar_object::ObjId;
use histar_syscall::Kernel;
use histar_texts::push_process;
use std::alloc::{AllocError, Global};

/// Returns the rights of processes at an entry of a directory, given those at the directory.
pub fn row_below<S: LabelStore + Drop>(
    alloc: Global,
    kernel: &Kernel<S>,
    object: ObjId,
    above: &[Cell],
) -> Result<Vec<Cell>, AllocError>
    ensures { IfOk result (λ row. row.items ≡ row_below (state kernel.now) object above.now) }
{
    let mut row = Vec::with_capacity(alloc, above.len())?;
    for cell in above {
        row.push(cell.below(kernel, object))?;
    }
    Ok(row)
}

/// Adds the text of each cell.
pub fn push_cells(line: &mut Vec<u8>, row: &[Cell]) -> Result<(), AllocError>
    ensures { OnOk result (line.new.items ≡ line.old.items ++ flat_map shown_text row.now) }
{
    for cell in row {
        push_cell(line, cell)?;
    }
    Ok(())
}

/// Adds a space, the process, a colon and the letters of its rights.
fn push_cell(line: &mut Vec<u8>, cell: &Cell) -> Result<(), AllocError>
    ensures { OnOk result (line.new.items ≡ line.old.items ++ shown_text cell.now) }
{
    line.extend_from_slice(b" ")?;
    push_process(*line.allocator(), line, &cell.process)?;
    line.extend_from_slice(b":")?;
    cell.rights.push_letters(line)
}
