//! The rights of one process at one path.
ghost use Rattle.std.specs.Prelude.{◌≡◌};
ghost use Rattle.histar_syscall.specs.KernelModel.{state};
ghost use Rattle.histar_cells.specs.OnePath.{AreRightsOf, FindsEntry, FindsSpot, spot_below};

use crate::cells::{Cell, visitor_at};
use histar_flat::{Name, Path, ProcName};
use histar_label::LabelStore;
use histar_layout::{Target, look_up_checked};
use histar_programs::Roots;
use histar_rights::Rights;
use histar_shell::Machine;
use histar_syscall::Kernel;

/// What is at a path, and the rights of a process there.
#[derive(Clone, Copy)]
struct Spot {
    target: Target,
    cell: Cell,
}

/// Returns the rights of a process at a path of a machine: none if nothing is at the path, or the process
/// doesn't run.
///
/// It goes down the one path, reads its directories in place, and looks up the one process. It takes no
/// memory, and costs the same in a machine with many files.
pub fn rights_of<S: LabelStore + Drop>(
    machine: &Machine<S>,
    path: &Path,
    process: &ProcName,
) -> Rights
    ensures { AreRightsOf machine.now path.now process.now result }
{
    let Some(visitor) = visitor_at(machine, process) else {
        return Rights::NONE;
    };
    match spot_at(machine.kernel(), machine.roots(), &visitor, path.names()) {
        Some(spot) => spot.cell.rights,
        None => Rights::NONE,
    }
}

/// Returns where the path of these names leads, of which the last comes first, and the rights of a process
/// there, given its rights above `/`.
fn spot_at<S: LabelStore + Drop>(
    kernel: &Kernel<S>,
    roots: &Roots,
    visitor: &Cell,
    names: &[Name],
) -> Option<Spot>
    ensures { FindsSpot (state kernel.now) roots.now visitor.now names.now result }
{
    let [name, above @ ..] = names else {
        let slash = Target::Directory(roots.slash.container, roots.slash.listing);
        return Some(spot_below(kernel, visitor, slash));
    };
    let directory = spot_at(kernel, roots, visitor, above)?;
    let target = entry_at(kernel, &directory.target, name)?;
    Some(spot_below(kernel, &directory.cell, target))
}

/// Returns where an entry leads, with the rights there, given the cell of its directory.
fn spot_below<S: LabelStore + Drop>(kernel: &Kernel<S>, above: &Cell, target: Target) -> Spot
    ensures { result ≡ spot_below (state kernel.now) above.now target }
{
    Spot {
        target,
        cell: above.below(kernel, target.object()),
    }
}

/// Returns where the entry of this name leads, if the directory has it.
pub(crate) fn entry_at<S: LabelStore + Drop>(
    kernel: &Kernel<S>,
    above: &Target,
    name: &Name,
) -> Option<Target>
    ensures { FindsEntry (state kernel.now) above.now name.now result }
{
    let Target::Directory(_, listing) = above else {
        return None;
    };
    let Ok(found) = look_up_checked(kernel.bytes(*listing), name) else {
        return None;
    };
    found
}
