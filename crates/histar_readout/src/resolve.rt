//! Resolving a path in the kernel's own table.
ghost use Rattle.histar_syscall.specs.KernelModel.{state};
ghost use Rattle.histar_readout.specs.Resolve.{Resolves};

use histar_flat::{Name, Path};
use histar_label::LabelStore;
use histar_layout::{Target, look_up_checked};
use histar_programs::Roots;
use histar_syscall::Kernel;

/// Resolves a path in a kernel's own objects: to the container and directory segment of a directory, or to
/// the segment of a file. Each directory above is read in place from that of `/` on, with no raw call and no
/// memory of its own. None where nothing is at the path, and where a segment on the way holds no directory.
pub fn resolve<S: LabelStore + Drop>(
    kernel: &Kernel<S>,
    roots: &Roots,
    path: &Path,
) -> Option<Target>
    ensures { Resolves (state kernel.now) roots.now path.now result }
{
    resolve_names(kernel, roots, path.names())
}

/// Resolves the path of these names, of which the last comes first, as `resolve` does.
pub fn resolve_names<S: LabelStore + Drop>(
    kernel: &Kernel<S>,
    roots: &Roots,
    names: &[Name],
) -> Option<Target>
    ensures { Resolves (state kernel.now) roots.now names.now result }
{
    let [name, above @ ..] = names else {
        return Some(Target::Directory(roots.slash.container, roots.slash.listing));
    };
    let Target::Directory(_, listing) = resolve_names(kernel, roots, above)? else {
        return None;
    };
    let Ok(found) = look_up_checked(kernel.bytes(listing), name) else {
        return None;
    };
    found
}
