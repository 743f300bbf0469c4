//! The rights of a user at one path.
ghost use Rattle.std.specs.Prelude.{IfOk};
ghost use Rattle.histar_syscall.specs.KernelModel.{state};
ghost use Rattle.histar_cells.specs.ByUser.{AreRightsOfUser, FindsClassAt, FindsNarrowed, FindsUserSpot};

use crate::by_class::{from_above, user_below};
use crate::one_path::entry_at;
use histar_flat::{Name, Path};
use histar_label::LabelStore;
use histar_layout::{Class, Target, UserTable, class_of};
use histar_object::ObjId;
use histar_programs::Roots;
use histar_rights::{Rights, UserRights};
use histar_shell::Machine;
use histar_syscall::Kernel;
use std::alloc::{AllocError, Global};

/// What is at a path, and the rights of a user there.
#[derive(Clone, Copy)]
struct UserSpot {
    target: Target,
    there: UserRights,
}

/// Where directories and labels are read from, and whose.
#[derive(Drop)]
struct Source<'a, S: LabelStore + Drop> {
    kernel: &'a Kernel<S>,
    roots: &'a Roots,
    users: &'a UserTable,
}

/// Returns the rights of a user at a path of a machine: those of a process that has just logged in as the user, is
/// in no job and holds none. None if nothing is at the path.
///
/// It goes down the one path, reads its directories in place, and takes memory for the class of one object at a
/// time: it costs the same in a machine with many files.
pub fn rights_of_user<S: LabelStore + Drop>(
    alloc: Global,
    machine: &Machine<S>,
    path: &Path,
    user: Name,
) -> Result<Rights, AllocError>
    ensures { IfOk result (AreRightsOfUser machine.now path.now user) }
{
    let source = Source {
        kernel: machine.kernel(),
        roots: machine.roots(),
        users: machine.users(),
    };
    match spot_at(alloc, &source, user, path.names())? {
        Some(spot) => Ok(spot.there.rights),
        None => Ok(Rights::NONE),
    }
}

/// Returns where the path of these names leads, of which the last comes first, and the rights of a user there.
fn spot_at<S: LabelStore + Drop>(
    alloc: Global,
    source: &Source<S>,
    user: Name,
    names: &[Name],
) -> Result<Option<UserSpot>, AllocError>
    ensures { IfOk result (FindsUserSpot source.now.users.now (state source.now.kernel.now)
        source.now.roots.now user names.now) }
{
    let [name, above @ ..] = names else {
        let slash = &source.roots.slash;
        let target = Target::Directory(slash.container, slash.listing);
        return narrowed(alloc, source, from_above(user), target);
    };
    let Some(directory) = spot_at(alloc, source, user, above)? else {
        return Ok(None);
    };
    let Some(target) = entry_at(source.kernel, &directory.target, name) else {
        return Ok(None);
    };
    narrowed(alloc, source, directory.there, target)
}

/// Returns this target with the rights of a user there, given those at its directory, if it is of a class.
fn narrowed<S: LabelStore + Drop>(
    alloc: Global,
    source: &Source<S>,
    above: UserRights,
    target: Target,
) -> Result<Option<UserSpot>, AllocError>
    ensures { IfOk result (FindsNarrowed source.now.users.now (state source.now.kernel.now) target above) }
{
    let Some(class) = class_at(alloc, source, target.object())? else {
        return Ok(None);
    };
    let there = user_below(source.users, &class, above);
    Ok(Some(UserSpot { target, there }))
}

/// Returns the class of an object, if its label is of one.
fn class_at<S: LabelStore + Drop>(
    alloc: Global,
    source: &Source<S>,
    object: ObjId,
) -> Result<Option<Class>, AllocError>
    ensures { IfOk result (FindsClassAt source.now.users.now (state source.now.kernel.now) object) }
{
    let Some(label) = source.kernel.label(object) else {
        return Ok(None);
    };
    class_of(alloc, label, source.users)
}
