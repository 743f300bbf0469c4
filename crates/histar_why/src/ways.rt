//! The way to a path, directory by directory from `/` on, read off a kernel's own objects.
ghost use Rattle.std.specs.Prelude.{◌≡◌, ◌≤◌, length, option_map, IfOk};
ghost use Rattle.histar_flat.specs.Words.{most_names};
ghost use Rattle.histar_readout.specs.TreeEntries.{file_bytes_at};
ghost use Rattle.histar_syscall.specs.KernelModel.{state};
ghost use Rattle.histar_why.specs.Causes.{jobs_by};
ghost use Rattle.histar_why.specs.Names.{process_of};
ghost use Rattle.histar_why.specs.Barriers.{IsOnWay, barrier_of, path_at};
ghost use Rattle.histar_why.specs.Ways.{FindsBelow, FindsEntry, FindsListed, FindsSpot, IsWayTo};
ghost use Rattle.histar_why.specs.Ways.{ShowsClass, StopsAt, why_into_by};

use crate::causes::{Cause, unread, unwritten};
use crate::names::{Caller, Reader, names_of};
use histar_flat::{Name, Path, ProcName};
use histar_label::{Label, LabelStore};
use histar_layout::{Class, ShownClass, Target, UserTable, class_of, look_up_checked, shown_class};
use histar_names::Purpose;
use histar_syscall::Kernel;
use std::alloc::{AllocError, Global};

/// What is at a path, and what the process may not do there.
#[derive(Clone, Copy)]
pub(crate) struct Seen {
    pub is_directory: bool,
    /// How many bytes it has, if it is a file.
    pub bytes: usize,
    /// Why the process may not read it; why it may not write it.
    pub unread: Option<Cause>,
    pub unwritten: Option<Cause>,
}

/// Where a path leads, and what is there.
#[derive(Clone, Copy)]
pub(crate) struct Spot {
    pub target: Target,
    pub seen: Seen,
}

/// What stops a process on its way to a path.
#[derive(Clone, Copy)]
pub(crate) struct Barrier {
    /// How many names the path has that it can't walk into.
    pub depth: usize,
    pub what: Obstacle,
}

/// Why a process can't walk into a path.
#[derive(Clone, Copy)]
pub(crate) enum Obstacle {
    /// Nothing is there; a file is.
    IsMissing,
    HasFile,
    /// The process may not read the directory that is there.
    MayNotRead(Cause),
}

/// The way to a path.
#[derive(Clone, Copy)]
pub(crate) struct Way {
    /// What stops the process before the path.
    pub walk: Option<Barrier>,
    /// What is at the directory of the path.
    pub above: Option<Spot>,
    /// What is at the path.
    pub here: Option<Spot>,
}

/// Returns the way to the path of these names, of which the last comes first. Each directory is
/// read in place.
pub(crate) fn way_to<S: LabelStore + Drop>(
    alloc: Global,
    reader: &Reader<S>,
    caller: &Caller,
    names: &[Name],
) -> Result<Way, AllocError>
    requires { length names.now ≤ most_names }
    ensures { IfOk result (IsWayTo reader.now.users.now reader.now.roots.now reader.now.births.now
        (state reader.now.kernel.now) (process_of caller.now) names.now) }
{
    let [name, directory @ ..] = names else {
        let slash = reader.roots.slash;
        let slash = Target::Directory(slash.container, slash.listing);
        let here = spot_of(alloc, reader, caller, slash)?;
        return Ok(Way {
            walk: None,
            above: here,
            here,
        });
    };
    let way = way_to(alloc, reader, caller, directory)?;
    Ok(Way {
        walk: barrier_into(&way, directory),
        above: way.here,
        here: spot_below(alloc, reader, caller, &way.here, name)?,
    })
}

/// Returns what stops the process before it is in the directory of these names, by the way to it.
fn barrier_into(way: &Way, names: &[Name]) -> Option<Barrier>
    ensures into { option_map (barrier_of names.now) result ≡ why_into_by way.now names.now }
    ensures near { IsOnWay names.now way.now.walk → IsOnWay names.now result }
{
    if let Some(barrier) = way.walk {
        return Some(barrier);
    }
    match obstacle_at(&way.here) {
        Some(what) => Some(Barrier {
            depth: names.len(),
            what,
        }),
        None => None,
    }
}

/// Returns why the process can't walk into what is there.
fn obstacle_at(spot: &Option<Spot>) -> Option<Obstacle>
    ensures { StopsAt spot.now result }
{
    match spot {
        None => Some(Obstacle::IsMissing),
        Some(spot) if !spot.seen.is_directory => Some(Obstacle::HasFile),
        Some(spot) => match spot.seen.unread {
            Some(cause) => Some(Obstacle::MayNotRead(cause)),
            None => None,
        },
    }
}

/// Returns what is at the entry of this name, if a directory is there that has it.
fn spot_below<S: LabelStore + Drop>(
    alloc: Global,
    reader: &Reader<S>,
    caller: &Caller,
    directory: &Option<Spot>,
    name: &Name,
) -> Result<Option<Spot>, AllocError>
    ensures { IfOk result (FindsBelow reader.now.users.now reader.now.births.now
        (state reader.now.kernel.now) (process_of caller.now) directory.now name.now) }
{
    match directory {
        None => Ok(None),
        Some(spot) => spot_listed(alloc, reader, caller, &spot.target, name),
    }
}

/// Returns what is at the entry of this name of a target, if it has one.
fn spot_listed<S: LabelStore + Drop>(
    alloc: Global,
    reader: &Reader<S>,
    caller: &Caller,
    above: &Target,
    name: &Name,
) -> Result<Option<Spot>, AllocError>
    ensures { IfOk result (FindsListed reader.now.users.now reader.now.births.now
        (state reader.now.kernel.now) (process_of caller.now) above.now name.now) }
{
    let Some(target) = entry_at(reader.kernel, above, name) else {
        return Ok(None);
    };
    spot_of(alloc, reader, caller, target)
}

/// Returns where the entry of this name leads, if the directory has it.
fn entry_at<S: LabelStore + Drop>(kernel: &Kernel<S>, above: &Target, name: &Name) -> Option<Target>
    ensures { FindsEntry (state kernel.now) above.now name.now result }
{
    let Target::Directory(_, listing) = above else {
        return None;
    };
    let Ok(found) = look_up_checked(kernel.bytes(*listing), name) else {
        return None;
    };
    found
}

/// Returns what is at a target: its object has a label, which is of a class.
fn spot_of<S: LabelStore + Drop>(
    alloc: Global,
    reader: &Reader<S>,
    caller: &Caller,
    target: Target,
) -> Result<Option<Spot>, AllocError>
    ensures { IfOk result (FindsSpot reader.now.users.now reader.now.births.now
        (state reader.now.kernel.now) (process_of caller.now) target) }
{
    let Some(label) = reader.kernel.label(target.object()) else {
        return Ok(None);
    };
    let Some(class) = class_in(alloc, label, reader.users)? else {
        return Ok(None);
    };
    let jobs = jobs_of(alloc, reader.births, &class)?;
    let seen = Seen {
        is_directory: target.is_directory(),
        bytes: bytes_at(reader.kernel, &target),
        unread: unread(reader.users, caller, &class, jobs.as_slice()),
        unwritten: unwritten(reader.users, caller, &class, jobs.as_slice()),
    };
    Ok(Some(Spot { target, seen }))
}

/// Returns the class of a label, if it has one. The label of a file of no job is not compared with that
/// of its class.
fn class_in(alloc: Global, label: &Label, users: &UserTable) -> Result<Option<Class>, AllocError>
    ensures { IfOk result (ShowsClass users.now label.now) }
{
    let Some(shown) = shown_class(label, users) else {
        return Ok(None);
    };
    let class = match shown {
        ShownClass::Private(owner) => Class::Private(owner),
        ShownClass::Readable(owner) => Class::Readable(owner),
        ShownClass::Open => Class::Open,
        ShownClass::Scratch(_) => return class_of(alloc, label, users),
        ShownClass::Group(group) => Class::Group(group),
    };
    Ok(Some(class))
}

/// Returns the names of the jobs of a class.
fn jobs_of(
    alloc: Global,
    births: &[Option<Purpose>],
    class: &Class,
) -> Result<Vec<ProcName>, AllocError>
    ensures { IfOk result (λ names. names.items ≡ jobs_by births.now class.now) }
{
    match class {
        Class::Scratch(_, chain) => names_of(alloc, births, chain.as_slice()),
        _ => Ok(Vec::new(alloc)),
    }
}

/// Counts the bytes of a file. A directory has none.
fn bytes_at<S: LabelStore + Drop>(kernel: &Kernel<S>, target: &Target) -> usize
    ensures { result ≡ length (file_bytes_at (state kernel.now) target.now) }
{
    match target {
        Target::File(file) => kernel.bytes(*file).len(),
        Target::Directory(_, _) => 0,
    }
}

/// Returns the path of these names, of which the last comes first.
pub(crate) fn path_of(names: &[Name]) -> Path
    requires { length names.now ≤ most_names }
    ensures { result ≡ names.now }
{
    match names {
        [] => Path::root(),
        [name, above @ ..] => path_of(above).entry(*name),
    }
}

/// Returns the path on the way to the one of these names, of which the last comes first, that has so
/// many names.
pub(crate) fn path_at(names: &[Name], depth: usize) -> Path
    requires { length names.now ≤ most_names }
    ensures { result ≡ path_at depth names.now }
{
    let [_, above @ ..] = names else {
        return Path::root();
    };
    if above.len() < depth {
        path_of(names)
    } else {
        path_at(above, depth)
    }
}
