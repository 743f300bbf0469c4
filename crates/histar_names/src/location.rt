//! What an object is.
ghost use Rattle.std.specs.Prelude.{◌≡◌, ◌==◌, ◌≤◌, length};
ghost use Rattle.std.specs.Option.{option_copied};
ghost use Rattle.histar_flat.specs.Accounts.{most_users};
ghost use Rattle.histar_flat.specs.Words.{most_names, most_numbers};
ghost use Rattle.histar_syscall.specs.KernelModel.{state};
ghost use Rattle.histar_layout.specs.Status.{status_in};
ghost use Rattle.histar_programs.specs.Caller.{status_at};
ghost use Rattle.histar_names.specs.Location.{at_path, is_inside, is_of_target, is_part, is_target, left_location};
ghost use Rattle.histar_names.specs.Location.{listing_in, of_process, path_up, process_up, location_of, target_at};
ghost use Rattle.histar_names.specs.Location.{users_own};

use crate::homes::name_of;
use crate::names::Names;
use histar_flat::{Name, Path, ProcName};
use histar_label::LabelStore;
use histar_layout::{Target, look_up, read_status};
use histar_object::ObjId;
use histar_programs::{Home, Roots, home_at};
use histar_syscall::Kernel;

/// What an object is.
#[derive(Clone, Copy)]
pub(crate) enum Location {
    /// The root container.
    Root,
    /// The password of the user of this number.
    Password(usize),
    /// The gate of the user of this number.
    Gate(usize),
    /// The user table.
    Users,
    /// The file or directory at this path, or the directory segment of the directory there.
    At(Path),
    /// A container, the process segment or the thread of a process.
    Part(ProcName),
}

/// Returns the password or the gate of the user to whom an object belongs.
fn users_own(number: usize) -> Location
    requires { 3 ≤ number }
    ensures { result ≡ users_own number }
{
    let user = (number - 1) / 2;
    if number % 2 == 1 {
        Location::Password(user)
    } else {
        Location::Gate(user)
    }
}

/// Returns what boot left in the root container under a number, with this many users.
fn left_location(users: usize, object: ObjId) -> Option<Location>
    requires { users ≤ most_users }
    ensures { result ≡ left_location users object }
{
    let (number, table) = (object.number() as usize, 3 + 2 * users);
    if number == 1 {
        Some(Location::Root)
    } else if number >= 3 && number < table {
        Some(users_own(number))
    } else if number == table {
        Some(Location::Users)
    } else {
        None
    }
}

/// Returns the directory segment of a directory.
fn listing_in(target: Target) -> Option<ObjId>
    ensures { result ≡ listing_in target }
{
    match target {
        Target::File(_) => None,
        Target::Directory(_, listing) => Some(listing),
    }
}

/// Returns where the path of these names leads, the last name first.
fn target_at<S: LabelStore + Drop>(
    kernel: &Kernel<S>,
    roots: &Roots,
    names: &[Name],
) -> Option<Target>
    ensures { result ≡ target_at (state kernel.now) roots.now names.now }
{
    let [name, above @ ..] = names else {
        return Some(Target::Directory(roots.slash.container, roots.slash.listing));
    };
    let directory = target_at(kernel, roots, above)?;
    let listing = listing_in(directory)?;
    look_up(kernel.bytes(listing), name)
}

/// Checks whether two objects are the same.
fn is_same(object: ObjId, other: ObjId) -> bool
    ensures { result ≡ (object == other) }
{
    object.number() == other.number()
}

/// Checks whether an object is a file's segment, or one of the two objects of a directory.
fn is_of_target(object: ObjId, target: Target) -> bool
    ensures { result ≡ is_of_target object target }
{
    match target {
        Target::File(file) => is_same(object, file),
        Target::Directory(container, listing) => {
            is_same(object, container) || is_same(object, listing)
        }
    }
}

/// Checks whether an object is one of those of a target that is there.
fn is_target(object: ObjId, target: Option<Target>) -> bool
    ensures { result ≡ is_target object target }
{
    match target {
        None => false,
        Some(target) => is_of_target(object, target),
    }
}

/// Returns the path of these names.
fn path_of(names: &[Name]) -> Path
    requires { length names.now ≤ most_names }
    ensures { result ≡ names.now }
{
    match names {
        [] => Path::root(),
        [name, above @ ..] => path_of(above).entry(*name),
    }
}

/// Returns the path of an object, where it is the path of these names or one above it.
fn path_among<S: LabelStore + Drop>(
    kernel: &Kernel<S>,
    roots: &Roots,
    object: ObjId,
    names: &[Name],
) -> Option<Path>
    requires { length names.now ≤ most_names }
    ensures { result ≡ path_up (state kernel.now) roots.now object names.now }
{
    if is_target(object, target_at(kernel, roots, names)) {
        return Some(path_of(names));
    }
    let [_, above @ ..] = names else {
        return None;
    };
    path_among(kernel, roots, object, above)
}

/// Returns the path of an object, where it is this one or one above it.
fn path_up<S: LabelStore + Drop>(
    kernel: &Kernel<S>,
    roots: &Roots,
    object: ObjId,
    path: &Path,
) -> Option<Path>
    ensures { result ≡ path_up (state kernel.now) roots.now object path.now }
{
    let names = path.names();
    if is_target(object, target_at(kernel, roots, names)) {
        return Some(*path);
    }
    let [_, directory @ ..] = names else {
        return None;
    };
    path_among(kernel, roots, object, directory)
}

/// Checks whether an object is the internal container or the thread of a process that runs, by the bytes of
/// its segment.
fn is_inside(object: ObjId, segment: &[u8]) -> bool
    ensures { result ≡ is_inside object (status_in segment.now) }
{
    let Some(head) = read_status(segment) else {
        return false;
    };
    head.exited.is_none() && (is_same(object, head.internal) || is_same(object, head.thread))
}

/// Checks whether an object is a part of the process that is found there.
fn is_part<S: LabelStore + Drop>(kernel: &Kernel<S>, object: ObjId, home: Option<Home>) -> bool
    ensures { result ≡ is_part (state kernel.now) object home }
{
    let Some(home) = home else {
        return false;
    };
    is_same(object, home.container)
        || is_same(object, home.segment)
        || is_inside(object, kernel.bytes(home.segment))
}

/// Returns the process that an object is a part of, where it is this one or one above it.
fn process_up<S: LabelStore + Drop>(
    kernel: &Kernel<S>,
    roots: &Roots,
    object: ObjId,
    numbers: &[u8],
) -> Option<ProcName>
    requires { length numbers.now ≤ most_numbers }
    ensures { result ≡ process_up (state kernel.now) roots.now.home object numbers.now }
{
    if is_part(kernel, object, home_at(kernel, roots.home, numbers)) {
        return Some(name_of(numbers));
    }
    let [_, above @ ..] = numbers else {
        return None;
    };
    process_up(kernel, roots, object, above)
}

/// Returns what an object is.
pub(crate) fn location_of<S: LabelStore + Drop>(names: &Names<S>, object: ObjId) -> Option<Location>
    ensures { result ≡ location_of names.now.users.now names.now.roots.now (state names.now.kernel.now)
        names.now.clue.now object }
{
    let (kernel, roots, clue) = (names.kernel, names.roots, names.clue);
    if let Some(location) = left_location(names.users.len(), object) {
        return Some(location);
    }
    if let Some(path) = path_up(kernel, roots, object, &clue.path) {
        return Some(Location::At(path));
    }
    if let Some(process) = process_up(kernel, roots, object, clue.caller.numbers()) {
        return Some(Location::Part(process));
    }
    let process = process_up(kernel, roots, object, clue.named.numbers())?;
    Some(Location::Part(process))
}
