//! Labels by their exceptions, and the labels of files.
ghost use Rattle.std.specs.Prelude.{◌≡◌, ℕ, IfOk, OnOk, length, OnErr};
ghost use Rattle.histar_layout.specs.Categories.{IsUserOf, file_label, label_made, read_category, scratch_label, write_category};
ghost use Rattle.histar_layout.specs.Labelling.{each_at, guarded_by, labelled, secret_of, with_levels};

use crate::categories::{read_category, write_category};
use crate::jobs::{is_in_job, jobs_in};
use crate::owners::owner_of_group;
use crate::user_table::UserTable;
use histar_flat::Mode;
use histar_heap::Heap;
use histar_label::{Category, Label, Level};
use std::alloc::AllocError;

/// Makes a label with one level for all categories except a few.
pub fn label_of<H: Heap>(
    heap: H,
    default: Level,
    exceptions: &[(Category, Level)],
) -> Result<Label, AllocError>
    ensures ok { IfOk result (λ v. v ≡ labelled exceptions.now default) }
    ensures memory { OnErr result H.Refused }
{
    let mut label = Label::with_room(heap, default, exceptions.len())?;
    for &(category, level) in exceptions {
        label.set(heap, category, level)?;
    }
    Ok(label)
}

/// Makes the label of an object with secrets of the first categories, which the owners of the others may
/// write.
pub fn guarded_by<H: Heap>(
    heap: H,
    secret: &[Category],
    written: &[Category],
) -> Result<Label, AllocError>
    ensures ok { IfOk result (λ label. label ≡ guarded_by secret.now written.now) }
    ensures memory { OnErr result H.Refused }
{
    let mut label = Label::with_room(heap, Level::L1, secret.len() + written.len())?;
    set_each(heap, &mut label, Level::L3, secret)?;
    set_each(heap, &mut label, Level::L0, written)?;
    Ok(label)
}

/// Sets one level at each of these categories, and leaves all others as before. Where memory runs out it has set some.
pub fn set_each<H: Heap>(
    heap: H,
    label: &mut Label,
    level: Level,
    categories: &[Category],
) -> Result<(), AllocError>
    ensures ok { OnOk result (label.new ≡ with_levels label.old (each_at level categories.now)) }
    ensures memory { OnErr result H.Refused }
{
    for &category in categories {
        label.set(heap, category, level)?;
    }
    Ok(())
}

/// Returns the number of the user whose read category a thread owns by its label: 0, nobody's, where it owns
/// none. Like the kernel, it decides by the label alone whose thread it is.
pub fn user_of(own: &Label, users: &UserTable) -> u8
    ensures { IsUserOf own.now (length users.now.users) result }
{
    let count = users.len() as u8;
    for before in 0..count {
        if own.get(read_category(before + 1)).is_star() {
            return before + 1;
        }
    }
    0
}

/// Makes the label of an object that one user or group alone may read and write.
pub fn secret_of<H: Heap>(heap: H, owner: u8) -> Result<Label, AllocError>
    ensures ok { IfOk result (λ label. label ≡ secret_of (read_category owner) (write_category owner)) }
    ensures memory { OnErr result H.Refused }
{
    let (read, write) = (read_category(owner), write_category(owner));
    label_of(heap, Level::L1, &[(read, Level::L3), (write, Level::L0)])
}

/// Makes the label of an object that a user makes in jobs with these categories.
pub fn scratch_label<H: Heap>(heap: H, user: u8, jobs: &[Category]) -> Result<Label, AllocError>
    ensures ok { IfOk result (λ label. label ≡ scratch_label user jobs.now) }
    ensures memory { OnErr result H.Refused }
{
    let mut secret = heap.copy_of(&[read_category(user)])?;
    heap.extend(&mut secret, jobs)?;
    guarded_by(heap, secret.as_slice(), &[])
}

/// Makes the label of a file that a user makes in no job, in this mode. No thread owns nobody's categories,
/// so nobody may make no file with them, and nobody makes a file for a group that is not declared.
fn file_label<H: Heap>(
    heap: H,
    users: &UserTable,
    mode: Mode,
    user: u8,
) -> Result<Label, AllocError>
    ensures ok { IfOk result (λ label. label ≡ file_label users.now mode user) }
    ensures memory { OnErr result H.Refused }
{
    match mode {
        Mode::Readable => label_of(heap, Level::L1, &[(write_category(user), Level::L0)]),
        Mode::Private => secret_of(heap, user),
        Mode::Open => label_of(heap, Level::L1, &[]),
        Mode::Group(name) => secret_of(heap, owner_of_group(users, name)),
    }
}

/// Makes the label of a file that a thread of this label makes. In jobs the mode doesn't count: the file is
/// for the jobs.
pub fn label_made<H: Heap>(
    heap: H,
    own: &Label,
    users: &UserTable,
    mode: Mode,
) -> Result<Label, AllocError>
    ensures ok { IfOk result (λ label. label ≡ label_made users.now own.now mode) }
    ensures memory { OnErr result H.Refused }
{
    let user = user_of(own, users);
    if !is_in_job(own) {
        return file_label(heap, users, mode, user);
    }
    let jobs = jobs_in(heap, own)?;
    scratch_label(heap, user, jobs.as_slice())
}
