//! The rights of a user at an entry of a directory, by the class of the entry.
ghost use Rattle.std.specs.Prelude.{◌≡◌};
ghost use Rattle.histar_flat.specs.Accounts.{is_member as has_member};
ghost use Rattle.histar_flat.specs.Classes.{nobody};
ghost use Rattle.histar_cells.specs.ByClass.{class_reads, class_writes, from_above, is_none, user_below};

use histar_flat::{Name, read_name};
use histar_label::Category;
use histar_layout::{Class, UserTable};
use histar_rights::{Rights, UserRights};

/// Returns a user with the rights that each process has above `/`.
pub fn from_above(user: Name) -> UserRights
    ensures { result ≡ from_above user }
{
    UserRights {
        user,
        rights: Rights::ABOVE_ROOT,
    }
}

/// Returns the name of nobody.
pub fn nobody() -> Name
    ensures { result ≡ nobody }
{
    read_name(b"nobody".as_slice()).unwrap()
}

/// Returns the rights of a user at an entry of a directory, given those at the directory.
pub fn user_below(users: &UserTable, class: &Class, above: UserRights) -> UserRights
    ensures { result ≡ user_below users.now class.now above }
{
    let reads = reads(users, above.user, class);
    let writes = writes(users, above.user, class);
    UserRights {
        user: above.user,
        rights: above.rights.below(reads, writes),
    }
}

/// Checks whether a process of this user, in no job and with none, may read what is of a class.
fn reads(users: &UserTable, user: Name, class: &Class) -> bool
    ensures { result ≡ class_reads users.now user class.now }
{
    match class {
        Class::Private(owner) => user == *owner,
        Class::Readable(_) | Class::Open => true,
        Class::Scratch(owner, jobs) => user == *owner && is_none(jobs.as_slice()),
        Class::Group(group) => is_member(users, user, *group),
    }
}

/// Checks whether the same process may write it.
fn writes(users: &UserTable, user: Name, class: &Class) -> bool
    ensures { result ≡ class_writes users.now user class.now }
{
    match class {
        Class::Readable(owner) => user == *owner,
        _ => reads(users, user, class),
    }
}

/// Checks whether there are no jobs.
fn is_none(jobs: &[Category]) -> bool
    ensures { result ≡ is_none jobs.now }
{
    match jobs {
        [] => true,
        _ => false,
    }
}

/// Checks whether the user is a member of the group.
fn is_member(users: &UserTable, user: Name, group: Name) -> bool
    ensures { result ≡ has_member users.now user group }
{
    users
        .groups()
        .iter()
        .any(|g| g.name() == group && g.has(user))
}
