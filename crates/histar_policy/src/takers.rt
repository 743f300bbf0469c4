//! Who may take away what a call made, and who may write it.
ghost use Rattle.std.specs.Prelude.{◌≡◌, [], IfOk};
ghost use Rattle.std.specs.List.{list_all};
ghost use Rattle.histar_rights.specs.Users.{somebody};
ghost use Rattle.histar_policy.specs.Answers.{AreRightsOfThese, IsMadeEvent, IsWroteEvent};
ghost use Rattle.histar_policy.specs.Answers.{is_taker_by, is_writer_by, takers_by, those_that_remove};
ghost use Rattle.histar_policy.specs.Answers.{those_that_write, writers_by};

use crate::notes::Event;
use histar_cells::{nobody, rights_of_user, user_of_process};
use histar_flat::{Name, OwnedPath, Path, ProcName};
use histar_label::LabelStore;
use histar_layout::UserTable;
use histar_rights::UserRights;
use histar_shell::Machine;
use std::alloc::{AllocError, Global};
use std::marker::Model;

/// Users by their names. Contracts see their list.
#[derive(Drop)]
pub struct Users {
    names: Vec<Name>,
}

impl Model for Users {
    ghost use Rattle.std.specs.Prelude.{List, ℕ};

    ghost Value = { List (List ℕ) };

    ghost view = { λ u. u.names.items };
}

impl Users {
    /// Returns the names.
    pub fn names(&self) -> &[Name]
        ensures { result.now ≡ self.now }
    {
        self.names.as_slice()
    }
}

/// What a call made, and who else may do what its maker may not have meant.
#[derive(Drop)]
pub struct Creation {
    pub path: OwnedPath,
    /// The user of the process that made it.
    pub maker: Name,
    /// Those that may take it away, if it is not for everyone.
    pub takers: Users,
    /// Those that may write it, if it is a file for a group.
    pub writers: Users,
}

/// Returns what is said of what a process made at a path, which may be a file for a group.
///
/// It goes down the path once for each user, and takes no memory that grows with the session.
pub(crate) fn made_event<S: LabelStore + Drop>(
    alloc: Global,
    machine: &Machine<S>,
    process: &ProcName,
    path: &Path,
    shared: bool,
) -> Result<Event, AllocError>
    ensures { IfOk result (IsMadeEvent machine.now process.now path.now shared) }
{
    let Some(maker) = user_of_process(machine, process) else {
        return Ok(Event::Nothing);
    };
    let users = somebody(alloc, machine.users())?;
    let rights = rights_of_these(alloc, machine, path, users.as_slice())?;
    let takers = takers_among(alloc, maker, rights.as_slice())?;
    let writers = writers_among(alloc, maker, shared, rights.as_slice())?;
    let path = OwnedPath::of(alloc, path)?;
    Ok(Event::Made(Creation {
        path,
        maker,
        takers,
        writers,
    }))
}

/// Returns what is said of a write of a process to a file.
pub(crate) fn wrote_event<S: LabelStore + Drop>(
    alloc: Global,
    machine: &Machine<S>,
    process: &ProcName,
    path: &Path,
) -> Result<Event, AllocError>
    ensures { IfOk result (IsWroteEvent machine.now process.now path.now) }
{
    let Some(user) = user_of_process(machine, process) else {
        return Ok(Event::Nothing);
    };
    let path = OwnedPath::of(alloc, path)?;
    Ok(Event::Wrote(user, path))
}

/// Returns nobody, and then each user in the order of the script.
fn somebody(alloc: Global, users: &UserTable) -> Result<Vec<Name>, AllocError>
    ensures { IfOk result (λ names. names.items ≡ somebody users.now) }
{
    let mut names = Vec::new(alloc);
    names.push(nobody())?;
    for place in 0..users.len() {
        names.push(users.name_at(place))?;
    }
    Ok(names)
}

/// Returns the rights of these users at a path.
fn rights_of_these<S: LabelStore + Drop>(
    alloc: Global,
    machine: &Machine<S>,
    path: &Path,
    users: &[Name],
) -> Result<Vec<UserRights>, AllocError>
    ensures { IfOk result (λ rights. AreRightsOfThese machine.now path.now users.now rights.items) }
{
    let mut all = Vec::with_capacity(alloc, users.len())?;
    for user in users {
        let rights = rights_of_user(alloc, machine, path, *user)?;
        all.push(UserRights {
            user: *user,
            rights,
        })?;
    }
    Ok(all)
}

/// Checks whether all of these may read.
fn is_for_everyone(rights: &[UserRights]) -> bool
    ensures { result ≡ list_all (λ u. u.rights.read) rights.now }
{
    rights.iter().all(|user| user.rights.read)
}

/// Returns those of these users that may remove, without the maker; none where all may read.
fn takers_among(alloc: Global, maker: Name, rights: &[UserRights]) -> Result<Users, AllocError>
    ensures { IfOk result (λ takers. takers ≡ takers_by maker rights.now) }
{
    if is_for_everyone(rights) {
        return Ok(no_users(alloc));
    }
    those_that_remove(alloc, maker, rights)
}

/// Returns those of these users that may remove, without the maker.
fn those_that_remove(alloc: Global, maker: Name, rights: &[UserRights]) -> Result<Users, AllocError>
    ensures { IfOk result (λ users. users ≡ those_that_remove maker rights.now) }
{
    let takers = rights.iter().filter(|user| is_taker(maker, user));
    let names = takers.map(|user| user.user).collect(alloc)?;
    Ok(Users { names })
}

/// Returns those of these users that may write, without the maker; none of what is not for a group.
fn writers_among(
    alloc: Global,
    maker: Name,
    shared: bool,
    rights: &[UserRights],
) -> Result<Users, AllocError>
    ensures { IfOk result (λ writers. writers ≡ writers_by maker shared rights.now) }
{
    if !shared {
        return Ok(no_users(alloc));
    }
    those_that_write(alloc, maker, rights)
}

/// Returns those of these users that may write, without the maker.
fn those_that_write(alloc: Global, maker: Name, rights: &[UserRights]) -> Result<Users, AllocError>
    ensures { IfOk result (λ users. users ≡ those_that_write maker rights.now) }
{
    let writers = rights.iter().filter(|user| is_writer(maker, user));
    let names = writers.map(|user| user.user).collect(alloc)?;
    Ok(Users { names })
}

/// Returns no user.
fn no_users(alloc: Global) -> Users
    ensures { result ≡ [] }
{
    Users {
        names: Vec::new(alloc),
    }
}

/// Checks whether a user with these rights may remove something, and is not its maker.
fn is_taker(maker: Name, user: &UserRights) -> bool
    ensures { result ≡ is_taker_by maker user.now }
{
    user.user != maker && user.rights.remove
}

/// Checks whether a user with these rights may write something, and is not its maker.
fn is_writer(maker: Name, user: &UserRights) -> bool
    ensures { result ≡ is_writer_by maker user.now }
{
    user.user != maker && user.rights.write
}
