//! What was gathered of the tables by users of several states.
ghost use Rattle.std.specs.Prelude.{◌≡◌, [], IfOk, OnOk};
ghost use Rattle.histar_base.specs.Paths.{path_cmp};
ghost use Rattle.histar_rights.specs.Users.{somebody};
ghost use Rattle.histar_ever.specs.Following.{GathersNone};
ghost use Rattle.histar_ever.specs.Gathering.{AreKeys};
ghost use Rattle.histar_ever.specs.GatheringUsers.{AddsUserLines, AddsUserRights, AddsUserRow};
ghost use Rattle.histar_ever.specs.GatheringUsers.{AddsUsersTable, GathersUsers, user_letters_at};

use crate::gather::Gather;
use crate::gathering::{add_paths, either};
use histar_access::users_table_of;
use histar_cells::nobody;
use histar_diff::{TableLine, UsersTable};
use histar_flat::{Name, Path};
use histar_label::LabelStore;
use histar_layout::UserTable;
use histar_rights::Rights;
use histar_shell::Machine;
use std::alloc::{AllocError, Global};
use std::collections::{BTreeMap, BTreeSet};

/// Letters by paths and users.
type UserLetters = BTreeMap<(Path, Name), Rights>;

/// The paths that were there in one of several states, and the letters that nobody and each user of a script had at
/// these.
#[derive(Drop)]
pub(crate) struct EverUsers {
    pub(crate) users: Vec<Name>,
    paths: BTreeSet<Path>,
    letters: UserLetters,
}

impl EverUsers {
    /// Makes one with nothing gathered, for the users of a machine.
    pub(crate) fn new<S: LabelStore + Drop>(
        alloc: Global,
        machine: &Machine<S>,
    ) -> Result<Self, AllocError>
        ensures { IfOk result (GathersNone GathersUsers machine.now) }
    {
        Ok(EverUsers {
            users: user_names(alloc, machine.users())?,
            paths: BTreeSet::new(alloc),
            letters: BTreeMap::new(alloc),
        })
    }

    /// Adds the table by users of one more state.
    fn add(&mut self, table: &UsersTable) -> Result<(), AllocError>
        ensures { OnOk result (AddsUsersTable table.now self.old self.new) }
    {
        add_paths(&mut self.paths, table.lines.as_slice())?;
        add_lines(
            &mut self.letters,
            table.users.as_slice(),
            table.lines.as_slice(),
        )
    }

    /// Returns the paths, in their order.
    pub(crate) fn paths(&self, alloc: Global) -> Result<Vec<Path>, AllocError>
        ensures { IfOk result (λ paths. AreKeys self.now.paths.keys path_cmp paths.items) }
    {
        let mut paths = Vec::new(alloc);
        for path in &self.paths {
            paths.push(*path)?;
        }
        Ok(paths)
    }

    /// Returns the letters of a path and a user.
    pub(crate) fn letters(&self, path: &Path, user: &Name) -> Rights
        ensures { result ≡ user_letters_at self.now.letters path.now user.now }
    {
        letters_at(&self.letters, path, user)
    }
}

impl Gather for EverUsers {
    ghost use Rattle.histar_ever.specs.GatheringUsers.{GathersUsers};

    ghost Gathers = { GathersUsers };

    fn add_state<S: LabelStore + Drop>(
        &mut self,
        alloc: Global,
        machine: &Machine<S>,
    ) -> Result<(), AllocError> {
        let table = users_table_of(alloc, machine)?;
        self.add(&table)
    }

    fn adds_nothing_again() {}
}

/// Returns nobody and each user, in the order of the script.
fn user_names(alloc: Global, users: &UserTable) -> Result<Vec<Name>, AllocError>
    ensures { IfOk result (λ names. names.items ≡ somebody users.now) }
{
    let mut names = Vec::new(alloc);
    names.push(nobody())?;
    for place in 0..users.len() {
        names.push(users.name_at(place))?;
    }
    Ok(names)
}

/// Adds the rights of these users on the lines of a table.
fn add_lines(
    letters: &mut UserLetters,
    users: &[Name],
    lines: &[TableLine],
) -> Result<(), AllocError>
    ensures { OnOk result (AddsUserLines users.now lines.now letters.old letters.new) }
{
    for line in lines {
        add_row(letters, line.path, users, line.rights.as_slice())?;
    }
    Ok(())
}

/// Adds the rights of these users at a path.
fn add_row(
    letters: &mut UserLetters,
    path: Path,
    users: &[Name],
    rights: &[Rights],
) -> Result<(), AllocError>
    ensures { OnOk result (AddsUserRow path users.now rights.now letters.old letters.new) }
{
    let (mut users, mut rights) = (users, rights);
    'cells: while let [user, others @ ..] = users {
        let [one, more @ ..] = rights else {
            return Ok(());
        };
        add_rights(letters, path, *user, *one)?;
        users = others;
        rights = more;
    }
    Ok(())
}

/// Adds the rights of a user at a path to those that it had there.
fn add_rights(
    letters: &mut UserLetters,
    path: Path,
    user: Name,
    rights: Rights,
) -> Result<(), AllocError>
    ensures { OnOk result (AddsUserRights (path, user) rights letters.old letters.new) }
{
    let had = letters_at(letters, &path, &user);
    letters.insert((path, user), either(had, rights))?;
    Ok(())
}

/// Returns the letters of a path and a user, or none if nothing was added there.
fn letters_at(letters: &UserLetters, path: &Path, user: &Name) -> Rights
    ensures { result ≡ user_letters_at letters.now path.now user.now }
{
    let place = (*path, *user);
    letters.get(&place).copied().unwrap_or(Rights::NONE)
}
