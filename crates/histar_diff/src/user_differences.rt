//! The differences between the rights of users in two tables.
ghost use Rattle.std.specs.Prelude.{◌≡◌, ◌++◌, IfOk, OnOk};
ghost use Rattle.std.specs.Option.{option_copied};
ghost use Rattle.histar_diff.specs.UserTables.{AreUserDifferences, shared_difference};
ghost use Rattle.histar_diff.specs.UserTables.{shared_differences};
ghost use Rattle.histar_diff.specs.UserTables.{shared_lines_differences};

use crate::differences::{letters_at, same_letters};
use crate::lines::{after, lower_path, row_at};
use crate::table::TableLine;
use crate::users::{LoneUser, SharedUser, UsersTable, lone_users, shared_users};
use histar_flat::{Name, Path};
use histar_rights::Rights;
use std::alloc::{AllocError, Global};

/// A path and a user of both tables whose letters there differ. A table that lacks the path gives
/// none.
#[derive(Clone, Copy)]
pub struct UserDifference {
    pub path: Path,
    pub user: Name,
    /// Its rights in the old table, or `None` if that lacks the path.
    pub before: Option<Rights>,
    /// The same in the new table.
    pub after: Option<Rights>,
}

/// What differs for users between two tables.
#[derive(Drop)]
pub struct UserDifferences {
    /// The users of one table only.
    pub lone: Vec<LoneUser>,
    /// The paths and the users of both tables whose letters differ.
    pub pairs: Vec<UserDifference>,
}

/// Returns the users of one table only, first those of the old one, each in the order of its table,
/// and the paths and users of both whose letters differ, by rising paths, and at each path in the
/// order of the old table. Users are matched by name. One pass goes over the lines of both.
pub fn user_differences_between(
    alloc: Global,
    old: &UsersTable,
    new: &UsersTable,
) -> Result<UserDifferences, AllocError>
    ensures { IfOk result (λ found.
        AreUserDifferences old.now new.now found.lone.items found.pairs.items) }
{
    let lone = lone_users(alloc, old.users.as_slice(), new.users.as_slice())?;
    let shared = shared_users(alloc, old.users.as_slice(), new.users.as_slice())?;
    let pairs = lines_differences(
        alloc,
        shared.as_slice(),
        old.lines.as_slice(),
        new.lines.as_slice(),
    )?;
    Ok(UserDifferences { lone, pairs })
}

/// Returns the differences of these users at the paths of two lists of lines.
fn lines_differences(
    alloc: Global,
    shared: &[SharedUser],
    old: &[TableLine],
    new: &[TableLine],
) -> Result<Vec<UserDifference>, AllocError>
    ensures { IfOk result (λ differences.
        differences.items ≡ shared_lines_differences shared.now old.now new.now) }
{
    let mut differences = Vec::new(alloc);
    let (mut old_rest, mut new_rest) = (old, new);
    'lines: while let Some(path) = lower_path(old_rest, new_rest) {
        let (before, now) = (row_at(old_rest, &path), row_at(new_rest, &path));
        push_differences(&mut differences, shared, path, before, now)?;
        old_rest = after(old_rest, &path);
        new_rest = after(new_rest, &path);
    }
    Ok(differences)
}

/// Adds the differences of these users at a path, by their rights there in each table that has it.
fn push_differences(
    differences: &mut Vec<UserDifference>,
    shared: &[SharedUser],
    path: Path,
    before: Option<&[Rights]>,
    after: Option<&[Rights]>,
) -> Result<(), AllocError>
    ensures { OnOk result (differences.new.items ≡ differences.old.items ++
        shared_differences shared.now path
        (option_copied before.entry) (option_copied after.entry)) }
{
    for user in shared {
        if let Some(difference) = shared_difference(path, before, after, user) {
            differences.push(difference)?;
        }
    }
    Ok(())
}

/// Returns the difference of a user at a path, if its letters differ.
fn shared_difference(
    path: Path,
    before: Option<&[Rights]>,
    after: Option<&[Rights]>,
    user: &SharedUser,
) -> Option<UserDifference>
    ensures { result
        ≡ shared_difference path (option_copied before.entry) (option_copied after.entry) user.now }
{
    let before = letters_at(before, user.old);
    let after = letters_at(after, user.new);
    if same_letters(before, after) {
        return None;
    }
    Some(UserDifference {
        path,
        user: user.user,
        before,
        after,
    })
}
