//! The table by users of a machine, as a value.
ghost use Rattle.std.specs.Prelude.{◌≡◌, IfOk, OnOk, [], map};
ghost use Rattle.histar_diff.specs.Tables.{by_path};
ghost use Rattle.histar_diff.specs.UserChanges.{users_rights};
ghost use Rattle.histar_access.specs.RightsTable.{line_rights};
ghost use Rattle.histar_access.specs.Shown.{IsShown};
ghost use Rattle.histar_access.specs.Users.{name_of, ShowsUsersTable, rights_held, users_from};
ghost use Rattle.histar_access.specs.Users.{users_line_at};

use crate::table::last_row;
use crate::users::{starting, users_below};
use histar_diff::{TableLine, UsersTable};
use histar_flat::Name;
use histar_label::LabelStore;
use histar_layout::UserTable;
use histar_readout::TreeNode;
use histar_rights::{Rights, UserRights};
use histar_shell::Machine;
use std::alloc::{AllocError, Global};

/// Returns what each user may do in a machine: nobody and the users of its script, in its order,
/// and the rights of a process of each that is in no job and holds none, at each path. It goes down
/// the tree once, as `users_table` does.
pub fn users_table_of<S: LabelStore + Drop>(
    alloc: Global,
    machine: &Machine<S>,
) -> Result<UsersTable, AllocError>
    requires { IsShown machine.now }
    ensures { IfOk result (ShowsUsersTable machine.now) }
{
    let tree = machine.tree(alloc)?;
    let start = starting(alloc, machine.users())?;
    let lines = users_lines(alloc, machine.users(), start.as_slice(), tree.as_slice())?;
    let users = names_in(alloc, start.as_slice())?;
    Ok(UsersTable { users, lines })
}

/// Returns the users of a row.
fn names_in(alloc: Global, row: &[UserRights]) -> Result<Vec<Name>, AllocError>
    ensures { IfOk result (λ names. names.items ≡ map name_of row.now) }
{
    let mut names = Vec::with_capacity(alloc, row.len())?;
    for user in row {
        names.push(user.user)?;
    }
    Ok(names)
}

/// Returns the rights of users at the files and directories of a machine, each computed from those
/// at its directory.
fn users_lines(
    alloc: Global,
    users: &UserTable,
    start: &[UserRights],
    tree: &[TreeNode],
) -> Result<Vec<TableLine>, AllocError>
    ensures { IfOk result (λ lines.
        by_path lines.items ≡ map users_rights (users_from users.now start.now [] tree.now)) }
{
    let mut way: Vec<Vec<UserRights>> = Vec::new(alloc);
    let mut lines = Vec::new(alloc);
    'nodes: for node in tree {
        way.truncate(node.path.depth());
        let row = users_below(alloc, users, &node.class, last_row(way.as_slice(), start))?;
        let line = users_line(alloc, node, row.as_slice())?;
        lines.push(line)?;
        way.push(row)?;
    }
    Ok(lines)
}

/// Returns the rights of users at a file or a directory.
fn users_line(alloc: Global, node: &TreeNode, row: &[UserRights]) -> Result<TableLine, AllocError>
    ensures { IfOk result (λ line.
        line_rights line ≡ users_rights (users_line_at node.now row.now)) }
{
    let rights = rights_in(alloc, row)?;
    Ok(TableLine {
        path: node.path,
        rights,
    })
}

/// Returns the rights of each user of a row.
fn rights_in(alloc: Global, row: &[UserRights]) -> Result<Vec<Rights>, AllocError>
    ensures { IfOk result (λ rights. rights.items ≡ map rights_held row.now) }
{
    let mut rights = Vec::with_capacity(alloc, row.len())?;
    for user in row {
        rights.push(user.rights)?;
    }
    Ok(rights)
}
