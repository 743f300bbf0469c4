//! The table of rights by users.
ghost use Rattle.std.specs.Prelude.{◌≡◌, ◌++◌, IfOk, OnOk, [], map};
ghost use Rattle.std.specs.List.{flat_map};
ghost use Rattle.histar_rights.specs.Users.{user_text, users_line_text, users_text};
ghost use Rattle.histar_access.specs.Shown.{IsShown};
ghost use Rattle.histar_access.specs.Users.{IsUsersText, starting, users_below, users_from, users_line_at};

use crate::table::last_row;
use histar_cells::{from_above, nobody, user_below};
use histar_label::LabelStore;
use histar_layout::{Class, UserTable};
use histar_readout::TreeNode;
use histar_rights::UserRights;
use histar_shell::{Machine, push_stat};
use histar_texts::push_path;
use std::alloc::{AllocError, Global};

/// Returns a line for each file and directory of a machine, by rising paths, with the rights of nobody and of
/// each user: of a process that is in no job and holds none.
///
/// It goes down the tree once: the rights at a path are those that its directory gives, narrowed by its class.
pub(crate) fn users_table<S: LabelStore + Drop>(
    alloc: Global,
    machine: &Machine<S>,
) -> Result<Vec<u8>, AllocError>
    requires { IsShown machine.now }
    ensures { IfOk result (λ text. IsUsersText machine.now text.items) }
{
    let tree = machine.tree(alloc)?;
    let start = starting(alloc, machine.users())?;
    tree_text(alloc, machine.users(), start.as_slice(), tree.as_slice())
}

/// Returns nobody and each user, with the rights that each process has above `/`.
pub(crate) fn starting(alloc: Global, users: &UserTable) -> Result<Vec<UserRights>, AllocError>
    ensures { IfOk result (λ start. start.items ≡ starting users.now) }
{
    let mut start = Vec::new(alloc);
    start.push(from_above(nobody()))?;
    for place in 0..users.len() {
        start.push(from_above(users.name_at(place)))?;
    }
    Ok(start)
}

/// Returns the lines of files and directories, each after that of its directory.
fn tree_text(
    alloc: Global,
    users: &UserTable,
    start: &[UserRights],
    tree: &[TreeNode],
) -> Result<Vec<u8>, AllocError>
    ensures { IfOk result (λ text.
        text.items ≡ users_text (users_from users.now start.now [] tree.now)) }
{
    let mut way: Vec<Vec<UserRights>> = Vec::new(alloc);
    let mut text = Vec::new(alloc);
    'nodes: for node in tree {
        way.truncate(node.path.depth());
        let row = users_below(alloc, users, &node.class, last_row(way.as_slice(), start))?;
        push_users_line(&mut text, node, row.as_slice())?;
        way.push(row)?;
    }
    Ok(text)
}

/// Returns the rights of users at an entry of a directory, given those at the directory.
pub(crate) fn users_below(
    alloc: Global,
    users: &UserTable,
    class: &Class,
    above: &[UserRights],
) -> Result<Vec<UserRights>, AllocError>
    ensures { IfOk result (λ row. row.items ≡ users_below users.now class.now above.now) }
{
    let mut row = Vec::with_capacity(alloc, above.len())?;
    for user in above {
        row.push(user_below(users, class, *user))?;
    }
    Ok(row)
}

/// Adds the line of a file or a directory, with the rights of users there.
fn push_users_line(
    text: &mut Vec<u8>,
    node: &TreeNode,
    row: &[UserRights],
) -> Result<(), AllocError>
    ensures { OnOk result (text.new.items
        ≡ text.old.items ++ users_line_text (users_line_at node.now row.now)) }
{
    push_path(*text.allocator(), text, &node.path)?;
    text.extend_from_slice(b" ")?;
    push_stat(*text.allocator(), text, node.stat())?;
    push_users(text, row)?;
    text.extend_from_slice(b"\n")
}

/// Adds the text of each user's rights.
fn push_users(text: &mut Vec<u8>, row: &[UserRights]) -> Result<(), AllocError>
    ensures { OnOk result (text.new.items ≡ text.old.items ++ flat_map user_text row.now) }
{
    for user in row {
        push_user(text, user)?;
    }
    Ok(())
}

/// Adds a space, the user, a colon and the letters of its rights.
fn push_user(text: &mut Vec<u8>, user: &UserRights) -> Result<(), AllocError>
    ensures { OnOk result (text.new.items ≡ text.old.items ++ user_text user.now) }
{
    text.extend_from_slice(b" ")?;
    text.extend_from_slice(user.user.as_bytes())?;
    text.extend_from_slice(b":")?;
    user.rights.push_letters(text)
}
