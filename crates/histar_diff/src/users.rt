//! The users of two tables, side by side.
ghost use Rattle.std.specs.Prelude.{◌≡◌, ◌++◌, IfOk, OnOk, position};
ghost use Rattle.std.specs.List.{filter_map};
ghost use Rattle.histar_base.specs.Paths.{same};
ghost use Rattle.histar_flat.specs.Accounts.{has as has_user};
ghost use Rattle.histar_diff.specs.UserTables.{lone_among, lone_of_both, lone_user, shared_of_both};
ghost use Rattle.histar_diff.specs.UserTables.{shared_user};

use crate::table::TableLine;
use histar_flat::Name;
use std::alloc::{AllocError, Global};

/// What each user may do: nobody and the users of a script, in its order, and a line for each file
/// and directory, by rising paths, with the rights of the users in the same order.
#[derive(Drop)]
pub struct UsersTable {
    pub users: Vec<Name>,
    pub lines: Vec<TableLine>,
}

/// A user of one table only.
#[derive(Clone, Copy)]
pub struct LoneUser {
    pub user: Name,
    /// Whether that table is the new one.
    pub is_new: bool,
}

/// A user of two tables, and its place in each.
#[derive(Clone, Copy)]
pub(crate) struct SharedUser {
    pub(crate) user: Name,
    pub(crate) old: usize,
    pub(crate) new: usize,
}

/// Returns the users that one of two tables lacks: those of the old one in its order, and then
/// those of the new one in its order. Names are looked up one by one, since a script has at most 16
/// users.
pub(crate) fn lone_users(
    alloc: Global,
    old: &[Name],
    new: &[Name],
) -> Result<Vec<LoneUser>, AllocError>
    ensures { IfOk result (λ lone. lone.items ≡ lone_of_both old.now new.now) }
{
    let mut lone = Vec::new(alloc);
    push_lone(&mut lone, false, old, new)?;
    push_lone(&mut lone, true, new, old)?;
    Ok(lone)
}

/// Adds those of these users that the others lack.
fn push_lone(
    lone: &mut Vec<LoneUser>,
    is_new: bool,
    users: &[Name],
    others: &[Name],
) -> Result<(), AllocError>
    ensures { OnOk result (lone.new.items
        ≡ lone.old.items ++ lone_among is_new users.now others.now) }
{
    for user in users {
        if let Some(user) = lone_user(is_new, others, *user) {
            lone.push(user)?;
        }
    }
    Ok(())
}

/// Returns the user, if the others lack it.
fn lone_user(is_new: bool, others: &[Name], user: Name) -> Option<LoneUser>
    ensures { result ≡ lone_user is_new others.now user }
{
    if has(others, user) {
        None
    } else {
        Some(LoneUser { user, is_new })
    }
}

/// Checks whether the user is one of these.
fn has(users: &[Name], user: Name) -> bool
    ensures { result ≡ has_user users.now user }
{
    users.iter().any(|known| user == *known)
}

/// Returns the users of both tables, in the order of the old one, each with its places.
pub(crate) fn shared_users(
    alloc: Global,
    old: &[Name],
    new: &[Name],
) -> Result<Vec<SharedUser>, AllocError>
    ensures { IfOk result (λ shared. shared.items ≡ shared_of_both old.now new.now) }
{
    let mut shared = Vec::new(alloc);
    for user in old {
        if let Some(user) = shared_user(old, new, *user) {
            shared.push(user)?;
        }
    }
    Ok(shared)
}

/// Returns the user with its places, if both tables have it.
fn shared_user(old: &[Name], new: &[Name], user: Name) -> Option<SharedUser>
    ensures { result ≡ shared_user old.now new.now user }
{
    Some(SharedUser {
        user,
        old: place_of(old, user)?,
        new: place_of(new, user)?,
    })
}

/// Returns the place of a user among the users of a table.
fn place_of(users: &[Name], user: Name) -> Option<usize>
    ensures { result ≡ position (same user) users.now }
{
    users.iter().position(|known| user == *known)
}
