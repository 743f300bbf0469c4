//! The owner numbers, by which categories go: nobody is 0, then come the users, and then the groups, in the
//! order in which they were declared.
ghost use Rattle.std.specs.Prelude.{◌≡◌, ◌≤◌, length, IfOk, OnErr};
ghost use Rattle.histar_flat.specs.Accounts.{most_groups, most_users};
ghost use Rattle.histar_layout.specs.Categories.{group_owner, owner_of_group, owners_among, owners_of};

use crate::user_table::UserTable;
use histar_flat::{Group, Name};
use histar_heap::Heap;
use std::alloc::AllocError;

/// The number of nobody, whose categories no thread owns.
const NOBODY: u8 = 0;

/// Returns the owner number of a group, where there are this many users.
pub fn group_owner(users: usize, number: u8) -> u8
    requires users { users ≤ most_users }
    requires number { number ≤ most_groups }
    ensures { result ≡ group_owner users number }
{
    users as u8 + number
}

/// Returns the owner number of the group of this name; nobody's, where no group has it.
pub fn owner_of_group(users: &UserTable, name: Name) -> u8
    ensures { result ≡ owner_of_group users.now name }
{
    match users.group_number(name) {
        None => NOBODY,
        Some(number) => group_owner(users.len(), number),
    }
}

/// Returns the owner numbers whose categories a user owns: its own, and those of its groups.
pub fn owners_of<H: Heap>(
    heap: H,
    users: &UserTable,
    number: u8,
    name: Name,
) -> Result<Vec<u8>, AllocError>
    ensures ok { IfOk result (λ owners. owners.items ≡ owners_of users.now number name) }
    ensures memory { OnErr result H.Refused }
{
    owners_among(heap, users.len(), users.groups(), number, name)
}

/// Returns the same for this many users and these groups.
pub fn owners_among<H: Heap>(
    heap: H,
    users: usize,
    groups: &[Group],
    number: u8,
    name: Name,
) -> Result<Vec<u8>, AllocError>
    requires users { users ≤ most_users }
    requires groups { length groups.now ≤ most_groups }
    ensures ok { IfOk result (λ owners. owners.items ≡ owners_among users groups.now number name) }
    ensures memory { OnErr result H.Refused }
{
    let mut owners = heap.copy_of(&[number])?;
    for (k, group) in groups.iter().enumerate() {
        if group.has(name) {
            heap.push(&mut owners, group_owner(users, k as u8 + 1))?;
        }
    }
    Ok(owners)
}
