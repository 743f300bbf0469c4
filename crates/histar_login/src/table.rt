//! The bytes of the user table: who the users are, which groups they are in, and where boot left their
//! objects.
ghost use Rattle.std.specs.Prelude.{◌≡◌, ◌+◌, ◌<◌, ◌≤◌, ◌++◌, length, IfOk, OnErr, OnOk};
ghost use Rattle.histar_flat.specs.Accounts.{most_groups, most_users};
ghost use Rattle.histar_programs.specs.Start.{numbers_among, user_entry, group_entry, group_part, user_table};

use histar_base::Bytes;
use histar_flat::{Accounts, Group, User};
use histar_heap::Heap;
use histar_layout::{group_owner, read_category, write_category};
use std::alloc::AllocError;

/// Adds a user to the user table: the length of the name, the name, the user's two categories, its
/// gate and its password segment.
fn push_user<H: Heap>(
    heap: H,
    table: &mut Vec<u8>,
    name: &[u8],
    number: u8,
    gate: u64,
    password: u64,
) -> Result<(), AllocError>
    requires { length name.now ≤ 32 }
    ensures adds { OnOk result (table.new.items
        ≡ table.old.items ++ user_entry name.now number gate password) }
    ensures memory { OnErr result H.Refused }
{
    heap.push(table, name.len() as u8)?;
    heap.extend(table, name)?;
    heap.extend(table, &read_category(number).number().to_be_bytes())?;
    heap.extend(table, &write_category(number).number().to_be_bytes())?;
    heap.extend(table, &gate.to_be_bytes())?;
    heap.extend(table, &password.to_be_bytes())?;
    Ok(())
}

/// Adds the numbers of a group's members, in rising order.
fn push_members<H: Heap>(
    heap: H,
    table: &mut Vec<u8>,
    users: &[User],
    group: &Group,
) -> Result<(), AllocError>
    requires { length users.now ≤ most_users }
    ensures adds { OnOk result (table.new.items
        ≡ table.old.items ++ numbers_among 1 users.now group.now.members) }
    ensures memory { OnErr result H.Refused }
{
    for (i, user) in users.iter().enumerate() {
        if group.has(user.name) {
            heap.push(table, i as u8 + 1)?;
        }
    }
    Ok(())
}

/// Adds a group to the user table: the length of the name, the name, the group's two categories, how
/// many members it has, and the numbers of these.
fn push_group<H: Heap>(
    heap: H,
    table: &mut Vec<u8>,
    accounts: &Accounts,
    number: u8,
    group: &Group,
) -> Result<(), AllocError>
    requires { number ≤ most_groups }
    ensures adds { OnOk result (table.new.items
        ≡ table.old.items ++ group_entry accounts.now.users number group.now) }
    ensures few { OnOk result (length table.new.items ≤ length table.old.items + 66) }
    ensures memory { OnErr result H.Refused }
{
    let users = accounts.users();
    let name = group.name();
    let owner = group_owner(users.len(), number);
    heap.push(table, name.as_bytes().len() as u8)?;
    heap.extend(table, name.as_bytes())?;
    heap.extend(table, &read_category(owner).number().to_be_bytes())?;
    heap.extend(table, &write_category(owner).number().to_be_bytes())?;
    heap.push(table, group.members().len() as u8)?;
    push_members(heap, table, users, group)
}

/// Adds the groups to the user table, with a zero before them if there is a group.
fn push_groups<H: Heap>(heap: H, table: &mut Vec<u8>, accounts: &Accounts) -> Result<(), AllocError>
    ensures adds { OnOk result (table.new.items
        ≡ table.old.items ++ group_part accounts.now.users accounts.now.groups) }
    ensures few { OnOk result (length table.new.items ≤ length table.old.items + 529) }
    ensures memory { OnErr result H.Refused }
{
    let groups = accounts.groups();
    if groups.is_empty() {
        return Ok(());
    }
    heap.push(table, 0)?;
    for (k, group) in groups.iter().enumerate() {
        push_group(heap, table, accounts, k as u8 + 1, group)?;
    }
    Ok(())
}

/// Returns the bytes of the user table: nobody first, then the users in their order, and then the groups.
pub(crate) fn user_table<H: Heap>(heap: H, accounts: &Accounts) -> Result<Bytes, AllocError>
    ensures value { IfOk result (λ b. b ≡ user_table accounts.now) }

    // They fit into a segment.
    ensures few { IfOk result (λ b. length b ≤ 4096) }
    ensures memory { OnErr result H.Refused }
{
    let mut table = Vec::new(heap.alloc());
    push_user(heap, &mut table, b"nobody", 0, 0, 0)?;
    let users = accounts.users();
    for (i, user) in users.iter().enumerate() {
        let at = i as u64;
        push_user(
            heap,
            &mut table,
            user.name.as_bytes(),
            i as u8 + 1,
            2 * at + 4,
            2 * at + 3,
        )?;
    }
    push_groups(heap, &mut table, accounts)?;
    Ok(Bytes::from_vec(table))
}
