//! What a process owns as its user.
ghost use Rattle.std.specs.Prelude.{◌≡◌, ◌++◌, map, IfOk, OnErr};
ghost use Rattle.histar_flat.specs.Classes.{nobody};
ghost use Rattle.histar_layout.specs.Categories.{read_category, write_category};
ghost use Rattle.histar_programs.specs.Kin.{categories_of, owned_by, user_name};

use histar_flat::{Name, read_name};
use histar_heap::{Heap, MOST_ROOM};
use histar_label::Category;
use histar_layout::{UserTable, owners_of, read_category, write_category};
use std::alloc::AllocError;

/// Returns the categories that a process owns as the user of this number, if it is free of jobs or not. Where no group
/// was declared, these are the user's own.
pub fn owned_by<H: Heap>(
    heap: H,
    users: &UserTable,
    user: u8,
    free: bool,
) -> Result<Vec<Category>, AllocError>
    ensures ok { IfOk result (λ owned. owned.items ≡ owned_by users.now user free) }
    ensures memory { OnErr result H.Refused }
{
    if user == 0 {
        return Ok(Vec::new(heap.alloc()));
    }
    if users.groups().is_empty() {
        return categories_of(heap, &[user], free);
    }
    let name = user_name(users, user);
    let owners = owners_of(heap, users, user, name)?;
    categories_of(heap, owners.as_slice(), free)
}

/// Returns the categories by which these users and groups read and, in a free process, those by which they write.
pub fn categories_of<H: Heap>(
    heap: H,
    owners: &[u8],
    free: bool,
) -> Result<Vec<Category>, AllocError>
    ensures ok { IfOk result (λ owned. owned.items ≡ categories_of owners.now free) }
    ensures memory { OnErr result H.Refused }
{
    let room = heap.with_room(owners.len().saturating_mul(2).min(MOST_ROOM))?;
    let owned = with_reading(heap, room, owners)?;
    if free {
        return with_writing(heap, owned, owners);
    }
    Ok(owned)
}

// Adds the categories by which these users and groups read to these categories.
fn with_reading<H: Heap>(
    heap: H,
    categories: Vec<Category>,
    owners: &[u8],
) -> Result<Vec<Category>, AllocError>
    ensures ok { IfOk result (λ made. made.items ≡ categories.items ++ map read_category owners.now) }
    ensures memory { OnErr result H.Refused }
{
    let mut made = categories;
    for &owner in owners {
        heap.push(&mut made, read_category(owner))?;
    }
    Ok(made)
}

// Adds the categories by which these users and groups write to these categories.
fn with_writing<H: Heap>(
    heap: H,
    categories: Vec<Category>,
    owners: &[u8],
) -> Result<Vec<Category>, AllocError>
    ensures ok { IfOk result (λ made. made.items ≡ categories.items ++ map write_category owners.now) }
    ensures memory { OnErr result H.Refused }
{
    let mut made = categories;
    for &owner in owners {
        heap.push(&mut made, write_category(owner))?;
    }
    Ok(made)
}

/// Returns the categories of both lists.
pub fn joined<H: Heap>(
    heap: H,
    first: &[Category],
    second: &[Category],
) -> Result<Vec<Category>, AllocError>
    ensures ok { IfOk result (λ all. all.items ≡ first.now ++ second.now) }
    ensures memory { OnErr result H.Refused }
{
    let mut all = heap.with_room((first.len() + second.len()).min(MOST_ROOM))?;
    heap.extend(&mut all, first)?;
    heap.extend(&mut all, second)?;
    Ok(all)
}

/// Returns the name of the user of this number, from 1 on; nobody's is number 0.
pub fn user_name(users: &UserTable, number: u8) -> Name
    ensures { result ≡ user_name users.now.users number }
{
    if number > 0 && (number as usize) <= users.len() {
        return users.name_at(number as usize - 1);
    }
    nobody()
}

// Returns the name of nobody.
fn nobody() -> Name
    ensures { result ≡ nobody }
{
    read_name(b"nobody".as_slice()).unwrap()
}
