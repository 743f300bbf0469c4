//! Reading the declaration of a group. Names are put into a list, and memory may run out; `Ok(None)` is a bad
//! line.
ghost use Rattle.std.specs.Prelude.{◌≡◌, ◌≤◌, length, option_map, IfOk, IfSome, OnErr};
ghost use Rattle.histar_flat.specs.Accounts.{most_members};
ghost use Rattle.histar_script.specs.Reading.{group_of, members_of};

use crate::lines::split_word;
use histar_flat::{Group, Name, read_user_name};
use histar_heap::Heap;
use std::alloc::AllocError;

/// The most members of a group.
const MOST_MEMBERS: usize = 16;

/// Reads `NAME USER..`, where each name may be a user's.
#[tactic(auto, unfolding(crate::specs::Reading::group_of))]
pub fn read_group<H: Heap>(heap: H, text: &[u8]) -> Result<Option<Group>, AllocError>
    ensures ok { IfOk result (λ group. group ≡ group_of text.now) }
    ensures memory { OnErr result H.Refused }
{
    let (word, rest) = split_word(text);
    let Some(name) = read_user_name(word) else {
        return Ok(None);
    };
    let Some(rest) = rest else {
        return Ok(None);
    };
    let members = read_members(heap, rest)?;
    Ok(members.map(|members| Group::new(name, members)))
}

/// Reads 1 to 16 names of users, with one space between two.
fn read_members<H: Heap>(heap: H, text: &[u8]) -> Result<Option<Vec<Name>>, AllocError>
    ensures names { IfOk result (λ members. option_map (λ names. names.items) members ≡ members_of text.now) }
    ensures few { IfOk result (λ members. IfSome members (λ names. length names.items ≤ most_members)) }
    ensures memory { OnErr result H.Refused }
{
    let mut members = Vec::new(heap.alloc());
    let mut rest = text;
    for _ in 0..MOST_MEMBERS {
        let (word, after) = split_word(rest);
        let Some(name) = read_user_name(word) else {
            return Ok(None);
        };
        heap.push(&mut members, name)?;
        match after {
            None => return Ok(Some(members)),
            Some(names) => rest = names,
        }
    }
    Ok(None)
}
