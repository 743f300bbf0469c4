//! The users and the groups of a machine, without passwords.
ghost use Rattle.std.specs.Prelude.{◌≡◌, ◌<◌, ◌≤◌, length, map, position, slice_get, Some, IfOk, IfSome, OnErr};
ghost use Rattle.histar_base.specs.Paths.{same};
ghost use Rattle.histar_flat.specs.Accounts.{IsSmall, group_number, most_groups, most_users, user_number};
ghost use Rattle.histar_layout.specs.UserTable.{HaveOwnNames, called, without_passwords};

use histar_flat::{Accounts, Group, Name, User};
use histar_heap::Heap;
use indexmap::IndexSet;
use std::alloc::AllocError;
use std::hash::{Hash, Hasher};
use std::marker::Model;

/// The name of a user, by which its number is looked up.
#[derive(Clone, Copy)]
struct UserName {
    name: Name,
}

impl PartialEq for UserName {
    ghost use Rattle.std.specs.Prelude.{nat_eq};
    ghost use Rattle.std.specs.Cmp.Lexicographic.{pointwise, on_texts_equal};
    ghost use Rattle.std.specs.Cmp.{partial_equiv_from_equiv};

    ghost eq = { λ a b. pointwise nat_eq a.name b.name };

    ghost laws = { partial_equiv_from_equiv (on_texts_equal (λ a. a.name)) };

    fn eq(&self, other: &UserName) -> bool {
        self.name == other.name
    }
}

impl Eq for UserName {
    ghost use Rattle.std.specs.Cmp.Lexicographic.{on_texts_equal};

    ghost laws = { on_texts_equal (λ a. a.name) };
}

impl Hash for UserName {
    ghost use Rattle.std.specs.Hash as fed;
    ghost use Rattle.std.specs.Cmp.Rules.{hashing};
    ghost use Rattle.std.proofs.Common.{rules};

    ghost hash_input = { λ a. fed.slice fed.u8 a.name };

    ghost respects_eq = { Prim.search (hashing, rules) };

    fn hash<H: Hasher>(&self, state: &mut H) {
        self.name.as_bytes().hash(state);
    }
}

/// The users of a machine and its groups. It has no passwords: only boot needs these, and it keeps each in
/// the segment of its user. The users have the numbers from 1 on, and the table looks up a user's number by
/// the name. Contracts see the declared accounts, with each password empty.
#[derive(Drop)]
pub struct UserTable {
    names: IndexSet<UserName>,
    groups: Vec<Group>,
}

impl Model for UserTable {
    ghost use Rattle.std.specs.Prelude.{map};
    ghost use Rattle.histar_flat.specs.Accounts.{IsSmall, Accounts};
    ghost use Rattle.histar_layout.specs.UserTable.{called};

    ghost Value = { Accounts };

    ghost view = { λ t. record { users = map (λ k. called k.name) t.names.keys; groups = t.groups.items } };

    ghost invariant = { λ t. IsSmall (record {
      users = map (λ k. called k.name) t.names.keys;
      groups = t.groups.items;
    }) };
}

impl UserTable {
    /// Makes the table of the declared users and groups.
    pub fn of<H: Heap>(heap: H, accounts: &Accounts) -> Result<UserTable, AllocError>
        requires { HaveOwnNames accounts.now.users }
        ensures ok { IfOk result (λ table. table ≡ without_passwords accounts.now) }
        ensures memory { OnErr result H.Refused }
    {
        Ok(UserTable {
            names: names_of(heap, accounts.users())?,
            groups: copies_of(heap, accounts.groups())?,
        })
    }

    /// Counts the users.
    pub fn len(&self) -> usize
        ensures len { result ≡ length self.now.users }
        ensures few { result ≤ most_users }
    {
        self.names.len()
    }

    /// Returns the name of the user at a place, which is one less than its number.
    pub fn name_at(&self, place: usize) -> Name
        requires { place < length self.now.users }
        ensures { slice_get self.now.users place ≡ Some (called result) }
    {
        self.names.as_slice()[place].name
    }

    /// Looks up the number of the user of this name.
    pub fn number_of(&self, name: Name) -> Option<u8>
        ensures number { result ≡ user_number self.now name }
    {
        match self.names.get_index_of(&UserName { name }) {
            None => None,
            Some(place) => Some(place as u8 + 1),
        }
    }

    /// Returns the groups, in the order in which they were declared.
    pub fn groups(&self) -> &[Group]
        ensures groups { result.now ≡ self.now.groups }
        ensures few { length self.now.groups ≤ most_groups }
    {
        self.groups.as_slice()
    }

    /// Looks up the number of the group of this name.
    pub fn group_number(&self, name: Name) -> Option<u8>
        ensures number { result ≡ group_number self.now name }
        ensures small { IfSome result (λ number. number ≤ most_groups) }
    {
        match place_of(self.groups.as_slice(), name) {
            None => None,
            Some(place) => Some(place as u8 + 1),
        }
    }
}

/// Returns the names of users, in their order.
fn names_of<H: Heap>(heap: H, users: &[User]) -> Result<IndexSet<UserName>, AllocError>
    requires { HaveOwnNames users.now }
    ensures ok { IfOk result (λ names. names.keys ≡ map (λ user. record { name = user.name }) users.now) }
    ensures memory { OnErr result H.Refused }
{
    let mut names = IndexSet::new(heap.alloc());
    for user in users {
        heap.insert_full(&mut names, UserName { name: user.name })?;
    }
    Ok(names)
}

/// Copies groups.
fn copies_of<H: Heap>(heap: H, groups: &[Group]) -> Result<Vec<Group>, AllocError>
    ensures ok { IfOk result (λ copies. copies.items ≡ groups.now) }
    ensures memory { OnErr result H.Refused }
{
    let mut copies = Vec::new(heap.alloc());
    for group in groups {
        let members = heap.copy_of(group.members())?;
        heap.push(&mut copies, Group::new(group.name(), members))?;
    }
    Ok(copies)
}

/// Looks up the place of the group of this name.
fn place_of(groups: &[Group], name: Name) -> Option<usize>
    ensures place { result ≡ position (λ group. same group.name name) groups.now }
    ensures within { IfSome result (λ place. place < length groups.now) }
{
    groups.iter().position(|group| group.name() == name)
}
