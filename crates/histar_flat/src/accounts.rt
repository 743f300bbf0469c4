//! The users and groups that a script declares.
ghost use Rattle.std.specs.Prelude.{◌≡◌, ◌<◌, ◌≤◌, length, position, IfSome, OnErr, OnOk};
ghost use Rattle.histar_base.specs.Paths.{same};
ghost use Rattle.histar_flat.specs.Accounts.{IsSmall, group_number, is_group, most_users, most_groups, no_accounts, with_user, with_group};

use crate::calls::User;
use crate::groups::Group;
use crate::names::Name;
use histar_heap::Heap;
use std::alloc::{AllocError, Global};
use std::marker::Model;

/// The users of a machine and their groups, at most 16 users and 8 groups. Each has a number, from 1 on in
/// the order of declaration.
#[derive(Drop)]
pub struct Accounts {
    users: Vec<User>,
    groups: Vec<Group>,
}

impl Model for Accounts {
    ghost use Rattle.histar_flat.specs.Accounts.{Accounts, IsSmall};

    ghost Value = { Accounts };

    ghost view = { λ s. record { users = s.users.items; groups = s.groups.items } };

    ghost invariant = { λ s. IsSmall (record { users = s.users.items; groups = s.groups.items }) };
}

impl Accounts {
    /// Returns accounts with no users and no groups.
    pub fn new(alloc: Global) -> Accounts
        ensures { result ≡ no_accounts }
    {
        Accounts {
            users: Vec::new(alloc),
            groups: Vec::new(alloc),
        }
    }

    /// Returns the users, in the order in which they were declared.
    pub fn users(&self) -> &[User]
        ensures users { result.now ≡ self.now.users }
        ensures few { IsSmall self.now }
    {
        self.users.as_slice()
    }

    /// Returns the groups, in the order in which they were declared.
    pub fn groups(&self) -> &[Group]
        ensures groups { result.now ≡ self.now.groups }
        ensures few { IsSmall self.now }
    {
        self.groups.as_slice()
    }

    /// Declares a user, after the others.
    pub fn add_user<H: Heap>(&mut self, heap: H, user: User) -> Result<(), AllocError>
        requires { length self.old.users < most_users }
        ensures ok { OnOk result (self.new ≡ with_user self.old user) }
        ensures memory { OnErr result H.Refused }
    {
        heap.push(&mut self.users, user)?;
        Ok(())
    }

    /// Declares a group, after the others.
    pub fn add_group<H: Heap>(&mut self, heap: H, group: Group) -> Result<(), AllocError>
        requires { length self.old.groups < most_groups }
        ensures ok { OnOk result (self.new ≡ with_group self.old group) }
        ensures memory { OnErr result H.Refused }
    {
        heap.push(&mut self.groups, group)?;
        Ok(())
    }

    /// Returns the number of the group of this name, or `None` if none is declared.
    pub fn group_number(&self, name: Name) -> Option<u8>
        ensures number { result ≡ group_number self.now name }
        ensures small { IfSome result (λ number. number ≤ most_groups) }
    {
        match place_of(self.groups.as_slice(), name) {
            None => None,
            Some(place) => Some(place as u8 + 1),
        }
    }

    /// Returns whether a group has this name.
    pub fn has_group(&self, name: Name) -> bool
        ensures { result ≡ is_group self.now name }
    {
        self.groups.iter().any(|group| group.name() == name)
    }
}

/// Returns the place of the group of this name, counted from 0.
fn place_of(groups: &[Group], name: Name) -> Option<usize>
    ensures place { result ≡ position (λ group. same group.name name) groups.now }
    ensures within { IfSome result (λ place. place < length groups.now) }
{
    groups.iter().position(|group| group.name() == name)
}
