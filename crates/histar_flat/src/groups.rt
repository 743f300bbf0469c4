//! Groups of users.
ghost use Rattle.std.specs.Prelude.{◌≡◌, ◌≤◌, length};
ghost use Rattle.histar_flat.specs.Accounts.{has, most_members};

use crate::names::Name;
use std::marker::Model;

/// A group of at most 16 users. Contracts see it as its name and the list of its members' names.
#[derive(Drop)]
pub struct Group {
    name: Name,
    members: Vec<Name>,
}

impl Model for Group {
    ghost use Rattle.std.specs.Prelude.{◌≤◌, length};
    ghost use Rattle.histar_flat.specs.Accounts.{Group, most_members};

    ghost Value = { Group };

    ghost view = { λ g. record { name = g.name; members = g.members.items } };

    ghost invariant = { λ g. length g.members.items ≤ most_members };
}

impl Group {
    /// Returns a group with this name and these members.
    pub fn new(name: Name, members: Vec<Name>) -> Group
        requires { length members.items ≤ most_members }
        ensures { result ≡ record { name = name; members = members.items } }
    {
        Group { name, members }
    }

    pub fn name(&self) -> Name
        ensures { result ≡ self.now.name }
    {
        self.name
    }

    /// Returns the names of the members, in the order in which they were declared.
    pub fn members(&self) -> &[Name]
        ensures members { result.now ≡ self.now.members }
        ensures few { length self.now.members ≤ most_members }
    {
        self.members.as_slice()
    }

    /// Returns whether the user is a member.
    pub fn has(&self, user: Name) -> bool
        ensures { result ≡ has self.now.members user }
    {
        self.members.iter().any(|member| user == *member)
    }
}
