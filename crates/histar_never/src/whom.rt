//! Whom a claim is about.
ghost use Rattle.std.specs.Prelude.{◌≡◌};
ghost use Rattle.histar_flat.specs.Accounts.{has};
ghost use Rattle.histar_never.specs.Whom.{is_meant, is_meant_user};

use histar_flat::{Name, ProcName};
use std::marker::Model;

/// The users that `all-but` names. Contracts see the list of their names.
#[derive(Drop)]
pub struct Excepted {
    names: Vec<Name>,
}

impl Model for Excepted {
    ghost use Rattle.std.specs.Prelude.{List, ℕ};

    ghost Value = { List (List ℕ) };

    ghost view = { λ e. e.names.items };
}

/// Whom a claim is about.
#[derive(Drop)]
pub enum Whom {
    /// The process of this name.
    OfProcess(ProcName),
    /// Each running process of this user, and whoever logs in as it.
    OfUser(Name),
    /// Each running process of another user than these, and whoever logs in as another.
    AllBut(Excepted),
}

impl Excepted {
    /// Makes the users of these names.
    pub fn of(names: Vec<Name>) -> Excepted
        ensures { result ≡ names.items }
    {
        Excepted { names }
    }

    /// Checks whether a user is named.
    pub fn has(&self, user: Name) -> bool
        ensures { result ≡ has self.now user }
    {
        self.names.iter().any(|name| user == *name)
    }
}

impl Whom {
    /// Checks whether a process that runs as this user is meant.
    pub fn is_meant(&self, process: &ProcName, user: Name) -> bool
        ensures { result ≡ is_meant self.now process.now user }
    {
        match self {
            Whom::OfProcess(name) => *name == *process,
            Whom::OfUser(name) => *name == user,
            Whom::AllBut(excepted) => !excepted.has(user),
        }
    }

    /// Checks whether whoever logs in as this user is meant.
    pub fn is_meant_user(&self, user: Name) -> bool
        ensures { result ≡ is_meant_user self.now user }
    {
        match self {
            Whom::OfProcess(_) => false,
            Whom::OfUser(name) => *name == user,
            Whom::AllBut(others) => !others.has(user),
        }
    }
}
