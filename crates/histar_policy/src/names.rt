//! Sets of names of processes.
ghost use Rattle.std.specs.Prelude.{◌≡◌, ◌≤◌, [], ◌∷◌, length, IfOk, OnOk};
ghost use Rattle.histar_flat.specs.Accounts.{has};
ghost use Rattle.histar_flat.specs.Words.{most_numbers};
ghost use Rattle.histar_policy.specs.Names.{Adds, AreNames, at_or_above};

use histar_flat::ProcName;
use std::alloc::{AllocError, Global};
use std::collections::HashSet;
use std::hash::{Hash, Hasher};
use std::marker::Model;

/// A name of a process, as an element of a set.
#[derive(Drop)]
struct Member {
    name: ProcName,
}

impl Model for Member {
    ghost use Rattle.std.specs.Prelude.{ℕ, List};

    ghost Value = { List ℕ };

    ghost view = { λ m. m.name };
}

impl PartialEq for Member {
    ghost use Rattle.std.specs.Prelude.{nat_eq};
    ghost use Rattle.std.specs.Cmp.Lexicographic.{pointwise, nat_list_eq_equiv};
    ghost use Rattle.std.specs.Cmp.{partial_equiv_from_equiv};

    ghost eq = { pointwise nat_eq };

    ghost laws = { partial_equiv_from_equiv nat_list_eq_equiv };

    fn eq(&self, other: &Member) -> bool {
        self.name == other.name
    }
}

impl Eq for Member {
    ghost use Rattle.std.specs.Cmp.Lexicographic.{nat_list_eq_equiv};

    ghost laws = { nat_list_eq_equiv };
}

impl Hash for Member {
    ghost use Rattle.std.proofs.Common.{ap};
    ghost use Rattle.std.specs.Hash as fed;
    ghost use Rattle.std.proofs.lemmas.Slice.Eq.{bytes_eq-Decides};

    ghost hash_input = { λ m. fed.slice ⟦<u8 as Hash>⟧.hash_input m };

    ghost respects_eq = { λ m n same. ap (λ l. fed.slice ⟦<u8 as Hash>⟧.hash_input l)
        ((bytes_eq-Decides m n).0 same) };

    fn hash<H: Hasher>(&self, state: &mut H) {
        self.name.numbers().hash(state);
    }
}

/// A set of names of processes.
#[derive(Drop)]
pub(crate) struct Names {
    members: HashSet<Member>,
}

impl Names {
    /// Makes a set with no name.
    pub(crate) fn new(alloc: Global) -> Self
        ensures { AreNames result [] }
    {
        Names {
            members: HashSet::new(alloc),
        }
    }

    /// Adds a name.
    pub(crate) fn add(&mut self, name: &ProcName) -> Result<(), AllocError>
        ensures { OnOk result (Adds self.old self.new (name.now ∷ [])) }
    {
        self.members.insert(Member { name: *name })?;
        Ok(())
    }

    /// Adds the process of these numbers and those above it, and returns its name.
    pub(crate) fn add_way(&mut self, numbers: &[u8]) -> Result<ProcName, AllocError>
        requires { length numbers.now ≤ most_numbers }
        ensures name { IfOk result (λ name. name ≡ numbers.now) }
        ensures added { OnOk result (Adds self.old self.new (at_or_above numbers.now)) }
    {
        let name = match numbers {
            [] => ProcName::zero(),
            [number, above @ ..] => self.add_way(above)?.child(*number),
        };
        self.add(&name)?;
        Ok(name)
    }

    /// Checks whether the set has a name.
    pub(crate) fn has(&self, name: &ProcName) -> bool
        ensures { result ≡ has self.now.members.keys name.now }
    {
        self.members.contains(&Member { name: *name })
    }
}
