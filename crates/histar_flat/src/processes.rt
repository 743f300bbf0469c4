//! Names of processes.
ghost use Rattle.std.specs.Prelude.{◌≡◌, ◌<◌, ◌≤◌, [], ◌∷◌, length};
ghost use Rattle.histar_flat.specs.PathOrder.{under_process};
ghost use Rattle.histar_flat.specs.Words.{most_numbers};

use crate::suffix::is_under;
use std::marker::Model;

/// The most numbers after the leading 0 of a process's name.
pub const MOST_NUMBERS: usize = 7;

/// `0`, then up to seven numbers, each of which is the number of a child. Contracts see a process's
/// name as the list of the numbers after the 0, the last one first: process 0 is the empty list, and
/// a number before a process's name is a child of it.
#[derive(Clone, Copy)]
pub struct ProcName {
    numbers: [u8; MOST_NUMBERS],
    len: u8,
}

impl Model for ProcName {
    ghost use Rattle.std.specs.Prelude.{ℕ, List, length, take};
    ghost use Rattle.histar_base.specs.Padding.{padded, IsPadded};
    ghost use Rattle.histar_base.proofs.Padded.{padded-take, length-kept};
    ghost use Rattle.histar_flat.specs.Words.{most_numbers};
    ghost use Rattle.std.proofs.Common.{refl};

    ghost Value = { List ℕ };

    ghost view = { λ p. take p.len p.numbers };

    ghost invariant = { λ p. IsPadded most_numbers 0 p.numbers p.len };

    ghost inverse = { λ ns. record { numbers = padded most_numbers 0 ns; len = length ns } };

    ghost inverse_ok = { λ a h. Prim.rw (padded-take most_numbers 0 a.numbers a.len h, length-kept most_numbers 0 a.numbers a.len h) refl };
}

impl ProcName {
    /// Returns the name of the first process.
    pub fn zero() -> ProcName
        ensures { result ≡ [] }
    {
        ProcName {
            numbers: [0; MOST_NUMBERS],
            len: 0,
        }
    }

    /// Returns the name of this process's child of this number.
    pub fn child(self, number: u8) -> ProcName
        requires { length self < most_numbers }
        ensures { result ≡ number ∷ self }
    {
        let mut numbers = self.numbers;
        numbers.rotate_right(1);
        numbers[0] = number;
        ProcName {
            numbers,
            len: self.len + 1,
        }
    }

    /// Returns the numbers after the leading 0, the last one first.
    pub fn numbers(&self) -> &[u8]
        ensures value { result.now ≡ self.now }
        ensures most { length self.now ≤ most_numbers }
    {
        &self.numbers[..self.len as usize]
    }

    /// Returns whether this process is the other one, or a descendant of it.
    pub fn is_at_or_below(&self, above: &ProcName) -> bool
        ensures { result ≡ under_process above.now self.now }
    {
        is_under(above.numbers(), self.numbers())
    }
}

impl PartialEq for ProcName {
    ghost use Rattle.std.specs.Prelude.{nat_eq};
    ghost use Rattle.std.specs.Cmp.Lexicographic.{pointwise, nat_list_eq_equiv};
    ghost use Rattle.std.specs.Cmp.{partial_equiv_from_equiv};

    ghost eq = { pointwise nat_eq };

    ghost laws = { partial_equiv_from_equiv nat_list_eq_equiv };

    fn eq(&self, other: &ProcName) -> bool {
        self.numbers() == other.numbers()
    }
}

impl Eq for ProcName {
    ghost use Rattle.std.specs.Cmp.Lexicographic.{nat_list_eq_equiv};

    ghost laws = { nat_list_eq_equiv };
}
