//! Names and passwords, as types that hold only valid ones.
ghost use Rattle.std.specs.Prelude.{◌≡◌, IsTrue};
ghost use Rattle.histar_flat.specs.Words.{is_name, is_password};

use crate::words::Word;
use std::cmp::Ordering;
use std::fmt;
use std::marker::Model;

/// The name of a user, a group or an entry of a directory: 1 to 32 bytes of `a-z 0-9 . _ -`, not `.` and not
/// `..`. Contracts see a name as the list of its bytes.
#[derive(Clone, Copy)]
pub struct Name {
    word: Word,
}

impl Model for Name {
    ghost use Rattle.std.specs.Prelude.{ℕ, List, IsTrue};
    ghost use Rattle.histar_flat.specs.Words.{is_name};

    ghost Value = { List ℕ };

    ghost view = { λ n. n.word };

    ghost invariant = { λ n. IsTrue (is_name n.word) };

    ghost inverse = { λ bs. record { word = bs } };
}

impl Name {
    /// Returns the name with these bytes, which have to be valid; `read_name` checks bytes that may not be.
    #[tactic(auto, using(crate::proofs::WordLemmas::short_name))]
    pub(crate) fn of(text: &[u8]) -> Name
        requires { IsTrue (is_name text.now) }
        ensures { result ≡ text.now }
    {
        Name {
            word: Word::of(text),
        }
    }

    pub fn as_bytes(&self) -> &[u8]
        ensures value { result.now ≡ self.now }
        ensures right { IsTrue (is_name self.now) }
    {
        self.word.as_bytes()
    }

    /// Returns the name as text.
    pub fn as_str(&self) -> &str
        ensures { result.now ≡ self.now }
    {
        match str::from_utf8(self.as_bytes()) {
            Ok(text) => text,
            Err(_) => unreachable!(),
        }
    }
}

/// A name is printed as its bytes.
impl fmt::Display for Name {
    ghost use Rattle.std.specs.Prelude.{Some};

    ghost output = { λ name. Some name };

    fn fmt<W: fmt::Write>(&self, f: &mut fmt::Formatter<W>) -> fmt::Result {
        let text = self.as_str();
        write!(f, "{text}")
    }
}

impl PartialEq for Name {
    ghost use Rattle.std.specs.Prelude.{nat_eq};
    ghost use Rattle.std.specs.Cmp.Lexicographic.{pointwise, nat_list_eq_equiv};
    ghost use Rattle.std.specs.Cmp.{partial_equiv_from_equiv};

    ghost eq = { pointwise nat_eq };

    ghost laws = { partial_equiv_from_equiv nat_list_eq_equiv };

    fn eq(&self, other: &Name) -> bool {
        self.as_bytes() == other.as_bytes()
    }
}

impl Eq for Name {
    ghost use Rattle.std.specs.Cmp.Lexicographic.{nat_list_eq_equiv};

    ghost laws = { nat_list_eq_equiv };
}

impl PartialOrd for Name {
    ghost use Rattle.std.specs.Prelude.{Some};
    ghost use Rattle.std.specs.Ordering.{nat_cmp};
    ghost use Rattle.std.specs.Cmp.Lexicographic.{slice_cmp, texts_po};

    ghost partial_cmp = { λ a b. Some (slice_cmp nat_cmp a b) };

    ghost laws = { texts_po };

    fn partial_cmp(&self, other: &Name) -> Option<Ordering> {
        Some(self.cmp(other))
    }
}

/// Names are ordered by their bytes, as the entries of a directory are listed.
impl Ord for Name {
    ghost use Rattle.std.proofs.Common.{refl};
    ghost use Rattle.std.specs.Ordering.{nat_cmp};
    ghost use Rattle.std.specs.Cmp.Lexicographic.{slice_cmp, nat_list_cmp_total, texts_ties};

    ghost cmp = { slice_cmp nat_cmp };

    ghost total = { nat_list_cmp_total };

    ghost matches_partial_cmp = { λ x y. refl };

    ghost matches_eq = { texts_ties };

    fn cmp(&self, other: &Name) -> Ordering {
        self.as_bytes().cmp(other.as_bytes())
    }
}

/// The password of a user, which `login` checks: 1 to 32 bytes, each 0x21 to 0x7e.
#[derive(Clone, Copy)]
pub struct Password {
    word: Word,
}

impl Model for Password {
    ghost use Rattle.std.specs.Prelude.{ℕ, List, IsTrue};
    ghost use Rattle.histar_flat.specs.Words.{is_password};

    ghost Value = { List ℕ };

    ghost view = { λ p. p.word };

    ghost invariant = { λ p. IsTrue (is_password p.word) };

    ghost inverse = { λ bs. record { word = bs } };
}

impl Password {
    /// Returns the password with these bytes, which have to be valid; `read_password` checks bytes that may
    /// not be.
    #[tactic(auto, using(crate::proofs::WordLemmas::short_password))]
    pub(crate) fn of(text: &[u8]) -> Password
        requires { IsTrue (is_password text.now) }
        ensures { result ≡ text.now }
    {
        Password {
            word: Word::of(text),
        }
    }

    pub fn as_bytes(&self) -> &[u8]
        ensures value { result.now ≡ self.now }
        ensures right { IsTrue (is_password self.now) }
    {
        self.word.as_bytes()
    }
}

impl PartialEq for Password {
    ghost use Rattle.std.specs.Prelude.{nat_eq};
    ghost use Rattle.std.specs.Cmp.Lexicographic.{pointwise, nat_list_eq_equiv};
    ghost use Rattle.std.specs.Cmp.{partial_equiv_from_equiv};

    ghost eq = { pointwise nat_eq };

    ghost laws = { partial_equiv_from_equiv nat_list_eq_equiv };

    fn eq(&self, other: &Password) -> bool {
        self.as_bytes() == other.as_bytes()
    }
}

impl Eq for Password {
    ghost use Rattle.std.specs.Cmp.Lexicographic.{nat_list_eq_equiv};

    ghost laws = { nat_list_eq_equiv };
}
