//! Paths of files and directories.
ghost use Rattle.std.specs.Prelude.{◌≡◌, ◌<◌, ◌≤◌, [], ◌∷◌, length, codes, IsTrue};
ghost use Rattle.histar_flat.specs.FlatState.{moved};
ghost use Rattle.histar_base.specs.Padding.{padded};
ghost use Rattle.histar_flat.specs.Padding.{unused_name};
ghost use Rattle.histar_flat.specs.PathOrder.{below_path, parent, under_path};
ghost use Rattle.histar_flat.specs.Words.{most_names, is_path};

use crate::names::Name;
use crate::suffix::is_under;
use std::cmp::Ordering;
use std::fmt;
use std::marker::Model;

/// The most names of a path.
pub const MOST_NAMES: usize = 8;

/// `/`, or up to eight names. Contracts see a path as the list of its names, the last one first:
/// `/` is the empty list, and a name before the path of a directory is an entry of it.
#[derive(Clone, Copy)]
pub struct Path {
    names: [Name; MOST_NAMES],
    len: u8,
}

impl Model for Path {
    ghost use Rattle.std.specs.Prelude.{ℕ, List, length, take};
    ghost use Rattle.histar_base.specs.Padding.{padded};
    ghost use Rattle.histar_base.proofs.Padded.{padded-take, length-kept};
    ghost use Rattle.histar_flat.specs.Padding.{HoldsPath, unused_name};
    ghost use Rattle.histar_flat.specs.Words.{most_names};
    ghost use Rattle.std.proofs.Common.{refl};

    ghost Value = { List (List ℕ) };

    ghost view = { λ p. take p.len p.names };

    ghost invariant = { λ p. HoldsPath p.names p.len };

    ghost inverse = { λ q. record { names = padded most_names unused_name q; len = length q } };

    ghost inverse_ok = { λ a h. Prim.rw (padded-take most_names unused_name a.names a.len h.padded, length-kept most_names unused_name a.names a.len h.padded) refl };
}

impl Path {
    /// Returns `/`.
    pub fn root() -> Path
        ensures { result ≡ [] }
    {
        Path {
            names: [unused_name(); MOST_NAMES],
            len: 0,
        }
    }

    /// Returns the path of these names, of which the last comes first.
    pub(crate) fn of(names: &[Name]) -> Path
        requires { IsTrue (is_path names.now) }
        ensures { result ≡ names.now }
    {
        Path {
            names: padded_names(names),
            len: names.len() as u8,
        }
    }

    /// Returns the path of this directory's entry of this name.
    pub fn entry(&self, name: Name) -> Path
        requires { length self.now < most_names }
        ensures { result ≡ name ∷ self.now }
    {
        let mut path = *self;
        path.enter(name);
        path
    }

    /// Goes on to this directory's entry of this name.
    pub(crate) fn enter(&mut self, name: Name)
        requires { length self.old < most_names }
        ensures { self.new ≡ name ∷ self.old }
    {
        // The name is read for its invariant: it is valid, so the path is one too.
        let _text = name.as_bytes();
        self.names.rotate_right(1);
        self.names[0] = name;
        self.len += 1;
    }

    /// Returns the names of the path, the last one first.
    pub fn names(&self) -> &[Name]
        ensures names { result.now ≡ self.now }
        ensures right { IsTrue (is_path self.now) }
    {
        &self.names[..self.len as usize]
    }

    /// Returns whether this path is the other one, or lies below it.
    pub fn is_at_or_below(&self, above: &Path) -> bool
        ensures { result ≡ under_path above.now self.now }
    {
        is_under(above.names(), self.names())
    }

    /// Returns whether this path lies below the other one.
    pub fn is_below(&self, above: &Path) -> bool
        ensures { result ≡ below_path above.now self.now }
    {
        match self.names() {
            [] => false,
            [_, directory @ ..] => is_under(above.names(), directory),
        }
    }

    /// Returns where this path leads once the file or directory at `old` has a new name in its directory.
    pub fn renamed(&self, old: &Path, name: Name) -> Path
        ensures { result ≡ moved old.now (name ∷ parent old.now) self.now }
    {
        if old.depth() == 0 || !self.is_at_or_below(old) {
            return *self;
        }
        let _text = name.as_bytes();
        let mut names = self.names;
        names[self.depth() - old.depth()] = name;
        Path {
            names,
            len: self.len,
        }
    }

    /// Returns how many names the path has.
    pub fn depth(&self) -> usize
        ensures value { result ≡ length self.now }
        ensures most { result ≤ most_names }
    {
        self.len as usize
    }
}

/// A path is printed as it is written in a script.
impl fmt::Display for Path {
    ghost use Rattle.std.specs.Prelude.{Some};
    ghost use Rattle.histar_flat.specs.Texts.{path_text};

    ghost output = { λ path. Some (path_text path) };

    fn fmt<W: fmt::Write>(&self, f: &mut fmt::Formatter<W>) -> fmt::Result {
        let names = self.names();
        if names.is_empty() {
            return write!(f, "/");
        }
        for i in 0..names.len() {
            let name = names[names.len() - 1 - i];
            write!(f, "/{name}")?;
        }
        Ok(())
    }
}

impl PartialEq for Path {
    ghost use Rattle.std.specs.Prelude.{nat_eq};
    ghost use Rattle.std.specs.Cmp.Lexicographic.{pointwise, nat_list_eq_equiv};
    ghost use Rattle.std.specs.Cmp.{partial_equiv_from_equiv};
    ghost use Rattle.std.proofs.lemmas.Cmp.{lists_equiv};

    ghost eq = { pointwise (pointwise nat_eq) };

    ghost laws = { partial_equiv_from_equiv (lists_equiv nat_list_eq_equiv) };

    fn eq(&self, other: &Path) -> bool {
        self.names() == other.names()
    }
}

impl Eq for Path {
    ghost use Rattle.std.specs.Cmp.Lexicographic.{nat_list_eq_equiv};
    ghost use Rattle.std.proofs.lemmas.Cmp.{lists_equiv};

    ghost laws = { lists_equiv nat_list_eq_equiv };
}

impl PartialOrd for Path {
    ghost use Rattle.std.specs.Prelude.{Some};
    ghost use Rattle.histar_base.specs.Paths.{path_cmp};
    ghost use Rattle.histar_base.proofs.PathLaws.{path_cmp_po};

    ghost partial_cmp = { λ p q. Some (path_cmp p q) };

    ghost laws = { path_cmp_po };

    fn partial_cmp(&self, other: &Path) -> Option<Ordering> {
        Some(self.cmp(other))
    }
}

/// Paths are ordered by their names from `/` on, as a tree is listed.
impl Ord for Path {
    ghost use Rattle.std.proofs.Common.{refl};
    ghost use Rattle.histar_base.specs.Paths.{path_cmp};
    ghost use Rattle.histar_base.proofs.PathLaws.{path_cmp_total, path_cmp_ties};

    ghost cmp = { path_cmp };

    ghost total = { path_cmp_total };

    ghost matches_partial_cmp = { λ p q. refl };

    ghost matches_eq = { path_cmp_ties };

    fn cmp(&self, other: &Path) -> Ordering {
        self.names().iter().rev().cmp(other.names().iter().rev())
    }
}

fn padded_names(names: &[Name]) -> [Name; MOST_NAMES]
    requires { length names.now ≤ most_names }
    ensures { result ≡ padded most_names unused_name names.now }
{
    let mut padded = [unused_name(); MOST_NAMES];
    padded[..names.len()].copy_from_slice(names);
    padded
}

/// Returns the name that fills the unused places of a path.
#[tactic(auto, unfolding(crate::specs::Words::is_name))]
fn unused_name() -> Name
    ensures { result ≡ codes "-" }
{
    Name::of(b"-".as_slice())
}
