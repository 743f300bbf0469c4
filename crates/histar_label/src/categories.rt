//! Categories, each a kind of information that a label restricts on its own.
ghost use Rattle.std.specs.Prelude.{◌≡◌};

use std::marker::Model;

/// A category, by its number. A kernel numbers the categories that it makes from 1 on, and each number may
/// occur in a label.
#[derive(Clone, Copy, Debug, Default, PartialEq, Eq, PartialOrd, Ord, Hash)]
pub struct Category(u64);

impl Model for Category {
    ghost use Rattle.std.specs.Prelude.{ℕ};

    ghost Value = { ℕ };

    ghost view = { λ c. c.0 };

    ghost inverse = { λ n. record { 0 = n } };
}

impl Category {
    /// Returns the category of this number.
    pub fn new(number: u64) -> Self
        ensures { result ≡ number }
    {
        Category(number)
    }

    /// Returns its number.
    pub fn number(self) -> u64
        ensures { result ≡ self }
    {
        self.0
    }
}
