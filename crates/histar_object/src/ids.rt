//! Numbers of objects.
ghost use Rattle.std.specs.Prelude.{◌≡◌};

use std::marker::Model;

/// The number of an object. The kernel gives each number once and never again, so a known number can't come
/// to name another object. 0 is never an object.
#[derive(Clone, Copy, Debug, PartialEq, Eq, PartialOrd, Ord, Hash)]
pub struct ObjId(u64);

impl Model for ObjId {
    ghost use Rattle.std.specs.Prelude.{ℕ};

    ghost Value = { ℕ };

    ghost view = { λ id. id.0 };

    ghost inverse = { λ n. record { 0 = n } };
}

impl ObjId {
    /// Returns the object id of this number.
    pub fn new(number: u64) -> Self
        ensures { result ≡ number }
    {
        ObjId(number)
    }

    /// Returns the number itself, for texts and for layouts in bytes.
    pub fn number(self) -> u64
        ensures { result ≡ self }
    {
        self.0
    }
}
