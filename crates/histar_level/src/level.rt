//! Levels, in their order star < 0 < 1 < 2 < 3.
ghost use Rattle.std.specs.Prelude.{◌≡◌, ◌↔◌, max, IsTrue};
ghost use Rattle.histar_level.specs.Level.{rank, raised, lowered, is_star};

/// How a label restricts one category, from the lowest level to the highest. The meaning of a level for an
/// object is the one for threads with the usual level, 1; the checks of the kernel alone decide (HiStar, OSDI
/// 2006).
#[derive(Clone, Copy, Debug, Default, PartialEq, Eq, Hash)]
pub enum Level {
    /// The holder owns the category.
    Star,
    /// The object cannot be modified.
    L0,
    /// No restriction.
    #[default]
    L1,
    /// A thread that reads the object cannot pass on what it reads.
    L2,
    /// The object cannot be observed.
    L3,
}

impl Level {
    /// Checks whether it is star.
    #[tactic(auto, unfolding(crate::specs::Level::is_star))]
    pub fn is_star(self) -> bool
        ensures star { IsTrue result ↔ (self ≡ Level.Star) }
        ensures value { result ≡ is_star self }
    {
        matches!(self, Level::Star)
    }

    /// Returns its place in the order star < 0 < 1 < 2 < 3.
    pub fn rank(self) -> u8
        ensures { result ≡ rank self }
    {
        match self {
            Level::Star => 0,
            Level::L0 => 1,
            Level::L1 => 2,
            Level::L2 => 3,
            Level::L3 => 4,
        }
    }

    /// Returns its place where star is read as J, which is above 3.
    pub fn raised(self) -> u8
        ensures { result ≡ raised self }
    {
        match self {
            Level::Star => 5,
            _ => self.rank(),
        }
    }

    /// Returns the greater of the two.
    pub fn join(self, other: Level) -> Level
        ensures { rank result ≡ max (rank self) (rank other) }
    {
        if self.rank() < other.rank() {
            other
        } else {
            self
        }
    }

    /// Returns star where one of the two is star, and otherwise the greater.
    pub fn floor(self, other: Level) -> Level
        ensures { rank result ≡ lowered (max (raised self) (raised other)) }
    {
        match (self, other) {
            (Level::Star, _) | (_, Level::Star) => Level::Star,
            _ => self.join(other),
        }
    }
}
