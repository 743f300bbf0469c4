//! What the definitions of labels amount to. Each law is the contract of a function that does
//! nothing.
ghost use Rattle.histar_level.specs.Levels.{Levels};
ghost use Rattle.histar_level.specs.Same.{is_same};
ghost use Rattle.histar_label.specs.Levels.{is_below};
ghost use Rattle.histar_label.specs.Floors.{join_of, floor_of};
ghost use Rattle.histar_label.specs.Laws.{ComparesFunctions, IsListed, TestsArePointwise};
ghost use Rattle.histar_label.specs.Laws.{IsPartialOrder, IsLeastUpperBound, IsFloor};

/// Proves that labels with the same level at each category are one value, and that `==` decides whether they
/// are.
pub fn equality_is_of_functions()
    ensures { ComparesFunctions is_same }
{}

/// Proves that the default of a label is its level from some category on, and that its exceptions are the
/// categories with another level.
pub fn labels_are_listed()
    ensures { (L : Levels) → IsListed L }
{}

/// Proves that the equations of the comparisons, the join and the floor agree with their rules at every
/// category.
pub fn tests_are_pointwise()
    ensures { TestsArePointwise }
{}

/// Proves that `below` is a partial order.
pub fn below_is_a_partial_order()
    ensures { IsPartialOrder is_below }
{}

/// Proves that the join of two labels is their least upper bound.
pub fn join_is_least_upper_bound()
    ensures { (L M : Levels) → IsLeastUpperBound L M (join_of L M) }
{}

/// Proves that the floor of two labels is the least label that has star where either has star and is at least
/// both elsewhere, and that it is their least upper bound in the order where star is the highest level.
pub fn floor_is_least()
    ensures { (L M : Levels) → IsFloor L M (floor_of L M) }
{}
