//! Laws about what is visible. Each law is the contract of a function that does nothing.
ghost use Rattle.histar_syscall.specs.Laws.{VisibleIsReached, SameNumbersAreVisible};

/// Proves that an object is visible at the end of a path exactly where links lead to it from the root
/// container through untainted objects alone.
pub fn what_is_visible_is_reached()
    ensures { VisibleIsReached }
{}

/// Proves that, whatever raw calls confined threads make, the same objects are visible under the same
/// numbers.
pub fn the_same_numbers_are_visible()
    ensures { SameNumbersAreVisible }
{}
