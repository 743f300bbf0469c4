//! The names of objects and categories are right. Each law is the contract of a function that does nothing.
ghost use Rattle.histar_names.specs.Laws.{BirthsAreKept, CategoriesAreNamed, LocationsAreComplete, LocationsAreRight};
ghost use Rattle.histar_names.specs.Laws.{PurposesAreRight, UsersAreRight};

/// States that what is noted of a category that is new is its purpose, under each naming by which the state
/// represents a flat state.
pub fn purposes_are_right()
    ensures { PurposesAreRight }
{}

/// States that each category that is used is named as what it is for, where what was noted of categories is
/// right.
pub fn categories_are_named()
    ensures { CategoriesAreNamed }
{}

/// States that what was noted of categories is right after a line where it is right before it.
pub fn births_are_kept()
    ensures { BirthsAreKept }
{}

/// States that the object at the address that has an object's number is what the explanation says, under each
/// naming by which the state represents a flat state.
pub fn locations_are_right()
    ensures { LocationsAreRight }
{}

/// States that an object has a location if it is at the path of the line, or a part of a process that the line
/// names, or above these.
pub fn locations_are_complete()
    ensures { LocationsAreComplete }
{}

/// States that the user given for a process is its user, and that there is one exactly if the process runs, in
/// each state that represents a flat state.
pub fn users_are_right()
    ensures { UsersAreRight }
{}
