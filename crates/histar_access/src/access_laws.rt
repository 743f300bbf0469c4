//! Laws of what is compared. Each law is the contract of a function that does nothing.
ghost use Rattle.histar_access.specs.Laws.{UserChangesOfScriptsRise};

/// Shows that what `diff` compares for users lists each pair of a path and a user at most once: by
/// rising paths, and at each path in the order of the old script.
pub fn user_changes_of_scripts_rise()
    ensures { UserChangesOfScriptsRise }
{}
