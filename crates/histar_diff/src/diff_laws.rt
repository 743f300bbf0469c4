//! What differences mean. Each law is the contract of a function that does nothing.
ghost use Rattle.histar_diff.specs.Laws.{DifferencesAreListed, DifferencesAreOneList, LoneOfTablesAreListed};
ghost use Rattle.histar_diff.specs.Laws.{ChangesAreListed, ChangesAreOneList, DifferencesAreChanges};
ghost use Rattle.histar_diff.specs.Laws.{GainsAreListed, GainsOfTablesAreListed, LoneAreListed};
ghost use Rattle.histar_diff.specs.Laws.{NewAreListed, NewOfTablesAreListed};
ghost use Rattle.histar_diff.specs.Laws.{NobodyIsAnsweredMore, NobodyIsAnsweredOtherwise, NoGainIsNoMore};
ghost use Rattle.histar_diff.specs.Laws.{NoneIsTheSame, NothingHasChanged};
ghost use Rattle.histar_diff.specs.Laws.{ShownTablesRise, TablesShowRights};
ghost use Rattle.histar_diff.specs.UserLaws.{LoneUsersAreListed, NothingHasChangedForUsers};
ghost use Rattle.histar_diff.specs.UserLaws.{NoUserGainsIsNoMore};
ghost use Rattle.histar_diff.specs.UserLaws.{UserChangesAreListed, UserChangesRise};
ghost use Rattle.histar_diff.specs.UserLaws.{UserDifferencesAreChanges};
ghost use Rattle.histar_diff.specs.UserLaws.{UserGainsAreListed, UsersAreAnsweredAlike};

/// Shows that a pair of a path and a process is listed exactly if both tables have the process and its letters
/// differ.
pub fn differences_are_listed()
    ensures { DifferencesAreListed }
{}

/// Shows that a process is listed as lone exactly if one of the tables has it and the other hasn't.
pub fn lone_of_tables_are_listed()
    ensures { LoneOfTablesAreListed }
{}

/// Shows that nothing is listed exactly if both tables have the same processes, and each has the same letters at
/// each path.
pub fn no_difference_is_the_same()
    ensures { NoneIsTheSame }
{}

/// Shows that two lists of exactly the differences of two tables are the same list, and so are those of lone
/// processes.
pub fn differences_are_one_list()
    ensures { DifferencesAreOneList }
{}

/// Shows that a table that shows the rights after the calls of a script is in the order that
/// `differences_between` requires.
pub fn shown_tables_rise()
    ensures { ShownTablesRise }
{}

/// Shows that the rights in such a table are those of the state after the calls.
pub fn tables_show_rights()
    ensures { TablesShowRights }
{}

/// Shows that nothing is listed of two tables that show the rights after the calls of scripts exactly if the
/// same processes run after both, and each has the same letters at each path.
pub fn nothing_has_changed()
    ensures { NothingHasChanged }
{}

/// Shows that the differences of two tables that show the rights after the calls of scripts are the changes
/// between the two flat states, stated without tables.
pub fn differences_are_changes()
    ensures { DifferencesAreChanges }
{}

/// Shows that a pair of a path and a process is a change exactly if the process runs in both states and its
/// letters differ.
pub fn changes_are_listed()
    ensures { ChangesAreListed }
{}

/// Shows that a process is listed as lone exactly if it runs in one of the states only.
pub fn lone_are_listed()
    ensures { LoneAreListed }
{}

/// Shows that two lists of exactly the changes between two states are the same list, and so are those of lone
/// processes.
pub fn changes_are_one_list()
    ensures { ChangesAreOneList }
{}

/// Shows that if nothing has changed between the states after two scripts, every running process has, at
/// every path, the same answer to each of the four questions in both.
pub fn nobody_is_answered_otherwise()
    ensures { NobodyIsAnsweredOtherwise }
{}

/// Shows that a pair of a path and a process is a gain of a table exactly if both tables have the process and
/// the new one gives it a letter that the old one doesn't.
pub fn gains_of_tables_are_listed()
    ensures { GainsOfTablesAreListed }
{}

/// Shows that a process is listed as new exactly if the new table has it and the old one hasn't.
pub fn new_of_tables_are_listed()
    ensures { NewOfTablesAreListed }
{}

/// Shows that a pair of a path and a process is a gain exactly if the process runs in both states and the new
/// one gives it a letter that the old one doesn't.
pub fn gains_are_listed()
    ensures { GainsAreListed }
{}

/// Shows that a process is listed as new exactly if it runs in the new state only.
pub fn new_are_listed()
    ensures { NewAreListed }
{}

/// Shows that there is no gain between the states after two scripts exactly if each letter of the new one is
/// one of the old one. A process that runs may always ask for `/`, so a new one has a letter.
pub fn no_gain_is_no_more()
    ensures { NoGainIsNoMore }
{}

/// Shows that if there is no gain between the states after two scripts, every process has, at every path,
/// each letter after the old script that it has after the new one, and so the answers that these stand for.
pub fn nobody_is_answered_more()
    ensures { NobodyIsAnsweredMore }
{}

/// Shows that what differs between two tables that show the rights of users in flat states is what
/// changed for users between the two states, stated without tables.
pub fn user_differences_are_changes()
    ensures { UserDifferencesAreChanges }
{}

/// Shows that a path and a user are listed exactly if both scripts have the user and its rights
/// there differ.
pub fn user_changes_are_listed()
    ensures { UserChangesAreListed }
{}

/// Shows that the changes of users are listed by rising paths, and at each path in the order of the
/// old script, so that each pair of a path and a user is listed at most once.
pub fn user_changes_rise()
    ensures { UserChangesRise }
{}

/// Shows that a user is listed as gone exactly if the old script alone declares it, and as new
/// exactly if the new one alone does.
pub fn lone_users_are_listed()
    ensures { LoneUsersAreListed }
{}

/// Shows that nothing is listed for users exactly if both scripts have the same users, and each has
/// the same letters at each path.
pub fn nothing_has_changed_for_users()
    ensures { NothingHasChangedForUsers }
{}

/// Shows that a path and a user are a gain exactly if both scripts have the user and the new state
/// gives it a letter that the old one doesn't.
pub fn user_gains_are_listed()
    ensures { UserGainsAreListed }
{}

/// Shows that there is no new user and no gain exactly if each user of the new script is one of the
/// old script, and each of its letters in the new state is one in the old state.
pub fn no_user_gains_is_no_more()
    ensures { NoUserGainsIsNoMore }
{}

/// Shows that if nothing has changed for users between the states after two scripts, processes of a
/// user of both, in no job and holding none, have at every path the same answer to each of the four
/// questions in both.
pub fn users_are_answered_alike()
    ensures { UsersAreAnsweredAlike }
{}
