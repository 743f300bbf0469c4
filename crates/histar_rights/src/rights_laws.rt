//! What rights mean. Each law is the contract of a function that does nothing.
ghost use Rattle.histar_rights.specs.Laws.{DirectoriesGiveRights, LettersAreReplies, LettersSpellRights};
ghost use Rattle.histar_rights.specs.Users.{LettersAreThoseAfterLogin, LettersOfUsersAreReplies};
ghost use Rattle.histar_rights.specs.Laws.{ProcessesHaveShownNames, RunningAreListed, WritersMakeEntries};

/// Shows that the rights at a path are those that its directory gives and that its class allows the process.
pub fn directories_give_rights()
    ensures { DirectoriesGiveRights }
{}

/// Shows that a process has a right exactly if a script with one more line, by which the process uses it, has
/// that line answered and not refused.
pub fn letters_are_replies()
    ensures { LettersAreReplies }
{}

/// Shows that a process has the right to write a directory exactly if it is not refused a new entry in it,
/// while the directory has room.
pub fn writers_make_entries()
    ensures { WritersMakeEntries }
{}

/// Shows that the processes of a table are exactly those that run, in the order of their names.
pub fn running_are_listed()
    ensures { RunningAreListed }
{}

/// Shows that after the calls of a script each process has a name that can be shown.
pub fn processes_are_named()
    ensures { ProcessesHaveShownNames }
{}

/// Shows that a text is read as rights exactly if it is their letters, as `push_letters` adds them.
pub fn letters_spell_rights()
    ensures { LettersSpellRights }
{}

/// Shows that a letter of a user is there exactly if one more line, by which a process of this user in no job
/// and with none uses the right, is answered and not refused.
pub fn letters_of_users_are_replies()
    ensures { LettersOfUsersAreReplies }
{}

/// Shows that a letter of a user is there exactly if, after an answered login of a process as this user, one
/// more line of that process, by which it uses the right, is answered and not refused.
pub fn letters_are_those_after_login()
    ensures { LettersAreThoseAfterLogin }
{}
