//! What warnings amount to. Each law is the contract of a function that does nothing.
ghost use Rattle.histar_policy.specs.Laws.{LoneWritersAreSaid, TakersMayRemove, UnstartedAreSaid};
ghost use Rattle.histar_policy.specs.Laws.{WritersMayWrite, WrongPasswordsAreSaid};

/// Proves that a login has a warning exactly where a running process in no job gives another password
/// than that of the user it names.
pub fn wrong_passwords_are_said()
    ensures { WrongPasswordsAreSaid }
{}

/// Proves that each call of a process that was never started, by the reasons of refusals, has that
/// warning.
pub fn unstarted_are_said()
    ensures { UnstartedAreSaid }
{}

/// Proves that a user is among the takers of what a call made exactly if it did not make it and may remove it
/// once it has logged in.
pub fn takers_may_remove()
    ensures { TakersMayRemove }
{}

/// Proves that a user is among the writers of a file that a call made exactly if it did not make it and may write
/// it once it has logged in.
pub fn writers_may_write()
    ensures { WritersMayWrite }
{}

/// Proves that of a file which a call made for a group nothing is said of its writers exactly if there are none, or
/// a call line of another user wrote there.
pub fn lone_writers_are_said()
    ensures { LoneWritersAreSaid }
{}
