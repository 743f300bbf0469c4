//! Which processes have to be trusted to keep a file secret and unchanged. Each law is the contract of a
//! function that does nothing.
ghost use Rattle.histar_secrecy.specs.Changers.{ChangersAreExact, OthersChangeNothing};
ghost use Rattle.histar_secrecy.specs.Flows.{KnowersCanBeTold, KnowersSee, OnlyKnowersAreTold};
ghost use Rattle.histar_secrecy.specs.Leaks.{LoginsTell, LoginsTellHere, OnlyTrustedTell, ProcessesAreATree};
ghost use Rattle.histar_secrecy.specs.Leaks.{ReadersTell, ReadersTellByEnding, ReadersTellChildren};
ghost use Rattle.histar_secrecy.specs.Leaks.{ReadersTellHere, TrustIsLeast, TrustedCanTell};
ghost use Rattle.histar_secrecy.specs.Noninterference.{BoundWriteForReaders, OutsidersLearnAsIfAlone, OutsidersLearnNothing, ProgramsLearnNothing};
ghost use Rattle.histar_secrecy.specs.Noninterference.{RolesAreShown, WhatIsWrittenStaysSecret};
ghost use Rattle.histar_secrecy.specs.Release.{FirstDifferenceIsTrusted, FixedCallsTellReadersAlone, OnlyInsidersRelease, OtherBytesDiffer};
ghost use Rattle.histar_secrecy.specs.ShownRoles.{ShownIsSo};

/// Shows that the secret in a file depends on its trusted processes alone: while these call nothing, and no
/// outsider logs in as a reader, outsiders have the same replies, whatever bytes are in the file, and
/// whatever the confined processes call.
pub fn outsiders_learn_nothing()
    ensures { OutsidersLearnNothing }
{}

/// Shows that what is at a path stays as it is, with its entries, while its changers call nothing, and no
/// process logs in as one.
pub fn others_change_nothing()
    ensures { OthersChangeNothing }
{}

/// Shows that outsiders learn nothing even if they are programs that decide by the replies.
pub fn programs_learn_nothing()
    ensures { ProgramsLearnNothing }
{}

/// Shows that whatever a process that is bound by a class may write, only readers of the class may read.
pub fn bound_processes_write_for_readers()
    ensures { BoundWriteForReaders }
{}

/// Shows that the role of a process that runs, trusted, confined or outsider, can be computed from the
/// process alone.
pub fn roles_are_shown()
    ensures { RolesAreShown }
{}

/// Shows that the roles and users that are shown are those of the flat state.
pub fn what_is_shown_is_so()
    ensures { ShownIsSo }
{}

/// Shows that outsiders learn nothing of a file, whatever is written to it.
pub fn what_is_written_stays_secret()
    ensures { WhatIsWrittenStaysSecret }
{}

/// Shows that while the trusted call too, and all that are not confined follow one program, the first reply
/// by which they can tell what is in a file is one to a trusted process, or to a later child of one.
pub fn first_difference_is_trusted()
    ensures { FirstDifferenceIsTrusted }
{}

/// Shows that the trusted that call the same in two runs tell others nothing of a file, as long as each
/// `rmdir` and `wrap` of theirs is answered alike.
pub fn only_insiders_release()
    ensures { OnlyInsidersRelease }
{}

/// Shows that a process in a job can tell others only if these know each job that it is in.
pub fn only_knowers_are_told()
    ensures { OnlyKnowersAreTold }
{}

/// Shows that outsiders are told what a run of their calls alone tells, with any other bytes in the file.
pub fn outsiders_learn_as_if_alone()
    ensures { OutsidersLearnAsIfAlone }
{}

/// Shows that with other bytes in a file of a class, a state differs only in the bytes of files of the class.
pub fn other_bytes_differ()
    ensures { OtherBytesDiffer }
{}

/// Shows that while all processes make the same calls, only those who may read a file are told otherwise with
/// other bytes in it.
pub fn fixed_calls_tell_readers_alone()
    ensures { FixedCallsTellReadersAlone }
{}

/// Shows that who knows each job of a process is determined by names.
pub fn knowers_see()
    ensures { KnowersSee }
{}

/// Shows that a process that knows each job of another one can be told by it.
pub fn knowers_can_be_told()
    ensures { KnowersCanBeTold }
{}

/// Shows that the changers of what is at a path are exactly the processes of which some call changes it.
pub fn changers_are_exact()
    ensures { ChangersAreExact }
{}

/// Shows that the processes are a tree, and a child's jobs begin with its parent's.
pub fn processes_are_a_tree()
    ensures { ProcessesAreATree }
{}

/// Shows the attack of a reader: it reads the file and exits with a number, and each process that runs, doesn't
/// reach the file and knows its jobs is answered that number.
pub fn readers_tell()
    ensures { ReadersTell }
{}

/// Shows that a reader can tell a child that it starts.
pub fn readers_tell_children()
    ensures { ReadersTellChildren }
{}

/// Shows that a process in no job that logs in as a reader is answered the bytes.
pub fn logins_tell()
    ensures { LoginsTell }
{}

/// Shows that each trusted process can tell, if an outsider runs that knows its jobs.
pub fn trusted_can_tell()
    ensures { TrustedCanTell }
{}

/// Shows that no other process can.
pub fn only_trusted_tell()
    ensures { OnlyTrustedTell }
{}

/// Shows the attack that `leak` prints: the other asks for the status before the exit, and after it.
pub fn readers_tell_by_ending()
    ensures { ReadersTellByEnding }
{}

/// Shows the same of the state itself, with the bytes that are in the file.
pub fn readers_tell_here()
    ensures { ReadersTellHere }
{}

/// Shows that a login reads what is in the file.
pub fn logins_tell_here()
    ensures { LoginsTellHere }
{}

/// Shows that the trusted are the least set of processes outside of which nobody can tell.
pub fn trust_is_least()
    ensures { TrustIsLeast }
{}
