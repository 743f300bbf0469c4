//! What follows from the meaning of calls. Each law is the contract of a function that does nothing.
ghost use Rattle.histar_flat.specs.Laws.{RefusalsChangeNothing, WritesAreReadBack, OneReplyALine};
ghost use Rattle.histar_flat.specs.Laws.{PrivateFilesStay, PrivateFilesAreHidden};
ghost use Rattle.histar_flat.specs.Laws.{PrivateBytesAreHidden, GroupBytesAreHidden, GroupBytesStayHidden};
ghost use Rattle.histar_flat.specs.Laws.{PathsAreATree, NamesAreGivenOnce, NobodyHasAJob};
ghost use Rattle.histar_flat.specs.FileLaws.{ListingsShowWhatIsThere, RemovalsTakeWhatIsBelow, RenamesKeepWhatIsThere};
ghost use Rattle.histar_flat.specs.FileLaws.{WritersTakePrivateFiles, UnreadDirectoriesAreHidden};
ghost use Rattle.histar_flat.specs.JobLaws.{WrappedJobsStayInside, JobsStayInside};
ghost use Rattle.histar_flat.specs.JobLaws.{CallsChangeTheirOwnTree, JobsReadAsTheirUser};
ghost use Rattle.histar_flat.specs.ProcessLaws.{KillsTakeTheirTree, ExitsLeaveChildren, GoneChangeNothing, GoneStayGone};

/// Shows that a call that is refused changes nothing.
pub fn a_refused_call_changes_nothing()
    ensures { RefusalsChangeNothing }
{}

/// Shows that a call of a process that is not the owner's leaves a private file as it is, unless it removes
/// or renames it: the file is at its path, is private, and has its bytes.
pub fn a_private_file_stays_with_others()
    ensures { PrivateFilesStay }
{}

/// Shows that a process that is not the owner's and reads a private file is answered no bytes.
pub fn a_private_file_is_hidden_from_others()
    ensures { PrivateFilesAreHidden }
{}

/// Shows that while no process is the owner's, and none logs in as the owner, no reply depends on the bytes
/// of a private file.
pub fn private_bytes_are_hidden()
    ensures { PrivateBytesAreHidden }
{}

/// Shows that each call of a process whose user is no member of a group has the same reply, whatever bytes
/// are in a file of the group.
pub fn group_bytes_are_hidden()
    ensures { GroupBytesAreHidden }
{}

/// Shows that while no process is a member's, and none logs in as a member, no reply depends on the bytes of
/// a file of the group.
pub fn group_bytes_stay_hidden()
    ensures { GroupBytesStayHidden }
{}

/// Shows that a process that has written bytes to a file, and reads the file next, is answered these bytes.
pub fn what_is_written_is_read_back()
    ensures { WritesAreReadBack }
{}

/// Shows that in a listing the names rise; a name is in it exactly if the directory has that entry, and is
/// shown as a directory's exactly if the entry is a directory.
pub fn a_listing_shows_what_is_there()
    ensures { ListingsShowWhatIsThere }
{}

/// Shows that an `unlink`, a `rmdir` or a `rmtree` removes exactly what is at its path and below it.
pub fn a_removal_takes_what_is_below()
    ensures { RemovalsTakeWhatIsBelow }
{}

/// Shows that a `rename` keeps everything, with its class and its bytes: what was at a path is where that
/// leads with the new name, and nothing else is.
pub fn a_rename_keeps_what_is_there()
    ensures { RenamesKeepWhatIsThere }
{}

/// Shows that no call of another user's process removes a private file, or changes it, unless the process may
/// write a directory on the way to the file.
pub fn writers_of_directories_take_private_files()
    ensures { WritersTakePrivateFiles }
{}

/// Shows that each call of a process has the same reply, whatever lies below a directory that the process may
/// not read.
pub fn unread_directories_are_hidden()
    ensures { UnreadDirectoriesAreHidden }
{}

/// Shows that a script has one reply for each call line, in the order of the lines.
pub fn one_reply_a_line()
    ensures { OneReplyALine }
{}

/// Shows that in each state that calls lead to, whatever has a parent has a directory as its parent.
pub fn paths_are_a_tree()
    ensures { PathsAreATree }
{}

/// Shows that names of processes are given once: all processes that are there have a name that was given, the
/// name of a next child was not given before, and a name that was given stays given.
pub fn names_are_given_once()
    ensures { NamesAreGivenOnce }
{}

/// Shows that a process of nobody, or of a user that isn't declared, is in no job and holds none.
pub fn nobody_has_a_job()
    ensures { NobodyHasAJob }
{}

/// Shows that a `kill` that is done is of a child of the caller, and ends exactly the child and all below it.
pub fn a_kill_takes_its_tree()
    ensures { KillsTakeTheirTree }
{}

/// Shows that an `exit` ends its process alone: its children go on.
pub fn an_exit_leaves_children()
    ensures { ExitsLeaveChildren }
{}

/// Shows that a process that doesn't run, because it was never born, has exited or was killed, is answered
/// `gone` and changes nothing.
pub fn who_is_gone_changes_nothing()
    ensures { GoneChangeNothing }
{}

/// Shows that a process that was born and doesn't run never runs again: no name of a process is used twice.
pub fn who_is_gone_stays_gone()
    ensures { GoneStayGone }
{}

/// Shows that in any script, from a wrap on, whatever the job's processes call, nothing changes outside the
/// directory that the wrap made: each other path has what it had before the wrap, unless it lies below.
pub fn a_wrapped_job_stays_in_its_directory()
    ensures { WrappedJobsStayInside }
{}

/// Shows that whatever the processes of a job call, nothing changes outside the job's scratch directories: a
/// path keeps what it has if neither it nor a directory above it is of the job.
pub fn a_job_stays_inside()
    ensures { JobsStayInside }
{}

/// Shows that a call changes no process but the caller and those below it, in a job or not: a child that is
/// born, the caller that exits, logs in or holds one more job, and a child that is killed with all below it.
pub fn a_call_changes_its_own_tree()
    ensures { CallsChangeTheirOwnTree }
{}

/// Shows that outside all scratch directories, a process in jobs that reads a file has the same reply as a
/// process of the same user that is in none.
pub fn a_job_reads_as_its_user()
    ensures { JobsReadAsTheirUser }
{}
