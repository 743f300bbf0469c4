//! What follows when a state represents a flat state. Each law is the contract of a function that
//! does nothing.
ghost use Rattle.histar_refinement.specs.Laws.{CallersAreFound, CallersAreThere, DirectoriesAreFound, ObjectsAreReached};
ghost use Rattle.histar_refinement.specs.Laws.{NoPasswordIsLent, OneIsRepresented, StartIsRepresented, ThreadsAreFound, ThreadsModifyWhatIsWritten};
ghost use Rattle.histar_refinement.specs.Laws.{ThreadsObserveWhatIsRead};

/// States that a thread may observe what is of a class exactly where its process may read it.
pub fn threads_observe_what_is_read()
    ensures { ThreadsObserveWhatIsRead }
{}

/// States that a thread may modify what is of a class exactly where its process may write it.
pub fn threads_modify_what_is_written()
    ensures { ThreadsModifyWhatIsWritten }
{}

/// States that each object of a state that represents a flat state is reached from the root
/// container by links.
pub fn each_object_is_reached()
    ensures { ObjectsAreReached }
{}

/// States that for one naming of its categories a state represents at most one flat state.
pub fn one_flat_state_is_represented()
    ensures { OneIsRepresented }
{}

/// States that the process segments lead from that of process 0 to the thread of each process that runs, and
/// to no other.
pub fn threads_are_found()
    ensures { ThreadsAreFound }
{}

/// States that the processes that are found by the bytes of process segments and the labels of containers are
/// exactly those that run, each with its thread and its own two categories.
pub fn callers_are_found()
    ensures { CallersAreFound }
{}

/// States that each process that runs is found in this way, and no other.
pub fn callers_are_there()
    ensures { CallersAreThere }
{}

/// States that the directory segments lead from that of `/` to each directory, and to nothing else.
pub fn directories_are_found()
    ensures { DirectoriesAreFound }
{}

/// States that nothing that boot left in the root container is lent with no raw call: no password, and not the
/// user table.
pub fn no_password_is_lent()
    ensures { NoPasswordIsLent }
{}

/// States that the state in which a machine starts represents the flat state at the start.
pub fn the_start_is_represented()
    ensures { StartIsRepresented }
{}
