//! What `run` prints to processes that may not read a secret, and what the lines of `flows` and the reasons in
//! those of `trust` mean. Each law is the contract of a function that does nothing.
ghost use Rattle.histar_trust.specs.FlowLaws.{ListedAreKnowers, ListedCanObserve, OnlyListedObserve};
ghost use Rattle.histar_trust.specs.Printed.{OutsidersReadTheSame};
ghost use Rattle.histar_trust.specs.ReasonLaws.{JobIsNamed, PowerIsNamed};

/// Shows that the replies to outsiders that `run` prints for a script are the same texts, whatever bytes a
/// line of the script writes to a secret file.
pub fn outsiders_read_the_same()
    ensures { OutsidersReadTheSame }
{}

/// Shows that `flows` lists behind a process exactly the other running processes that know each job that it
/// is in.
pub fn listed_are_knowers()
    ensures { ListedAreKnowers }
{}

/// Shows that each process that is listed behind another one can observe any number with which it exits.
pub fn listed_can_observe()
    ensures { ListedCanObserve }
{}

/// Shows that whatever a process and those below it call, the first reply to others by which they learn of it
/// is one to a process that is listed behind it, or to one that comes later in all its jobs.
pub fn only_listed_observe()
    ensures { OnlyListedObserve }
{}

/// Shows that a path is named for each process that may change what is at a path: one by which it may, and the
/// highest of these; and that a call of the process changes what is there.
pub fn power_is_named()
    ensures { PowerIsNamed }
{}

/// Shows that a job is named for each confined process: one that it is in, and that no outsider knows.
pub fn job_is_named()
    ensures { JobIsNamed }
{}
