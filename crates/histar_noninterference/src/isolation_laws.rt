//! What a job can't change outside itself. Each law is the contract of a function that does nothing.
ghost use Rattle.histar_noninterference.specs.Following.{FindsLeftOut};
ghost use Rattle.histar_noninterference.specs.Isolation.{IsolatesJobs, OnlyReleasesDiffer};
ghost use Rattle.histar_noninterference.specs.Replies.{FindsFirstLine};
ghost use Rattle.histar_noninterference.specs.Trees.{FindsFirstPath};

/// Shows that if a `wrap` started a job, and the process that called it has no later line that is a `rmdir`
/// or a `wrap`, a script and the script without the job's lines give outsiders the same replies, and leave
/// the same tree outside the job.
pub fn a_job_changes_nothing_outside()
    ensures { IsolatesJobs }
{}

/// Shows that what lies below a directory of a job is what lies below one directory, which is followed by
/// calls and replies: from the `wrap` that started the job on, through renames of it and of the directories
/// above it, until it is removed.
pub fn the_directory_of_a_job_is_followed()
    ensures { FindsLeftOut }
{}

/// Shows that the first path at which the trees of two runs differ is the first at which their lines differ,
/// when the lines are compared one by one and what lies below the followed directories is left out.
pub fn trees_are_compared_by_their_lines()
    ensures { FindsFirstPath }
{}

/// Shows that the first line at which the replies of two runs differ is the first at which their texts
/// differ.
pub fn replies_are_compared_as_they_are_printed()
    ensures { FindsFirstLine }
{}

/// Shows that if a script and the script without the lines of a job differ outside the job, the process that
/// started the job has revealed it: one of its later `rmdir`s and `wrap`s is answered otherwise without the
/// job's lines.
pub fn only_releases_differ()
    ensures { OnlyReleasesDiffer }
{}
