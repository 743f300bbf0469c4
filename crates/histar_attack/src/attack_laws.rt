//! A law of attacks. It is the contract of a function that does nothing.
ghost use Rattle.histar_attack.specs.Confinement.{JobsHaveTheirCategories};

/// Proves that the category that is found for a name is that of the job whose first process has the
/// name and runs, and that none is found where there is no such job.
pub fn jobs_have_their_categories()
    ensures { JobsHaveTheirCategories }
{}
