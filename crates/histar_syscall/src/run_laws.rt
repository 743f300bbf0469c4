//! What the definitions of runs amount to. Each law is the contract of a function that does nothing.
ghost use Rattle.histar_syscall.specs.Laws.{RunsHaveOneEnd};

/// Proves that the entries of a trace and the state before them determine the state after them.
pub fn a_run_has_one_end()
    ensures { RunsHaveOneEnd }
{}
