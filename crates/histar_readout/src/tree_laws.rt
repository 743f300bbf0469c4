//! Laws about the tree of a state, the targets of its paths, and its processes.
ghost use Rattle.histar_readout.specs.Laws.{FlatStatesAreResolved, FlatStatesHaveTheirProcesses};
ghost use Rattle.histar_readout.specs.Laws.{FlatStatesHaveTheirTrees, PathsLeadToOneTarget, StatesHaveOneTree};

/// Proves that a state that represents a flat state has a tree, which is the flat state's map: path by path
/// it has the same class, with each job by the number of its category, the same kind and the same bytes.
pub fn flat_states_have_their_trees()
    ensures { FlatStatesHaveTheirTrees }
{}

/// Proves that a state has one tree at most.
pub fn states_have_one_tree()
    ensures { StatesHaveOneTree }
{}

/// Proves that a path leads to one target at most.
pub fn paths_lead_to_one_target()
    ensures { PathsLeadToOneTarget }
{}

/// Proves that in a state that represents a flat state a path leads to a file or a directory exactly where
/// the flat state has one, which is then of the same kind and has the same bytes.
pub fn flat_states_are_resolved()
    ensures { FlatStatesAreResolved }
{}

/// Proves that a state that represents a flat state has processes, which show the same as those of the flat
/// state: name by name the jobs that the process is in, whether it runs, as whose and holding which jobs, or
/// the number that it has exited with, and how many children were born to it.
pub fn flat_states_have_their_processes()
    ensures { FlatStatesHaveTheirProcesses }
{}
