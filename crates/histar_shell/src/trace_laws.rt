//! The laws of what a machine does: the contracts of functions that do nothing.
ghost use Rattle.histar_shell.specs.MachineNames.{MachinesKeepNames};
ghost use Rattle.histar_shell.specs.OneTrace.{ScriptsHaveOneTrace};

/// Proves that a script has one trace, whichever machine answers it.
pub fn one_trace()
    ensures { ScriptsHaveOneTrace }
{}

/// Proves that the objects and the categories of a machine keep their names, along the lines that it answers.
pub fn machines_keep_names()
    ensures { MachinesKeepNames }
{}
