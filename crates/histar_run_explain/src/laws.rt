//! The laws of explained traces. Each law is the contract of a function that does nothing.
ghost use Rattle.histar_run_explain.specs.Complete.{ExplanationsAreComplete, PurposesDiffer};
ghost use Rattle.histar_run_explain.specs.Laws.{ExplainsTheTrace, UsedCategoriesAreNamed};

/// Proves that the trace that is explained is the one that `run` returns.
pub fn the_trace_is_explained()
    ensures { ExplainsTheTrace }
{}

/// Proves that each category that is used after a line has the name of what it is for in what explains the
/// line.
pub fn used_categories_are_named()
    ensures { UsedCategoriesAreNamed }
{}

/// Proves that `object N` and `category N` are in no explanation of a script: each object has a location, and
/// each category a purpose.
pub fn explanations_are_complete()
    ensures { ExplanationsAreComplete }
{}

/// Proves that no two categories that are used have one purpose.
pub fn purposes_differ()
    ensures { PurposesDiffer }
{}
