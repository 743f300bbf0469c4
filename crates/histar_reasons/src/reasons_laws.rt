//! What reasons are. Each law is the contract of a function that does nothing.
ghost use Rattle.histar_reasons.specs.Laws.{AbsencesAreSo, KilledWereKilled, NeverStartedWereNot};
ghost use Rattle.histar_reasons.specs.Laws.{ReasonsAreFirst, ReasonsAreSo};
ghost use Rattle.histar_reasons.specs.Laws.{RefusalsHaveReasons, RefusalsHaveSentences};

/// Shows that there is a reason exactly where a call is refused, and that the refusal is the reason's.
pub fn refusals_have_reasons()
    ensures { RefusalsHaveReasons }
{}

/// Shows that a reason is that of the first need that is not met: all before it are.
pub fn reasons_are_first()
    ensures { ReasonsAreFirst }
{}

/// Shows that what a reason says is so.
pub fn reasons_are_so()
    ensures { ReasonsAreSo }
{}

/// Shows that what is said of a process that doesn't run is so.
pub fn absences_are_so()
    ensures { AbsencesAreSo }
{}

/// Shows that a process that is said to have been killed was killed by a line.
pub fn killed_were_killed()
    ensures { KilledWereKilled }
{}

/// Shows that a process that is said never to have been started was not: no line was answered with its name.
pub fn never_started_were_not()
    ensures { NeverStartedWereNot }
{}

/// Shows that there is a sentence exactly where the reply is a refusal.
pub fn refusals_have_sentences()
    ensures { RefusalsHaveSentences }
{}
