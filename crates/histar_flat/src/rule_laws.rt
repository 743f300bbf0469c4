//! What every rule of a call keeps to. Each law is the contract of a function that does nothing, and a rule
//! that breaks one of them isn't proved.
ghost use Rattle.histar_flat.specs.RuleLaws.{TestsAreOrdered, EffectsAreWarranted, AnswersMayBeRevealed};

/// Shows that each rule tests only what the process may see by then: of a path, after the walk to it; of
/// entries and bytes, after the test that they may be read.
pub fn tests_are_ordered()
    ensures { TestsAreOrdered }
{}

/// Shows that a call that is not refused was allowed its effect: what it writes may be written, what it makes
/// is not there yet, and the process that it kills is a child.
pub fn effects_are_warranted()
    ensures { EffectsAreWarranted }
{}

/// Shows that a call that is not refused may reveal its answer: the bytes and entries of what may be read,
/// the attributes of what its walk reaches, the status of a process that is found.
pub fn answers_may_be_revealed()
    ensures { AnswersMayBeRevealed }
{}
