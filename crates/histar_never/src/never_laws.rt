//! What a claim that is never broken means, and what a breach says. Each law is the contract of a
//! function that does nothing.
ghost use Rattle.histar_never.specs.Laws.{BadClaimsHaveSentences, BreachesAreFirst};
ghost use Rattle.histar_never.specs.Laws.{BreachesAreRights, ClaimsAreNeverBroken};
ghost use Rattle.histar_never.specs.Laws.{LettersAreSpelled, OthersBreakNothing};
ghost use Rattle.histar_never.specs.Laws.{OthersChangeNothing};

/// Shows that a claim has no first breach exactly if after each call of the script no running
/// process and no user that it means has one of its letters at its path.
pub fn claims_are_never_broken()
    ensures { ClaimsAreNeverBroken }
{}

/// Shows that the first breach of a claim is after one of the calls, and that there is none after a
/// call before it.
pub fn breaches_are_first()
    ensures { BreachesAreFirst }
{}

/// Shows that a breach is by one whom the claim means, and that its letters are exactly those of
/// the claim that are among the rights of this one, at least one.
pub fn breaches_are_rights()
    ensures { BreachesAreRights }
{}

/// Shows that after a call that is refused, is answered by `gone` or only asks a claim has the
/// breach that it had before the call.
pub fn others_break_nothing()
    ensures { OthersBreakNothing }
{}

/// Shows that a call that is refused, is answered by `gone` or only asks leaves the flat state as
/// it was.
pub fn others_change_nothing()
    ensures { OthersChangeNothing }
{}

/// Shows that a text that is no claim breaks a rule that a sentence is for, and that one that is a
/// claim breaks none.
pub fn bad_claims_have_sentences()
    ensures { BadClaimsHaveSentences }
{}

/// Shows that letters are read from a text exactly if it is their text, as a breach shows them, and
/// there is at least one.
pub fn letters_are_spelled()
    ensures { LettersAreSpelled }
{}
