//! What the rules amount to. Each law is the contract of a function that does nothing.
ghost use Rattle.histar_attack_lint.specs.Laws.{EachBadMixedLineBreaksOne, NoRightMixedLineBreaksOne};

/// Proves that each bad line of a mixed session breaks a rule, so there is a sentence about it.
pub fn each_bad_mixed_line_breaks_one()
    ensures { EachBadMixedLineBreaksOne }
{}

/// Proves that no right line of a mixed session breaks a rule, of the script or with a raw call.
pub fn no_right_mixed_line_breaks_one()
    ensures { NoRightMixedLineBreaksOne }
{}
