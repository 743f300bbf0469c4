//! What the rules guarantee. Each law is the contract of a function that does nothing.
ghost use Rattle.histar_lint.specs.Laws.{EachBadLineBreaksOne, NoRightLineBreaksOne};

/// Shows that each bad line of a script breaks a rule; lint always has a sentence for it.
pub fn each_bad_line_breaks_one()
    ensures { EachBadLineBreaksOne }
{}

/// Shows that no right line of a script breaks a rule: each rule is one of the grammar.
pub fn no_right_line_breaks_one()
    ensures { NoRightLineBreaksOne }
{}
