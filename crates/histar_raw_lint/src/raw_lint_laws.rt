//! What the rules amount to. Each law is the contract of a function that does nothing.
ghost use Rattle.histar_raw_lint.specs.Laws.{EachBadRawLineBreaksOne, NoRightRawLineBreaksOne};

/// Proves that each bad line of a raw session breaks a rule, so that there is a sentence about it.
pub fn each_bad_raw_line_breaks_one()
    ensures { EachBadRawLineBreaksOne }
{}

/// Proves that no line of a raw session that contains a call breaks a rule: each rule is one of the grammar.
pub fn no_right_raw_line_breaks_one()
    ensures { NoRightRawLineBreaksOne }
{}
