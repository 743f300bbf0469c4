//! What colouring guarantees, and what the facts of replies are. Each law is the contract of a function that does nothing.
ghost use Rattle.histar_output.specs.Laws.{ColoursShowTheText, RefusalsAreRed, RepliesAreFacts};

/// Shows that a terminal shows the text as it was, but for colours.
pub fn colours_show_the_text()
    ensures { ColoursShowTheText }
{}

/// Shows that the line of a reply is coloured where the reply is a refusal, and nowhere else.
pub fn refusals_are_red()
    ensures { RefusalsAreRed }
{}

/// Shows that the fact of a line with a reply is its number, the first word of the reply, and what follows
/// that.
pub fn replies_are_facts()
    ensures { RepliesAreFacts }
{}
