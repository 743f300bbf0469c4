//! What reading a script means, whatever memory does. Each law is the contract of a function that does
//! nothing.
ghost use Rattle.histar_script.specs.Laws.{EachCallHasForm, ReadingIsGrammar, BadLineIsFirst, ScriptOrBadLine, OneReading, CommentsLeaveOut};
ghost use Rattle.histar_script.specs.Laws.{OneMoreLine};

/// Shows that each call has a form in the table of calls.
pub fn each_call_has_a_form()
    ensures { EachCallHasForm }
{}

/// Shows that a text is read as a script exactly if it is that script by the grammar.
pub fn reading_is_grammar()
    ensures { ReadingIsGrammar }
{}

/// Shows that a line is reported as bad exactly if it is the first bad line by the grammar.
pub fn bad_line_is_first()
    ensures { BadLineIsFirst }
{}

/// Shows that each text is a script or has a first bad line; reading it has no other result.
pub fn script_or_bad_line()
    ensures { ScriptOrBadLine }
{}

/// Shows that a text is one script at most.
pub fn one_reading()
    ensures { OneReading }
{}

/// Shows that a script in which each line of a job is made a comment means what it means without the job's
/// calls.
pub fn comments_leave_out()
    ensures { CommentsLeaveOut }
{}

/// Shows that a line which says a call adds this call behind a script, within the limits of scripts.
pub fn one_more_line()
    ensures { OneMoreLine }
{}
