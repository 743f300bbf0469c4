//! What a test checks. Each law is the contract of a function that does nothing.
ghost use Rattle.histar_test.specs.Faults.{EachBadTestHasASentence, EachRefusedLineBreaksOne, NoTakenLineBreaksOne};
ghost use Rattle.histar_test.specs.Laws.{ChecksAreOfTheMeaning, ClaimsAreMet, ExpectationsAreChecked};
ghost use Rattle.histar_test.specs.Laws.{NeversAreMet, QuestionsAreOfReplies, StrictTestsAreMet};
ghost use Rattle.histar_test.specs.Laws.{StrictTestsKeepTheChecks, TestsMakeTheCalls};
ghost use Rattle.histar_test.specs.Laws.{UnexpectedRefusalsAreChecked};

/// Shows that the calls of a test are those of its script, in their order.
pub fn tests_make_the_calls()
    ensures { TestsMakeTheCalls }
{}

/// Shows that the reply beside an expectation is the one that the script's meaning gives to the last call
/// before it, that the rights beside a question and the trusted beside a claim are those in the flat state after
/// the calls before it, and that a claim `#never` is beside its first breach by all calls of the script.
pub fn checks_are_of_the_meaning()
    ensures { ChecksAreOfTheMeaning }
{}

/// Shows that each line of a test that expects a reply, asks for rights or claims who is trusted is checked,
/// once and in its order, and after these each claim `#never`.
pub fn expectations_are_checked()
    ensures { ExpectationsAreChecked }
{}

/// Shows that a question is met exactly if the process would get the expected answers from four more lines,
/// as `letters_are_replies` of `histar_rights` says.
pub fn questions_are_of_replies()
    ensures { QuestionsAreOfReplies }
{}

/// Shows that a claim is met exactly if it names the processes that are trusted in the flat state after the calls
/// before it, in the order of their names.
pub fn claims_are_met()
    ensures { ClaimsAreMet }
{}

/// Shows that a claim `#never` of a test, strict or not, is met exactly if after no call of the script a running
/// process or a user that it means has one of its letters at its path.
pub fn nevers_are_met()
    ensures { NeversAreMet }
{}

/// Shows that a strict test has the checks of the same test that isn't strict, and others that expect nothing.
pub fn strict_tests_keep_the_checks()
    ensures { StrictTestsKeepTheChecks }
{}

/// Shows that these others are of the calls that the script's meaning refuses and that no expectation follows
/// before the next call, of each one.
pub fn unexpected_refusals_are_checked()
    ensures { UnexpectedRefusalsAreChecked }
{}

/// Shows that all checks of a strict test are met exactly if those of the same test that isn't strict are, and no
/// call that nobody speaks of is refused.
pub fn strict_tests_are_met()
    ensures { StrictTestsAreMet }
{}

/// Shows that each line that a test may not have at its place breaks a rule of those that sentences are for.
pub fn each_refused_line_breaks_one()
    ensures { EachRefusedLineBreaksOne }
{}

/// Shows that no line that a test may have at its place breaks one of these rules.
pub fn no_taken_line_breaks_one()
    ensures { NoTakenLineBreaksOne }
{}

/// Shows that each script that is no test has a sentence on its first bad line.
pub fn each_bad_test_has_a_sentence()
    ensures { EachBadTestHasASentence }
{}
