//! The laws of explanations. Each law is the contract of a function that does nothing.
ghost use Rattle.histar_explain.specs.Explanations.{DenialsHaveGrounds};
ghost use Rattle.histar_explain.specs.Parties.{PartiesAreRight};
ghost use Rattle.histar_explain.specs.Laws.{ShowsExactly, KeysAreLacking, DenialsRestOnTests, KeysOpen, KeysAreNeeded, KeysExist};

/// Proves that the labels that a test compares are those of the parties that it names.
pub fn parties_are_right()
    ensures { PartiesAreRight }
{}

/// Proves that a reason shows exactly the categories at which its comparison fails: by name, or as one of all
/// others.
pub fn reasons_show_exactly()
    ensures { ShowsExactly }
{}

/// Proves that the categories at which a test fails are the keys that the thread lacks.
pub fn keys_are_lacking()
    ensures { KeysAreLacking }
{}

/// Proves that a denial to observe, modify or enter an object rests on a test that fails at some category.
pub fn denials_rest_on_tests()
    ensures { DenialsRestOnTests }
{}

/// Proves that each denied call has grounds: its explanation is not empty, and is true.
pub fn denials_have_grounds()
    ensures { DenialsHaveGrounds }
{}

/// Proves that with star at all keys that a denial lacks, the same call is not denied in the same way.
pub fn keys_open()
    ensures { KeysOpen }
{}

/// Proves that each key that a denial lacks is needed: with any label that leaves it as it is the call is
/// still denied.
pub fn keys_are_needed()
    ensures { KeysAreNeeded }
{}

/// Proves that there is a label that has star at all keys that a denial lacks, and is as before elsewhere.
pub fn keys_exist()
    ensures { KeysExist }
{}
