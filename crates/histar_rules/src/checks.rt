//! The outcome of a check: the denial of its first failing test, or success.
ghost use Rattle.histar_base.specs.Refusals.{unless};
ghost use Rattle.histar_rules.specs.Rules.{FailsAt};

use crate::raw::Denied;

/// Checks one test of a call: returns this denial where the test fails.
pub fn require(test: bool, denied: Denied) -> Result<(), Denied>
    ensures { FailsAt (unless test denied) result }
{
    if test { Ok(()) } else { Err(denied) }
}
