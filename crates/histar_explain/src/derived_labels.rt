//! Labels that a test compares and that no object has.
ghost use Rattle.std.specs.Prelude.{◌≡◌, IfOk};
ghost use Rattle.histar_explain.specs.Tests.{high, owning_high};

use histar_label::{Label, Level, OutOfMemory};
use std::alloc::Global;

/// Returns a level, where star counts as 3.
fn high(level: Level) -> Level
    ensures { result ≡ high level }
{
    match level {
        Level::Star => Level::L3,
        Level::L0 => Level::L0,
        Level::L1 => Level::L1,
        Level::L2 => Level::L2,
        Level::L3 => Level::L3,
    }
}

/// Returns a label, where star counts as 3.
pub(crate) fn owning_high(alloc: Global, own: &Label) -> Result<Label, OutOfMemory>
    ensures { IfOk result (λ v. v ≡ owning_high own.now) }
{
    let mut label = Label::new(alloc, high(own.default_level()));
    for exception in own.exceptions() {
        label.set(alloc, exception.0, high(own.get(exception.0)))?;
    }
    Ok(label)
}
