//! One pass over two labels, which finds the categories at which the first is above the second.
ghost use Rattle.std.specs.Prelude.{◌≡◌, ◌++◌, [], ◌∷◌, IfOk, if◌then◌else◌};
ghost use Rattle.histar_explain.specs.Comparisons.{place, exceeds, Explains};

use crate::reasons::{Difference, Party, Reason};
use histar_label::front::{after, level_at, lower};
use histar_label::{Category, Label, Level, OutOfMemory};
use std::alloc::Global;

/// The parties whose labels are compared, and whether an owner passes.
#[derive(Clone, Copy)]
pub(crate) struct Sides {
    pub(crate) lower: Party,
    pub(crate) upper: Party,
    pub(crate) owner_passes: bool,
}

/// Finds the categories at which a label is above another.
pub(crate) fn compare(
    alloc: Global,
    sides: Sides,
    first: &Label,
    second: &Label,
) -> Result<Reason, OutOfMemory>
    ensures sides { IfOk result (λ r. (r.lower ≡ sides.lower) × (r.upper ≡ sides.upper)) }
    ensures explained { IfOk result (Explains
        (record { lower = first.now; upper = second.now; owner_passes = sides.owner_passes })) }
{
    let (first_default, second_default) = (first.default_level(), second.default_level());
    let mut named = Vec::new(alloc);
    let mut spared = Vec::new(alloc);
    let (mut firsts, mut seconds) = (first.exceptions(), second.exceptions());
    'categories: while let Some(category) = lower(firsts, seconds) {
        let first_level = level_at(firsts, category, first_default);
        let second_level = level_at(seconds, category, second_default);
        let fails = exceeds(first_level, second_level, sides.owner_passes);
        put(&mut named, category, first_level, second_level, fails)?;
        put(&mut spared, category, first_level, second_level, !fails)?;
        firsts = after(firsts, category);
        seconds = after(seconds, category);
    }
    let fails = exceeds(first_default, second_default, sides.owner_passes);
    Ok(Reason {
        lower: sides.lower,
        upper: sides.upper,
        named,
        spared,
        elsewhere: fails.then_some((first_default, second_default)),
    })
}

/// Appends a category with its levels, if it belongs to the list.
fn put(
    differences: &mut Vec<Difference>,
    category: Category,
    lower: Level,
    upper: Level,
    belongs: bool,
) -> Result<(), OutOfMemory>
    ensures { IfOk result (λ _. differences.new.items ≡ (if belongs
        then differences.old.items ++ record { category = category; lower = lower; upper = upper } ∷ []
        else differences.old.items)) }
{
    if belongs {
        differences.push(Difference {
            category,
            lower,
            upper,
        })?;
    }
    Ok(())
}

/// Checks whether a level is above another one, where star in the other is the highest level if an owner
/// passes.
fn exceeds(lower: Level, upper: Level, owner_passes: bool) -> bool
    ensures { result ≡ exceeds owner_passes lower upper }
{
    let place = if owner_passes {
        upper.raised()
    } else {
        upper.rank()
    };
    place < lower.rank()
}
