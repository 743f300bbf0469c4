//! The categories of a denied call's labels that were never made.
ghost use Rattle.std.specs.Prelude.{◌≡◌, ◌∷◌, [], IfOk};
ghost use Rattle.histar_level.specs.declared.level.Level.TheVariants.{L1};
ghost use Rattle.histar_label.specs.Levels.{constant};
ghost use Rattle.histar_explain.specs.Named.{handed};
ghost use Rattle.histar_explain.specs.Unmade.{AreUnmade, labels_of, was_made};

use histar_label::front::{after, lowest};
use histar_label::{Category, Label, OutOfMemory};
use histar_rules::{Denied, RawCall};
use std::alloc::Global;

/// Checks whether a category was made, where `next` is the number of the next one.
fn was_made(next: u64, category: Category) -> bool
    ensures { result ≡ was_made next category }
{
    0 < category.number() && category.number() < next
}

/// Lists the categories that one of three labels names and that were never made.
fn unmade_in(
    alloc: Global,
    next: u64,
    first: &Label,
    second: &Label,
    third: &Label,
) -> Result<Vec<Category>, OutOfMemory>
    ensures { IfOk result (λ cs. AreUnmade next (first.now ∷ second.now ∷ third.now ∷ []) cs.items) }
{
    let mut unmade = Vec::new(alloc);
    let (mut firsts, mut seconds, mut thirds) = (
        first.exceptions(),
        second.exceptions(),
        third.exceptions(),
    );
    'categories: while let Some(category) = lowest(firsts, seconds, thirds) {
        if !was_made(next, category) {
            unmade.push(category)?;
        }
        firsts = after(firsts, category);
        seconds = after(seconds, category);
        thirds = after(thirds, category);
    }
    Ok(unmade)
}

/// Lists the categories that a label names and that were never made.
fn unmade_of_one(
    alloc: Global,
    next: u64,
    label: &Label,
    ones: &Label,
) -> Result<Vec<Category>, OutOfMemory>
    requires { ones.now ≡ constant L1 }
    ensures { IfOk result (λ cs. AreUnmade next (label.now ∷ []) cs.items) }
{
    unmade_in(alloc, next, label, ones, ones)
}

/// Lists the categories that one of two labels names and that were never made.
fn unmade_of_two(
    alloc: Global,
    next: u64,
    first: &Label,
    second: &Label,
    ones: &Label,
) -> Result<Vec<Category>, OutOfMemory>
    requires { ones.now ≡ constant L1 }
    ensures { IfOk result (λ cs. AreUnmade next (first.now ∷ second.now ∷ []) cs.items) }
{
    unmade_in(alloc, next, first, second, ones)
}

/// Lists the categories that a call's labels name and that were never made.
fn handed_unmade(
    alloc: Global,
    next: u64,
    call: &RawCall,
    ones: &Label,
) -> Result<Vec<Category>, OutOfMemory>
    requires { ones.now ≡ constant L1 }
    ensures { IfOk result (λ cs. AreUnmade next (handed call.now) cs.items) }
{
    match call {
        RawCall::SetLabel(label) => unmade_of_one(alloc, next, label.label(), ones),
        RawCall::SetClearance(clearance) => unmade_of_one(alloc, next, clearance.label(), ones),
        RawCall::MakeSegment(_, label, _) => unmade_of_one(alloc, next, label.label(), ones),
        RawCall::MakeContainer(_, label) => unmade_of_one(alloc, next, label.label(), ones),
        RawCall::MakeThread(_, label, clearance) => {
            unmade_of_two(alloc, next, label.label(), clearance.label(), ones)
        }
        RawCall::MakeGate(_, label, clearance, _) => {
            unmade_of_two(alloc, next, label.label(), clearance.label(), ones)
        }
        RawCall::Enter(_, _, wanted, clearance, verify) => unmade_in(
            alloc,
            next,
            wanted.label(),
            clearance.label(),
            verify.label(),
        ),
        _ => Ok(Vec::new(alloc)),
    }
}

/// Lists the categories that a denied call's labels name and that were never made, where it is denied
/// by a range.
pub(crate) fn unmade(
    alloc: Global,
    next: u64,
    call: &RawCall,
    denied: Denied,
    ones: &Label,
) -> Result<Vec<Category>, OutOfMemory>
    requires { ones.now ≡ constant L1 }
    ensures { IfOk result (λ cs. AreUnmade next (labels_of call.now denied) cs.items) }
{
    match denied {
        Denied::Range => handed_unmade(alloc, next, call, ones),
        _ => Ok(Vec::new(alloc)),
    }
}
