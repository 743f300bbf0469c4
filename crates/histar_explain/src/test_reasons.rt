//! A reason for each test of a denial.
ghost use Rattle.std.specs.Prelude.{◌≡◌, ◌∷◌, [], IfOk};
ghost use Rattle.std.specs.List.{AllZip};
ghost use Rattle.histar_explain.specs.Tests.{below, observing, modifying, letting, in_range, in_span, behind_gate};
ghost use Rattle.histar_explain.specs.Tests.{owning_nothing, clearing, IsReasonOf};

use crate::compare::{Sides, compare};
use crate::derived_labels::owning_high;
use crate::reasons::{Party, Reason};
use histar_label::{Label, Level, OutOfMemory};
use std::alloc::Global;

/// Finds the categories at which a label is above another.
fn below(
    alloc: Global,
    lower_is: Party,
    lower: &Label,
    upper_is: Party,
    upper: &Label,
) -> Result<Reason, OutOfMemory>
    ensures { IfOk result (IsReasonOf (below lower_is lower.now upper_is upper.now)) }
{
    let sides = Sides {
        lower: lower_is,
        upper: upper_is,
        owner_passes: false,
    };
    compare(alloc, sides, lower, upper)
}

/// Finds the categories at which an object's label keeps a thread from observing it.
fn observing(alloc: Global, own: &Label, label: &Label) -> Result<Reason, OutOfMemory>
    ensures { IfOk result (IsReasonOf (observing own.now label.now)) }
{
    let sides = Sides {
        lower: Party::Object,
        upper: Party::Thread,
        owner_passes: true,
    };
    compare(alloc, sides, label, own)
}

/// Finds the categories at which a label that may own nothing has star.
fn owning_nothing(alloc: Global, party: Party, label: &Label) -> Result<Reason, OutOfMemory>
    ensures { IfOk result (IsReasonOf (owning_nothing party label.now)) }
{
    let lowest = Label::new(alloc, Level::L0);
    below(alloc, party, &lowest, Party::LabelAsked, label)
}

/// Lists the reason of one test.
fn one(alloc: Global, first: Reason) -> Result<Vec<Reason>, OutOfMemory>
    ensures { IfOk result (λ reasons. reasons.items ≡ first ∷ []) }
{
    let mut reasons = Vec::new(alloc);
    reasons.push(first)?;
    Ok(reasons)
}

/// Lists the reasons of two tests.
fn two(alloc: Global, first: Reason, second: Reason) -> Result<Vec<Reason>, OutOfMemory>
    ensures { IfOk result (λ reasons. reasons.items ≡ first ∷ second ∷ []) }
{
    let mut reasons = one(alloc, first)?;
    reasons.push(second)?;
    Ok(reasons)
}

/// Lists the reasons of three tests.
fn three(
    alloc: Global,
    first: Reason,
    second: Reason,
    third: Reason,
) -> Result<Vec<Reason>, OutOfMemory>
    ensures { IfOk result (λ reasons. reasons.items ≡ first ∷ second ∷ third ∷ []) }
{
    let mut reasons = two(alloc, first, second)?;
    reasons.push(third)?;
    Ok(reasons)
}

/// Lists the reasons why a thread may not observe an object.
pub(crate) fn observe_reasons(
    alloc: Global,
    own: &Label,
    label: &Label,
) -> Result<Vec<Reason>, OutOfMemory>
    ensures { IfOk result (λ reasons. AllZip IsReasonOf (observing own.now label.now ∷ []) reasons.items) }
{
    one(alloc, observing(alloc, own, label)?)
}

/// Lists the reasons why a thread may not modify an object.
pub(crate) fn modify_reasons(
    alloc: Global,
    own: &Label,
    label: &Label,
) -> Result<Vec<Reason>, OutOfMemory>
    ensures { IfOk result (λ reasons. AllZip IsReasonOf (modifying own.now label.now) reasons.items) }
{
    let first = below(alloc, Party::Thread, own, Party::Object, label)?;
    let second = observing(alloc, own, label)?;
    two(alloc, first, second)
}

/// Lists the reasons why a thread may not enter a gate.
pub(crate) fn gate_reasons(
    alloc: Global,
    own: &Label,
    gate_clearance: &Label,
    verify: &Label,
) -> Result<Vec<Reason>, OutOfMemory>
    ensures { IfOk result (λ reasons. AllZip IsReasonOf
        (letting own.now gate_clearance.now verify.now) reasons.items) }
{
    let first = below(
        alloc,
        Party::Thread,
        own,
        Party::GateClearance,
        gate_clearance,
    )?;
    let second = below(alloc, Party::Thread, own, Party::VerifyLabel, verify)?;
    two(alloc, first, second)
}

/// A label that a test compares, and the party whose label it is.
type Compared<'l> = (Party, &'l Label);

/// Lists the reasons why a label isn't between two others.
fn between(
    alloc: Global,
    low: Compared,
    label: Compared,
    high: Compared,
) -> Result<Vec<Reason>, OutOfMemory>
    ensures { IfOk result (λ reasons. AllZip IsReasonOf
        (below low.entry.0 low.entry.1.now label.entry.0 label.entry.1.now
        ∷ below label.entry.0 label.entry.1.now high.entry.0 high.entry.1.now ∷ []) reasons.items) }
{
    let first = below(alloc, low.0, low.1, label.0, label.1)?;
    let second = below(alloc, label.0, label.1, high.0, high.1)?;
    two(alloc, first, second)
}

/// Lists the reasons why a label and a clearance above it aren't between two others.
fn both_between(
    alloc: Global,
    low: Compared,
    label: &Label,
    clearance: &Label,
    high: Compared,
) -> Result<Vec<Reason>, OutOfMemory>
    ensures { IfOk result (λ reasons. AllZip IsReasonOf
        (below low.entry.0 low.entry.1.now Party.LabelAsked label.now
        ∷ below Party.LabelAsked label.now Party.ClearanceAsked clearance.now
        ∷ below Party.ClearanceAsked clearance.now high.entry.0 high.entry.1.now ∷ []) reasons.items) }
{
    let first = below(alloc, low.0, low.1, Party::LabelAsked, label)?;
    let second = below(
        alloc,
        Party::LabelAsked,
        label,
        Party::ClearanceAsked,
        clearance,
    )?;
    let third = below(alloc, Party::ClearanceAsked, clearance, high.0, high.1)?;
    three(alloc, first, second, third)
}

/// Lists the reasons why a label is out of a thread's range.
pub(crate) fn range_reasons(
    alloc: Global,
    own: &Label,
    label: &Label,
    own_clearance: &Label,
) -> Result<Vec<Reason>, OutOfMemory>
    ensures { IfOk result (λ reasons. AllZip IsReasonOf
        (in_range own.now label.now own_clearance.now) reasons.items) }
{
    between(
        alloc,
        (Party::Thread, own),
        (Party::LabelAsked, label),
        (Party::ThreadClearance, own_clearance),
    )
}

/// Lists the reasons why a label that may own nothing is out of a thread's range.
pub(crate) fn unowning_reasons(
    alloc: Global,
    party: Party,
    own: &Label,
    label: &Label,
    own_clearance: &Label,
) -> Result<Vec<Reason>, OutOfMemory>
    ensures { IfOk result (λ reasons. AllZip IsReasonOf
        (owning_nothing party label.now ∷ in_range own.now label.now own_clearance.now) reasons.items) }
{
    let first = owning_nothing(alloc, party, label)?;
    let second = below(alloc, Party::Thread, own, Party::LabelAsked, label)?;
    let third = below(
        alloc,
        Party::LabelAsked,
        label,
        Party::ThreadClearance,
        own_clearance,
    )?;
    three(alloc, first, second, third)
}

/// Lists the reasons why a clearance is out of a thread's range.
pub(crate) fn clear_reasons(
    alloc: Global,
    own: &Label,
    clearance: &Label,
    own_clearance: &Label,
) -> Result<Vec<Reason>, OutOfMemory>
    ensures { IfOk result (λ reasons. AllZip IsReasonOf
        (clearing own.now clearance.now own_clearance.now) reasons.items) }
{
    let above = own_clearance.join(alloc, &owning_high(alloc, own)?)?;
    between(
        alloc,
        (Party::Thread, own),
        (Party::ClearanceAsked, clearance),
        (Party::ThreadClearanceAndLabel, &above),
    )
}

/// Lists the reasons why a label and a clearance are out of a thread's range.
pub(crate) fn span_reasons(
    alloc: Global,
    own: &Label,
    label: &Label,
    clearance: &Label,
    own_clearance: &Label,
) -> Result<Vec<Reason>, OutOfMemory>
    ensures { IfOk result (λ reasons. AllZip IsReasonOf
        (in_span own.now label.now clearance.now own_clearance.now) reasons.items) }
{
    both_between(
        alloc,
        (Party::Thread, own),
        label,
        clearance,
        (Party::ThreadClearance, own_clearance),
    )
}

/// The labels of a thread and of a gate that it tries to enter.
#[derive(Clone, Copy)]
pub(crate) struct Opening<'l> {
    pub(crate) own: &'l Label,
    pub(crate) own_clearance: &'l Label,
    pub(crate) gate_label: &'l Label,
    pub(crate) gate_clearance: &'l Label,
}

/// Lists the reasons why a label and a clearance are out of the range that a thread has behind a gate.
pub(crate) fn opening_reasons(
    alloc: Global,
    opening: Opening,
    label: &Label,
    clearance: &Label,
) -> Result<Vec<Reason>, OutOfMemory>
    ensures { IfOk result (λ reasons. AllZip IsReasonOf
        (behind_gate opening.entry.own.now opening.entry.gate_label.now
        label.now clearance.now opening.entry.own_clearance.now opening.entry.gate_clearance.now) reasons.items) }
{
    let floor = opening.own.floor(alloc, opening.gate_label)?;
    let clearances = opening.own_clearance.join(alloc, opening.gate_clearance)?;
    both_between(
        alloc,
        (Party::Floor, &floor),
        label,
        clearance,
        (Party::Clearances, &clearances),
    )
}
