//! Entering a gate. The labels that the thread takes are put into the store before the checks, which compare
//! them by their Ids.
ghost use Rattle.std.specs.Prelude.{◌≡◌, IfOk, IsSome, IsTrue, OnOk, OnErr, Some};
ghost use Rattle.histar_base.specs.Refusals.{unless, ◌orelse◌};
ghost use Rattle.histar_label.specs.Levels.{is_below};
ghost use Rattle.histar_label.specs.Store.{label_at};
ghost use Rattle.histar_object.specs.Objects.{objects_of, entry_there, is_gate, is_thread, put, thread_of};
ghost use Rattle.histar_container.specs.Shown.{objects_shown, AllStand};
ghost use Rattle.histar_rules.specs.Finds.{state_with, gate_of, no_opening, no_wanting};
ghost use Rattle.histar_rules.specs.Rights.{lies_between};
ghost use Rattle.histar_rules.specs.Rules.{check, FailsAt, FailsAtUnlessExhausted};
ghost use Rattle.histar_rules.specs.declared.raw.RawCall.TheVariants as calls;
ghost use Rattle.histar_rules.specs.declared.raw.Denied.TheVariants.{BadKind, Gate};
ghost use Rattle.histar_rules.specs.Memory.{OnOutOfMemory};

use crate::access::Access;
use crate::checks::require;
use crate::handed::HandedLabels;
use crate::limits::Next;
use crate::lookup::linked_in;
use crate::own::{give_own, is_known, put_copy};
use crate::raw::{Denied, Refusal};
use histar_heap::Heap;
use histar_label::{Label, LabelStore};
use histar_object::{Entry, Kind, ObjId, Table};

/// The Ids of the labels of a thread that wants to enter a gate, and of those of the gate.
struct Opening<L> {
    /// The thread's own label and its clearance.
    own: (L, L),
    /// The label that the gate gives, and its clearance.
    gate: (L, L),
    /// The label and the clearance that the thread wants.
    wanted: (L, L),
}

/// The Ids of the label and the clearance that a thread wants behind a gate, and its verify label.
struct Wanted<'l, L> {
    label: L,
    clearance: L,
    verify: &'l Label,
}

// Looks up a gate: its label, its clearance, and what it gives to threads that enter it.
fn gate_in<L: Copy>(table: &Table<L>, gate: ObjId) -> Result<(L, L, Entry), Denied>
    ensures answer { FailsAt (unless (is_gate (objects_of table.now gate)) BadKind) result }
    ensures found { IfOk result (λ found. objects_of table.now gate ≡ Some (gate_of found.0 found.1 found.2)) }
{
    let Some(object) = table.get(gate) else {
        return Err(Denied::BadKind);
    };
    let Kind::Gate(clearance, entry) = &object.kind else {
        return Err(Denied::BadKind);
    };
    Ok((object.label, *clearance, *entry))
}

// Checks whether the label that a thread wants is above the floor of its own label and the gate's, and the
// clearance between it and the join of both clearances.
fn is_between<S: LabelStore>(
    store: &mut S,
    own: (S::Id, S::Id),
    gate: (S::Id, S::Id),
    wanted: (S::Id, S::Id),
) -> bool
    requires own { IsSome (S.labels store.old own.0) }
    requires own_clearance { IsSome (S.labels store.old own.1) }
    requires gate { IsSome (S.labels store.old gate.0) }
    requires gate_clearance { IsSome (S.labels store.old gate.1) }
    requires wanted { IsSome (S.labels store.old wanted.0) }
    requires clearance { IsSome (S.labels store.old wanted.1) }
    ensures answer { result ≡ lies_between
        (label_at (S.labels store.old) own.0) (label_at (S.labels store.old) gate.0)
        (label_at (S.labels store.old) wanted.0) (label_at (S.labels store.old) wanted.1)
        (label_at (S.labels store.old) own.1) (label_at (S.labels store.old) gate.1) }
    ensures unchanged { S.labels store.new ≡ S.labels store.old }
{
    store.floor_below(own.0, gate.0, wanted.0)
        && store.below(wanted.0, wanted.1)
        && store.below_join(wanted.1, own.1, gate.1)
}

// Checks whether the gate lets the thread in: its own label is below the gate's clearance, and below the
// verify label.
fn check_entry<S: LabelStore>(
    store: &mut S,
    own: S::Id,
    gate_clearance: S::Id,
    verify: &Label,
) -> Result<(), Denied>
    requires own { IsSome (S.labels store.old own) }
    requires gate_clearance { IsSome (S.labels store.old gate_clearance) }
    ensures answer { FailsAt
        (unless (is_below (label_at (S.labels store.old) own) (label_at (S.labels store.old) gate_clearance)) Gate
        orelse unless (is_below (label_at (S.labels store.old) own) verify.now) Gate) result }
    ensures unchanged { S.labels store.new ≡ S.labels store.old }
{
    let is_let_in = store.below(own, gate_clearance);
    require(is_let_in, Denied::Gate)?;
    require(store.get(own).unwrap().below(verify), Denied::Gate)
}

// Checks the label and the clearance that a thread wants behind a gate: they lie between what the thread
// and the gate have, and name only categories that were made.
fn check_wanted<S: LabelStore>(
    store: &mut S,
    own: (S::Id, S::Id),
    gate: (S::Id, S::Id),
    wanted: (S::Id, S::Id),
    next: Next,
) -> Result<(), Denied>
    requires own { IsSome (S.labels store.old own.0) }
    requires own_clearance { IsSome (S.labels store.old own.1) }
    requires gate { IsSome (S.labels store.old gate.0) }
    requires gate_clearance { IsSome (S.labels store.old gate.1) }
    requires wanted { IsSome (S.labels store.old wanted.0) }
    requires clearance { IsSome (S.labels store.old wanted.1) }
    ensures answer { FailsAt (no_wanting (S.labels store.old) own gate wanted next) result }
    ensures unchanged { S.labels store.new ≡ S.labels store.old }
{
    let is_between = is_between(store, own, gate, wanted);
    require(is_between, Denied::Range)?;
    require(is_known(store, wanted.0, next), Denied::Range)?;
    require(is_known(store, wanted.1, next), Denied::Range)
}

// Makes the last checks of entering a gate: the gate lets in a thread with this verify label, and gives it
// the label and the clearance that it wants. The thread may own behind the gate what it or the gate owns.
// Elsewhere the label is at least both labels, so that no taint is lost, and the clearance is at most the
// greater of both clearances.
fn check_opening<S: LabelStore>(
    store: &mut S,
    opening: Opening<S::Id>,
    verify: &Label,
    next: Next,
) -> Result<(), Denied>
    requires own { IsSome (S.labels store.old opening.own.0) }
    requires own_clearance { IsSome (S.labels store.old opening.own.1) }
    requires gate { IsSome (S.labels store.old opening.gate.0) }
    requires gate_clearance { IsSome (S.labels store.old opening.gate.1) }
    requires wanted { IsSome (S.labels store.old opening.wanted.0) }
    requires clearance { IsSome (S.labels store.old opening.wanted.1) }
    ensures answer { FailsAt (no_opening (S.labels store.old) opening verify.now next) result }
    ensures unchanged { S.labels store.new ≡ S.labels store.old }
{
    let Opening { own, gate, wanted } = opening;
    check_entry(store, own.0, gate.1, verify)?;
    check_wanted(store, own, gate, wanted, next)?;
    require(verify.names_only_made(next.category), Denied::Range)
}

// Checks that a thread may enter a gate with a label and a clearance that the store has under these Ids, and
// returns what the gate gives.
fn check_enter_in<S: LabelStore>(
    store: &mut S,
    table: &Table<S::Id>,
    next: Next,
    access: &Access,
    wanted: Wanted<S::Id>,
) -> Result<Entry, Denied>
    requires stand { AllStand (S.labels store.old) (objects_of table.now) }
    requires wanted { IsSome (S.labels store.old wanted.label) }
    requires clearance { IsSome (S.labels store.old wanted.clearance) }
    ensures answer { FailsAt (check (state_with (S.labels store.old) table.now next)
        access.now.thread (calls.Enter access.now.container access.now.object
        (label_at (S.labels store.old) wanted.entry.label)
        (label_at (S.labels store.old) wanted.entry.clearance) wanted.entry.verify.now)) result }
    ensures entry { IfOk result (λ entry. Some entry
        ≡ entry_there (objects_shown (S.labels store.old) table.now access.now.object)) }
    ensures thread { IfOk result (λ _.
        IsTrue (is_thread (objects_of table.now access.now.thread))) }
    ensures unchanged { S.labels store.new ≡ S.labels store.old }
{
    let Wanted {
        label,
        clearance,
        verify,
    } = wanted;
    let found = linked_in(store, table, access)?;
    let (gate_label, gate_clearance, entry) = gate_in(table, access.object)?;
    let opening = Opening {
        own: (found.own, found.own_clearance),
        gate: (gate_label, gate_clearance),
        wanted: (label, clearance),
    };
    check_opening(store, opening, verify, next)?;
    Ok(entry)
}

/// Lets a thread enter a gate with these labels, if it may, and returns what the gate gives.
pub(crate) fn enter_in<H: Heap, S: LabelStore>(
    heap: H,
    store: &mut S,
    table: &mut Table<S::Id>,
    next: Next,
    access: &Access,
    labels: HandedLabels,
) -> Result<Entry, Refusal>
    requires { AllStand (S.labels store.old) (objects_of table.old) }
    ensures stand { AllStand (S.labels store.new) (objects_of table.new) }
    ensures answer { FailsAtUnlessExhausted (check (state_with (S.labels store.old) table.old next)
        access.now.thread (calls.Enter access.now.container access.now.object
        labels.entry.wanted.now labels.entry.clearance.now labels.entry.verify.now)) result }
    ensures entry { IfOk result (λ entry. Some entry
        ≡ entry_there (objects_shown (S.labels store.old) table.old access.now.object)) }
    ensures ok { OnOk result (objects_shown (S.labels store.new) table.new
        ≡ put (objects_shown (S.labels store.old) table.old) access.now.thread
        (thread_of labels.entry.wanted.now labels.entry.clearance.now)) }
    ensures err { OnErr result (objects_shown (S.labels store.new) table.new
        ≡ objects_shown (S.labels store.old) table.old) }
    ensures memory { OnOutOfMemory result H.Refused }
{
    let clearance = put_copy(heap, store, labels.clearance)?;
    let label = put_copy(heap, store, labels.wanted)?;
    let wanted = Wanted {
        label,
        clearance,
        verify: labels.verify,
    };
    let entry = check_enter_in(store, table, next, access, wanted)?;
    give_own(table, access.thread, (label, clearance));
    Ok(entry)
}
