//! The calls by which a thread changes its own labels. The labels are put into the store before the checks,
//! which compare them by their Ids.
ghost use Rattle.std.specs.Prelude.{◌≡◌, ◌&&◌, IfOk, IsSome, IsTrue, OnOk, OnErr, Some};
ghost use Rattle.histar_base.specs.Refusals.{unless, ◌orelse◌};
ghost use Rattle.histar_label.specs.Levels.{is_below, is_below_join_raised, is_made};
ghost use Rattle.histar_label.specs.Store.{label_at, Keeps};
ghost use Rattle.histar_object.specs.Objects.{objects_of, changed_at, is_thread, put, thread_of};
ghost use Rattle.histar_container.specs.Shown.{objects_shown, AllStand};
ghost use Rattle.histar_rules.specs.Finds.{state_with};
ghost use Rattle.histar_rules.specs.Rights.{kind_with_clearance, with_clearance, with_label};
ghost use Rattle.histar_rules.specs.Rules.{check, FailsAt, FailsAtUnlessExhausted};
ghost use Rattle.histar_rules.specs.declared.raw.RawCall.TheVariants as calls;
ghost use Rattle.histar_rules.specs.declared.raw.Denied.TheVariants.{Range};
ghost use Rattle.histar_rules.specs.Memory.{OnOutOfMemory};

use crate::checks::require;
use crate::limits::Next;
use crate::lookup::thread_in;
use crate::raw::{Denied, Refusal};
use histar_heap::Heap;
use histar_label::{Label, LabelStore};
use histar_object::{Kind, ObjId, Object, Table};
use std::alloc::AllocError;

/// Returns the Id of a label. A label that the store has is not copied.
pub(crate) fn put_copy<H: Heap, S: LabelStore>(
    heap: H,
    store: &mut S,
    label: &Label,
) -> Result<S::Id, AllocError>
    ensures stands { IfOk result (λ id. S.labels store.new id ≡ Some label.now) }
    ensures keeps { Keeps (S.labels store.old) (S.labels store.new) }
    ensures memory { OnErr result H.Refused }
{
    match store.find_and_cache(label) {
        Some(id) => Ok(id),
        None => store.put(heap, label.copy(heap)?),
    }
}

/// Checks whether the label of an Id names only categories that were made.
pub(crate) fn is_known<S: LabelStore>(store: &S, label: S::Id, next: Next) -> bool
    requires { IsSome (S.labels store.now label) }
    ensures { result ≡ is_made next.category (label_at (S.labels store.now) label) }
{
    store.get(label).unwrap().names_only_made(next.category)
}

// Checks whether a label lies between a thread's own label and its clearance.
fn in_own_range<S: LabelStore>(store: &mut S, own: (S::Id, S::Id), label: S::Id) -> bool
    requires own { IsSome (S.labels store.old own.0) }
    requires own_clearance { IsSome (S.labels store.old own.1) }
    requires label { IsSome (S.labels store.old label) }
    ensures answer { result ≡ (is_below (label_at (S.labels store.old) own.0)
        (label_at (S.labels store.old) label)
        && is_below (label_at (S.labels store.old) label) (label_at (S.labels store.old) own.1)) }
    ensures unchanged { S.labels store.new ≡ S.labels store.old }
{
    store.below(own.0, label) && store.below(label, own.1)
}

// Checks whether a clearance is above a thread's own label, and exceeds its clearance only where it owns.
fn may_clear<S: LabelStore>(store: &mut S, own: (S::Id, S::Id), clearance: S::Id) -> bool
    requires own { IsSome (S.labels store.old own.0) }
    requires own_clearance { IsSome (S.labels store.old own.1) }
    requires clearance { IsSome (S.labels store.old clearance) }
    ensures answer { result ≡ (is_below (label_at (S.labels store.old) own.0)
        (label_at (S.labels store.old) clearance)
        && is_below_join_raised (label_at (S.labels store.old) clearance)
        (label_at (S.labels store.old) own.1) (label_at (S.labels store.old) own.0)) }
    ensures unchanged { S.labels store.new ≡ S.labels store.old }
{
    store.below(own.0, clearance) && store.below_join_raised(clearance, own.1, own.0)
}

// Checks a new label of a thread with these labels.
fn check_range<S: LabelStore>(
    store: &mut S,
    own: (S::Id, S::Id),
    label: S::Id,
    next: Next,
) -> Result<(), Denied>
    requires own { IsSome (S.labels store.old own.0) }
    requires own_clearance { IsSome (S.labels store.old own.1) }
    requires label { IsSome (S.labels store.old label) }
    ensures answer { FailsAt
        (unless (is_below (label_at (S.labels store.old) own.0) (label_at (S.labels store.old) label)
        && is_below (label_at (S.labels store.old) label) (label_at (S.labels store.old) own.1)) Range
        orelse unless (is_made next.category (label_at (S.labels store.old) label)) Range) result }
    ensures unchanged { S.labels store.new ≡ S.labels store.old }
{
    let is_between = in_own_range(store, own, label);
    require(is_between, Denied::Range)?;
    require(is_known(store, label, next), Denied::Range)
}

// Checks a new clearance of a thread with these labels.
fn check_clearing<S: LabelStore>(
    store: &mut S,
    own: (S::Id, S::Id),
    clearance: S::Id,
    next: Next,
) -> Result<(), Denied>
    requires own { IsSome (S.labels store.old own.0) }
    requires own_clearance { IsSome (S.labels store.old own.1) }
    requires clearance { IsSome (S.labels store.old clearance) }
    ensures answer { FailsAt
        (unless (is_below (label_at (S.labels store.old) own.0) (label_at (S.labels store.old) clearance)
        && is_below_join_raised (label_at (S.labels store.old) clearance)
        (label_at (S.labels store.old) own.1) (label_at (S.labels store.old) own.0)) Range
        orelse unless (is_made next.category (label_at (S.labels store.old) clearance)) Range) result }
    ensures unchanged { S.labels store.new ≡ S.labels store.old }
{
    let is_clear = may_clear(store, own, clearance);
    require(is_clear, Denied::Range)?;
    require(is_known(store, clearance, next), Denied::Range)
}

// Checks that a thread may have another label, which the store has under this Id.
fn check_label_in<S: LabelStore>(
    store: &mut S,
    table: &Table<S::Id>,
    next: Next,
    thread: ObjId,
    label: S::Id,
) -> Result<(), Denied>
    requires stand { AllStand (S.labels store.old) (objects_of table.now) }
    requires label { IsSome (S.labels store.old label) }
    ensures answer { FailsAt (check (state_with (S.labels store.old) table.now next) thread
        (calls.SetLabel (label_at (S.labels store.old) label))) result }
    ensures unchanged { S.labels store.new ≡ S.labels store.old }
{
    let Some(own) = thread_in(table, thread) else {
        return Err(Denied::NoThread);
    };
    check_range(store, own, label, next)
}

// Checks that a thread may have another clearance, which the store has under this Id.
fn check_clearance_in<S: LabelStore>(
    store: &mut S,
    table: &Table<S::Id>,
    next: Next,
    thread: ObjId,
    clearance: S::Id,
) -> Result<(), Denied>
    requires stand { AllStand (S.labels store.old) (objects_of table.now) }
    requires clearance { IsSome (S.labels store.old clearance) }
    ensures answer { FailsAt (check (state_with (S.labels store.old) table.now next) thread
        (calls.SetClearance (label_at (S.labels store.old) clearance))) result }
    ensures unchanged { S.labels store.new ≡ S.labels store.old }
{
    let Some(own) = thread_in(table, thread) else {
        return Err(Denied::NoThread);
    };
    check_clearing(store, own, clearance, next)
}

// Gives an object another label.
fn give_label<L: Copy>(table: &mut Table<L>, object: ObjId, label: L)
    ensures { objects_of table.new ≡ changed_at (objects_of table.old) object (with_label label) }
{
    if let Some(found) = table.get_mut(object) {
        found.label = label;
    }
}

// Gives a thread or a gate another clearance.
fn give_clearance<L: Copy>(table: &mut Table<L>, object: ObjId, clearance: L)
    ensures { objects_of table.new ≡ changed_at (objects_of table.old) object (with_clearance clearance) }
{
    if let Some(found) = table.get_mut(object) {
        set_kind_clearance(&mut found.kind, clearance);
    }
}

// Gives a thread or a gate another clearance.
fn set_kind_clearance<L: Copy>(kind: &mut Kind<L>, clearance: L)
    ensures { kind.new ≡ kind_with_clearance clearance kind.old }
{
    match kind {
        Kind::Thread(own) => *own = clearance,
        Kind::Gate(own, _) => *own = clearance,
        _ => {}
    }
}

/// Gives a thread another label and another clearance.
// Inlined, so that its two values stay in registers.
#[inline(always)]
pub(crate) fn give_own<L: Copy>(table: &mut Table<L>, thread: ObjId, own: (L, L))
    requires { IsTrue (is_thread (objects_of table.old thread)) }
    ensures { objects_of table.new ≡ put (objects_of table.old) thread (thread_of own.0 own.1) }
{
    if let Some(object) = table.get_mut(thread) {
        *object = Object {
            label: own.0,
            kind: Kind::Thread(own.1),
        };
    }
}

/// Gives a thread another label, if it may have it.
pub(crate) fn set_label_in<H: Heap, S: LabelStore>(
    heap: H,
    store: &mut S,
    table: &mut Table<S::Id>,
    next: Next,
    thread: ObjId,
    label: &Label,
) -> Result<(), Refusal>
    requires { AllStand (S.labels store.old) (objects_of table.old) }
    ensures stand { AllStand (S.labels store.new) (objects_of table.new) }
    ensures answer { FailsAtUnlessExhausted (check (state_with (S.labels store.old) table.old next) thread
        (calls.SetLabel label.now)) result }
    ensures ok { OnOk result (objects_shown (S.labels store.new) table.new
        ≡ changed_at (objects_shown (S.labels store.old) table.old) thread (with_label label.now)) }
    ensures err { OnErr result (objects_shown (S.labels store.new) table.new
        ≡ objects_shown (S.labels store.old) table.old) }
    ensures memory { OnOutOfMemory result H.Refused }
{
    let id = put_copy(heap, store, label)?;
    check_label_in(store, table, next, thread, id)?;
    give_label(table, thread, id);
    Ok(())
}

/// Gives a thread another clearance, if it may have it.
pub(crate) fn set_clearance_in<H: Heap, S: LabelStore>(
    heap: H,
    store: &mut S,
    table: &mut Table<S::Id>,
    next: Next,
    thread: ObjId,
    clearance: &Label,
) -> Result<(), Refusal>
    requires { AllStand (S.labels store.old) (objects_of table.old) }
    ensures stand { AllStand (S.labels store.new) (objects_of table.new) }
    ensures answer { FailsAtUnlessExhausted (check (state_with (S.labels store.old) table.old next) thread
        (calls.SetClearance clearance.now)) result }
    ensures ok { OnOk result (objects_shown (S.labels store.new) table.new
        ≡ changed_at (objects_shown (S.labels store.old) table.old) thread (with_clearance clearance.now)) }
    ensures err { OnErr result (objects_shown (S.labels store.new) table.new
        ≡ objects_shown (S.labels store.old) table.old) }
    ensures memory { OnOutOfMemory result H.Refused }
{
    let id = put_copy(heap, store, clearance)?;
    check_clearance_in(store, table, next, thread, id)?;
    give_clearance(table, thread, id);
    Ok(())
}
