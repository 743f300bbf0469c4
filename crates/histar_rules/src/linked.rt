//! The checks of the calls on an object that a container links. They look up the thread, the container and
//! the object once each.
ghost use Rattle.std.specs.Prelude.{◌≡◌, ◌+◌, ◌&&◌, not, IfOk, IsSome, min};
ghost use Rattle.histar_base.specs.Refusals.{unless, ◌orelse◌};
ghost use Rattle.histar_label.specs.Levels.{is_below, is_below_raised};
ghost use Rattle.histar_label.specs.Store.{label_at};
ghost use Rattle.histar_object.specs.Objects.{objects_of, label_there, bytes_there, is_segment, is_thread};
ghost use Rattle.histar_container.specs.Shown.{AllStand};
ghost use Rattle.histar_rules.specs.Finds.{state_shown, segment_of};
ghost use Rattle.histar_rules.specs.Rules.{check, fits_segment, FailsAt};
ghost use Rattle.histar_rules.specs.declared.raw.RawCall.TheVariants as calls;
ghost use Rattle.histar_rules.specs.declared.raw.Denied.TheVariants.{BadKind, Modify, TooBig};

use crate::access::Access;
use crate::checks::require;
use crate::limits::fits;
use crate::lookup::linked_in;
use crate::raw::Denied;
use histar_base::Bytes;
use histar_label::LabelStore;
use histar_object::{Kind, ObjId, Table};

// Looks up a segment: its label and its bytes.
fn segment_in<L: Copy>(table: &Table<L>, segment: ObjId) -> Result<(L, &Bytes), Denied>
    ensures answer { FailsAt (unless (is_segment (objects_of table.now segment)) BadKind) result }
    ensures found { IfOk result (λ found. objects_of table.now segment
        ≡ Some (segment_of found.0 found.1.now)) }
{
    let Some(object) = table.get(segment) else {
        return Err(Denied::BadKind);
    };
    let Kind::Segment(bytes) = &object.kind else {
        return Err(Denied::BadKind);
    };
    Ok((object.label, bytes))
}

/// Checks that a segment may be read, and returns its bytes.
pub(crate) fn read_in<'t, S: LabelStore>(
    store: &mut S,
    table: &'t Table<S::Id>,
    access: &Access,
) -> Result<&'t Bytes, Denied>
    requires { AllStand (S.labels store.old) (objects_of table.now) }
    ensures answer { FailsAt (check (state_shown (S.labels store.old) table.now) access.now.thread
        (calls.Read access.now.container access.now.object)) result }
    ensures bytes { IfOk result (λ bytes.
        bytes_there (objects_of table.now access.now.object) ≡ Some bytes.now) }
    ensures unchanged { S.labels store.new ≡ S.labels store.old }
{
    let found = linked_in(store, table, access)?;
    let (label, bytes) = segment_in(table, access.object)?;
    if store.below_raised(label, found.own) {
        Ok(bytes)
    } else {
        Err(Denied::Observe)
    }
}

// Checks whether a thread with one label may modify an object with another.
fn modifies_by<S: LabelStore>(store: &mut S, own: S::Id, label: S::Id) -> bool
    requires own { IsSome (S.labels store.old own) }
    requires label { IsSome (S.labels store.old label) }
    ensures answer { result ≡ (is_below (label_at (S.labels store.old) own)
        (label_at (S.labels store.old) label)
        && is_below_raised (label_at (S.labels store.old) label) (label_at (S.labels store.old) own)) }
    ensures unchanged { S.labels store.new ≡ S.labels store.old }
{
    store.below(own, label) && store.below_raised(label, own)
}

// Makes the last checks of a write: the thread may modify the segment, and the new content fits it.
fn check_change(modifies: bool, held: usize, keep: u32, more: usize) -> Result<(), Denied>
    ensures { FailsAt (unless modifies Modify
        orelse unless (fits_segment (min keep held + more)) TooBig) result }
{
    require(modifies, Denied::Modify)?;
    require(fits((keep as usize).min(held), more), Denied::TooBig)
}

/// Checks that a segment may be written.
// Inlined, so that a write costs one call less.
#[inline(always)]
pub(crate) fn write_in<S: LabelStore>(
    store: &mut S,
    table: &Table<S::Id>,
    access: &Access,
    keep: u32,
    bytes: &Bytes,
) -> Result<(), Denied>
    requires { AllStand (S.labels store.old) (objects_of table.now) }
    ensures answer { FailsAt (check (state_shown (S.labels store.old) table.now) access.now.thread
        (calls.Write access.now.container access.now.object keep bytes.now)) result }
    ensures unchanged { S.labels store.new ≡ S.labels store.old }
{
    let found = linked_in(store, table, access)?;
    let (label, held) = segment_in(table, access.object)?;
    let modifies = modifies_by(store, found.own, label);
    check_change(modifies, held.len(), keep, bytes.len())
}

/// Checks that an object may be unlinked.
pub(crate) fn unlink_in<S: LabelStore>(
    store: &mut S,
    table: &Table<S::Id>,
    access: &Access,
) -> Result<(), Denied>
    requires { AllStand (S.labels store.old) (objects_of table.now) }
    ensures answer { FailsAt (check (state_shown (S.labels store.old) table.now) access.now.thread
        (calls.Unlink access.now.container access.now.object)) result }
    ensures unchanged { S.labels store.new ≡ S.labels store.old }
{
    let found = linked_in(store, table, access)?;
    if store.below(found.own, found.label) {
        Ok(())
    } else {
        Err(Denied::Modify)
    }
}

/// Checks that the label of an object may be asked for, and returns the label, if the object is there.
pub(crate) fn label_in<S: LabelStore>(
    store: &mut S,
    table: &Table<S::Id>,
    access: &Access,
) -> Result<Option<S::Id>, Denied>
    requires { AllStand (S.labels store.old) (objects_of table.now) }
    ensures answer { FailsAt (check (state_shown (S.labels store.old) table.now) access.now.thread
        (calls.LabelOf access.now.container access.now.object)) result }
    ensures label { IfOk result (λ label.
        label ≡ label_there (objects_of table.now access.now.object)) }
    ensures unchanged { S.labels store.new ≡ S.labels store.old }
{
    linked_in(store, table, access)?;
    label_unless_thread(table, access.object)
}

// Returns the label of an object, if it is there; refuses a thread.
fn label_unless_thread<L: Copy>(table: &Table<L>, object: ObjId) -> Result<Option<L>, Denied>
    ensures answer { FailsAt (unless (not (is_thread (objects_of table.now object))) BadKind) result }
    ensures label { IfOk result (λ label. label ≡ label_there (objects_of table.now object)) }
{
    match table.get(object) {
        Some(object) => match object.kind {
            Kind::Thread(_) => Err(Denied::BadKind),
            _ => Ok(Some(object.label)),
        },
        None => Ok(None),
    }
}
