//! The move of a kernel's objects to a new store, which has only the labels that they use.
ghost use Rattle.std.specs.Prelude.{OnErr, ◌≡◌, ◌≢◌, ◌≤◌, ℕ, Some, IsSome, IfOk, OnOk};
ghost use Rattle.histar_label.specs.Store.{label_at, Keeps};
ghost use Rattle.histar_object.specs.declared.objects.Object.{Object as ObjectOf};
ghost use Rattle.histar_object.specs.Objects.{objects_of, kind_clearance};
ghost use Rattle.histar_container.specs.Shown.{objects_shown, kind_by, AllStand, KindStands, Stands, IsUnusedFrom};
ghost use Rattle.histar_rules.specs.InUse.{IsIn, HasLabelsIn, HaveLabelsIn, IsMoved};

use histar_heap::Heap;
use histar_label::LabelStore;
use histar_object::{Kind, ObjId, Object, Table};
use std::alloc::AllocError;

/// The weight up to which the objects never leave a store: 2 MB of exceptions.
pub(crate) const LEAST_WEIGHT: usize = 131_072;

/// Moves the objects to a new store if theirs weighs more than the limit, and returns the next limit. Where
/// memory runs out all stays, and the limit doubles, so that the next call doesn't try again.
///
/// All labels are put into the new store before the first object changes. The next limit grows with what a
/// move costs, so that the moves cost no more than the puts between them.
pub(crate) fn forget_unused_in<H: Heap, S: LabelStore + Drop>(
    heap: H,
    store: &mut S,
    table: &mut Table<S::Id>,
    next_object: u64,
    limit: usize,
) -> usize
    requires stand { AllStand (S.labels store.old) (objects_of table.old) }
    requires unused { IsUnusedFrom (objects_shown (S.labels store.old) table.old) next_object }
    ensures stand { AllStand (S.labels store.new) (objects_of table.new) }
    ensures same { objects_shown (S.labels store.new) table.new ≡ objects_shown (S.labels store.old) table.old }
{
    if store.weight() <= limit {
        return limit;
    }
    let Ok((fresh, looked_at)) = labels_in_use(heap, store, table, next_object) else {
        return limit.saturating_mul(2);
    };
    give_ids(store, &fresh, table, next_object);
    *store = fresh;
    next_limit(store.weight(), looked_at, next_object)
}

// Returns the limit after a move: the weight of the new store, more by the least weight and by what the move
// has looked at, exceptions and numbers of objects.
fn next_limit(weight: usize, looked_at: usize, next_object: u64) -> usize
    ensures weight { weight ≤ result }
    ensures least { LEAST_WEIGHT ≤ result }
{
    weight
        .saturating_add(looked_at)
        .saturating_add(next_object as usize)
        .saturating_add(LEAST_WEIGHT)
}

// Makes a store of the labels of all objects below a number, and counts the exceptions that it looked at.
fn labels_in_use<H: Heap, S: LabelStore + Drop>(
    heap: H,
    store: &S,
    table: &Table<S::Id>,
    next_object: u64,
) -> Result<(S, usize), AllocError>
    requires { AllStand (S.labels store.now) (objects_of table.now) }
    ensures ok { IfOk result (λ made. HaveLabelsIn (S.labels store.now) (S.labels made.0)
        (objects_of table.now) next_object) }
    ensures memory { OnErr result H.Refused }
{
    let mut fresh = store.emptied(heap)?;
    let mut looked_at: usize = 0;
    'objects: for number in 0..next_object {
        let exceptions = put_labels_at(heap, store, table, ObjId::new(number), &mut fresh)?;
        looked_at = looked_at.saturating_add(exceptions);
    }
    Ok((fresh, looked_at))
}

// Puts the label and the clearance of the object of this number into a new store, and counts their exceptions.
fn put_labels_at<H: Heap, S: LabelStore>(
    heap: H,
    store: &S,
    table: &Table<S::Id>,
    number: ObjId,
    fresh: &mut S,
) -> Result<usize, AllocError>
    requires { AllStand (S.labels store.now) (objects_of table.now) }
    ensures has { OnOk result ((o : ObjectOf S.Id) → objects_of table.now number ≡ Some o
        → HasLabelsIn (S.labels store.now) (S.labels fresh.new) o) }
    ensures keeps { Keeps (S.labels fresh.old) (S.labels fresh.new) }
    ensures memory { OnErr result H.Refused }
{
    let Some(object) = table.get(number) else {
        return Ok(0);
    };
    let own = put_label(heap, store, object.label, fresh)?;
    let clearance = put_clearance(heap, store, &object.kind, fresh)?;
    Ok(own.saturating_add(clearance))
}

// Puts the clearance of a kind into a new store, if it has one, and counts its exceptions.
fn put_clearance<H: Heap, S: LabelStore>(
    heap: H,
    store: &S,
    kind: &Kind<S::Id>,
    fresh: &mut S,
) -> Result<usize, AllocError>
    requires { KindStands (S.labels store.now) kind.now }
    ensures has { OnOk result ((id : S.Id) → kind_clearance kind.now ≡ Some id
        → IsIn (S.labels store.now) (S.labels fresh.new) id) }
    ensures keeps { Keeps (S.labels fresh.old) (S.labels fresh.new) }
    ensures memory { OnErr result H.Refused }
{
    match kind {
        Kind::Thread(clearance) => put_label(heap, store, *clearance, fresh),
        Kind::Gate(clearance, _) => put_label(heap, store, *clearance, fresh),
        _ => Ok(0),
    }
}

// Puts the label of an Id into a new store, unless it is there, and counts its exceptions.
fn put_label<H: Heap, S: LabelStore>(
    heap: H,
    store: &S,
    id: S::Id,
    fresh: &mut S,
) -> Result<usize, AllocError>
    requires { IsSome (S.labels store.now id) }
    ensures has { OnOk result (IsIn (S.labels store.now) (S.labels fresh.new) id) }
    ensures keeps { Keeps (S.labels fresh.old) (S.labels fresh.new) }
    ensures memory { OnErr result H.Refused }
{
    let label = store.get(id).unwrap();
    if fresh.find(label).is_none() {
        fresh.put(heap, label.copy(heap)?)?;
    }
    Ok(label.exceptions().len())
}

// Gives each object below a number the Ids of its labels in a new store.
fn give_ids<S: LabelStore>(store: &S, fresh: &S, table: &mut Table<S::Id>, next_object: u64)
    requires stand { AllStand (S.labels store.now) (objects_of table.old) }
    requires unused { IsUnusedFrom (objects_shown (S.labels store.now) table.old) next_object }
    requires has { HaveLabelsIn (S.labels store.now) (S.labels fresh.now) (objects_of table.old) next_object }
    ensures stand { AllStand (S.labels fresh.now) (objects_of table.new) }
    ensures same { objects_shown (S.labels fresh.now) table.new ≡ objects_shown (S.labels store.now) table.old }
{
    'objects: for number in 0..next_object {
        give_ids_at(store, fresh, table, ObjId::new(number));
    }
}

// Gives the object of this number the Ids of its labels in a new store.
fn give_ids_at<S: LabelStore>(store: &S, fresh: &S, table: &mut Table<S::Id>, number: ObjId)
    requires stands { (o : ObjectOf S.Id) → objects_of table.old number ≡ Some o
        → Stands (S.labels store.now) o }
    requires has { (o : ObjectOf S.Id) → objects_of table.old number ≡ Some o
        → HasLabelsIn (S.labels store.now) (S.labels fresh.now) o }
    ensures moved { IsMoved (S.labels store.now) (S.labels fresh.now)
        (objects_of table.old number) (objects_of table.new number) }
    ensures others { (q : ℕ) → q ≢ number → objects_of table.new q ≡ objects_of table.old q }
{
    if let Some(object) = table.get_mut(number) {
        object.label = found(store, fresh, object.label);
        give_kind_ids(store, fresh, &mut object.kind);
    }
}

// Gives a kind the Id of its clearance in a new store, if it has one.
fn give_kind_ids<S: LabelStore>(store: &S, fresh: &S, kind: &mut Kind<S::Id>)
    requires stands { KindStands (S.labels store.now) kind.old }
    requires has { (id : S.Id) → kind_clearance kind.old ≡ Some id
        → IsIn (S.labels store.now) (S.labels fresh.now) id }
    ensures stands { KindStands (S.labels fresh.now) kind.new }
    ensures same { kind_by (label_at (S.labels fresh.now)) kind.new
        ≡ kind_by (label_at (S.labels store.now)) kind.old }
{
    match kind {
        Kind::Thread(clearance) => *clearance = found(store, fresh, *clearance),
        Kind::Gate(clearance, _) => *clearance = found(store, fresh, *clearance),
        _ => {}
    }
}

// Returns the Id in a new store of a label of the old store.
fn found<S: LabelStore>(store: &S, fresh: &S, id: S::Id) -> S::Id
    requires stands { IsSome (S.labels store.now id) }
    requires has { IsIn (S.labels store.now) (S.labels fresh.now) id }
    ensures { S.labels fresh.now result ≡ S.labels store.now id }
{
    fresh.find(store.get(id).unwrap()).unwrap()
}
