//! The objects of a kernel, with their labels in a store.
ghost use Rattle.std.specs.Prelude.{◌≡◌, ◌+◌, ◌++◌, ◌<◌, ℕ, List, None, Some, IsTrue, IsSome, IfOk, OnOk, OnErr, take};
ghost use Rattle.std.specs.Option.{option_copied};
ghost use Rattle.std.specs.FinSet as set;
ghost use Rattle.histar_level.specs.Levels.{Levels};
ghost use Rattle.histar_label.specs.Store.{label_at, Keeps};
ghost use Rattle.histar_object.specs.Objects.{objects_of, put, changed_at, with_new, holding, no_objects, thread_of};
ghost use Rattle.histar_object.specs.Objects.{is_container, is_thread, links_in, bytes_there, bytes_in, label_there};
ghost use Rattle.histar_object.specs.Objects.{clearance_there};
ghost use Rattle.histar_object.specs.State.{with_object, with_next, with_next_category, with_own, with_segment_bytes};
ghost use Rattle.histar_container.specs.Shown.{objects_shown, kind_by, object_by, AllStand, KindStands, Stands, IsKept};
ghost use Rattle.histar_container.specs.ObjectsModel.{state_of, CutsOff};
ghost use Rattle.histar_container.specs.Tree.{AreTree};
ghost use Rattle.histar_rules.specs.Finds.{LendsThread};
ghost use Rattle.histar_rules.specs.Kinds.{kind_there};
ghost use Rattle.histar_rules.specs.Rights.{with_changed, with_clearance, with_label};
ghost use Rattle.histar_rules.specs.Sound.{root_number};
ghost use Rattle.histar_rules.specs.Rules.{check, greatest, no_new, no_new_owner, FailsAt, FailsAtUnlessExhausted, Decides};
ghost use Rattle.histar_rules.specs.RawAnswers.{IsAnswer};
ghost use Rattle.histar_rules.specs.declared.raw.RawCall.TheVariants as calls;
ghost use Rattle.histar_rules.specs.Memory.{OnOutOfMemory};

use crate::access::{Access, Maker};
use crate::entering::enter_in;
use crate::handed::HandedLabels;
use crate::in_use::{LEAST_WEIGHT, forget_unused_in};
use crate::kinds::ObjectKind;
use crate::limits::{Next, ROOT};
use crate::linked::{label_in, read_in, unlink_in, write_in};
use crate::lookup::{labels_in, modified_in, thread_in};
use crate::own::{give_own, set_clearance_in, set_label_in};
use crate::ranges::{check_new, check_new_owner};
use crate::raw::{Denied, Refusal};
use histar_base::Bytes;
use histar_container::{link_new, linked, remove_tree};
use histar_heap::{Heap, MOST_ROOM};
use histar_label::{Label, LabelStore};
use histar_object::{Entry, Kind, ObjId, Object, Table};
use std::alloc::{AllocError, Global};
use std::marker::Model;

/// The objects of a kernel by number, with their labels in a store of labels, and the numbers that the next
/// object and the next category get. Callers see the labels themselves; no Id of the store leaves this type.
///
/// A store forgets no label. Once its labels with many exceptions weigh too much, those that the objects have
/// move to a new store.
#[derive(Drop)]
pub struct LabelledObjects<S: LabelStore + Drop> {
    store: S,
    table: Table<S::Id>,
    next_object: u64,
    next_category: u64,
    // The weight above which the objects leave the store for a new one.
    limit: usize,
}

impl<S: LabelStore + Drop> Model for LabelledObjects<S> {
    ghost use Rattle.histar_container.specs.Shown.{shown, IsKept};
    ghost use Rattle.histar_container.specs.ObjectsModel.{ObjectsModel, coded_objects_model};

    ghost Value = { ObjectsModel };

    ghost coded = { coded_objects_model };

    ghost view = { λ k. record {
      objects = shown (S.labels k.store) k.table;
      next_object = k.next_object;
      next_category = k.next_category;
    } };

    ghost invariant = { λ k. IsKept (S.labels k.store) k.table k.next_object };
}

#[tactic(auto, using(histar_container::proofs::Shows::shows, histar_container::proofs::Shows::stand_there))]
impl<S: LabelStore + Drop> LabelledObjects<S> {
    /// Makes a table of no objects, with the numbers that the next object and the next category get.
    pub fn new(alloc: Global, store: S, next_object: u64, next_category: u64) -> Self
        requires { 0 < next_object }
        ensures { state_of result ≡ record
            { objects = no_objects; next_object = next_object; next_category = next_category } }
    {
        LabelledObjects {
            store,
            table: Table::new(alloc),
            next_object,
            next_category,
            limit: LEAST_WEIGHT,
        }
    }

    /// Adds an object that no container links, the root container, under the next number.
    pub fn push<H: Heap>(
        &mut self,
        heap: H,
        label: Label,
        kind: Kind<Label>,
    ) -> Result<(), AllocError>
        requires { self.old.next_object < greatest }
        ensures ok { OnOk result (state_of self.new
            ≡ with_next (state_of self.old) (record { label = label; kind = kind })) }
        ensures counted { OnOk result (self.new.next_object ≡ self.old.next_object + 1) }
        ensures err { OnErr result (state_of self.new ≡ state_of self.old) }
        ensures memory { OnErr result H.Refused }
    {
        let number = ObjId::new(self.next_object);
        push_in(
            heap,
            &mut self.store,
            &mut self.table,
            number,
            Object { label, kind },
        )?;
        self.next_object += 1;
        Ok(())
    }

    /// Returns the number that the next object gets.
    pub fn next_object(&self) -> ObjId
        ensures value { result ≡ self.now.next_object }
        ensures positive { 0 < result }
    {
        ObjId::new(self.next_object)
    }

    /// Returns the number that the next category gets.
    pub fn next_category(&self) -> u64
        ensures { result ≡ self.now.next_category }
    {
        self.next_category
    }

    /// Counts one more category: the next one is now made.
    pub fn count_category(&mut self)
        requires { self.old.next_category < greatest }
        ensures { state_of self.new ≡ with_next_category (state_of self.old) }
    {
        self.next_category += 1;
    }

    /// Returns the bytes of a segment.
    pub fn bytes(&self, object: ObjId) -> Option<&[u8]>
        ensures { option_copied result ≡ bytes_there (objects_of self.now.objects object) }
    {
        self.table.bytes(object)
    }

    /// Checks whether the root container links an object. It takes constant time for one that was made after all
    /// that the root container links.
    pub fn is_in_root(&self, object: ObjId) -> bool
        ensures { result ≡ set.contains (links_in (objects_of self.now.objects root_number)) object }
    {
        match self.table.get(ObjId::new(ROOT)) {
            Some(root) => match &root.kind {
                Kind::Container(links) => links.contains_older(object),
                _ => false,
            },
            None => false,
        }
    }

    /// Checks whether a container links an object.
    pub fn is_linked(&self, container: ObjId, object: ObjId) -> bool
        ensures { result ≡ set.contains (links_in (objects_of self.now.objects container)) object }
    {
        linked(&self.table, container, object)
    }

    /// Returns the label of an object.
    pub fn label(&self, object: ObjId) -> Option<&Label>
        ensures { option_copied result ≡ label_there (objects_of self.now.objects object) }
    {
        match self.table.get(object) {
            Some(object) => Some(self.store.get(object.label).unwrap()),
            None => None,
        }
    }

    /// Checks whether there is a container of this number.
    pub fn is_container(&self, object: ObjId) -> bool
        ensures { result ≡ is_container (objects_of self.now.objects object) }
    {
        match self.table.get(object) {
            Some(object) => matches!(object.kind, Kind::Container(_)),
            None => false,
        }
    }

    /// Checks whether there is a thread of this number.
    pub fn is_thread(&self, object: ObjId) -> bool
        ensures { result ≡ is_thread (objects_of self.now.objects object) }
    {
        match self.table.get(object) {
            Some(object) => matches!(object.kind, Kind::Thread(_)),
            None => false,
        }
    }

    /// Returns the clearance of a thread or a gate.
    pub fn clearance(&self, object: ObjId) -> Option<&Label>
        ensures { option_copied result ≡ clearance_there (objects_of self.now.objects object) }
    {
        match self.table.get(object) {
            Some(object) => match &object.kind {
                Kind::Segment(_) | Kind::Container(_) => None,
                Kind::Thread(clearance) => Some(self.store.get(*clearance).unwrap()),
                Kind::Gate(clearance, _) => Some(self.store.get(*clearance).unwrap()),
            },
            None => None,
        }
    }

    /// Returns the kind of an object.
    pub fn kind(&self, object: ObjId) -> Option<ObjectKind>
        ensures { result ≡ kind_there (objects_of self.now.objects object) }
    {
        match self.table.get(object) {
            Some(object) => Some(ObjectKind::of(&object.kind)),
            None => None,
        }
    }

    /// Returns the label and the clearance of a thread, found in one look-up.
    pub fn own(&self, thread: ObjId) -> Option<(&Label, &Label)>
        ensures { LendsThread (objects_of self.now.objects thread) result }
    {
        let Some((own, own_clearance)) = thread_in(&self.table, thread) else {
            return None;
        };
        let label = self.store.get(own).unwrap();
        let clearance = self.store.get(own_clearance).unwrap();
        Some((label, clearance))
    }

    // Returns the numbers that the next object and the next category get.
    fn next(&self) -> Next
        ensures object { result.object ≡ self.now.next_object }
        ensures category { result.category ≡ self.now.next_category }
    {
        Next {
            object: self.next_object,
            category: self.next_category,
        }
    }

    /// Checks that a segment of this size, or a container (of size 0), may be made.
    pub fn check_new(&mut self, maker: &Maker, label: &Label, size: usize) -> Result<(), Denied>
        ensures answer { FailsAt (no_new (state_of self.old)
            maker.now.thread maker.now.container label.now size) result }
        ensures unchanged { self.new ≡ self.old }
    {
        let next = self.next();
        let found = modified_in(&mut self.store, &self.table, maker)?;
        let (own, own_clearance) = labels_in(&self.store, found.own, found.own_clearance);
        check_new(own, own_clearance, label, size, next)
    }

    /// Checks that a thread or a gate may be made.
    pub fn check_new_owner(
        &mut self,
        maker: &Maker,
        label: &Label,
        clearance: &Label,
    ) -> Result<(), Denied>
        ensures answer { FailsAt (no_new_owner (state_of self.old)
            maker.now.thread maker.now.container label.now clearance.now) result }
        ensures unchanged { self.new ≡ self.old }
    {
        let next = self.next();
        let found = modified_in(&mut self.store, &self.table, maker)?;
        let (own, own_clearance) = labels_in(&self.store, found.own, found.own_clearance);
        check_new_owner(own, own_clearance, label, clearance, next)
    }

    /// Checks that a segment may be read.
    pub fn check_read(&mut self, access: &Access) -> Result<(), Denied>
        ensures answer { FailsAt (check (state_of self.old) access.now.thread
            (calls.Read access.now.container access.now.object)) result }
        ensures unchanged { self.new ≡ self.old }
    {
        match read_in(&mut self.store, &self.table, access) {
            Ok(_) => Ok(()),
            Err(denied) => Err(denied),
        }
    }

    /// Checks that a segment may be read, and returns a copy of its bytes.
    pub fn read<H: Heap>(&mut self, heap: H, access: &Access) -> Result<Bytes, Refusal>
        ensures answer { FailsAtUnlessExhausted (check (state_of self.old) access.now.thread
            (calls.Read access.now.container access.now.object)) result }
        ensures bytes { IfOk result (IsAnswer (state_of self.old) access.now.thread
            (calls.Read access.now.container access.now.object)) }
        ensures unchanged { self.new ≡ self.old }
        ensures memory { OnOutOfMemory result H.Refused }
    {
        let bytes = read_in(&mut self.store, &self.table, access)?;
        Ok(bytes.copy(heap)?)
    }

    /// Checks that a segment may be written.
    pub fn check_write(&mut self, access: &Access, keep: u32, bytes: &Bytes) -> Result<(), Denied>
        ensures answer { FailsAt (check (state_of self.old) access.now.thread
            (calls.Write access.now.container access.now.object keep bytes.now)) result }
        ensures unchanged { self.new ≡ self.old }
    {
        write_in(&mut self.store, &self.table, access, keep, bytes)
    }

    /// Checks that an object may be unlinked.
    pub fn check_unlink(&mut self, access: &Access) -> Result<(), Denied>
        ensures answer { FailsAt (check (state_of self.old) access.now.thread
            (calls.Unlink access.now.container access.now.object)) result }
        ensures unchanged { self.new ≡ self.old }
    {
        unlink_in(&mut self.store, &self.table, access)
    }

    /// Checks that the label of an object that a container links may be asked for, and returns a copy of it.
    pub fn label_of<H: Heap>(&mut self, heap: H, access: &Access) -> Result<Label, Refusal>
        requires { AreTree (objects_of self.old.objects) }
        ensures ok { Decides self.old self.new access.now.thread
            (calls.LabelOf access.now.container access.now.object) result }
        ensures memory { OnOutOfMemory result H.Refused }
    {
        let Some(label) = label_in(&mut self.store, &self.table, access)? else {
            return Err(Refusal::Denied(Denied::NoEntry));
        };
        Ok(self.store.get(label).unwrap().copy(heap)?)
    }

    /// Adds an object under the next number, and links it in a container.
    pub fn add<H: Heap>(
        &mut self,
        heap: H,
        container: ObjId,
        label: Label,
        kind: Kind<Label>,
    ) -> Result<(), AllocError>
        requires { self.old.next_object < greatest }
        ensures ok { OnOk result (state_of self.new
            ≡ with_object (state_of self.old) container (record { label = label; kind = kind })) }
        ensures err { OnErr result (state_of self.new ≡ state_of self.old) }
        ensures memory { OnErr result H.Refused }
    {
        self.forget_unused_labels(heap);
        let number = ObjId::new(self.next_object);
        let object = Object { label, kind };
        add_in(
            heap,
            &mut self.store,
            &mut self.table,
            container,
            number,
            object,
        )?;
        self.next_object += 1;
        Ok(())
    }

    /// Unlinks an object from a container, and removes it with all that is reached from it.
    pub fn remove<H: Heap>(
        &mut self,
        heap: H,
        container: ObjId,
        object: ObjId,
    ) -> Result<(), AllocError>
        requires tree { AreTree (objects_of self.old.objects) }
        requires linked { IsTrue (set.contains (links_in (objects_of self.old.objects container)) object) }
        ensures ok { OnOk result (CutsOff (state_of self.old) container object (state_of self.new)) }
        ensures err { OnErr result (state_of self.new ≡ state_of self.old) }
        ensures memory { OnErr result H.Refused }
    {
        remove_tree(heap, &mut self.table, container, object)
    }

    /// Gives a thread another label, which lies between its own label and its clearance. A label that the
    /// store has is not copied.
    pub fn set_label<H: Heap>(
        &mut self,
        heap: H,
        thread: ObjId,
        label: &Label,
    ) -> Result<(), Refusal>
        ensures answer { FailsAtUnlessExhausted
            (check (state_of self.old) thread (calls.SetLabel label.now)) result }
        ensures ok { OnOk result (state_of self.new
            ≡ with_changed (state_of self.old) thread (with_label label.now)) }
        ensures err { OnErr result (state_of self.new ≡ state_of self.old) }
        ensures memory { OnOutOfMemory result H.Refused }
    {
        self.forget_unused_labels(heap);
        let next = self.next();
        set_label_in(heap, &mut self.store, &mut self.table, next, thread, label)
    }

    /// Gives a thread another clearance, which is above its own label, and exceeds its old clearance only
    /// where the thread owns. A label that the store has is not copied.
    pub fn set_clearance<H: Heap>(
        &mut self,
        heap: H,
        thread: ObjId,
        clearance: &Label,
    ) -> Result<(), Refusal>
        ensures answer { FailsAtUnlessExhausted
            (check (state_of self.old) thread (calls.SetClearance clearance.now)) result }
        ensures ok { OnOk result (state_of self.new
            ≡ with_changed (state_of self.old) thread (with_clearance clearance.now)) }
        ensures err { OnErr result (state_of self.new ≡ state_of self.old) }
        ensures memory { OnOutOfMemory result H.Refused }
    {
        self.forget_unused_labels(heap);
        let next = self.next();
        set_clearance_in(
            heap,
            &mut self.store,
            &mut self.table,
            next,
            thread,
            clearance,
        )
    }

    /// Lets a thread enter a gate with these labels, within what the gate and its own labels allow, and
    /// returns what the gate gives. Labels that the store has are not copied.
    pub fn enter<H: Heap>(
        &mut self,
        heap: H,
        access: &Access,
        labels: HandedLabels,
    ) -> Result<Entry, Refusal>
        ensures answer { FailsAtUnlessExhausted (check (state_of self.old) access.now.thread
            (calls.Enter access.now.container access.now.object
            labels.entry.wanted.now labels.entry.clearance.now labels.entry.verify.now)) result }
        ensures entry { IfOk result (IsAnswer (state_of self.old) access.now.thread
            (calls.Enter access.now.container access.now.object
            labels.entry.wanted.now labels.entry.clearance.now labels.entry.verify.now)) }
        ensures ok { OnOk result (state_of self.new ≡ with_own (state_of self.old) access.now.thread
            labels.entry.wanted.now labels.entry.clearance.now) }
        ensures err { OnErr result (state_of self.new ≡ state_of self.old) }
        ensures memory { OnOutOfMemory result H.Refused }
    {
        self.forget_unused_labels(heap);
        let next = self.next();
        enter_in(heap, &mut self.store, &mut self.table, next, access, labels)
    }

    /// Gives a thread another label and another clearance.
    pub fn set_own<H: Heap>(
        &mut self,
        heap: H,
        thread: ObjId,
        label: Label,
        clearance: Label,
    ) -> Result<(), AllocError>
        requires { IsTrue (is_thread (objects_of self.old.objects thread)) }
        ensures ok { OnOk result (state_of self.new ≡ with_own (state_of self.old) thread label clearance) }
        ensures err { OnErr result (state_of self.new ≡ state_of self.old) }
        ensures memory { OnErr result H.Refused }
    {
        self.forget_unused_labels(heap);
        set_own_in(
            heap,
            &mut self.store,
            &mut self.table,
            thread,
            label,
            clearance,
        )
    }

    /// Keeps the first bytes of a segment, at most `keep`, and appends new ones.
    pub fn splice<H: Heap>(
        &mut self,
        heap: H,
        segment: ObjId,
        keep: u32,
        bytes: &Bytes,
    ) -> Result<(), AllocError>
        ensures ok { OnOk result (state_of self.new ≡ with_segment_bytes (state_of self.old) segment
            (take keep (bytes_in (objects_of self.old.objects segment)) ++ bytes.now)) }
        ensures err { OnErr result (state_of self.new ≡ state_of self.old) }
        ensures memory { OnErr result H.Refused }
    {
        splice_in(&mut self.table, heap, segment, keep, bytes)
    }

    // Moves the labels that the objects have to a new store, if the store weighs more than the limit.
    fn forget_unused_labels<H: Heap>(&mut self, heap: H)
        ensures { state_of self.new ≡ state_of self.old }
    {
        self.limit = forget_unused_in(
            heap,
            &mut self.store,
            &mut self.table,
            self.next_object,
            self.limit,
        );
    }
}

// Puts the clearance of a kind, if it has one, into the store.
fn put_kind<H: Heap, S: LabelStore>(
    heap: H,
    store: &mut S,
    kind: Kind<Label>,
) -> Result<Kind<S::Id>, AllocError>
    ensures stands { IfOk result (λ k. KindStands (S.labels store.new) k) }
    ensures value { IfOk result (λ k. kind_by (label_at (S.labels store.new)) k ≡ kind) }
    ensures keeps { Keeps (S.labels store.old) (S.labels store.new) }
    ensures memory { OnErr result H.Refused }
{
    match kind {
        Kind::Segment(bytes) => Ok(Kind::Segment(bytes)),
        Kind::Container(links) => Ok(Kind::Container(links)),
        Kind::Thread(clearance) => {
            let clearance = store.put(heap, clearance)?;
            Ok(Kind::Thread(clearance))
        }
        Kind::Gate(clearance, entry) => {
            let clearance = store.put(heap, clearance)?;
            Ok(Kind::Gate(clearance, entry))
        }
    }
}

// Puts the labels of an object into the store.
fn put_object<H: Heap, S: LabelStore>(
    heap: H,
    store: &mut S,
    object: Object<Label>,
) -> Result<Object<S::Id>, AllocError>
    ensures stands { IfOk result (λ o. Stands (S.labels store.new) o) }
    ensures value { IfOk result (λ o. object_by (label_at (S.labels store.new)) o ≡ object) }
    ensures keeps { Keeps (S.labels store.old) (S.labels store.new) }
    ensures memory { OnErr result H.Refused }
{
    let kind = put_kind(heap, store, object.kind)?;
    let label = store.put(heap, object.label)?;
    Ok(Object { label, kind })
}

// Puts an object into the table, and its labels into the store.
fn push_in<H: Heap, S: LabelStore>(
    heap: H,
    store: &mut S,
    table: &mut Table<S::Id>,
    number: ObjId,
    object: Object<Label>,
) -> Result<(), AllocError>
    requires stand { AllStand (S.labels store.old) (objects_of table.old) }
    requires is_new { objects_shown (S.labels store.old) table.old number ≡ None }
    ensures stand { AllStand (S.labels store.new) (objects_of table.new) }
    ensures ok { OnOk result (objects_shown (S.labels store.new) table.new
        ≡ put (objects_shown (S.labels store.old) table.old) number object) }
    ensures err { OnErr result (objects_shown (S.labels store.new) table.new
        ≡ objects_shown (S.labels store.old) table.old) }
    ensures memory { OnErr result H.Refused }
{
    let object = put_object(heap, store, object)?;
    table.add(heap, number, object)
}

// Puts a new object into the table and its labels into the store, and links it in a container.
// Inlined, so that the object isn't moved.
#[inline(always)]
fn add_in<H: Heap, S: LabelStore>(
    heap: H,
    store: &mut S,
    table: &mut Table<S::Id>,
    container: ObjId,
    number: ObjId,
    object: Object<Label>,
) -> Result<(), AllocError>
    requires stand { AllStand (S.labels store.old) (objects_of table.old) }
    requires is_new { objects_shown (S.labels store.old) table.old number ≡ None }
    ensures stand { AllStand (S.labels store.new) (objects_of table.new) }
    ensures ok { OnOk result (objects_shown (S.labels store.new) table.new
        ≡ with_new (objects_shown (S.labels store.old) table.old) container number object) }
    ensures err { OnErr result (objects_shown (S.labels store.new) table.new
        ≡ objects_shown (S.labels store.old) table.old) }
    ensures memory { OnErr result H.Refused }
{
    let object = put_object(heap, store, object)?;
    link_new(heap, table, container, number, object)
}

// Puts the new labels of a thread into the store, and then changes the thread.
fn set_own_in<H: Heap, S: LabelStore>(
    heap: H,
    store: &mut S,
    table: &mut Table<S::Id>,
    thread: ObjId,
    label: Label,
    clearance: Label,
) -> Result<(), AllocError>
    requires stand { AllStand (S.labels store.old) (objects_of table.old) }
    requires is_there { IsTrue (is_thread (objects_shown (S.labels store.old) table.old thread)) }
    ensures stand { AllStand (S.labels store.new) (objects_of table.new) }
    ensures ok { OnOk result (objects_shown (S.labels store.new) table.new
        ≡ put (objects_shown (S.labels store.old) table.old) thread (thread_of label clearance)) }
    ensures err { OnErr result (objects_shown (S.labels store.new) table.new
        ≡ objects_shown (S.labels store.old) table.old) }
    ensures memory { OnErr result H.Refused }
{
    let clearance = store.put(heap, clearance)?;
    let label = store.put(heap, label)?;
    give_own(table, thread, (label, clearance));
    Ok(())
}

// Keeps the first bytes of a segment, at most `keep`, and appends new ones.
fn splice_in<H: Heap, L: Drop>(
    table: &mut Table<L>,
    heap: H,
    segment: ObjId,
    keep: u32,
    bytes: &Bytes,
) -> Result<(), AllocError>
    ensures ok { OnOk result (objects_of table.new ≡ changed_at (objects_of table.old) segment
        (holding (take keep (bytes_in (objects_of table.old segment)) ++ bytes.now))) }
    ensures err { OnErr result (objects_of table.new ≡ objects_of table.old) }
    ensures memory { OnErr result H.Refused }
{
    if let Some(object) = table.get_mut(segment) {
        if let Kind::Segment(content) = &mut object.kind {
            let new = spliced(heap, content.as_slice(), keep, bytes)?;
            *content = new;
        }
    }
    Ok(())
}

// Returns the first bytes of the old ones, at most `keep`, followed by the new ones.
fn spliced<H: Heap>(heap: H, old: &[u8], keep: u32, new: &Bytes) -> Result<Bytes, AllocError>
    ensures ok { IfOk result (λ b. b ≡ take keep old.now ++ new.now) }
    ensures memory { OnErr result H.Refused }
{
    let kept = (keep as usize).min(old.len());
    let new = new.as_slice();
    let mut content = heap.with_room((kept + new.len()).min(MOST_ROOM))?;
    heap.extend(&mut content, &old[..kept])?;
    heap.extend(&mut content, new)?;
    Ok(Bytes::from_vec(content))
}
