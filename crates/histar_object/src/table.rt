//! Objects by number.
ghost use Rattle.std.specs.Prelude.{◌≡◌, ◌≢◌, ◌↔◌, ℕ, IsOk, OnOk, OnErr, None, Some};
ghost use Rattle.std.specs.Option.{option_copied, option_copied_mut};
ghost use Rattle.histar_object.specs.Objects.{objects_of, slot_of, HasRoom, put, without, bytes_there, no_objects};

use crate::ids::ObjId;
use crate::objects::{Kind, Object};
use crate::slot_map::SlotMap;
use histar_heap::Heap;
use slab::Slab;
use std::alloc::{AllocError, Global};
use std::marker::Model;

/// Objects by number. `L` is the type of labels, or of Ids that stand for them.
///
/// Each object has a slot. A slot is used again after its object is removed; numbers are chosen by the
/// caller, which gives none again. Numbers in order are looked up fastest.
#[derive(Drop)]
pub struct Table<L> {
    slots: SlotMap,
    objects: Slab<Object<L>>,
}

impl<L> Model for Table<L> {
    ghost use Rattle.std.specs.Prelude.{◌-◌, min};
    ghost use Rattle.slab.specs.Slab.{get, slab_len};
    ghost use Rattle.histar_object.specs.Objects.{TableModel};
    ghost use Rattle.histar_object.specs.Codes.{coded_table};
    ghost use Rattle.histar_object.specs.Slots.{placed, IsPlaced};

    ghost Value = { TableModel L };

    ghost coded = { coded_table L.code };

    ghost view = { λ t. record {
      objects = placed (get t.objects) t.slots.entries;
      slots = t.slots.entries;
      room = min t.slots.room (t.objects.capacity - slab_len t.objects);
    } };

    ghost invariant = { λ t. IsPlaced (get t.objects) t.slots.entries };
}

impl<L> Table<L> {
    ghost use Rattle.std.specs.Borrow.{sem};
    ghost use Rattle.histar_object.specs.Lending.{LendsObject};

    /// Makes a table of no objects.
    pub fn new(alloc: Global) -> Self
        ensures { objects_of result ≡ no_objects }
    {
        Table {
            slots: SlotMap::new(alloc),
            objects: Slab::new(alloc),
        }
    }

    /// Returns the slot of an object: a small number, which another object may get after this one is removed.
    pub fn slot(&self, id: ObjId) -> Option<usize>
        ensures { result ≡ slot_of self.now id }
    {
        self.slots.get(id)
    }

    /// Returns the object of this number.
    pub fn get(&self, id: ObjId) -> Option<&Object<L>>
        ensures { option_copied result ≡ objects_of self.now id }
    {
        let slot = self.slots.get(id)?;
        self.objects.get(slot)
    }

    /// Lends the object of this number, to be changed. All other objects, all slots and the room stay.
    pub fn get_mut(&mut self, id: ObjId) -> Option<&mut Object<L>>
        ensures* writes_back { sem 𝓛 (LendsObject L.row self.entry id result) }
        ensures value { option_copied_mut result ≡ objects_of self.old id }
    {
        let slot = self.slots.get(id)?;
        self.objects.get_mut(slot)
    }

    /// Makes room for one more object. Objects and slots stay, whether or not there is memory.
    pub fn reserve<H: Heap>(&mut self, heap: H) -> Result<(), AllocError>
        ensures room { OnOk result (HasRoom self.new) }
        ensures succeeds { HasRoom self.old → IsOk result }
        ensures objects { objects_of self.new ≡ objects_of self.old }
        ensures slots { slot_of self.new ≡ slot_of self.old }
        ensures memory { OnErr result H.Refused }
    {
        heap.reserve_slab(&mut self.objects)?;
        self.slots.reserve(heap)
    }

    /// Adds an object under a number that has none. There is room for it, so it needs no memory.
    pub fn add_reserved(&mut self, id: ObjId, object: Object<L>)
        requires absent { objects_of self.old id ≡ None }
        requires room { HasRoom self.old }
        ensures objects { objects_of self.new ≡ put (objects_of self.old) id object }
        ensures slots { (q : ℕ) → q ≢ id → slot_of self.new q ≡ slot_of self.old q }
    {
        let slot = self.objects.insert_reserved(object);
        self.slots.insert_reserved(id, slot);
    }

    /// Adds an object under a number that has none. Where memory runs out the object is dropped.
    pub fn add<H: Heap>(&mut self, heap: H, id: ObjId, object: Object<L>) -> Result<(), AllocError>
    where
        L: Drop,
        requires { objects_of self.old id ≡ None }
        ensures ok { OnOk result (objects_of self.new ≡ put (objects_of self.old) id object) }
        ensures err { OnErr result (objects_of self.new ≡ objects_of self.old) }
        ensures slots { (q : ℕ) → q ≢ id → slot_of self.new q ≡ slot_of self.old q }
        ensures memory { OnErr result H.Refused }
    {
        self.reserve(heap)?;
        self.add_reserved(id, object);
        Ok(())
    }

    /// Removes the object of this number.
    pub fn remove(&mut self, id: ObjId) -> Option<Object<L>>
        ensures value { result ≡ objects_of self.old id }
        ensures without { objects_of self.new ≡ without (objects_of self.old) id }
        ensures slots { (q : ℕ) → q ≢ id → slot_of self.new q ≡ slot_of self.old q }
    {
        let slot = self.slots.remove(id)?;
        self.objects.try_remove(slot)
    }

    /// Returns the bytes of the segment of this number.
    pub fn bytes(&self, id: ObjId) -> Option<&[u8]>
        ensures { option_copied result ≡ bytes_there (objects_of self.now id) }
    {
        match &self.get(id)?.kind {
            Kind::Segment(bytes) => Some(bytes.as_slice()),
            _ => None,
        }
    }
}

/// Proves that a number has a slot exactly where it has an object, and that no two objects have one slot.
pub fn slots_are_apart<L>(table: &Table<L>)
    ensures present { (n : ℕ) → (slot_of table.now n ≡ None) ↔ (objects_of table.now n ≡ None) }
    ensures apart { (a b k : ℕ) → slot_of table.now a ≡ Some k → slot_of table.now b ≡ Some k → a ≡ b }
{
    let _ = &table.slots;
}
