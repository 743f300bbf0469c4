//! The slots of numbers.
ghost use Rattle.std.specs.Prelude.{◌≡◌, ◌<◌, ℕ, None, Some, IfNone, IsOk, OnOk, OnErr, nat_eq, cond, [], max, vec_len, vec_capacity};
ghost use Rattle.std.specs.List.{IsDistinct};
ghost use Rattle.std.specs.Map.{keys_of, lookup};
ghost use Rattle.histar_object.specs.Slots.{in_place};

use crate::ids::ObjId;
use histar_heap::Heap;
use std::alloc::{AllocError, Global};
use std::collections::HashMap;
use std::marker::Model;

/// The slot of each number that has one.
///
/// Numbers in order are looked up in a list, by their place in it, where a number without a slot keeps its
/// place; all others are in a map.
#[derive(Drop)]
pub(crate) struct SlotMap {
    listed: Vec<Option<usize>>,
    others: HashMap<ObjId, usize>,
}

impl Model for SlotMap {
    ghost use Rattle.std.specs.Prelude.{◌-◌, ◌++◌, min, max, vec_len, vec_capacity};
    ghost use Rattle.std.specs.HashMap.{spare};
    ghost use Rattle.histar_object.specs.Slots.{SlotsModel, numbered, coded_slots, AreApart};

    ghost Value = { SlotsModel };

    ghost coded = { coded_slots };

    ghost view = { λ s. record {
      entries = numbered 0 s.listed.items ++ s.others.entries;
      room = min (spare s.others) (vec_capacity s.listed - max 1 (vec_len s.listed));
    } };

    ghost invariant = { λ s. AreApart s.listed.items s.others.entries };
}

impl SlotMap {
    /// Makes a map in which no number has a slot.
    pub(crate) fn new(alloc: Global) -> Self
        ensures empty { result.entries ≡ [] }
        ensures once { IsDistinct nat_eq (keys_of result.entries) }
    {
        SlotMap {
            listed: Vec::new(alloc),
            others: HashMap::new(alloc),
        }
    }

    /// Returns the slot of a number.
    pub(crate) fn get(&self, id: ObjId) -> Option<usize>
        ensures { result ≡ lookup (nat_eq id) self.now.entries }
    {
        let Some(slot) = place(&self.listed, id) else {
            return slot_among(&self.others, id);
        };
        Some(slot)
    }

    /// Makes room for one more number. No slot changes, whether or not there is memory.
    pub(crate) fn reserve<H: Heap>(&mut self, heap: H) -> Result<(), AllocError>
        ensures room { OnOk result (0 < self.new.room) }
        ensures succeeds { 0 < self.old.room → IsOk result }
        ensures once { IsDistinct nat_eq (keys_of self.new.entries) }
        ensures slots { (q : ℕ) → lookup (nat_eq q) self.new.entries
            ≡ lookup (nat_eq q) self.old.entries }
        ensures memory { OnErr result H.Refused }
    {
        heap.reserve_map(&mut self.others)?;
        reserve_place(heap, &mut self.listed)
    }

    /// Gives a slot to a number that has none. There is room for it, so it needs no memory.
    pub(crate) fn insert_reserved(&mut self, id: ObjId, slot: usize)
        requires absent { lookup (nat_eq id) self.old.entries ≡ None }
        requires room { 0 < self.old.room }
        ensures once { IsDistinct nat_eq (keys_of self.new.entries) }
        ensures updates { (q : ℕ) → lookup (nat_eq q) self.new.entries
            ≡ cond (nat_eq id q) (Some slot) (lookup (nat_eq q) self.old.entries) }
    {
        if id.number() as usize == self.listed.len() {
            let Ok(()) = self.listed.push(Some(slot)) else {
                unreachable!()
            };
        } else {
            let Ok(_) = self.others.insert(id, slot) else {
                unreachable!()
            };
        }
    }

    /// Removes the slot of a number.
    pub(crate) fn remove(&mut self, id: ObjId) -> Option<usize>
        ensures value { result ≡ lookup (nat_eq id) self.old.entries }
        ensures unchanged { IfNone result (self.new.entries ≡ self.old.entries) }
        ensures once { IsDistinct nat_eq (keys_of self.new.entries) }
        ensures updates { (q : ℕ) → lookup (nat_eq q) self.new.entries
            ≡ cond (nat_eq id q) None (lookup (nat_eq q) self.old.entries) }
    {
        let Some(slot) = place(&self.listed, id) else {
            return self.others.remove(&id);
        };
        self.listed[id.number() as usize] = None;
        Some(slot)
    }
}

// Returns the slot of a number that has no place in the list. Few have none, and apart from these a look-up takes
// few registers.
#[cold]
#[inline(never)]
fn slot_among(others: &HashMap<ObjId, usize>, id: ObjId) -> Option<usize>
    ensures { result ≡ lookup (nat_eq id) others.now.entries }
{
    others.get(&id).copied()
}

// Returns the slot at the place of a number.
fn place(listed: &[Option<usize>], id: ObjId) -> Option<usize>
    ensures { result ≡ in_place listed.now id }
{
    *listed.get(id.number() as usize)?
}

// Makes room for one more place, after that of 0, which is never an object.
fn reserve_place<H: Heap>(heap: H, listed: &mut Vec<Option<usize>>) -> Result<(), AllocError>
    ensures room { OnOk result (max 1 (vec_len listed.new) < vec_capacity listed.new) }
    ensures succeeds { max 1 (vec_len listed.old) < vec_capacity listed.old → IsOk result }
    ensures slots { (q : ℕ) → in_place listed.new.items q ≡ in_place listed.old.items q }
    ensures memory { OnErr result H.Refused }
{
    if listed.is_empty() {
        heap.push(listed, None)?;
    }
    heap.reserve(listed)
}
