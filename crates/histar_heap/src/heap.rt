//! Where memory comes from.
ghost use Rattle.std.specs.Prelude.{◌≡◌, ◌+◌, ◌<◌, ◌≤◌, [], ◌∷◌, ◌++◌, if◌then◌else◌, not};
ghost use Rattle.std.specs.Prelude.{length, insert, slice_get, vec_len, vec_capacity, Some, false, true};
ghost use Rattle.std.specs.Prelude.{is_ok, IsOk, IfOk, OnOk, OnErr};
ghost use Rattle.std.specs.HashMap as maps;
ghost use Rattle.std.specs.BTreeSet as sets;
ghost use Rattle.std.specs.NonZero.{non_zero_usize_get};
ghost use Rattle.indexmap.specs.IndexSet as index_sets;
ghost use Rattle.lru.specs.LruCache.{lru_cache};
ghost use Rattle.slab.specs.Slab.{HasRoomFor};
ghost use Rattle.std.specs.Mem.{type_size};
ghost use Rattle.histar_heap.specs.Room.{IsInBounds};

use indexmap::IndexSet;
use lru::LruCache;
use slab::Slab;
use std::alloc::{AllocError, AllocFailed, Global};
use std::collections::{BTreeSet, HashMap};
use std::hash::Hash;
use std::num::NonZeroUsize;

/// The most room that is asked for at once where the number of items has no bound. Longer lists grow as
/// they fill.
pub const MOST_ROOM: usize = 1_048_576;

/// Where memory comes from: each growth of a collection.
///
/// Code that is generic over heaps knows nothing of `Refused` but that it holds where a growth was refused. So
/// where such code ensures `Refused`, a growth was refused. None can be forced by asking for too much: a growth
/// makes room for what is there, for one more item, or for items of at most 4 GB.
pub trait Heap: Copy {
    // A growth was refused.
    ghost Refused: { Type 0 };

    /// Returns the allocator, for collections that are made empty.
    fn alloc(self) -> Global;

    /// Appends an item to a list, as `Vec::push`.
    fn push<T>(self, list: &mut Vec<T>, item: T) -> Result<(), AllocFailed<T>>
        ensures items { list.new.items
            ≡ (if is_ok result then list.old.items ++ item ∷ [] else list.old.items) }
        ensures len { vec_len list.new
            ≡ (if is_ok result then vec_len list.old + 1 else vec_len list.old) }
        ensures capacity { vec_capacity list.old ≤ vec_capacity list.new }
        ensures succeeds { vec_len list.old < vec_capacity list.old → IsOk result }
        ensures memory { OnErr result Refused };

    /// Appends items to a list, as `Vec::extend_from_slice`.
    fn extend<T: Copy>(self, list: &mut Vec<T>, items: &[T]) -> Result<(), AllocError>
        ensures items { list.new.items
            ≡ (if is_ok result then list.old.items ++ items.now else list.old.items) }
        ensures len { vec_len list.new
            ≡ (if is_ok result then vec_len list.old + length items.now else vec_len list.old) }
        ensures capacity { vec_capacity list.old ≤ vec_capacity list.new }
        ensures succeeds { vec_len list.old + length items.now ≤ vec_capacity list.old
            → IsOk result }
        ensures memory { OnErr result Refused };

    /// Makes room for one more item in a list, as `Vec::reserve`.
    fn reserve<T>(self, list: &mut Vec<T>) -> Result<(), AllocError>
        ensures items { list.new.items ≡ list.old.items }
        ensures len { vec_len list.new ≡ vec_len list.old }
        ensures ok { OnOk result (vec_len list.new + 1 ≤ vec_capacity list.new) }
        ensures capacity { vec_capacity list.old ≤ vec_capacity list.new }
        ensures succeeds { vec_len list.old + 1 ≤ vec_capacity list.old → IsOk result }
        ensures err { OnErr result (vec_capacity list.new ≡ vec_capacity list.old) }
        ensures memory { OnErr result Refused };

    /// Makes room for one more item in a slab, as `Slab::reserve`.
    fn reserve_slab<T>(self, slab: &mut Slab<T>) -> Result<(), AllocError>
        ensures room { OnOk result (HasRoomFor slab.new 1) }
        ensures succeeds { HasRoomFor slab.old 1 → IsOk result }
        ensures had_room { HasRoomFor slab.old 1 → slab.new ≡ slab.old }
        ensures capacity { slab.old.capacity ≤ slab.new.capacity }
        ensures rest_kept { slab.new ≡ record slab.old { capacity = slab.new.capacity } }
        ensures memory { OnErr result Refused };

    /// Makes room for one more entry in a map, as `HashMap::reserve`.
    fn reserve_map<K: Eq + Hash, V>(self, map: &mut HashMap<K, V>) -> Result<(), AllocError>
        ensures entries { maps.IsReordered K.eq map.old map.new }
        ensures ok { OnOk result (1 ≤ maps.spare map.new) }
        ensures err { OnErr result (maps.IsUnchanged map.old map.new) }
        ensures succeeds { 1 ≤ maps.spare map.old → IsOk result }
        ensures spare { maps.spare map.old ≤ maps.spare map.new }
        ensures unique { maps.IsUnique K.eq map.new }
        ensures memory { OnErr result Refused };

    /// Puts a key into a set, as `BTreeSet::insert`.
    fn insert<K: Ord + Drop>(self, set: &mut BTreeSet<K>, key: K) -> Result<bool, AllocFailed<K>>
        ensures added { IfOk result (λ added. added ≡ not (sets.contains K.cmp set.old key)) }
        ensures updates { OnOk result (sets.Updates K.cmp set.old set.new key true) }
        ensures keys { OnOk result (set.new.keys ≡ sets.insert_key K.cmp set.old.keys key) }
        ensures err { OnErr result (sets.IsUnchanged set.old set.new) }
        ensures memory { OnErr result Refused };

    /// Makes an empty list with room, as `Vec::with_capacity`.
    fn with_room<T>(self, room: usize) -> Result<Vec<T>, AllocError>
        requires { IsInBounds room (type_size T.row) }
        ensures items { IfOk result (λ v. v.items ≡ []) }
        ensures len { IfOk result (λ v. vec_len v ≡ 0) }
        ensures capacity { IfOk result (λ v. room ≤ vec_capacity v) }
        ensures memory { OnErr result Refused };

    /// Returns the place of the next item of a list. A list of 4,294,967,296 items has none, and no heap gives
    /// it more.
    fn place<T>(self, list: &Vec<T>) -> Result<u32, AllocError>
        ensures ok { IfOk result (λ place. place ≡ vec_len list.now) }
        ensures memory { OnErr result Refused };

    /// Makes a copy of a slice, as `Vec::from_slice`.
    fn copy_of<T: Copy>(self, items: &[T]) -> Result<Vec<T>, AllocError>
        ensures items { IfOk result (λ v. v.items ≡ items.now) }
        ensures memory { OnErr result Refused };

    /// Inserts an item at a place, as `Vec::insert`.
    fn insert_at<T: Drop>(self, list: &mut Vec<T>, at: usize, item: T) -> Result<(), AllocFailed<T>>
        requires { at ≤ vec_len list.old }
        ensures items { list.new.items
            ≡ (if is_ok result then insert list.old.items at item else list.old.items) }
        ensures memory { OnErr result Refused };

    /// Puts a value into a set in the order of its values' arrival, as `IndexSet::insert_full`.
    fn insert_full<T: Eq + Hash + Drop>(
        self,
        set: &mut IndexSet<T>,
        value: T,
    ) -> Result<(usize, bool), AllocFailed<T>>
        ensures added { IfOk result (λ r. r.1 ≡ not (index_sets.contains T.eq set.old value)) }
        ensures keys { IfOk result (λ _. set.new.keys ≡ index_sets.insert_key T.eq set.old.keys value) }
        ensures stored { IfOk result (λ r.
            (k : T) × (slice_get set.new.keys r.0 ≡ Some k) × (T.eq value k ≡ true)) }
        ensures err { OnErr result (index_sets.IsUnchanged set.old set.new) }
        ensures absent { OnErr result (index_sets.contains T.eq set.old value ≡ false) }
        ensures unique { index_sets.IsUnique T.eq set.new }
        ensures memory { OnErr result Refused };

    /// Makes an empty cache, as `LruCache::new`.
    fn new_cache<K: Eq + Hash, V>(self, cap: NonZeroUsize) -> Result<LruCache<K, V>, AllocError>
        requires { IsInBounds (non_zero_usize_get cap) (type_size K.row + type_size V.row) }
        ensures value { IfOk result (λ c. c ≡ lru_cache [] (non_zero_usize_get cap)) }
        ensures memory { OnErr result Refused };

    /// Puts a value on the heap, as `Box::new`.
    fn boxed<T: Drop>(self, value: T) -> Result<Box<T>, AllocFailed<T>>
        ensures ok { IfOk result (λ b. b.value ≡ value) }
        ensures memory { OnErr result Refused };
}

/// The heap of the program. Its allocator says nothing of what it refuses.
impl Heap for Global {
    ghost use Rattle.std.specs.Prelude.{⊤};

    ghost Refused = { ⊤ };

    fn alloc(self) -> Global {
        self
    }

    fn push<T>(self, list: &mut Vec<T>, item: T) -> Result<(), AllocFailed<T>> {
        list.push(item)
    }

    fn extend<T: Copy>(self, list: &mut Vec<T>, items: &[T]) -> Result<(), AllocError> {
        list.extend_from_slice(items)
    }

    fn reserve<T>(self, list: &mut Vec<T>) -> Result<(), AllocError> {
        list.reserve(1)
    }

    fn reserve_slab<T>(self, slab: &mut Slab<T>) -> Result<(), AllocError> {
        slab.reserve(1)
    }

    fn reserve_map<K: Eq + Hash, V>(self, map: &mut HashMap<K, V>) -> Result<(), AllocError> {
        map.reserve(1)
    }

    fn insert<K: Ord + Drop>(self, set: &mut BTreeSet<K>, key: K) -> Result<bool, AllocFailed<K>> {
        set.insert(key)
    }

    fn with_room<T>(self, room: usize) -> Result<Vec<T>, AllocError> {
        Vec::with_capacity(self, room)
    }

    fn place<T>(self, list: &Vec<T>) -> Result<u32, AllocError> {
        match u32::try_from(list.len()) {
            Ok(place) => Ok(place),
            Err(_) => Err(AllocError),
        }
    }

    fn copy_of<T: Copy>(self, items: &[T]) -> Result<Vec<T>, AllocError> {
        Vec::from_slice(self, items)
    }

    fn insert_at<T: Drop>(
        self,
        list: &mut Vec<T>,
        at: usize,
        item: T,
    ) -> Result<(), AllocFailed<T>> {
        list.insert(at, item)
    }

    fn insert_full<T: Eq + Hash + Drop>(
        self,
        set: &mut IndexSet<T>,
        value: T,
    ) -> Result<(usize, bool), AllocFailed<T>> {
        set.insert_full(value)
    }

    fn new_cache<K: Eq + Hash, V>(self, cap: NonZeroUsize) -> Result<LruCache<K, V>, AllocError> {
        LruCache::new(self, cap)
    }

    fn boxed<T: Drop>(self, value: T) -> Result<Box<T>, AllocFailed<T>> {
        Box::new(self, value)
    }
}
