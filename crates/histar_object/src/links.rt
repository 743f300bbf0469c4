//! The links of a container.
ghost use Rattle.std.specs.Prelude.{◌≡◌, OnOk, OnErr};
ghost use Rattle.std.specs.Ordering.{nat_cmp};
ghost use Rattle.std.specs.FinSet as set;
ghost use Rattle.histar_object.specs.Links.{AppendsAll};

use crate::ids::ObjId;
use histar_heap::Heap;
use std::alloc::{AllocError, Global};
use std::collections::BTreeSet;
use std::marker::Model;

/// The objects that a container links: a set of numbers, looked up in logarithmic time.
#[derive(Drop)]
pub struct Links {
    numbers: BTreeSet<u64>,
    // No number that is linked is above this one.
    newest: u64,
}

impl Model for Links {
    ghost use Rattle.std.specs.Ordering.{nat_cmp};
    ghost use Rattle.std.specs.FinSet as set;
    ghost use Rattle.std.specs.Coded.{coded_ℕ};
    ghost use Rattle.histar_object.specs.Links.{AreUpTo};

    ghost Value = { set.FinSet nat_cmp };

    ghost coded = { set.code coded_ℕ };

    ghost view = { λ l. set.from_list l.numbers.keys };

    ghost invariant = { λ l. AreUpTo l.newest (set.from_list l.numbers.keys) };
}

impl Links {
    /// Makes an empty set of links.
    pub fn new(alloc: Global) -> Self
        ensures { result ≡ set.empty }
    {
        Links {
            numbers: BTreeSet::new(alloc),
            newest: 0,
        }
    }

    /// Checks whether the object is linked.
    pub fn contains(&self, object: ObjId) -> bool
        ensures { result ≡ set.contains self.now object }
    {
        self.numbers.contains(&object.number())
    }

    /// Checks whether the object is linked, as `contains` does, in constant time where its number is above those
    /// of all that was ever linked.
    pub fn contains_older(&self, object: ObjId) -> bool
        ensures { result ≡ set.contains self.now object }
    {
        object.number() <= self.newest && self.contains(object)
    }

    /// Links one more object.
    pub fn insert<H: Heap>(&mut self, heap: H, object: ObjId) -> Result<(), AllocError>
        ensures ok { OnOk result (self.new ≡ set.insert self.old object) }
        ensures err { OnErr result (self.new ≡ self.old) }
        ensures memory { OnErr result H.Refused }
    {
        heap.insert(&mut self.numbers, object.number())?;
        self.newest = self.newest.max(object.number());
        Ok(())
    }

    /// Appends each linked object to a list, once. Where memory runs out the list may have grown.
    pub fn append_to<H: Heap>(&self, heap: H, list: &mut Vec<ObjId>) -> Result<(), AllocError>
        ensures ok { OnOk result (AppendsAll self.now list.old.items list.new.items) }
        ensures memory { OnErr result H.Refused }
    {
        for number in &self.numbers {
            heap.push(list, ObjId::new(*number))?;
        }
        Ok(())
    }

    /// Removes the link to the object.
    pub fn remove(&mut self, object: ObjId)
        ensures { self.new ≡ set.remove self.old object }
    {
        self.numbers.remove(&object.number());
    }
}
