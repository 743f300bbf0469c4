//! The removal of an object with all that is reached from it.
ghost use Rattle.std.specs.Prelude.{◌≡◌, ℕ, ◌↔◌, nat_eq, OnOk, OnErr, IfOk, IsTrue, true};
ghost use Rattle.std.specs.Set.{is_member};
ghost use Rattle.std.specs.FinSet as set;
ghost use Rattle.histar_object.specs.Objects.{objects_of, links_in, AppendsAll};
ghost use Rattle.histar_container.specs.Tree.{Reached, AreTree, IsCut};

use crate::container::unlink;
use histar_heap::Heap;
use histar_object::{Kind, ObjId, Table};
use std::alloc::AllocError;

/// Unlinks an object from a container, and removes it with all that is reached from it. It allocates a list
/// of the numbers to remove before it changes anything.
pub fn remove_tree<H: Heap, L: Drop>(
    heap: H,
    table: &mut Table<L>,
    container: ObjId,
    object: ObjId,
) -> Result<(), AllocError>
    requires tree { AreTree (objects_of table.old) }
    requires linked { IsTrue (set.contains (links_in (objects_of table.old container)) object) }
    ensures ok { OnOk result (IsCut (objects_of table.old) container object (objects_of table.new)) }
    ensures err { OnErr result (objects_of table.new ≡ objects_of table.old) }
    ensures memory { OnErr result H.Refused }
{
    let gone = reached_from(heap, table, container, object)?;
    unlink(table, container, object);
    for number in &gone {
        table.remove(*number);
    }
    Ok(())
}

// Lists the numbers that are reached from an object that a container links, each once: first the object's
// own, and after each the numbers that it links.
fn reached_from<H: Heap, L>(
    heap: H,
    table: &Table<L>,
    container: ObjId,
    object: ObjId,
) -> Result<Vec<ObjId>, AllocError>
    requires tree { AreTree (objects_of table.now) }
    requires linked { IsTrue (set.contains (links_in (objects_of table.now container)) object) }
    ensures ok { IfOk result (λ v. (q : ℕ) → (is_member nat_eq v.items q ≡ true)
        ↔ Reached (objects_of table.now) object q) }
    ensures memory { OnErr result H.Refused }
{
    let mut list = Vec::new(heap.alloc());
    heap.push(&mut list, object)?;
    let mut read = 0;
    while read < list.len() {
        let number = list[read];
        append_links(heap, table, number, &mut list)?;
        read += 1;
    }
    Ok(list)
}

// Appends the numbers that an object links to a list.
fn append_links<H: Heap, L>(
    heap: H,
    table: &Table<L>,
    object: ObjId,
    list: &mut Vec<ObjId>,
) -> Result<(), AllocError>
    ensures ok { OnOk result (AppendsAll (links_in (objects_of table.now object)) list.old.items list.new.items) }
    ensures memory { OnErr result H.Refused }
{
    match table.get(object) {
        Some(holder) => match &holder.kind {
            Kind::Container(links) => links.append_to(heap, list),
            _ => Ok(()),
        },
        None => Ok(()),
    }
}
