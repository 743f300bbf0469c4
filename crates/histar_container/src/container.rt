//! Links of containers.
ghost use Rattle.std.specs.Prelude.{◌≡◌, None, OnOk, OnErr};
ghost use Rattle.std.specs.FinSet as set;
ghost use Rattle.histar_object.specs.Objects.{objects_of, put, changed_at, linking, unlinking, with_new, links_in};

use histar_heap::Heap;
use histar_object::{Kind, ObjId, Object, Table};
use std::alloc::AllocError;

/// Checks whether the container links the object.
pub fn linked<L>(table: &Table<L>, container: ObjId, object: ObjId) -> bool
    ensures { result ≡ set.contains (links_in (objects_of table.now container)) object }
{
    match table.get(container) {
        Some(holder) => match &holder.kind {
            Kind::Container(links) => links.contains(object),
            _ => false,
        },
        None => false,
    }
}

/// Adds a new object under a number, and links it in a container. It reserves all memory before it changes
/// anything: a call that runs out of memory leaves no object and no link behind.
pub fn link_new<H: Heap, L: Drop>(
    heap: H,
    table: &mut Table<L>,
    container: ObjId,
    number: ObjId,
    object: Object<L>,
) -> Result<(), AllocError>
    requires { objects_of table.old number ≡ None }
    ensures ok { OnOk result (objects_of table.new ≡ with_new (objects_of table.old) container number object) }
    ensures err { OnErr result (objects_of table.new ≡ objects_of table.old) }
    ensures memory { OnErr result H.Refused }
{
    table.reserve(heap)?;
    link(heap, table, container, number)?;
    table.add_reserved(number, object);
    Ok(())
}

/// Links an object in a container.
fn link<H: Heap, L>(
    heap: H,
    table: &mut Table<L>,
    container: ObjId,
    object: ObjId,
) -> Result<(), AllocError>
    ensures ok { OnOk result (objects_of table.new
        ≡ changed_at (objects_of table.old) container (linking object)) }
    ensures err { OnErr result (objects_of table.new ≡ objects_of table.old) }
    ensures room { table.new.room ≡ table.old.room }
    ensures memory { OnErr result H.Refused }
{
    if let Some(holder) = table.get_mut(container) {
        if let Kind::Container(links) = &mut holder.kind {
            return links.insert(heap, object);
        }
    }
    Ok(())
}

/// Removes the link of a container to an object.
pub(crate) fn unlink<L>(table: &mut Table<L>, container: ObjId, object: ObjId)
    ensures { objects_of table.new ≡ changed_at (objects_of table.old) container (unlinking object) }
{
    if let Some(holder) = table.get_mut(container) {
        if let Kind::Container(links) = &mut holder.kind {
            links.remove(object);
        }
    }
}
