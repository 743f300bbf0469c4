//! A table of objects: a slot that is used again, and what want of memory leaves.
use histar_object::{Kind, ObjId, Object, Table};
use std::alloc::{AllocError, Global};
use std::process::Abort;
use std::test::Fail;

/// Adds a thread with this label under a number that has no object.
fn add(alloc: Global, table: &mut Table<u8>, number: u64, label: u8) -> Result<(), AllocError> {
    let id = ObjId::new(number);
    if table.get(id).is_none() {
        let kind = Kind::Thread(label);
        table.add(alloc, id, Object { label, kind })?;
    }
    Ok(())
}

/// Returns the label of the object of this number.
fn label(table: &Table<u8>, number: u64) -> Option<u8> {
    table.get(ObjId::new(number)).map(|object| object.label)
}

/// Checks the label of the object of this number.
fn has_label(rt: &impl Abort, table: &Table<u8>, number: u64, wanted: Option<u8>) {
    assert_eq!(rt; label(table, number), wanted);
}

/// Checks which slot the object of this number has.
fn has_slot(rt: &impl Abort, table: &Table<u8>, number: u64, wanted: Option<usize>) {
    assert_eq!(rt; table.slot(ObjId::new(number)), wanted);
}

/// Adds object 3 after object 1 is removed, and checks that it has the slot of that one, and object 2 its own.
fn use_slot_again(rt: &impl Abort, alloc: Global, table: &mut Table<u8>) -> Result<(), AllocError> {
    let slot = table.slot(ObjId::new(1));
    let other = table.slot(ObjId::new(2));
    assert!(rt; slot.is_some() && other.is_some() && other != slot);
    assert!(rt; table.remove(ObjId::new(1)).is_some());
    add(alloc, table, 3, 3)?;
    has_slot(rt, table, 3, slot);
    has_slot(rt, table, 2, other);
    Ok(())
}

/// Checks that an object that is added after another was removed has the slot of that one, and a number of
/// its own.
#[test]
fn a_slot_is_used_again(rt: HostRuntime) -> Result<(), Fail> {
    let mut table = Table::new(rt.alloc());
    add(rt.alloc(), &mut table, 1, 1)?;
    add(rt.alloc(), &mut table, 2, 2)?;
    use_slot_again(&rt, rt.alloc(), &mut table)?;
    has_slot(&rt, &table, 1, None);
    has_label(&rt, &table, 2, Some(2));
    has_label(&rt, &table, 3, Some(3));
    Ok(())
}

/// Tried with each allocation failing in turn: an object without memory isn't added, and the others stay.
#[test]
fn objects_stay_without_memory(rt: HostRuntime) -> Result<(), Fail> {
    let mut table = Table::new(rt.alloc());
    add(rt.alloc(), &mut table, 1, 1)?;
    if add(rt.alloc(), &mut table, 2, 2).is_ok() {
        has_label(&rt, &table, 2, Some(2));
    } else {
        has_slot(&rt, &table, 2, None);
    }
    has_label(&rt, &table, 1, Some(1));
    Ok(())
}
