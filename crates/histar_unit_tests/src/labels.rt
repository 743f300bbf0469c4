//! Labels and stores of labels where memory runs out in the midst of a call; joins and floors that a store puts.
use histar_label::{Category, InternStore, Label, LabelStore, Level, OutOfMemory, PlainStore};
use std::alloc::Global;
use std::process::Abort;
use std::test::Fail;

/// The levels, from the lowest to the highest.
const LEVELS: [Level; 5] = [Level::Star, Level::L0, Level::L1, Level::L2, Level::L3];

/// Returns the category at which the labels of the tests differ.
fn seven() -> Category {
    Category::new(7)
}

/// Makes a label with this level at category 7, and 1 elsewhere.
fn at_seven(alloc: Global, level: Level) -> Result<Label, OutOfMemory> {
    Label::new(alloc, Level::L1).with(alloc, seven(), level)
}

/// Makes a label that needs an allocation of its own: this level at categories 1 to 6, and 1 elsewhere.
fn at_six(alloc: Global, level: Level) -> Result<Label, OutOfMemory> {
    let mut label = Label::new(alloc, Level::L1);
    for category in 1..7 {
        label = label.with(alloc, Category::new(category), level)?;
    }
    Ok(label)
}

/// Checks that the label has this level at categories 1 to 6, and 1 elsewhere.
fn is_at_six(rt: &impl Abort, label: &Label, level: Level) {
    for category in 1..7 {
        assert_eq!(rt; label.get(Category::new(category)), level);
    }
    assert_eq!(rt; label.exceptions().len(), 6);
    assert_eq!(rt; label.default_level(), Level::L1);
}

/// Tried with each allocation failing in turn: a call that runs out of memory leaves its labels as they were,
/// and a call that has enough makes the right label.
#[test]
fn labels_stay_without_memory(rt: HostRuntime) -> Result<(), Fail> {
    let low = at_six(rt.alloc(), Level::L0)?;
    let high = at_six(rt.alloc(), Level::L3)?;
    if let Ok(joined) = low.join(rt.alloc(), &high) {
        is_at_six(&rt, &joined, Level::L3);
    }
    if let Ok(floored) = high.floor(rt.alloc(), &low) {
        is_at_six(&rt, &floored, Level::L3);
    }
    if let Ok(copied) = low.copy(rt.alloc()) {
        is_at_six(&rt, &copied, Level::L0);
    }
    is_at_six(&rt, &low, Level::L0);
    is_at_six(&rt, &high, Level::L3);
    Ok(())
}

/// Checks that the Id stands for a label, and that the label has this level.
fn has_level<S: LabelStore>(rt: &impl Abort, store: &S, id: S::Id, level: Level) {
    let found = store.get(id).map(|label| label.get(seven()));
    assert_eq!(rt; found, Some(level));
}

/// Puts a label of each level, and checks that a put that runs out of memory leaves the labels of the store
/// as they were.
fn stays_without_memory<S: LabelStore>(
    rt: &impl Abort,
    alloc: Global,
    store: &mut S,
) -> Result<(), OutOfMemory> {
    let first = store.put(alloc, at_seven(alloc, Level::L2)?)?;
    for &level in &LEVELS {
        if let Ok(id) = store.put(alloc, at_seven(alloc, level)?) {
            has_level(rt, store, id, level);
        }
        has_level(rt, store, first, Level::L2);
    }
    Ok(())
}

/// Tried with each allocation failing in turn.
#[test]
fn stores_stay_without_memory(rt: HostRuntime) -> Result<(), Fail> {
    let mut plain = PlainStore::new(rt.alloc());
    stays_without_memory(&rt, rt.alloc(), &mut plain)?;
    let mut interned = InternStore::new(rt.alloc(), 1)?;
    stays_without_memory(&rt, rt.alloc(), &mut interned)?;
    Ok(())
}

/// Checks the join and the floor of two labels that a store puts, and that these two stay.
fn puts_bounds<S: LabelStore>(
    rt: &impl Abort,
    alloc: Global,
    store: &mut S,
) -> Result<(), OutOfMemory> {
    let first = store.put(alloc, at_seven(alloc, Level::L2)?)?;
    let second = store.put(alloc, at_seven(alloc, Level::Star)?)?;
    let joined = store.join(alloc, first, second)?;
    let floored = store.floor(alloc, first, second)?;
    has_level(rt, store, joined, Level::L2);
    has_level(rt, store, floored, Level::Star);
    has_level(rt, store, first, Level::L2);
    has_level(rt, store, second, Level::Star);
    Ok(())
}

#[test]
fn joins_and_floors_are_put(rt: HostRuntime) -> Result<(), Fail> {
    let mut plain = PlainStore::new(rt.alloc());
    puts_bounds(&rt, rt.alloc(), &mut plain)?;
    let mut interned = InternStore::new(rt.alloc(), 1)?;
    puts_bounds(&rt, rt.alloc(), &mut interned)?;
    Ok(())
}
