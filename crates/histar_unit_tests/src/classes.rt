//! Classes that are read off labels, with their jobs; a label with one category more has none.
use crate::processes::accounts;
use histar_flat::FileMode;
use histar_label::{Category, Label, Level};
use histar_layout::{Class, UserTable, class_of};
use std::alloc::Global;
use std::test::Fail;

/// The two categories of the first user, which has number 1.
const READ: u64 = 4;

const WRITE: u64 = 5;

/// Returns the label with these levels and else 1.
fn label_with(alloc: Global, levels: &[(u64, Level)]) -> Result<Label, Fail> {
    let mut label = Label::new(alloc, Level::L1);
    for &(category, level) in levels {
        label.set(alloc, Category::new(category), level)?;
    }
    Ok(label)
}

/// Returns the mode of what has a label with these levels and else 1, and the number of its jobs.
fn class_at(alloc: Global, levels: &[(u64, Level)]) -> Result<Option<(FileMode, usize)>, Fail> {
    let accounts = accounts(alloc)?;
    let users = UserTable::of(alloc, &accounts)?;
    let label = label_with(alloc, levels)?;
    let Some(class) = class_of(alloc, &label, &users)? else {
        return Ok(None);
    };
    Ok(Some((class.stat(false).mode, jobs_of(&class))))
}

/// Returns the number of jobs that a class is for.
fn jobs_of(class: &Class) -> usize {
    match class {
        Class::Scratch(_, chain) => chain.as_slice().len(),
        _ => 0,
    }
}

#[test]
fn a_private_file_has_no_jobs(rt: HostRuntime) -> Result<(), Fail> {
    let levels = [(READ, Level::L3), (WRITE, Level::L0)];
    let (mode, jobs) = class_at(rt.alloc(), &levels)?.ok_or("a class")?;
    assert!(rt; matches!(mode, FileMode::Private));
    assert_eq!(rt; jobs, 0);
    Ok(())
}

#[test]
fn a_scratch_file_has_its_jobs(rt: HostRuntime) -> Result<(), Fail> {
    let levels = [(50, Level::L3), (READ, Level::L3), (99, Level::L3)];
    let (mode, jobs) = class_at(rt.alloc(), &levels)?.ok_or("a class")?;
    assert!(rt; matches!(mode, FileMode::Scratch));
    assert_eq!(rt; jobs, 2);
    Ok(())
}

#[test]
fn a_label_with_a_category_more_is_of_none(rt: HostRuntime) -> Result<(), Fail> {
    let levels = [(READ, Level::L3), (WRITE, Level::L0), (99, Level::L3)];
    assert!(rt; class_at(rt.alloc(), &levels)?.is_none());
    Ok(())
}
