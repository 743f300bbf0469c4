//! The differences of two tables.
ghost use Rattle.std.specs.Prelude.{◌≡◌, ◌++◌, ◌&&◌, ◌==◌, IfOk, OnOk, Some, length};
ghost use Rattle.std.specs.Option.{option_copied};
ghost use Rattle.histar_diff.specs.Differences.{AreDifferences};
ghost use Rattle.histar_diff.specs.Lines.{column_difference, line_differences, lines_differences};
ghost use Rattle.histar_diff.specs.Sides.{letters, same_letters};
ghost use Rattle.histar_diff.specs.Tables.{IsTable, letters_at};

use crate::columns::{Column, columns_of};
use crate::lines::{after, lower_path, row_at};
use crate::lone::{Lone, lone_processes};
use crate::table::{Table, TableLine};
use histar_flat::{Name, Path, ProcName};
use histar_rights::Rights;
use std::alloc::{AllocError, Global};

/// A path and a process of both tables whose letters there differ. A table that lacks the path gives none.
#[derive(Clone, Copy)]
pub struct Difference {
    pub path: Path,
    pub process: ProcName,
    /// Its user in the old table.
    pub old_user: Name,
    /// Its user in the new table.
    pub user: Name,
    /// Its rights in the old table, or `None` if that lacks the path.
    pub before: Option<Rights>,
    /// The same in the new table.
    pub after: Option<Rights>,
}

/// What differs between two tables.
#[derive(Drop)]
pub struct Differences {
    /// The processes that run in one table only.
    pub lone: Vec<Lone>,
    /// The paths and the processes of both tables whose letters differ.
    pub pairs: Vec<Difference>,
}

impl Differences {
    /// Checks whether nothing differs.
    pub fn is_empty(&self) -> bool
        ensures { result ≡ (length self.now.lone.items == 0 && length self.now.pairs.items == 0) }
    {
        self.lone.is_empty() && self.pairs.is_empty()
    }
}

/// Returns the processes that run in one table only, by rising names, and the paths and processes of both
/// whose letters differ, by rising paths, and at each path by rising processes. One pass goes over the
/// processes of both, and one over the lines.
pub fn differences_between(
    alloc: Global,
    old: &Table,
    new: &Table,
) -> Result<Differences, AllocError>
    requires old_rises { IsTable old.now }
    requires new_rises { IsTable new.now }
    ensures { IfOk result (λ found.
        AreDifferences old.now new.now found.lone.items found.pairs.items) }
{
    let columns = columns_of(alloc, old.processes.as_slice(), new.processes.as_slice())?;
    let lone = lone_processes(alloc, columns.as_slice())?;
    let pairs = lines_differences(
        alloc,
        columns.as_slice(),
        old.lines.as_slice(),
        new.lines.as_slice(),
    )?;
    Ok(Differences { lone, pairs })
}

/// Returns the differences of these processes at the paths of two lists of lines.
fn lines_differences(
    alloc: Global,
    columns: &[Column],
    old: &[TableLine],
    new: &[TableLine],
) -> Result<Vec<Difference>, AllocError>
    ensures { IfOk result (λ differences.
        differences.items ≡ lines_differences columns.now old.now new.now) }
{
    let mut differences = Vec::new(alloc);
    let (mut old_rest, mut new_rest) = (old, new);
    'lines: while let Some(path) = lower_path(old_rest, new_rest) {
        let (before, now) = (row_at(old_rest, &path), row_at(new_rest, &path));
        push_differences(&mut differences, columns, path, before, now)?;
        old_rest = after(old_rest, &path);
        new_rest = after(new_rest, &path);
    }
    Ok(differences)
}

/// Adds the differences of these processes at a path, by their rights there in each table that has it.
fn push_differences(
    differences: &mut Vec<Difference>,
    columns: &[Column],
    path: Path,
    before: Option<&[Rights]>,
    after: Option<&[Rights]>,
) -> Result<(), AllocError>
    ensures { OnOk result (differences.new.items ≡ differences.old.items
        ++ line_differences columns.now path (option_copied before.entry) (option_copied after.entry)) }
{
    for column in columns {
        if let Some(difference) = column_difference(path, before, after, column) {
            differences.push(difference)?;
        }
    }
    Ok(())
}

/// Returns the difference of a process at a path, if both tables have the process and its letters differ.
fn column_difference(
    path: Path,
    before: Option<&[Rights]>,
    after: Option<&[Rights]>,
    column: &Column,
) -> Option<Difference>
    ensures { result
        ≡ column_difference path (option_copied before.entry) (option_copied after.entry) column.now }
{
    let (Some(old), Some(new)) = (column.old, column.new) else {
        return None;
    };
    let before = letters_at(before, old.place);
    let after = letters_at(after, new.place);
    if same_letters(before, after) {
        return None;
    }
    Some(Difference {
        path,
        process: column.process,
        old_user: old.user,
        user: new.user,
        before,
        after,
    })
}

/// Returns the rights at this place of the list, if there is a list.
pub(crate) fn letters_at(rights: Option<&[Rights]>, place: usize) -> Option<Rights>
    ensures { result ≡ letters_at (option_copied rights.entry) (Some place) }
{
    Some(rights?.get(place).copied().unwrap_or(Rights::NONE))
}

/// Checks whether the letters are the same, where a path that is not there gives none.
pub(crate) fn same_letters(before: Option<Rights>, after: Option<Rights>) -> bool
    ensures { result ≡ same_letters before after }
{
    letters(before) == letters(after)
}

/// Returns the rights, and none at a path that is not there.
pub(crate) fn letters(rights: Option<Rights>) -> Rights
    ensures { result ≡ letters rights }
{
    rights.unwrap_or(Rights::NONE)
}
