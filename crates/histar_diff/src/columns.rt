//! The processes of two tables, side by side.
ghost use Rattle.std.specs.Prelude.{◌≡◌, ◌-◌, ◌≤◌, IfOk, length};
ghost use Rattle.histar_rights.specs.Running.{process_cmp};
ghost use Rattle.histar_diff.specs.Columns.{columns_from, leading as leading_process, past_process, place_at};

use crate::table::Runner;
use histar_flat::{Name, ProcName};
use std::alloc::{AllocError, Global};
use std::cmp::Ordering;

/// The place of a process among those of a table, and its user there.
#[derive(Clone, Copy)]
pub(crate) struct Placed {
    pub(crate) place: usize,
    pub(crate) user: Name,
}

/// A process of two tables, and its place in each that has it.
#[derive(Clone, Copy)]
pub(crate) struct Column {
    pub(crate) process: ProcName,
    pub(crate) old: Option<Placed>,
    pub(crate) new: Option<Placed>,
}

/// Returns the processes of two tables, by rising names. One pass goes over both.
pub(crate) fn columns_of(
    alloc: Global,
    old: &[Runner],
    new: &[Runner],
) -> Result<Vec<Column>, AllocError>
    ensures { IfOk result (λ columns. columns.items ≡ columns_from 0 old.now 0 new.now) }
{
    let mut columns = Vec::new(alloc);
    let (mut old_rest, mut new_rest) = (old, new);
    'processes: while let Some(process) = leading(old_rest, new_rest) {
        columns.push(Column {
            process,
            old: place(old.len() - old_rest.len(), old_rest, &process),
            new: place(new.len() - new_rest.len(), new_rest, &process),
        })?;
        old_rest = after(old_rest, &process);
        new_rest = after(new_rest, &process);
    }
    Ok(columns)
}

/// Compares the names of processes as lists of numbers, from process 0 on.
fn compare(a: &ProcName, b: &ProcName) -> Ordering
    ensures { result ≡ process_cmp a.now b.now }
{
    a.numbers().iter().rev().cmp(b.numbers().iter().rev())
}

/// Returns the process that comes first in two lists.
fn leading(old: &[Runner], new: &[Runner]) -> Option<ProcName>
    ensures { result ≡ leading_process old.now new.now }
{
    match (old, new) {
        ([], []) => None,
        ([], [other, ..]) => Some(other.process),
        ([own, ..], []) => Some(own.process),
        ([own, ..], [other, ..]) => {
            if compare(&own.process, &other.process) == Ordering::Greater {
                Some(other.process)
            } else {
                Some(own.process)
            }
        }
    }
}

/// Returns this place with the user of the process, if the list begins with it, and else `None`.
fn place(place: usize, rest: &[Runner], process: &ProcName) -> Option<Placed>
    ensures { result ≡ place_at place process.now rest.now }
{
    match rest {
        [runner, ..] if compare(process, &runner.process) == Ordering::Equal => Some(Placed {
            place,
            user: runner.user,
        }),
        _ => None,
    }
}

/// Returns the list after a process, if the list begins with it, and else the same list.
fn after<'a>(rest: &'a [Runner], process: &ProcName) -> &'a [Runner]
    ensures { result.now ≡ past_process process.now rest.now }
{
    match rest {
        [runner, more @ ..] if compare(process, &runner.process) == Ordering::Equal => more,
        _ => rest,
    }
}
