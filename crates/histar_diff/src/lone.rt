//! Processes that run on one side only.
ghost use Rattle.std.specs.Prelude.{◌≡◌, IfOk};
ghost use Rattle.std.specs.List.{filter_map};
ghost use Rattle.histar_diff.specs.Columns.{lone_at};

use crate::columns::Column;
use histar_flat::{Name, ProcName};
use std::alloc::{AllocError, Global};

/// A process that runs in one table only.
#[derive(Clone, Copy)]
pub struct Lone {
    pub process: ProcName,
    /// Its user in that table.
    pub user: Name,
    /// Whether that table is the new one.
    pub is_new: bool,
}

/// Returns those of these processes that one table lacks, in the same order.
pub(crate) fn lone_processes(alloc: Global, columns: &[Column]) -> Result<Vec<Lone>, AllocError>
    ensures { IfOk result (λ lone. lone.items ≡ filter_map lone_at columns.now) }
{
    let mut lone = Vec::new(alloc);
    for column in columns {
        if let Some(process) = lone_at(column) {
            lone.push(process)?;
        }
    }
    Ok(lone)
}

/// Returns the process, if one table lacks it.
fn lone_at(column: &Column) -> Option<Lone>
    ensures { result ≡ lone_at column.now }
{
    let (user, is_new) = match (column.old, column.new) {
        (Some(old), None) => (old.user, false),
        (None, Some(new)) => (new.user, true),
        _ => return None,
    };
    Some(Lone {
        process: column.process,
        user,
        is_new,
    })
}
