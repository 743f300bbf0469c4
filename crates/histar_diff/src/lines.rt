//! The lines of two tables, side by side.
ghost use Rattle.std.specs.Prelude.{◌≡◌};
ghost use Rattle.std.specs.Option.{option_copied};
ghost use Rattle.histar_base.specs.Paths.{path_cmp};
ghost use Rattle.histar_diff.specs.Joining.{at_key, lower, past_key};
ghost use Rattle.histar_diff.specs.Tables.{by_path};

use crate::table::TableLine;
use histar_flat::Path;
use histar_rights::Rights;
use std::cmp::Ordering;

/// Returns the path that comes first in two lists of lines.
pub(crate) fn lower_path(old: &[TableLine], new: &[TableLine]) -> Option<Path>
    ensures { result ≡ lower path_cmp (by_path old.now) (by_path new.now) }
{
    match (old, new) {
        ([], []) => None,
        ([], [other, ..]) => Some(other.path),
        ([own, ..], []) => Some(own.path),
        ([own, ..], [other, ..]) => {
            if own.path.cmp(&other.path) == Ordering::Greater {
                Some(other.path)
            } else {
                Some(own.path)
            }
        }
    }
}

/// Returns the rights at a path, if the lines begin with that path.
pub(crate) fn row_at<'a>(rest: &'a [TableLine], path: &Path) -> Option<&'a [Rights]>
    ensures { option_copied result ≡ at_key path_cmp path.now (by_path rest.now) }
{
    match rest {
        [line, ..] if path.cmp(&line.path) == Ordering::Equal => Some(line.rights.as_slice()),
        _ => None,
    }
}

/// Returns the lines after a path, if they begin with it, and else the same lines.
pub(crate) fn after<'a>(rest: &'a [TableLine], path: &Path) -> &'a [TableLine]
    ensures { by_path result.now ≡ past_key path_cmp path.now (by_path rest.now) }
{
    match rest {
        [line, more @ ..] if path.cmp(&line.path) == Ordering::Equal => more,
        _ => rest,
    }
}
