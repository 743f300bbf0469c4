//! Comparison of two trees line by line.
ghost use Rattle.std.specs.Prelude.{◌≡◌};
ghost use Rattle.histar_noninterference.specs.Following.{lies_below as is_below_directory};
ghost use Rattle.histar_noninterference.specs.Trees.{first_difference as first_path_that_differs, first_kept as first_path_kept};
ghost use Rattle.histar_noninterference.specs.Trees.{is_below_either as is_left_out};

use histar_base::Bytes;
use histar_flat::Path;
use std::cmp::Ordering;

/// Returns the first path at which two trees differ. Each tree is given by its lines, by rising paths: a path
/// and what is printed of it. What lies below the directories is left out.
pub fn first_difference(
    lines: &[(Path, Bytes)],
    others: &[(Path, Bytes)],
    directory: Option<Path>,
    other: Option<Path>,
) -> Option<Path>
    ensures { result ≡ first_path_that_differs (is_left_out directory other) lines.now others.now }
{
    let mut rest = lines;
    let mut other_rest = others;
    while let [(path, text), more @ ..] = rest {
        let [(other_path, other_text), other_more @ ..] = other_rest else {
            return first_kept(rest, &directory, &other);
        };
        let order = path.cmp(other_path);
        let first = if order == Ordering::Greater {
            *other_path
        } else {
            *path
        };
        let is_same = order == Ordering::Equal && text.as_slice() == other_text.as_slice();
        if !is_same && !lies_below_either(&directory, &other, &first) {
            return Some(first);
        }
        if order != Ordering::Greater {
            rest = more;
        }
        if order != Ordering::Less {
            other_rest = other_more;
        }
    }
    first_kept(other_rest, &directory, &other)
}

/// Returns the first path of the lines that is not left out.
fn first_kept(
    lines: &[(Path, Bytes)],
    directory: &Option<Path>,
    other: &Option<Path>,
) -> Option<Path>
    ensures { result ≡ first_path_kept (is_left_out directory.now other.now) lines.now }
{
    let mut rest = lines;
    while let [(path, _), more @ ..] = rest {
        if !lies_below_either(directory, other, path) {
            return Some(*path);
        }
        rest = more;
    }
    None
}

/// Returns whether the path lies below one of the directories.
fn lies_below_either(directory: &Option<Path>, other: &Option<Path>, path: &Path) -> bool
    ensures { result ≡ is_left_out directory.now other.now path.now }
{
    lies_below(directory, path) || lies_below(other, path)
}

/// Returns whether the path lies below the directory, if there is one.
fn lies_below(directory: &Option<Path>, path: &Path) -> bool
    ensures { result ≡ is_below_directory directory.now path.now }
{
    match directory {
        None => false,
        Some(directory) => path.is_below(directory),
    }
}
