//! The places of the entries of a directory in its bytes.
ghost use Rattle.std.specs.Prelude.{◌≡◌, ◌≤◌, length};
ghost use Rattle.std.specs.FinMap as map;
ghost use Rattle.histar_layout.specs.Directory.{Entries, IsDirectory};
ghost use Rattle.histar_layout.specs.Span.{IsSpan};

use crate::read_entry::read_slot;
use histar_flat::Name;
use std::cmp::Ordering;
use std::ops::Range;

/// Returns where the entry of this name lies in the bytes of a directory, or the empty range at which it
/// would lie, where there is none. It goes from entry to entry, up to the first whose name is not less, and
/// no further.
pub fn span_of(bytes: &[u8], name: &Name) -> Range<usize>
    ensures { (dir : Entries) → IsDirectory bytes.now dir
        → IsSpan bytes.now dir name.now result.start result.end }
{
    let wanted = name.as_bytes();
    let mut rest = bytes;
    'entries: while let Some((text, _, after)) = read_slot(rest) {
        match text.cmp(wanted) {
            Ordering::Less => rest = after,
            Ordering::Equal => return bytes.len() - rest.len()..bytes.len() - after.len(),
            Ordering::Greater => return bytes.len() - rest.len()..bytes.len() - rest.len(),
        }
    }
    bytes.len() - rest.len()..bytes.len() - rest.len()
}

/// Counts the entries in the bytes of a directory.
pub fn count_entries(bytes: &[u8]) -> usize
    ensures { (dir : Entries) → IsDirectory bytes.now dir → result ≡ map.len dir }
{
    let mut count = 0;
    let mut rest = bytes;
    'entries: while let Some((_, _, after)) = read_slot(rest) {
        count += 1;
        rest = after;
    }
    count
}
