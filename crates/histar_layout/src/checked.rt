//! Directories in bytes that may be no directory.
ghost use Rattle.std.specs.Prelude.{◌≡◌};
ghost use Rattle.std.specs.Cmp.Lexicographic.{slice_cmp};
ghost use Rattle.std.specs.Ordering.{is_lt, nat_cmp};
ghost use Rattle.histar_layout.specs.Checked.{IsChecked, IsLookedUp};

use crate::directory::MOST_ENTRIES;
use crate::entry::Target;
use crate::lookup::look_up;
use crate::read_entry::read_named;
use histar_flat::Name;

/// The bytes are no directory.
#[derive(Clone, Copy, Debug, PartialEq, Eq)]
pub struct NotADirectory;

/// Checks that the bytes are a directory: at most 64 entries by rising names, none twice, and nothing else.
/// It goes over the bytes once, and takes no memory.
pub fn check_directory(bytes: &[u8]) -> Result<(), NotADirectory>
    ensures { IsChecked bytes.now result }
{
    let mut count = 0;
    let mut last: &[u8] = &[];
    let mut rest = bytes;
    'entries: while !rest.is_empty() {
        let Some((text, _, after)) = read_named(rest) else {
            return Err(NotADirectory);
        };
        if count == MOST_ENTRIES || !precedes(last, text) {
            return Err(NotADirectory);
        }
        count += 1;
        last = text;
        rest = after;
    }
    Ok(())
}

/// Looks up an entry by its name in the directory that the bytes are, if they are one. It takes no memory.
pub fn look_up_checked(bytes: &[u8], name: &Name) -> Result<Option<Target>, NotADirectory>
    ensures { IsLookedUp bytes.now name.now result }
{
    check_directory(bytes)?;
    Ok(look_up(bytes, name))
}

/// Checks whether the bytes of one name come before those of another: the first byte in which they differ decides,
/// and otherwise the shorter name comes first.
fn precedes(first: &[u8], second: &[u8]) -> bool
    ensures { result ≡ is_lt (slice_cmp nat_cmp first.now second.now) }
{
    let (mut left, mut right) = (first, second);
    'bytes: while let [own, lefts @ ..] = left {
        let [other, rights @ ..] = right else {
            return false;
        };
        if own != other {
            return own < other;
        }
        left = lefts;
        right = rights;
    }
    !right.is_empty()
}
