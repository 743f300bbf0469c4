//! Looking up a name in the bytes of a directory.
ghost use Rattle.std.specs.Prelude.{◌≡◌, ◌+◌, ◌-◌, ◌<◌, ◌≤◌, length, slice_index, slice_range};
ghost use Rattle.std.specs.FinMap as map;
ghost use Rattle.histar_base.specs.Paths.{same};
ghost use Rattle.histar_layout.specs.Directory.{Entries, IsDirectory};
ghost use Rattle.histar_layout.specs.Found.{found_in};

use crate::entry::Target;
use crate::read_entry::{TARGET_LENGTH, target_from};
use histar_flat::Name;

/// The number of bytes of an entry beside its name: its length, and those of its target.
const BESIDE_NAME: usize = 1 + TARGET_LENGTH;

/// Looks up the target of the entry of this name. It goes from entry to entry, up to the one that has the
/// name, and no further than one of this name can begin. Of another one it reads the length, and bytes of the name
/// only where that is as long. Where the bytes end or break off before one that has the name, there is none. It
/// takes no memory.
pub fn look_up(bytes: &[u8], name: &Name) -> Option<Target>
    ensures found { result ≡ found_in bytes.now name.now }
    ensures entry { (dir : Entries) → IsDirectory bytes.now dir → result ≡ map.get dir name.now }
{
    let wanted = name.as_bytes();
    let last = wanted[wanted.len() - 1];
    let size = wanted.len() + BESIDE_NAME;
    if bytes.len() < size {
        return None;
    }
    // No entry of this name begins behind this position.
    let reach = bytes.len() - size;
    let mut start = 0;
    'entries: while start <= reach {
        let len = bytes[start] as usize;
        let end = start + len + BESIDE_NAME;
        if len == wanted.len() {
            if is_before(wanted, last, bytes, end - TARGET_LENGTH) {
                return target_from(&bytes[end - TARGET_LENGTH..end]);
            }
        }
        start = end;
    }
    None
}

/// Checks whether a name, which ends with this byte, lies before a position. Names of one directory differ most
/// often in their last bytes, so these are compared first.
#[inline]
fn is_before(name: &[u8], last: u8, bytes: &[u8], end: usize) -> bool
    requires some { 0 < length name.now }
    requires room { length name.now ≤ end }
    requires within { end ≤ length bytes.now }
    requires last { last ≡ slice_index name.now (length name.now - 1) }
    ensures { result ≡ same name.now (slice_range bytes.now (end - length name.now) end) }
{
    if bytes[end - 1] != last {
        return false;
    }
    let start = end - name.len();
    let mut left = name.len() - 1;
    'bytes: while left > 0 {
        left -= 1;
        if name[left] != bytes[start + left] {
            return false;
        }
    }
    true
}
