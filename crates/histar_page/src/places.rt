//! The positions of the nodes of a drawing.
ghost use Rattle.std.specs.Prelude.{◌≡◌, ◌≤◌};
ghost use Rattle.histar_page.specs.Places.{drawn_height, file_top, NodesAreApart, process_top};

/// The most processes of a session that is drawn.
pub const MOST_DRAWN_PROCESSES: usize = 12;

/// The most files and directories of a session that is drawn.
pub const MOST_DRAWN_FILES: usize = 30;

/// How far down the first nodes are.
const FIRST_TOP: u64 = 24;

/// How far a process is below the one before it.
const PROCESS_STEP: u64 = 44;

/// How far a file is below the one before it.
const FILE_STEP: u64 = 32;

/// Half of the height of a node.
pub(crate) const HALF_HEIGHT: u64 = 13;

/// Returns how far down the process of an index is drawn.
pub(crate) fn process_top(index: usize) -> u64
    requires { index ≤ 100 }
    ensures { result ≡ process_top index }
{
    FIRST_TOP + PROCESS_STEP * (index as u64)
}

/// Returns how far down the file of an index is drawn.
pub(crate) fn file_top(index: usize) -> u64
    requires { index ≤ 100 }
    ensures { result ≡ file_top index }
{
    FIRST_TOP + FILE_STEP * (index as u64)
}

/// Returns the height of a drawing with this many processes and files.
pub(crate) fn drawn_height(processes: usize, files: usize) -> u64
    requires processes { processes ≤ 100 }
    requires files { files ≤ 100 }
    ensures { result ≡ drawn_height processes files }
{
    let left = PROCESS_STEP * (processes as u64);
    let right = FILE_STEP * (files as u64);
    if left < right {
        FIRST_TOP + right
    } else {
        FIRST_TOP + left
    }
}

/// Shows that no two nodes of a drawing overlap, and no band of a job overlaps a node but its own. The law is
/// the contract of a function that does nothing.
pub fn nodes_are_apart()
    ensures { NodesAreApart }
{}
