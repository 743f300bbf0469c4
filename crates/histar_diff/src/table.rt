//! Tables of rights.

use histar_flat::{Name, Path, ProcName};
use histar_rights::Rights;

/// A process that runs, and its user.
#[derive(Clone, Copy)]
pub struct Runner {
    pub process: ProcName,
    pub user: Name,
}

/// A path, and the rights there of each process that runs, in the order of the processes.
#[derive(Drop)]
pub struct TableLine {
    pub path: Path,
    pub rights: Vec<Rights>,
}

/// Who may do what: the processes that run, by rising names, and a line for each file and
/// directory, by rising paths.
#[derive(Drop)]
pub struct Table {
    pub processes: Vec<Runner>,
    pub lines: Vec<TableLine>,
}
