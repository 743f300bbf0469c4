//! What names are made from.

use crate::clues::Clue;
use crate::purposes::Purpose;
use histar_label::LabelStore;
use histar_layout::UserTable;
use histar_programs::Roots;
use histar_syscall::Kernel;

/// Names the objects and categories of a kernel, as they are after a line.
#[derive(Drop)]
pub struct Names<'k, S: LabelStore + Drop> {
    /// The kernel, after the line.
    pub kernel: &'k Kernel<S>,
    /// Where boot left `/` and process 0.
    pub roots: &'k Roots,
    /// The users and the groups, with no passwords.
    pub users: &'k UserTable,
    /// The processes and the path in the line.
    pub clue: &'k Clue,
    /// For each category, by its number, what it was made for.
    pub births: &'k [Option<Purpose>],
}
