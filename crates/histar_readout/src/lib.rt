//! Reads three things from a kernel's own objects: where paths lead, the tree of files and directories, and
//! the processes.
#![tactic(auto)]

mod process;
mod processes;
pub mod resolve;
mod tree;
pub mod tree_laws;

pub use process::{Life, ProcessError, ProcessNode, read_process};
pub use processes::procs_of;
pub use tree::{TreeNode, bytes_of, tree_of};
