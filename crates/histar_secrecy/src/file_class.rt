//! Classes of files: the owner of a file, and who may read and write it.
use histar_flat::Name;

/// The class of a file or a directory: its owner, and who may read and write it. A job is known by a number
/// that no other job has, such as that of its category.
#[derive(Drop)]
pub enum FileClass {
    /// For its owner alone.
    Private(Name),
    /// For everyone to read, and for its owner to write.
    Readable(Name),
    /// For everyone.
    Open,
    /// For its owner in the jobs of these numbers.
    Scratch(Name, Vec<u64>),
    /// For the members of this group.
    Grouped(Name),
}
