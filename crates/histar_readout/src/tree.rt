//! Reading the tree.
ghost use Rattle.std.specs.Prelude.{◌≡◌, ◌≤◌, length, IfOk, OnErr};
ghost use Rattle.histar_flat.specs.Words.{most_names};
ghost use Rattle.histar_layout.specs.Listing.{object_of};
ghost use Rattle.histar_syscall.specs.KernelModel.{state};
ghost use Rattle.histar_readout.specs.Memory.{OnOutOfMemoryOfTree};
ghost use Rattle.histar_readout.specs.TreeEntries.{node_bytes};
ghost use Rattle.histar_readout.specs.TreeLines.{node_stat};
ghost use Rattle.histar_readout.specs.Tree.{AddsBelow, AddsTree, FindsNode, FindsTree};

use histar_flat::{Path, Stat};
use histar_heap::Heap;
use histar_label::LabelStore;
use histar_layout::{Class, Target, UserTable, class_of, read_dir};
use histar_object::ObjId;
use histar_programs::Roots;
use histar_syscall::Kernel;
use std::alloc::{AllocError, AllocFailed};

/// The greatest number of names of a path.
const MOST_NAMES: usize = 8;

/// A file or a directory of a tree.
#[derive(Drop)]
pub struct TreeNode {
    pub path: Path,
    /// Its owner, and who else may read or write it, by its label.
    pub class: Class,
    /// The target of its entry. Only a tree makes nodes, so a caller that has one has read it from a tree.
    pub(crate) target: Target,
}

impl TreeNode {
    /// Returns what `stat` answers: its kind, its owner and its mode.
    pub fn stat(&self) -> Stat
        ensures { result ≡ node_stat self.now }
    {
        self.class.stat(self.target.is_directory())
    }

    /// Returns its object: a file's segment, or a directory's container.
    pub fn object(&self) -> ObjId
        ensures { result ≡ object_of self.now.target }
    {
        self.target.object()
    }
}

/// Where a tree is read from.
#[derive(Drop)]
struct Source<'a, S: LabelStore + Drop> {
    kernel: &'a Kernel<S>,
    users: &'a UserTable,
}

/// The reason why no tree can be read.
enum TreeError {
    /// The objects are no tree: bytes are no directory, a label is of no class, or a path is too long.
    NotATree,
    OutOfMemory,
}

impl From<AllocError> for TreeError {
    ghost use Rattle.std.specs.Prelude.{◌≡◌};
    ghost use Rattle.histar_readout.specs.declared.tree.TreeError.TheVariants.{OutOfMemory};

    ghost from_gives = { λ _ e. e ≡ OutOfMemory };

    fn from(_error: AllocError) -> Self {
        TreeError::OutOfMemory
    }
}

impl<T: Drop> From<AllocFailed<T>> for TreeError {
    ghost use Rattle.std.specs.Prelude.{◌≡◌};
    ghost use Rattle.histar_readout.specs.declared.tree.TreeError.TheVariants.{OutOfMemory};

    ghost from_gives = { λ _ e. e ≡ OutOfMemory };

    fn from(_failed: AllocFailed<T>) -> Self {
        TreeError::OutOfMemory
    }
}

/// Reads the files and directories of a kernel, by rising paths: those that the directory segments list from
/// that of `/` on. It reads the kernel's table, and makes no raw call. None where the segments don't list a
/// tree of files and directories, with labels of classes and paths that can be named.
pub fn tree_of<H: Heap, S: LabelStore + Drop>(
    heap: H,
    kernel: &Kernel<S>,
    roots: &Roots,
    users: &UserTable,
) -> Result<Option<Vec<TreeNode>>, AllocError>
    ensures ok { IfOk result (FindsTree users.now (state kernel.now) roots.now) }
    ensures memory { OnErr result H.Refused }
{
    let mut tree = Vec::new(heap.alloc());
    let source = Source { kernel, users };
    let slash = Target::Directory(roots.slash.container, roots.slash.listing);
    match push_tree(heap, &source, &Path::root(), slash, &mut tree) {
        Ok(()) => Ok(Some(tree)),
        Err(TreeError::NotATree) => Ok(None),
        Err(TreeError::OutOfMemory) => Err(AllocError),
    }
}

/// Returns the bytes of a file of the tree, lent by the kernel's table. A directory has none.
pub fn bytes_of<'a, S: LabelStore + Drop>(kernel: &'a Kernel<S>, node: &TreeNode) -> &'a [u8]
    ensures { result.now ≡ node_bytes (state kernel.now) node.now }
{
    match &node.target {
        Target::File(file) => kernel.bytes(*file),
        Target::Directory(_, _) => &[],
    }
}

/// Adds the file or directory at a path, and then those below it.
#[cycle(tree)]
fn push_tree<H: Heap, S: LabelStore + Drop>(
    heap: H,
    source: &Source<S>,
    path: &Path,
    target: Target,
    tree: &mut Vec<TreeNode>,
) -> Result<(), TreeError>
    requires { length path.now ≤ most_names }
    ensures adds { AddsTree source.now.users.now (state source.now.kernel.now) path.now target
        tree.old.items tree.new.items result }
    ensures memory { OnOutOfMemoryOfTree result H.Refused }
{
    let node = node_at(heap, source, path, target)?;
    heap.push(tree, node)?;
    match &target {
        Target::File(_) => Ok(()),
        Target::Directory(_, listing) => push_below(heap, source, path, *listing, tree),
    }
}

/// Adds the files and directories below a directory with this directory segment.
#[cycle(tree)]
fn push_below<H: Heap, S: LabelStore + Drop>(
    heap: H,
    source: &Source<S>,
    path: &Path,
    listing: ObjId,
    tree: &mut Vec<TreeNode>,
) -> Result<(), TreeError>
    requires { length path.now ≤ most_names }
    ensures adds { AddsBelow source.now.users.now (state source.now.kernel.now) path.now listing
        tree.old.items tree.new.items result }
    ensures memory { OnOutOfMemoryOfTree result H.Refused }
{
    let Some(directory) = read_dir(heap, source.kernel.bytes(listing))? else {
        return Err(TreeError::NotATree);
    };
    let entries = directory.entries(heap)?;
    'entries: for entry in &entries {
        let (name, target) = *entry;
        if path.depth() == MOST_NAMES {
            return Err(TreeError::NotATree);
        }
        let inner = path.entry(name);
        push_tree(heap, source, &inner, target, tree)?;
    }
    Ok(())
}

/// Returns the file or directory at a path with this target: its object has a label, which is of a class.
fn node_at<H: Heap, S: LabelStore + Drop>(
    heap: H,
    source: &Source<S>,
    path: &Path,
    target: Target,
) -> Result<TreeNode, TreeError>
    ensures finds { FindsNode source.now.users.now (state source.now.kernel.now) path.now target result }
    ensures memory { OnOutOfMemoryOfTree result H.Refused }
{
    let Some(label) = source.kernel.label(target.object()) else {
        return Err(TreeError::NotATree);
    };
    let Some(class) = class_of(heap, label, source.users)? else {
        return Err(TreeError::NotATree);
    };
    Ok(TreeNode {
        path: *path,
        class,
        target,
    })
}
