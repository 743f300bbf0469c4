//! Calls that change what is at a path: by what is there, and by each directory above it.
ghost use Rattle.std.specs.Prelude.{◌≡◌, ◌++◌, codes, IfOk, OnOk};
ghost use Rattle.std.specs.Option.{option_copied};
ghost use Rattle.histar_base.specs.Paths.{same};
ghost use Rattle.histar_trust.specs.Findings.{node_at};
ghost use Rattle.histar_leak.specs.ChangeCalls.{made_name};
ghost use Rattle.histar_leak.specs.Findings.{change_in, change_there, changes_above, changes_here};
ghost use Rattle.histar_leak.specs.Findings.{changes_to, entries_of};
ghost use Rattle.histar_leak.specs.Findings.{entry_change, first_change, is_entry_of, make_in};
ghost use Rattle.histar_leak.specs.Findings.{other_write, rights_of};
ghost use Rattle.histar_leak.specs.Findings.{way_change};

use histar_flat::{Group, Name, Path, read_name};
use histar_readout::TreeNode;
use histar_secrecy::{FileClass, Member, may_write, reads_all};
use histar_trust::node_at;
use std::alloc::{AllocError, Global};

/// The greatest number of names of a path.
const MOST_NAMES: usize = 8;

/// How many entries a directory may have.
const MOST_ENTRIES: usize = 64;

/// A call that changes something.
#[derive(Clone, Copy)]
pub enum Change {
    /// Removes a file, or a directory with all below it.
    Rmtree(Path),
    /// Makes a directory for everyone.
    Mkdir(Path),
    /// Writes `0` to a file.
    WriteZero(Path),
    /// Writes `1` to a file.
    WriteOne(Path),
}

/// Adds the call that changes what a tree has at the path of these names, if it has something
/// there, and then for each directory above it the call that changes which entry it has on the way.
/// The bytes are those of a file that is there.
///
/// It goes over the tree a few times for each of the names, of which there are at most eight.
pub fn push_changes(
    alloc: Global,
    tree: &[TreeNode],
    names: &[Name],
    bytes: &[u8],
    changes: &mut Vec<Option<Change>>,
) -> Result<(), AllocError>
    ensures { OnOk result (changes.new.items
        ≡ changes.old.items ++ changes_to tree.now names.now bytes.now) }
{
    push_change_there(alloc, tree, node_at(tree, names), bytes, changes)?;
    push_changes_above(alloc, tree, names, changes)
}

/// Adds the call that changes what is at a path, if something is there.
fn push_change_there(
    alloc: Global,
    tree: &[TreeNode],
    there: Option<&TreeNode>,
    bytes: &[u8],
    changes: &mut Vec<Option<Change>>,
) -> Result<(), AllocError>
    ensures { OnOk result (changes.new.items ≡ changes.old.items
        ++ change_there tree.now (option_copied there.entry) bytes.now) }
{
    let Some(node) = there else {
        return Ok(());
    };
    if !node.stat().is_directory {
        return Ok(changes.push(Some(other_write(&node.path, bytes)))?);
    }
    let entries = entries_of(alloc, tree, &node.path)?;
    let change = entry_change(entries.as_slice(), &node.path, made_name());
    Ok(changes.push(change)?)
}

/// Adds the calls by the directories above the path of these names, from the lowest on.
fn push_changes_above(
    alloc: Global,
    tree: &[TreeNode],
    names: &[Name],
    changes: &mut Vec<Option<Change>>,
) -> Result<(), AllocError>
    ensures { OnOk result (changes.new.items
        ≡ changes.old.items ++ changes_above tree.now names.now) }
{
    let [name, above @ ..] = names else {
        return Ok(());
    };
    if let Some(directory) = node_at(tree, above) {
        let change = change_in(alloc, tree, directory, node_at(tree, names), *name)?;
        changes.push(change)?;
    }
    push_changes_above(alloc, tree, above, changes)
}

/// Returns the call by a directory above a path, of which `entry` is the entry on the way, or would
/// be if it were there.
fn change_in(
    alloc: Global,
    tree: &[TreeNode],
    directory: &TreeNode,
    entry: Option<&TreeNode>,
    name: Name,
) -> Result<Option<Change>, AllocError>
    ensures { IfOk result (λ change. change
        ≡ change_in tree.now directory.now (option_copied entry.entry) name) }
{
    if !directory.stat().is_directory {
        return Ok(None);
    }
    let entries = entries_of(alloc, tree, &directory.path)?;
    Ok(way_change(entry, entries.as_slice(), &directory.path, name))
}

/// Returns the paths of the entries that a tree lists of a directory.
fn entries_of(alloc: Global, tree: &[TreeNode], directory: &Path) -> Result<Vec<Path>, AllocError>
    ensures { IfOk result (λ entries. entries.items ≡ entries_of directory.now tree.now) }
{
    tree.iter()
        .filter(|node| is_entry_of(node, directory))
        .map(|node| node.path)
        .collect(alloc)
}

/// Checks whether a node is an entry of a directory.
fn is_entry_of(node: &TreeNode, directory: &Path) -> bool
    ensures { result ≡ is_entry_of directory.now node.now }
{
    match node.path.names() {
        [] => false,
        [_, above @ ..] => directory.names() == above,
    }
}

/// Returns the call that changes whether a directory has the entry on the way, or, where it has not
/// and is full, the one that removes another entry.
fn way_change(
    entry: Option<&TreeNode>,
    entries: &[Path],
    directory: &Path,
    name: Name,
) -> Option<Change>
    ensures { result ≡ way_change (option_copied entry.entry) entries.now directory.now name }
{
    match entry {
        Some(node) => Some(Change::Rmtree(node.path)),
        None if entries.len() < MOST_ENTRIES => make_in(directory, name),
        None => entry_change(entries, directory, name),
    }
}

/// Returns the call that removes the first of these entries of a directory, or makes one of this
/// name.
fn entry_change(entries: &[Path], directory: &Path, name: Name) -> Option<Change>
    ensures { result ≡ entry_change entries.now directory.now name }
{
    match entries {
        [] => make_in(directory, name),
        [first, ..] => Some(Change::Rmtree(*first)),
    }
}

/// Returns the call that makes a directory of this name in a directory, if its path can be named.
fn make_in(directory: &Path, name: Name) -> Option<Change>
    ensures { result ≡ make_in directory.now name }
{
    if directory.depth() < MOST_NAMES {
        Some(Change::Mkdir(directory.entry(name)))
    } else {
        None
    }
}

/// Returns the call that writes other bytes than these to a file.
fn other_write(path: &Path, bytes: &[u8]) -> Change
    ensures { result ≡ other_write path.now bytes.now }
{
    if bytes == b"0".as_slice() {
        Change::WriteOne(*path)
    } else {
        Change::WriteZero(*path)
    }
}

/// Returns the name of an entry that is made in an empty directory.
#[tactic(auto, unfolding(histar_flat::specs::Words::is_name))]
fn made_name() -> Name
    ensures { result ≡ made_name }
{
    match read_name(b"a") {
        Some(name) => name,
        None => unreachable!(),
    }
}

/// Returns the first of the calls, one by each class, by what a process may change.
pub fn first_change(
    groups: &[Group],
    member: &Member,
    classes: &[FileClass],
    changes: &[Option<Change>],
) -> Option<Change>
    ensures { result ≡ first_change groups.now (rights_of member.now) classes.now changes.now }
{
    let [class, above @ ..] = classes else {
        return None;
    };
    let [change, others @ ..] = changes else {
        return None;
    };
    if change.is_some() && changes_here(groups, member, class, above) {
        return *change;
    }
    first_change(groups, member, above, others)
}

/// Checks whether a process may write what is of a class, and read what is of each behind it.
fn changes_here(groups: &[Group], member: &Member, class: &FileClass, above: &[FileClass]) -> bool
    ensures { result ≡ changes_here groups.now (rights_of member.now) class.now above.now }
{
    let jobs = member.jobs.as_slice();
    let held = member.held.as_slice();
    may_write(groups, member.user, jobs, held, class)
        && reads_all(groups, member.user, jobs, held, above)
}
