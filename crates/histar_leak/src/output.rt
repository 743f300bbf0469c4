//! The text on how what is at a path of a machine is leaked and changed.
ghost use Rattle.std.specs.Prelude.{◌≡◌, ◌++◌, codes, IfOk, OnOk, if◌then◌else◌, []};
ghost use Rattle.std.specs.Option.{option_copied};
ghost use Rattle.histar_syscall.specs.KernelModel.{state};
ghost use Rattle.histar_shell.specs.Ending.{IsTreeIn};
ghost use Rattle.histar_trust.specs.Findings.{AreMembers, node_at};
ghost use Rattle.histar_leak.specs.Findings.{bytes_there, HasStateOf, is_below_shown_file};
ghost use Rattle.histar_leak.specs.Findings.{is_file_there, ShowsLeak};
ghost use Rattle.histar_leak.specs.Findings.{shown_changes, shown_found, shown_leak, shown_roles};

use crate::changers::{Place, push_changers};
use crate::changes::push_changes;
use crate::readers::{Secret, push_readers};
use histar_flat::{Accounts, Name, Path};
use histar_label::LabelStore;
use histar_prefix::processes;
use histar_readout::TreeNode;
use histar_secrecy::{FileClass, Member};
use histar_shell::Machine;
use histar_trust::{members_among, node_at, push_classes, push_head};
use std::alloc::{AllocError, Global};

/// What is read of a machine once: its users and groups, its running processes, and its tree.
#[derive(Drop)]
pub struct Snapshot<'a> {
    pub accounts: &'a Accounts,
    pub members: &'a [Member],
    pub tree: &'a [TreeNode],
}

/// What is found on a machine: its users and groups, its running processes, a path, the classes of
/// what is there and of each directory above it, and the bytes of a file that is there.
#[derive(Drop)]
struct Scene<'a> {
    accounts: &'a Accounts,
    members: &'a [Member],
    path: &'a Path,
    classes: &'a [FileClass],
    bytes: &'a [u8],
}

/// Returns the text on what is at a path of a machine with these users and groups.
///
/// It reads the tree and the processes once.
pub fn leak_lines<S: LabelStore + Drop>(
    alloc: Global,
    machine: &Machine<S>,
    accounts: &Accounts,
    path: &Path,
) -> Result<Vec<u8>, AllocError>
    requires { HasStateOf accounts.now machine.now }
    ensures { IfOk result (λ text. ShowsLeak accounts.now machine.now path.now text.items) }
{
    let tree = machine.tree(alloc)?;
    lines_in(alloc, machine, accounts, path, tree.as_slice())
}

/// Returns the text on what is at a path of the tree of a machine.
fn lines_in<S: LabelStore + Drop>(
    alloc: Global,
    machine: &Machine<S>,
    accounts: &Accounts,
    path: &Path,
    tree: &[TreeNode],
) -> Result<Vec<u8>, AllocError>
    requires shows { HasStateOf accounts.now machine.now }
    requires tree { IsTreeIn machine.now tree.now }
    ensures { IfOk result (λ text. ShowsLeak accounts.now machine.now path.now text.items) }
{
    let processes = processes(alloc, machine)?;
    let members = members_among(alloc, processes.as_slice())?;
    let snapshot = Snapshot {
        accounts,
        members: members.as_slice(),
        tree,
    };
    path_lines(alloc, machine, &snapshot, path)
}

/// Returns the text on what is at a path of a machine.
///
/// It goes over the tree a few times for each directory on the way to the path, of which there are
/// at most eight.
pub fn path_lines<S: LabelStore + Drop>(
    alloc: Global,
    machine: &Machine<S>,
    snapshot: &Snapshot,
    path: &Path,
) -> Result<Vec<u8>, AllocError>
    requires members { AreMembers machine.now snapshot.now.members.now }
    requires tree { IsTreeIn machine.now snapshot.now.tree.now }
    ensures { IfOk result (λ text.
        ShowsLeak snapshot.now.accounts.now machine.now path.now text.items) }
{
    let mut classes = Vec::new(alloc);
    push_classes(alloc, snapshot.tree, path.names(), &mut classes)?;
    let scene = Scene {
        accounts: snapshot.accounts,
        members: snapshot.members,
        path,
        classes: classes.as_slice(),
        bytes: bytes_there(machine, node_at(snapshot.tree, path.names())),
    };
    scene_lines(alloc, &scene, snapshot.tree)
}

/// Returns the bytes of what is there.
fn bytes_there<'a, S: LabelStore + Drop>(
    machine: &'a Machine<S>,
    found: Option<&TreeNode>,
) -> &'a [u8]
    ensures { result.now ≡ bytes_there (state machine.now.kernel) (option_copied found.entry) }
{
    match found {
        Some(node) => machine.bytes_of(node),
        None => &[],
    }
}

/// Returns the text on what was found.
fn scene_lines(alloc: Global, scene: &Scene, tree: &[TreeNode]) -> Result<Vec<u8>, AllocError>
    ensures { IfOk result (λ text. text.items ≡ shown_leak scene.now.accounts.now
        scene.now.members.now scene.now.classes.now scene.now.path.now scene.now.bytes.now
        tree.now) }
{
    let mut text = Vec::new(alloc);
    text.extend_from_slice(b"# ")?;
    push_found(alloc, &mut text, scene, node_at(tree, scene.path.names()))?;
    push_changes_of(alloc, &mut text, scene, tree)?;
    Ok(text)
}

/// Adds the line of what is at a path, and the paragraphs of its readers; or `no entry` if nothing
/// is there.
fn push_found(
    alloc: Global,
    text: &mut Vec<u8>,
    scene: &Scene,
    found: Option<&TreeNode>,
) -> Result<(), AllocError>
    ensures { OnOk result (text.new.items ≡ text.old.items ++ shown_found scene.now.accounts.now
        scene.now.members.now scene.now.classes.now scene.now.path.now scene.now.bytes.now
        (option_copied found.entry)) }
{
    let Some(node) = found else {
        return text.extend_from_slice(b"no entry\n");
    };
    push_head(text, node)?;
    push_roles(alloc, text, scene, node)
}

/// Adds the paragraphs of the readers of a file, and nothing for a directory.
fn push_roles(
    alloc: Global,
    text: &mut Vec<u8>,
    scene: &Scene,
    node: &TreeNode,
) -> Result<(), AllocError>
    ensures { OnOk result (text.new.items ≡ text.old.items ++ shown_roles scene.now.accounts.now
        scene.now.members.now scene.now.classes.now scene.now.path.now scene.now.bytes.now
        node.now) }
{
    if node.stat().is_directory {
        return Ok(());
    }
    let secret = Secret {
        groups: scene.accounts.groups(),
        members: scene.members,
        classes: scene.classes,
        path: scene.path,
        bytes: scene.bytes,
    };
    push_readers(alloc, text, &secret, scene.accounts.users())
}

/// Adds the paragraphs of the changers of what is at a path, and nothing below a file.
fn push_changes_of(
    alloc: Global,
    text: &mut Vec<u8>,
    scene: &Scene,
    tree: &[TreeNode],
) -> Result<(), AllocError>
    ensures { OnOk result (text.new.items ≡ text.old.items ++ shown_changes scene.now.accounts.now
        scene.now.members.now scene.now.classes.now scene.now.path.now scene.now.bytes.now
        tree.now) }
{
    if is_below_file(tree, scene.path.names()) {
        return Ok(());
    }
    let mut changes = Vec::new(alloc);
    push_changes(alloc, tree, scene.path.names(), scene.bytes, &mut changes)?;
    let place = Place {
        groups: scene.accounts.groups(),
        members: scene.members,
        classes: scene.classes,
        changes: changes.as_slice(),
    };
    push_changers(alloc, text, &place, scene.accounts.users())
}

/// Checks whether a file is above the path of these names.
fn is_below_file(tree: &[TreeNode], names: &[Name]) -> bool
    ensures { result ≡ is_below_shown_file tree.now names.now }
{
    let [_, above @ ..] = names else {
        return false;
    };
    is_file(node_at(tree, above)) || is_below_file(tree, above)
}

/// Checks whether a file is there.
fn is_file(there: Option<&TreeNode>) -> bool
    ensures { result ≡ is_file_there (option_copied there.entry) }
{
    match there {
        Some(node) => !node.stat().is_directory,
        None => false,
    }
}
