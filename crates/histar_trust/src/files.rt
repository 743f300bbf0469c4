//! The line of the running processes, and the lines of the files that not everyone reaches.
ghost use Rattle.std.specs.Prelude.{◌≡◌, ◌++◌, [], codes, IfOk, map, OnOk};
ghost use Rattle.std.specs.List.{flat_map};
ghost use Rattle.histar_layout.specs.Listing.{is_directory};
ghost use Rattle.histar_shell.specs.Ending.{IsTreeIn};
ghost use Rattle.histar_secrecy.specs.ShownRoles.{flat_class};
ghost use Rattle.histar_trust.specs.Findings.{HasState, ShowsSecrets, shown_members, shown_runner, shown_runners};
ghost use Rattle.histar_trust.specs.Findings.{shown_secret_path, shown_secret_paths};
ghost use Rattle.histar_trust.specs.Findings.{shown_secret, shown_secrets};
ghost use Rattle.histar_trust.specs.Secrets.{is_secret, process_mark, user_mark};

use crate::members::{members_among, user_names};
use crate::output::is_open_way;
use crate::way::go_on;
use histar_flat::{Name, Path, ProcName};
use histar_label::LabelStore;
use histar_layout::UserTable;
use histar_prefix::processes;
use histar_readout::TreeNode;
use histar_secrecy::{FileClass, Member, Role, login_readers, with_role};
use histar_shell::Machine;
use histar_texts::{push_path, push_process};
use std::alloc::{AllocError, Global};

/// Returns a line with the processes that run on a machine, and then one for each file that not every process
/// reaches, by rising paths.
///
/// The tree and the processes are read once, and the role of each process is determined for each such file.
pub fn secret_lines<S: LabelStore + Drop>(
    alloc: Global,
    machine: &Machine<S>,
) -> Result<Vec<u8>, AllocError>
    requires { HasState machine.now }
    ensures { IfOk result (λ text. ShowsSecrets machine.now text.items) }
{
    let tree = machine.tree(alloc)?;
    lines_in(alloc, machine, tree.as_slice())
}

/// Returns the line of the processes that run on a machine, and those of the files of its tree.
fn lines_in<S: LabelStore + Drop>(
    alloc: Global,
    machine: &Machine<S>,
    tree: &[TreeNode],
) -> Result<Vec<u8>, AllocError>
    requires shows { HasState machine.now }
    requires tree { IsTreeIn machine.now tree.now }
    ensures { IfOk result (λ text. ShowsSecrets machine.now text.items) }
{
    let processes = processes(alloc, machine)?;
    let members = members_among(alloc, processes.as_slice())?;
    member_lines(alloc, machine.users(), members.as_slice(), tree)
}

/// Returns the line of the processes that run, and those of the files of a tree.
fn member_lines(
    alloc: Global,
    users: &UserTable,
    members: &[Member],
    tree: &[TreeNode],
) -> Result<Vec<u8>, AllocError>
    ensures { IfOk result (λ text.
        text.items ≡ shown_runners members.now ++ shown_secrets users.now members.now [] tree.now) }
{
    let mut text = Vec::new(alloc);
    push_runners(&mut text, members)?;
    push_secrets(alloc, &mut text, users, members, tree)?;
    Ok(text)
}

/// Adds the line of the processes that run.
fn push_runners(text: &mut Vec<u8>, members: &[Member]) -> Result<(), AllocError>
    ensures { OnOk result (text.new.items ≡ text.old.items ++ shown_runners members.now) }
{
    text.extend_from_slice(b"running")?;
    push_each_runner(text, members)?;
    text.extend_from_slice(b"\n")
}

/// Adds each process after a space, and its user after a colon.
fn push_each_runner(text: &mut Vec<u8>, members: &[Member]) -> Result<(), AllocError>
    ensures { OnOk result (text.new.items ≡ text.old.items ++ flat_map shown_runner members.now) }
{
    for member in members {
        push_runner(text, member)?;
    }
    Ok(())
}

/// Adds a process after a space, and its user after a colon.
fn push_runner(text: &mut Vec<u8>, member: &Member) -> Result<(), AllocError>
    ensures { OnOk result (text.new.items ≡ text.old.items ++ shown_runner member.now) }
{
    text.extend_from_slice(b" ")?;
    push_process(*text.allocator(), text, &member.name)?;
    text.extend_from_slice(b":")?;
    text.extend_from_slice(member.user.as_bytes())
}

/// Adds the lines of the files of a tree that not every process reaches, in one pass: the classes on the way to
/// a node are those on the way to the node before, as far as the directories above both are the same, and its own.
fn push_secrets(
    alloc: Global,
    text: &mut Vec<u8>,
    users: &UserTable,
    members: &[Member],
    tree: &[TreeNode],
) -> Result<(), AllocError>
    ensures { OnOk result (text.new.items
        ≡ text.old.items ++ shown_secrets users.now members.now [] tree.now) }
{
    let mut way = Vec::new(alloc);
    'nodes: for node in tree {
        go_on(alloc, &mut way, node)?;
        push_secret(alloc, text, users, members, node, way.as_slice())?;
    }
    Ok(())
}

/// Adds the line of a file of a tree, unless every process reaches it. It adds nothing for a directory. The
/// classes are those on the way to it.
fn push_secret(
    alloc: Global,
    text: &mut Vec<u8>,
    users: &UserTable,
    members: &[Member],
    node: &TreeNode,
    classes: &[FileClass],
) -> Result<(), AllocError>
    ensures { OnOk result (text.new.items
        ≡ text.old.items ++ shown_secret users.now members.now node.now (map flat_class classes.now)) }
{
    let secret = is_secret(node, classes);
    if !secret {
        return Ok(());
    }
    push_path(alloc, text, &node.path)?;
    push_members(alloc, text, users, members, classes)?;
    text.extend_from_slice(b"\n")
}

/// Returns the paths of the files of a tree that not every process reaches, in one pass of the same kind.
pub fn secret_paths(alloc: Global, tree: &[TreeNode]) -> Result<Vec<Path>, AllocError>
    ensures { IfOk result (λ paths. paths.items ≡ shown_secret_paths [] tree.now) }
{
    let mut paths = Vec::new(alloc);
    let mut way = Vec::new(alloc);
    'nodes: for node in tree {
        go_on(alloc, &mut way, node)?;
        push_secret_path(&mut paths, node, way.as_slice())?;
    }
    Ok(paths)
}

/// Adds the path of a file of a tree, unless every process reaches it. It adds nothing for a directory. The
/// classes are those on the way to it.
fn push_secret_path(
    paths: &mut Vec<Path>,
    node: &TreeNode,
    classes: &[FileClass],
) -> Result<(), AllocError>
    ensures { OnOk result (paths.new.items
        ≡ paths.old.items ++ shown_secret_path node.now (map flat_class classes.now)) }
{
    let secret = is_secret(node, classes);
    if !secret {
        return Ok(());
    }
    Ok(paths.push(node.path)?)
}

/// Checks whether a node is a file that not every process reaches.
fn is_secret(node: &TreeNode, classes: &[FileClass]) -> bool
    ensures { result ≡ is_secret (is_directory node.now.target) (map flat_class classes.now) }
{
    !node.stat().is_directory && !is_open_way(classes)
}

/// Adds each process that is trusted with a file, each that is confined, and each user as whom a process could
/// log in to read it.
fn push_members(
    alloc: Global,
    text: &mut Vec<u8>,
    users: &UserTable,
    members: &[Member],
    classes: &[FileClass],
) -> Result<(), AllocError>
    ensures { OnOk result (text.new.items
        ≡ text.old.items ++ shown_members users.now members.now (map flat_class classes.now)) }
{
    let groups = users.groups();
    let trusted = with_role(alloc, groups, classes, Role::Trusted, members)?;
    push_processes(text, b"trusted", trusted.as_slice())?;
    let confined = with_role(alloc, groups, classes, Role::Confined, members)?;
    push_processes(text, b"confined", confined.as_slice())?;
    let names = user_names(alloc, users)?;
    let readers = login_readers(alloc, groups, classes, names.as_slice())?;
    push_users(text, b"login", readers.as_slice())
}

/// Adds for each process a space, the word, a colon, and the process.
fn push_processes(
    text: &mut Vec<u8>,
    word: &[u8],
    processes: &[(ProcName, Name)],
) -> Result<(), AllocError>
    ensures { OnOk result (text.new.items
        ≡ text.old.items ++ flat_map (process_mark word.now) processes.now) }
{
    for process in processes {
        push_mark(text, word)?;
        push_process(*text.allocator(), text, &process.0)?;
    }
    Ok(())
}

/// Adds for each user a space, the word, a colon, and the user.
fn push_users(text: &mut Vec<u8>, word: &[u8], users: &[Name]) -> Result<(), AllocError>
    ensures { OnOk result (text.new.items
        ≡ text.old.items ++ flat_map (user_mark word.now) users.now) }
{
    for user in users {
        push_mark(text, word)?;
        text.extend_from_slice(user.as_bytes())?;
    }
    Ok(())
}

/// Adds a space, the word and a colon.
fn push_mark(text: &mut Vec<u8>, word: &[u8]) -> Result<(), AllocError>
    ensures { OnOk result (text.new.items ≡ text.old.items ++ codes " " ++ word.now ++ codes ":") }
{
    text.extend_from_slice(b" ")?;
    text.extend_from_slice(word)?;
    text.extend_from_slice(b":")
}
