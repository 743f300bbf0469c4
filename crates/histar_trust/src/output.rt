//! The lines on which processes and users have to be trusted.
ghost use Rattle.std.specs.Prelude.{◌≡◌, ◌++◌, [], IfOk, map, OnOk};
ghost use Rattle.std.specs.List.{flat_map};
ghost use Rattle.std.specs.Option.{option_copied};
ghost use Rattle.histar_shell.specs.Ending.{IsTreeIn};
ghost use Rattle.histar_secrecy.specs.ShownRoles.{flat_class, with_rights};
ghost use Rattle.histar_trust.specs.Findings.{are_for_everyone, HasState, is_confined_runner, ShowsTrust};
ghost use Rattle.histar_trust.specs.Findings.{head_text, named_jobs, runner_of, running_node, shown_changer};
ghost use Rattle.histar_trust.specs.Findings.{shown_changers, shown_confined, shown_confined_if, shown_found, shown_job};
ghost use Rattle.histar_trust.specs.Findings.{shown_login_changer, shown_login_readers, shown_node, shown_power_reason};
ghost use Rattle.histar_trust.specs.Findings.{shown_readers, shown_roles, shown_runner_confined, those_of};
ghost use Rattle.histar_trust.specs.Reasons.{by_job, if_asked};
ghost use Rattle.histar_trust.specs.TrustText.{is_for_everyone, is_open_way, process_entry, process_line, process_lines};
ghost use Rattle.histar_trust.specs.TrustText.{user_entry, user_lines};

use crate::ancestors::{Ancestor, go_down};
use crate::members::{member_of, members_among, user_names};
use crate::reasons::{Rights, highest_power, may_change, outermost_job, push_by_job, push_by_path};
use crate::way::{node_at, push_classes, push_places};
use histar_flat::{Name, Path, ProcName};
use histar_label::LabelStore;
use histar_layout::UserTable;
use histar_prefix::processes;
use histar_readout::{ProcessNode, TreeNode};
use histar_secrecy::{FileClass, Member, Role, has_role, login_readers, with_role};
use histar_shell::{Machine, push_stat};
use histar_texts::{push_path, push_process};
use std::alloc::{AllocError, Global};

/// What the lines on a path are made of: the users of a machine, its processes, and those of them that run; the
/// classes of what is at the path and of each directory above it, and the paths of these; and whether changers
/// and confined processes have a reason.
#[derive(Drop)]
struct Scene<'a> {
    users: &'a UserTable,
    processes: &'a [ProcessNode],
    members: &'a [Member],
    classes: &'a [FileClass],
    places: &'a [Path],
    why: bool,
}

/// Returns the lines on what is at a path of a machine, with reasons if these are asked for.
///
/// It reads the tree and the processes once, and then the tree twice more for each directory on the way to the
/// path, of which there are at most eight.
pub fn trust_lines<S: LabelStore + Drop>(
    alloc: Global,
    machine: &Machine<S>,
    path: &Path,
    why: bool,
) -> Result<Vec<u8>, AllocError>
    requires { HasState machine.now }
    ensures { IfOk result (λ text. ShowsTrust machine.now why path.now text.items) }
{
    let tree = machine.tree(alloc)?;
    lines_in(alloc, machine, path, tree.as_slice(), why)
}

/// Returns the lines on what is at a path of the tree of a machine.
fn lines_in<S: LabelStore + Drop>(
    alloc: Global,
    machine: &Machine<S>,
    path: &Path,
    tree: &[TreeNode],
    why: bool,
) -> Result<Vec<u8>, AllocError>
    requires shows { HasState machine.now }
    requires tree { IsTreeIn machine.now tree.now }
    ensures { IfOk result (λ text. ShowsTrust machine.now why path.now text.items) }
{
    let processes = processes(alloc, machine)?;
    let members = members_among(alloc, processes.as_slice())?;
    let mut classes = Vec::new(alloc);
    push_classes(alloc, tree, path.names(), &mut classes)?;
    let mut places = Vec::new(alloc);
    push_places(tree, path.names(), &mut places)?;
    let scene = Scene {
        users: machine.users(),
        processes: processes.as_slice(),
        members: members.as_slice(),
        classes: classes.as_slice(),
        places: places.as_slice(),
        why,
    };
    scene_lines(alloc, &scene, node_at(tree, path.names()))
}

/// Returns the lines on what was found.
fn scene_lines(
    alloc: Global,
    scene: &Scene,
    found: Option<&TreeNode>,
) -> Result<Vec<u8>, AllocError>
    ensures { IfOk result (λ text. text.items ≡ shown_node scene.now.users.now scene.now.why
        scene.now.processes.now scene.now.members.now scene.now.classes.now scene.now.places.now
        (option_copied found.entry)) }
{
    let mut text = Vec::new(alloc);
    push_found(alloc, &mut text, scene, found)?;
    push_changers(alloc, &mut text, scene)?;
    Ok(text)
}

/// Adds the line of what a tree has at a path, and who reaches it; or `no entry` if it has nothing there.
fn push_found(
    alloc: Global,
    text: &mut Vec<u8>,
    scene: &Scene,
    found: Option<&TreeNode>,
) -> Result<(), AllocError>
    ensures { OnOk result (text.new.items ≡ text.old.items ++ shown_found scene.now.users.now
        scene.now.why (map flat_class scene.now.classes.now) scene.now.processes.now
        scene.now.members.now (option_copied found.entry)) }
{
    let Some(node) = found else {
        return text.extend_from_slice(b"no entry\n");
    };
    push_head(text, node)?;
    push_roles(alloc, text, scene, node)
}

/// Adds the line of a file or a directory: its path, its kind, its owner and its mode.
pub fn push_head(text: &mut Vec<u8>, node: &TreeNode) -> Result<(), AllocError>
    ensures { OnOk result (text.new.items ≡ text.old.items ++ head_text node.now) }
{
    push_path(*text.allocator(), text, &node.path)?;
    text.extend_from_slice(b" ")?;
    push_stat(*text.allocator(), text, node.stat())?;
    text.extend_from_slice(b"\n")
}

/// Adds who reaches a file: a line for each process with its role, and one for each user as whom a process
/// could log in to read it, or a single line if every process reaches it. It adds nothing for a directory.
fn push_roles(
    alloc: Global,
    text: &mut Vec<u8>,
    scene: &Scene,
    node: &TreeNode,
) -> Result<(), AllocError>
    ensures { OnOk result (text.new.items ≡ text.old.items ++ shown_roles scene.now.users.now
        scene.now.why (map flat_class scene.now.classes.now) scene.now.processes.now
        scene.now.members.now node.now) }
{
    if node.stat().is_directory {
        return Ok(());
    }
    if is_open_way(scene.classes) {
        return text.extend_from_slice(b"everyone\n");
    }
    push_readers(alloc, text, scene)
}

/// Checks whether every process may read what is of each of these classes.
pub fn is_open_way(classes: &[FileClass]) -> bool
    ensures { result ≡ is_open_way (map flat_class classes.now) }
{
    are_for_everyone(classes)
}

/// Checks the same, class by class.
fn are_for_everyone(classes: &[FileClass]) -> bool
    ensures { result ≡ are_for_everyone classes.now }
{
    classes.iter().all(|class| is_for_everyone(class))
}

/// Checks whether every process may read a file of the class.
fn is_for_everyone(class: &FileClass) -> bool
    ensures { result ≡ is_for_everyone (flat_class class.now) }
{
    matches!(class, FileClass::Readable(_) | FileClass::Open)
}

/// Adds a line for each process with its role towards a file, and one for each user as whom a process could
/// log in to read it.
fn push_readers(alloc: Global, text: &mut Vec<u8>, scene: &Scene) -> Result<(), AllocError>
    ensures { OnOk result (text.new.items ≡ text.old.items ++ shown_readers scene.now.users.now
        scene.now.why (map flat_class scene.now.classes.now) scene.now.processes.now
        scene.now.members.now) }
{
    push_with_role(alloc, text, scene, Role::Trusted, b"trusted")?;
    push_confined(alloc, text, scene)?;
    push_with_role(alloc, text, scene, Role::Outside, b"outside")?;
    push_login_readers(alloc, text, scene.users, scene.classes)
}

/// Adds a line for each process with a role.
fn push_with_role(
    alloc: Global,
    text: &mut Vec<u8>,
    scene: &Scene,
    role: Role,
    word: &[u8],
) -> Result<(), AllocError>
    ensures { OnOk result (text.new.items ≡ text.old.items ++ process_lines word.now
        (those_of scene.now.users.now scene.now.members.now
        (map flat_class scene.now.classes.now) role)) }
{
    let groups = scene.users.groups();
    let those = with_role(alloc, groups, scene.classes, role, scene.members)?;
    push_processes(text, word, those.as_slice())
}

/// Adds a line for each confined process, in one pass: the processes above one are those above the process
/// before it, as far as they are above both, and that one if it is above.
fn push_confined(alloc: Global, text: &mut Vec<u8>, scene: &Scene) -> Result<(), AllocError>
    ensures { OnOk result (text.new.items ≡ text.old.items ++ shown_confined scene.now.users.now
        scene.now.why (map flat_class scene.now.classes.now) [] scene.now.processes.now) }
{
    let mut ancestors = Vec::new(alloc);
    'processes: for node in scene.processes {
        go_down(alloc, &mut ancestors, node)?;
        push_if_running(alloc, text, scene, node, ancestors.as_slice())?;
    }
    Ok(())
}

/// Adds the line of a process, if it runs and is confined. Its ancestors end with itself.
fn push_if_running(
    alloc: Global,
    text: &mut Vec<u8>,
    scene: &Scene,
    node: &ProcessNode,
    ancestors: &[Ancestor],
) -> Result<(), AllocError>
    ensures { OnOk result (text.new.items ≡ text.old.items ++ shown_confined_if scene.now.users.now
        scene.now.why (map flat_class scene.now.classes.now) (map named_jobs ancestors.now)
        (running_node node.now)) }
{
    let Some(member) = member_of(alloc, node)? else {
        return Ok(());
    };
    push_if_confined(text, scene, &member, ancestors)
}

/// Adds the line of a process that runs, if it is confined. Its ancestors end with itself.
fn push_if_confined(
    text: &mut Vec<u8>,
    scene: &Scene,
    member: &Member,
    ancestors: &[Ancestor],
) -> Result<(), AllocError>
    ensures { OnOk result (text.new.items ≡ text.old.items
        ++ shown_runner_confined scene.now.users.now scene.now.why
        (map flat_class scene.now.classes.now) (map named_jobs ancestors.now)
        (runner_of member.now)) }
{
    if !is_confined(scene, member) {
        return Ok(());
    }
    push_process_entry(text, b"confined", &member.name, member.user)?;
    push_job_reason(text, scene, member.user, ancestors)?;
    text.extend_from_slice(b"\n")
}

/// Checks whether a process is confined.
#[tactic(auto, unfolding(histar_secrecy::specs::ShownRoles::has_shown_role))]
fn is_confined(scene: &Scene, member: &Member) -> bool
    ensures { result ≡ is_confined_runner scene.now.users.now.groups
        (map flat_class scene.now.classes.now) (runner_of member.now) }
{
    has_role(scene.users.groups(), scene.classes, Role::Confined, member)
}

/// Adds the job by which a confined process of this user is bound, if reasons are asked for.
fn push_job_reason(
    text: &mut Vec<u8>,
    scene: &Scene,
    user: Name,
    ancestors: &[Ancestor],
) -> Result<(), AllocError>
    ensures { OnOk result (text.new.items ≡ text.old.items ++ if_asked scene.now.why
        (by_job (shown_job scene.now.users.now.groups (map flat_class scene.now.classes.now) user
        (map named_jobs ancestors.now)))) }
{
    if !scene.why {
        return Ok(());
    }
    let job = outermost_job(scene.users.groups(), scene.classes, user, ancestors);
    push_by_job(text, job)
}

/// Adds a line for each user as whom a process could log in to read a file.
fn push_login_readers(
    alloc: Global,
    text: &mut Vec<u8>,
    users: &UserTable,
    classes: &[FileClass],
) -> Result<(), AllocError>
    ensures { OnOk result (text.new.items
        ≡ text.old.items ++ shown_login_readers users.now (map flat_class classes.now)) }
{
    let names = user_names(alloc, users)?;
    let readers = login_readers(alloc, users.groups(), classes, names.as_slice())?;
    push_users(text, b"login", readers.as_slice())
}

/// Adds a line for each process that may change what is at a path, and for each user as whom a process could log
/// in to do so.
fn push_changers(alloc: Global, text: &mut Vec<u8>, scene: &Scene) -> Result<(), AllocError>
    ensures { OnOk result (text.new.items ≡ text.old.items ++ shown_changers scene.now.users.now
        scene.now.why scene.now.members.now scene.now.classes.now scene.now.places.now) }
{
    push_each_changer(text, scene)?;
    let names = user_names(alloc, scene.users)?;
    push_login_changers(text, scene, names.as_slice())
}

/// Adds a line for each process that may change what is at a path.
fn push_each_changer(text: &mut Vec<u8>, scene: &Scene) -> Result<(), AllocError>
    ensures { OnOk result (text.new.items ≡ text.old.items ++ flat_map (shown_changer
        scene.now.users.now scene.now.why scene.now.classes.now scene.now.places.now)
        scene.now.members.now) }
{
    for member in scene.members {
        push_changer(text, scene, member)?;
    }
    Ok(())
}

/// Adds the line of a process, if it may change what is at a path.
fn push_changer(text: &mut Vec<u8>, scene: &Scene, member: &Member) -> Result<(), AllocError>
    ensures { OnOk result (text.new.items ≡ text.old.items ++ shown_changer
        scene.now.users.now scene.now.why scene.now.classes.now scene.now.places.now member.now) }
{
    let rights = Rights {
        user: member.user,
        jobs: member.jobs.as_slice(),
        held: member.held.as_slice(),
    };
    if !may_change(scene.users.groups(), &rights, scene.classes) {
        return Ok(());
    }
    push_process_entry(text, b"changer", &member.name, member.user)?;
    push_power_reason(text, scene, &rights)?;
    text.extend_from_slice(b"\n")
}

/// Adds a line for each of these users as whom a process could log in to change what is at a path.
fn push_login_changers(text: &mut Vec<u8>, scene: &Scene, users: &[Name]) -> Result<(), AllocError>
    ensures { OnOk result (text.new.items ≡ text.old.items ++ flat_map (shown_login_changer
        scene.now.users.now scene.now.why scene.now.classes.now scene.now.places.now) users.now) }
{
    for user in users {
        push_login_changer(text, scene, *user)?;
    }
    Ok(())
}

/// Adds the line of a user, if a process that logs in as this user may change what is at a path.
fn push_login_changer(text: &mut Vec<u8>, scene: &Scene, user: Name) -> Result<(), AllocError>
    ensures { OnOk result (text.new.items ≡ text.old.items ++ shown_login_changer
        scene.now.users.now scene.now.why scene.now.classes.now scene.now.places.now user) }
{
    let rights = Rights {
        user,
        jobs: &[],
        held: &[],
    };
    if !may_change(scene.users.groups(), &rights, scene.classes) {
        return Ok(());
    }
    push_user_entry(text, b"changer-login", user)?;
    push_power_reason(text, scene, &rights)?;
    text.extend_from_slice(b"\n")
}

/// Adds the path by which a process may change what is at a path, if reasons are asked for.
fn push_power_reason(text: &mut Vec<u8>, scene: &Scene, rights: &Rights) -> Result<(), AllocError>
    ensures { OnOk result (text.new.items ≡ text.old.items ++ shown_power_reason
        scene.now.users.now scene.now.why scene.now.classes.now scene.now.places.now
        (with_rights rights.now.user rights.now.jobs.now rights.now.held.now)) }
{
    if !scene.why {
        return Ok(());
    }
    let place = highest_power(scene.users.groups(), rights, scene.classes, scene.places);
    push_by_path(text, place)
}

/// Adds a line for each process: the word, the process and its user.
fn push_processes(
    text: &mut Vec<u8>,
    word: &[u8],
    processes: &[(ProcName, Name)],
) -> Result<(), AllocError>
    ensures { OnOk result (text.new.items
        ≡ text.old.items ++ process_lines word.now processes.now) }
{
    for process in processes {
        push_process_line(text, word, &process.0, process.1)?;
    }
    Ok(())
}

/// Adds the line of a process: the word, the process and its user.
fn push_process_line(
    text: &mut Vec<u8>,
    word: &[u8],
    process: &ProcName,
    user: Name,
) -> Result<(), AllocError>
    ensures { OnOk result (text.new.items
        ≡ text.old.items ++ process_line word.now (process.now, user)) }
{
    push_process_entry(text, word, process, user)?;
    text.extend_from_slice(b"\n")
}

/// Adds the word, the process and its user.
fn push_process_entry(
    text: &mut Vec<u8>,
    word: &[u8],
    process: &ProcName,
    user: Name,
) -> Result<(), AllocError>
    ensures { OnOk result (text.new.items
        ≡ text.old.items ++ process_entry word.now (process.now, user)) }
{
    text.extend_from_slice(word)?;
    text.extend_from_slice(b" ")?;
    push_process(*text.allocator(), text, process)?;
    text.extend_from_slice(b" ")?;
    text.extend_from_slice(user.as_bytes())
}

/// Adds a line for each user: the word and the user's name.
fn push_users(text: &mut Vec<u8>, word: &[u8], users: &[Name]) -> Result<(), AllocError>
    ensures { OnOk result (text.new.items ≡ text.old.items ++ user_lines word.now users.now) }
{
    for user in users {
        push_user_entry(text, word, *user)?;
        text.extend_from_slice(b"\n")?;
    }
    Ok(())
}

/// Adds the word and the user's name.
fn push_user_entry(text: &mut Vec<u8>, word: &[u8], user: Name) -> Result<(), AllocError>
    ensures { OnOk result (text.new.items ≡ text.old.items ++ user_entry word.now user) }
{
    text.extend_from_slice(word)?;
    text.extend_from_slice(b" ")?;
    text.extend_from_slice(user.as_bytes())
}
