//! The titles of the texts on the secret files of a machine.
ghost use Rattle.std.specs.Prelude.{◌≡◌, ◌+◌, ◌*◌, ◌++◌, drop, IfOk, nat_lt, OnOk};
ghost use Rattle.histar_shell.specs.Ending.{IsTreeIn};
ghost use Rattle.histar_script.specs.Lines.{lines_of};
ghost use Rattle.histar_trust.specs.Findings.{AreMembers};
ghost use Rattle.histar_leak.specs.Findings.{AddsFile, AddsFiles, HasStateOf, ShowsTitles};
ghost use Rattle.histar_leak.specs.Findings.{shown_title};
ghost use Rattle.histar_leak.specs.Titles.{title_lines};

use crate::output::{Snapshot, path_lines};
use histar_flat::{Accounts, Path};
use histar_label::LabelStore;
use histar_prefix::processes;
use histar_readout::TreeNode;
use histar_script::split_line;
use histar_shell::Machine;
use histar_texts::push_path;
use histar_trust::{members_among, secret_paths};
use std::alloc::{AllocError, Global};

/// The most work for which there are titles: secret files, times the entries of the tree and the
/// pairs of processes.
const MOST_TITLE_WORK: usize = 1_000_000;

/// Returns the titles of the texts on the secret files of a machine with these users and groups, or
/// nothing where this is too much work.
///
/// It reads the tree and the processes once. Each text is made as a whole, and freed once its titles
/// are copied.
pub fn all_titles<S: LabelStore + Drop>(
    alloc: Global,
    machine: &Machine<S>,
    accounts: &Accounts,
) -> Result<Vec<u8>, AllocError>
    requires { HasStateOf accounts.now machine.now }
    ensures { IfOk result (λ text. ShowsTitles accounts.now machine.now text.items) }
{
    let tree = machine.tree(alloc)?;
    tree_titles(alloc, machine, accounts, tree.as_slice())
}

/// Returns the titles of the texts on the secret files of the tree of a machine.
fn tree_titles<S: LabelStore + Drop>(
    alloc: Global,
    machine: &Machine<S>,
    accounts: &Accounts,
    tree: &[TreeNode],
) -> Result<Vec<u8>, AllocError>
    requires shows { HasStateOf accounts.now machine.now }
    requires tree { IsTreeIn machine.now tree.now }
    ensures { IfOk result (λ text. ShowsTitles accounts.now machine.now text.items) }
{
    let processes = processes(alloc, machine)?;
    let members = members_among(alloc, processes.as_slice())?;
    let snapshot = Snapshot {
        accounts,
        members: members.as_slice(),
        tree,
    };
    snapshot_titles(alloc, machine, &snapshot)
}

/// Returns the titles of the texts on the secret files, unless this is too much work.
fn snapshot_titles<S: LabelStore + Drop>(
    alloc: Global,
    machine: &Machine<S>,
    snapshot: &Snapshot,
) -> Result<Vec<u8>, AllocError>
    requires members { AreMembers machine.now snapshot.now.members.now }
    requires tree { IsTreeIn machine.now snapshot.now.tree.now }
    ensures { IfOk result (λ text.
        ShowsTitles snapshot.now.accounts.now machine.now text.items) }
{
    let paths = secret_paths(alloc, snapshot.tree)?;
    let files = paths.as_slice();
    let mut text = Vec::new(alloc);
    if is_too_much(files.len(), snapshot.tree.len(), snapshot.members.len()) {
        return Ok(text);
    }
    push_files(alloc, &mut text, machine, snapshot, files)?;
    Ok(text)
}

/// Checks whether titles are too much work, for so many secret files, entries and processes.
fn is_too_much(files: usize, entries: usize, processes: usize) -> bool
    ensures { result ≡ nat_lt MOST_TITLE_WORK (files * (entries + processes * processes)) }
{
    let each = entries.saturating_add(processes.saturating_mul(processes));
    files.saturating_mul(each) > MOST_TITLE_WORK
}

/// Adds the titles of the texts on these files.
fn push_files<S: LabelStore + Drop>(
    alloc: Global,
    text: &mut Vec<u8>,
    machine: &Machine<S>,
    snapshot: &Snapshot,
    paths: &[Path],
) -> Result<(), AllocError>
    requires members { AreMembers machine.now snapshot.now.members.now }
    requires tree { IsTreeIn machine.now snapshot.now.tree.now }
    ensures { OnOk result (AddsFiles snapshot.now.accounts.now machine.now paths.now
        text.old.items text.new.items) }
{
    for path in paths {
        push_file(alloc, text, machine, snapshot, path)?;
    }
    Ok(())
}

/// Adds a line with the path of a file, and then the titles of the text on it.
fn push_file<S: LabelStore + Drop>(
    alloc: Global,
    text: &mut Vec<u8>,
    machine: &Machine<S>,
    snapshot: &Snapshot,
    path: &Path,
) -> Result<(), AllocError>
    requires members { AreMembers machine.now snapshot.now.members.now }
    requires tree { IsTreeIn machine.now snapshot.now.tree.now }
    ensures { OnOk result (AddsFile snapshot.now.accounts.now machine.now path.now
        text.old.items text.new.items) }
{
    let lines = path_lines(alloc, machine, snapshot, path)?;
    push_path(alloc, text, path)?;
    text.extend_from_slice(b"\n")?;
    push_titles(text, behind_first(lines.as_slice()))
}

/// Returns what is behind the first line of a text.
fn behind_first<'a>(text: &'a [u8]) -> &'a [u8]
    ensures { lines_of result.now ≡ drop 1 (lines_of text.entry.now) }
{
    if text.is_empty() {
        return text;
    }
    split_line(text).1
}

/// Adds the titles among the lines of a text.
fn push_titles(text: &mut Vec<u8>, lines: &[u8]) -> Result<(), AllocError>
    ensures { OnOk result (text.new.items
        ≡ text.old.items ++ title_lines (lines_of lines.now)) }
{
    let mut rest = lines;
    'lines: while !rest.is_empty() {
        let (line, after) = split_line(rest);
        push_title(text, line)?;
        rest = after;
    }
    Ok(())
}

/// Adds a line without its `#`, if it is a title.
fn push_title(text: &mut Vec<u8>, line: &[u8]) -> Result<(), AllocError>
    ensures { OnOk result (text.new.items ≡ text.old.items ++ shown_title line.now) }
{
    if !line.starts_with(b"# ") {
        return Ok(());
    }
    text.extend_from_slice(&line[1..])?;
    text.extend_from_slice(b"\n")
}
