//! Claims on trust, and who is trusted.
ghost use Rattle.std.specs.Prelude.{◌≡◌, ◌++◌, IfOk, OnOk, codes, map};
ghost use Rattle.std.specs.List.{flat_map, list_all};
ghost use Rattle.std.specs.Option.{option_copied};
ghost use Rattle.histar_flat.specs.Texts.{process_text};
ghost use Rattle.histar_flat.specs.Words.{Name, ProcName};
ghost use Rattle.histar_secrecy.specs.ShownRoles.{flat_class};
ghost use Rattle.histar_shell.specs.Ending.{IsTreeIn};
ghost use Rattle.histar_trust.specs.Findings.{HasState};
ghost use Rattle.histar_test.specs.declared.asking.Asking.TheVariants.{OfTrust};
ghost use Rattle.histar_test.specs.Checks.{names_text};
ghost use Rattle.histar_test.specs.Running.{AsksMachine, ShowsTrusted, ShowsTrustedAt, shown_trusted};
ghost use Rattle.histar_test.specs.Steps.{are_processes, claim_of, claimed_of, is_process_word};

use crate::checks::{Check, Made, Wanted};
use histar_base::Bytes;
use histar_flat::{Group, Name, OwnedPath, Path, ProcName, read_path, read_process};
use histar_label::InternStore;
use histar_never::split_at_spaces;
use histar_prefix::processes;
use histar_readout::TreeNode;
use histar_script::split_word;
use histar_secrecy::{FileClass, Member, Role, with_role};
use histar_shell::Machine;
use histar_texts::push_process;
use histar_trust::{is_open_way, members_among, node_at, push_classes};
use std::alloc::{AllocError, Global};

/// A claim that exactly these running processes are trusted with what is at a path.
#[derive(Drop)]
pub struct Claim {
    /// The number of its line.
    pub line: u32,
    /// The text of the claim, after `#`.
    pub said: Bytes,
    pub path: OwnedPath,
    /// The processes as they are written on the line, or `nobody`.
    pub wanted: Bytes,
}

/// Checks whether a word is a process.
fn is_process_word(word: &[u8]) -> bool
    ensures { result ≡ is_process_word word.now }
{
    read_process(word).is_some()
}

/// Checks whether all of these words are processes.
fn are_all(words: &[&[u8]]) -> bool
    ensures { result ≡ list_all is_process_word (map (λ word. word.now) words.now) }
{
    let mut rest = words;
    'words: while let [word, more @ ..] = rest {
        if !is_process_word(word) {
            return false;
        }
        rest = more;
    }
    true
}

/// Checks whether the words of a text are processes, with one space between two.
pub(crate) fn are_processes(alloc: Global, text: &[u8]) -> Result<bool, AllocError>
    ensures { IfOk result (λ are. are ≡ are_processes text.now) }
{
    let words = split_at_spaces(alloc, text)?;
    Ok(are_all(words.as_slice()))
}

/// Reads the processes behind the path of a claim, if there are any.
fn read_claimed(alloc: Global, names: Option<&[u8]>) -> Result<Option<Bytes>, AllocError>
    ensures { IfOk result (λ wanted. wanted ≡ claimed_of (option_copied names.entry)) }
{
    let Some(text) = names else {
        return Ok(Some(Bytes::copy_of(alloc, b"nobody")?));
    };
    if !are_processes(alloc, text)? {
        return Ok(None);
    }
    Ok(Some(Bytes::copy_of(alloc, text)?))
}

/// Reads the claim in the text of line `number`: `trusted PATH PROC PROC ..`.
#[tactic(auto, unfolding(crate::specs::Steps::claim_of))]
pub(crate) fn read_claim(
    alloc: Global,
    number: u32,
    text: &[u8],
) -> Result<Option<Claim>, AllocError>
    ensures { IfOk result (λ claim. claim ≡ claim_of number text.now) }
{
    let (_, rest) = split_word(text);
    let Some(rest) = rest else {
        return Ok(None);
    };
    let (word, names) = split_word(rest);
    let Some(path) = read_path(word) else {
        return Ok(None);
    };
    let Some(wanted) = read_claimed(alloc, names)? else {
        return Ok(None);
    };
    let said = Bytes::copy_of(alloc, text)?;
    let path = OwnedPath::of(alloc, &path)?;
    Ok(Some(Claim {
        line: number,
        said,
        path,
        wanted,
    }))
}

/// Returns the check of a claim: the processes that are trusted in a machine, beside those that are claimed.
/// No call is made.
pub(crate) fn ask_trusted(
    alloc: Global,
    machine: &Machine<InternStore>,
    claim: Claim,
) -> Result<Check, AllocError>
    requires { HasState machine.now }
    ensures { IfOk result (AsksMachine machine.now (OfTrust claim)) }
{
    let Claim {
        line,
        said,
        path,
        wanted,
    } = claim;
    let asked = path.path();
    let reply = trusted_text(alloc, machine, &asked)?;
    let made = Made {
        line,
        said,
        reply,
        is_refused: false,
    };
    Ok(Check {
        made,
        wanted: Wanted::Text(wanted),
    })
}

/// Returns the processes that are trusted with what is at a path of a machine.
fn trusted_text(
    alloc: Global,
    machine: &Machine<InternStore>,
    path: &Path,
) -> Result<Bytes, AllocError>
    requires { HasState machine.now }
    ensures { IfOk result (λ text. ShowsTrusted machine.now path.now text) }
{
    let tree = machine.tree(alloc)?;
    trusted_in(alloc, machine, path, tree.as_slice())
}

/// Returns the processes that are trusted with what is at a path of the tree of a machine.
fn trusted_in(
    alloc: Global,
    machine: &Machine<InternStore>,
    path: &Path,
    tree: &[TreeNode],
) -> Result<Bytes, AllocError>
    requires shows { HasState machine.now }
    requires tree { IsTreeIn machine.now tree.now }
    ensures { IfOk result (λ text. ShowsTrusted machine.now path.now text) }
{
    let mut classes = Vec::new(alloc);
    push_classes(alloc, tree, path.names(), &mut classes)?;
    trusted_at(
        alloc,
        machine,
        node_at(tree, path.names()),
        classes.as_slice(),
    )
}

/// Returns the processes that are trusted with what a tree has at a path, by its class and those of the
/// directories above it.
fn trusted_at(
    alloc: Global,
    machine: &Machine<InternStore>,
    found: Option<&TreeNode>,
    classes: &[FileClass],
) -> Result<Bytes, AllocError>
    requires { HasState machine.now }
    ensures { IfOk result (λ text.
        ShowsTrustedAt machine.now (option_copied found.entry) classes.now text) }
{
    let processes = processes(alloc, machine)?;
    let members = members_among(alloc, processes.as_slice())?;
    shown_text(
        alloc,
        machine.users().groups(),
        members.as_slice(),
        found,
        classes,
    )
}

/// Returns the same, by the processes that run.
fn shown_text(
    alloc: Global,
    groups: &[Group],
    members: &[Member],
    found: Option<&TreeNode>,
    classes: &[FileClass],
) -> Result<Bytes, AllocError>
    ensures { IfOk result (λ text. text ≡ shown_trusted groups.now members.now
        (option_copied found.entry) (map flat_class classes.now)) }
{
    let Some(node) = found else {
        return Bytes::copy_of(alloc, b"nobody");
    };
    if node.stat().is_directory {
        return Bytes::copy_of(alloc, b"nobody");
    }
    if is_open_way(classes) {
        return Bytes::copy_of(alloc, b"everyone");
    }
    let trusted = with_role(alloc, groups, classes, Role::Trusted, members)?;
    names_text(alloc, trusted.as_slice())
}

/// Returns processes with a space between two.
fn names_text(alloc: Global, processes: &[(ProcName, Name)]) -> Result<Bytes, AllocError>
    ensures { IfOk result (λ text.
        text ≡ names_text (map (λ (p : ProcName × Name). p.0) processes.now)) }
{
    let [first, rest @ ..] = processes else {
        return Bytes::copy_of(alloc, b"nobody");
    };
    let mut text = Vec::new(alloc);
    push_process(alloc, &mut text, &first.0)?;
    push_more(&mut text, rest)?;
    Ok(Bytes::from_vec(text))
}

/// Adds each process after a space.
fn push_more(text: &mut Vec<u8>, processes: &[(ProcName, Name)]) -> Result<(), AllocError>
    ensures { OnOk result (text.new.items ≡ text.old.items
        ++ flat_map (λ (p : ProcName). codes " " ++ process_text p)
        (map (λ (p : ProcName × Name). p.0) processes.now)) }
{
    for process in processes {
        text.extend_from_slice(b" ")?;
        push_process(*text.allocator(), text, &process.0)?;
    }
    Ok(())
}
