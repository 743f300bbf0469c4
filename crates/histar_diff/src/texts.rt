//! The text of what differs.
ghost use Rattle.std.specs.Prelude.{◌≡◌, ◌++◌, IfOk, OnOk};
ghost use Rattle.std.specs.List.{flat_map};
ghost use Rattle.histar_diff.specs.Texts.{change_text, difference_text, differences_text};
ghost use Rattle.histar_diff.specs.Texts.{fate_text};
ghost use Rattle.histar_diff.specs.Texts.{letters_text, lone_text, user_text};

use crate::differences::{Difference, Differences};
use crate::lone::Lone;
use histar_flat::Name;
use histar_rights::Rights;
use histar_texts::{push_path, push_process};
use std::alloc::{AllocError, Global};

/// Returns the lines of what differs: those of processes, and then those of paths.
pub fn text_of(alloc: Global, differences: &Differences) -> Result<Vec<u8>, AllocError>
    ensures { IfOk result (λ text.
        text.items ≡ differences_text differences.now.lone.items differences.now.pairs.items) }
{
    let mut text = Vec::new(alloc);
    push_all_lone(&mut text, differences.lone.as_slice())?;
    push_differences(&mut text, differences.pairs.as_slice())?;
    Ok(text)
}

/// Adds the lines of processes that run on one side only.
fn push_all_lone(text: &mut Vec<u8>, lone: &[Lone]) -> Result<(), AllocError>
    ensures { OnOk result (text.new.items ≡ text.old.items ++ flat_map lone_text lone.now) }
{
    for process in lone {
        push_lone(text, process)?;
    }
    Ok(())
}

/// Adds the line of a process that runs on one side only: its name, its user, and `gone` or `new`.
fn push_lone(text: &mut Vec<u8>, lone: &Lone) -> Result<(), AllocError>
    ensures { OnOk result (text.new.items ≡ text.old.items ++ lone_text lone.now) }
{
    text.extend_from_slice(b"process ")?;
    push_process(*text.allocator(), text, &lone.process)?;
    text.extend_from_slice(b" ")?;
    text.extend_from_slice(lone.user.as_bytes())?;
    push_fate(text, lone.is_new)
}

/// Adds a space, `new` or `gone`, and a line end.
pub(crate) fn push_fate(text: &mut Vec<u8>, is_new: bool) -> Result<(), AllocError>
    ensures { OnOk result (text.new.items ≡ text.old.items ++ fate_text is_new) }
{
    text.extend_from_slice(if is_new {
        b" new\n".as_slice()
    } else {
        b" gone\n".as_slice()
    })
}

/// Adds the lines of differences.
fn push_differences(text: &mut Vec<u8>, differences: &[Difference]) -> Result<(), AllocError>
    ensures { OnOk result (text.new.items ≡ text.old.items ++ flat_map difference_text differences.now) }
{
    for difference in differences {
        push_difference(text, difference)?;
    }
    Ok(())
}

/// Adds the line of a difference: the path, the process, its user or both users, and its letters in the old
/// and in the new table.
fn push_difference(text: &mut Vec<u8>, difference: &Difference) -> Result<(), AllocError>
    ensures { OnOk result (text.new.items ≡ text.old.items ++ difference_text difference.now) }
{
    let alloc = *text.allocator();
    push_path(alloc, text, &difference.path)?;
    text.extend_from_slice(b" ")?;
    push_process(alloc, text, &difference.process)?;
    text.extend_from_slice(b" ")?;
    push_user(text, difference.old_user, difference.user)?;
    push_change(text, difference.before, difference.after)
}

/// Adds a user, or the old one, `>` and the new one if they differ.
fn push_user(text: &mut Vec<u8>, old: Name, new: Name) -> Result<(), AllocError>
    ensures { OnOk result (text.new.items ≡ text.old.items ++ user_text old new) }
{
    if old != new {
        text.extend_from_slice(old.as_bytes())?;
        text.extend_from_slice(b">")?;
    }
    text.extend_from_slice(new.as_bytes())
}

/// Adds the letters in the old and in the new table, each after a space, and a line end.
pub(crate) fn push_change(
    text: &mut Vec<u8>,
    before: Option<Rights>,
    after: Option<Rights>,
) -> Result<(), AllocError>
    ensures { OnOk result (text.new.items ≡ text.old.items ++ change_text before after) }
{
    text.extend_from_slice(b" ")?;
    push_letters(text, before)?;
    text.extend_from_slice(b" ")?;
    push_letters(text, after)?;
    text.extend_from_slice(b"\n")
}

/// Adds the letters, or four dots for a path that is not there.
fn push_letters(text: &mut Vec<u8>, letters: Option<Rights>) -> Result<(), AllocError>
    ensures { OnOk result (text.new.items ≡ text.old.items ++ letters_text letters) }
{
    match letters {
        Some(rights) => rights.push_letters(text),
        None => text.extend_from_slice(b"...."),
    }
}
