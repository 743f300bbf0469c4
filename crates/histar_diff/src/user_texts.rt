//! The text of what differs for users.
ghost use Rattle.std.specs.Prelude.{◌≡◌, ◌++◌, IfOk, OnOk};
ghost use Rattle.std.specs.List.{flat_map};
ghost use Rattle.histar_diff.specs.UserTexts.{lone_user_text, user_difference_text};
ghost use Rattle.histar_diff.specs.UserTexts.{user_differences_text};

use crate::texts::{push_change, push_fate};
use crate::user_differences::{UserDifference, UserDifferences};
use crate::users::LoneUser;
use histar_texts::push_path;
use std::alloc::{AllocError, Global};

/// Returns the lines of what differs for users: those of users that one script lacks, and then
/// those of paths.
pub fn users_text_of(alloc: Global, differences: &UserDifferences) -> Result<Vec<u8>, AllocError>
    ensures { IfOk result (λ text.
        text.items ≡ user_differences_text differences.now.lone.items differences.now.pairs.items) }
{
    let mut text = Vec::new(alloc);
    push_all_lone(&mut text, differences.lone.as_slice())?;
    push_differences(&mut text, differences.pairs.as_slice())?;
    Ok(text)
}

/// Adds the lines of users that one script lacks.
fn push_all_lone(text: &mut Vec<u8>, lone: &[LoneUser]) -> Result<(), AllocError>
    ensures { OnOk result (text.new.items ≡ text.old.items ++ flat_map lone_user_text lone.now) }
{
    for user in lone {
        push_lone(text, user)?;
    }
    Ok(())
}

/// Adds the line of a user that one script lacks: its name, and `gone` or `new`.
fn push_lone(text: &mut Vec<u8>, lone: &LoneUser) -> Result<(), AllocError>
    ensures { OnOk result (text.new.items ≡ text.old.items ++ lone_user_text lone.now) }
{
    text.extend_from_slice(b"user ")?;
    text.extend_from_slice(lone.user.as_bytes())?;
    push_fate(text, lone.is_new)
}

/// Adds the lines of differences.
fn push_differences(text: &mut Vec<u8>, differences: &[UserDifference]) -> Result<(), AllocError>
    ensures { OnOk result (text.new.items
        ≡ text.old.items ++ flat_map user_difference_text differences.now) }
{
    for difference in differences {
        push_difference(text, difference)?;
    }
    Ok(())
}

/// Adds the line of a difference: the path, the user, and its letters in the old and in the new
/// table.
fn push_difference(text: &mut Vec<u8>, difference: &UserDifference) -> Result<(), AllocError>
    ensures { OnOk result (text.new.items ≡ text.old.items ++ user_difference_text difference.now) }
{
    push_path(*text.allocator(), text, &difference.path)?;
    text.extend_from_slice(b" ")?;
    text.extend_from_slice(difference.user.as_bytes())?;
    push_change(text, difference.before, difference.after)
}
