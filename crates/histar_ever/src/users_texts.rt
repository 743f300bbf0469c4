//! The text of what was gathered by users.
ghost use Rattle.std.specs.Prelude.{◌≡◌, ◌++◌, IfOk, OnOk};
ghost use Rattle.std.specs.List.{flat_map};
ghost use Rattle.histar_ever.specs.GatheringUsers.{IsGatheredUsersText, gathered_user, gathered_users_line};

use crate::by_users::EverUsers;
use histar_flat::{Name, Path};
use histar_texts::push_path;
use std::alloc::{AllocError, Global};

/// Returns a line for each path, with the letters that nobody and each user had there.
pub(crate) fn ever_users_text(alloc: Global, ever: &EverUsers) -> Result<Vec<u8>, AllocError>
    ensures { IfOk result (λ text. IsGatheredUsersText ever.now text.items) }
{
    let paths = ever.paths(alloc)?;
    lines_text(alloc, ever, paths.as_slice())
}

/// Returns the lines of these paths.
fn lines_text(alloc: Global, ever: &EverUsers, paths: &[Path]) -> Result<Vec<u8>, AllocError>
    ensures { IfOk result (λ text.
        text.items ≡ flat_map (gathered_users_line ever.now.letters ever.now.users.items) paths.now) }
{
    let mut text = Vec::new(alloc);
    for path in paths {
        push_line(&mut text, ever, path)?;
    }
    Ok(text)
}

/// Adds the line of a path: the path, the letters of nobody and of each user, and a line end.
fn push_line(text: &mut Vec<u8>, ever: &EverUsers, path: &Path) -> Result<(), AllocError>
    ensures { OnOk result (text.new.items
        ≡ text.old.items ++ gathered_users_line ever.now.letters ever.now.users.items path.now) }
{
    push_path(*text.allocator(), text, path)?;
    push_users(text, ever, path, ever.users.as_slice())?;
    text.extend_from_slice(b"\n")
}

/// Adds the letters of these users at a path.
fn push_users(
    text: &mut Vec<u8>,
    ever: &EverUsers,
    path: &Path,
    users: &[Name],
) -> Result<(), AllocError>
    ensures { OnOk result (text.new.items
        ≡ text.old.items ++ flat_map (gathered_user ever.now.letters path.now) users.now) }
{
    for user in users {
        push_user(text, ever, path, user)?;
    }
    Ok(())
}

/// Adds a space, the user, a colon and its letters at a path.
fn push_user(
    text: &mut Vec<u8>,
    ever: &EverUsers,
    path: &Path,
    user: &Name,
) -> Result<(), AllocError>
    ensures { OnOk result (text.new.items
        ≡ text.old.items ++ gathered_user ever.now.letters path.now user.now) }
{
    text.extend_from_slice(b" ")?;
    text.extend_from_slice(user.as_bytes())?;
    text.extend_from_slice(b":")?;
    ever.letters(path, user).push_letters(text)
}
