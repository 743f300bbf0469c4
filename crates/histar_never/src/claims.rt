//! A claim that somebody never has a right, and its reading.
ghost use Rattle.std.specs.Prelude.{◌≡◌, IfOk, codes, map, None, option_map, if◌then◌else◌};
ghost use Rattle.std.specs.List.{list_any};
ghost use Rattle.std.specs.Str.{bytes_eq};
ghost use Rattle.histar_base.specs.Paths.{same};
ghost use Rattle.histar_flat.specs.Accounts.{has};
ghost use Rattle.histar_flat.specs.Words.{process_of};
ghost use Rattle.histar_rights.specs.Users.{somebody};
ghost use Rattle.histar_never.specs.declared.whom.Whom.TheVariants.{AllBut};
ghost use Rattle.histar_never.specs.Claims.{never_by, never_of, one_by, user_in, users_in, whom_of};

use crate::letters::read_letters;
use crate::whom::{Excepted, Whom};
use crate::words::{letters_word, path_word, split_at_spaces, who_words};
use histar_base::Bytes;
use histar_cells::nobody;
use histar_flat::{Accounts, Name, OwnedPath, User, read_name, read_path, read_process};
use histar_rights::Rights;
use std::alloc::{AllocError, Global};

/// A claim that nobody whom it means has one of its letters at its path, after any call.
#[derive(Drop)]
pub struct Never {
    /// The number of its line.
    pub line: u32,
    /// The text of the claim, after `#`.
    pub said: Bytes,
    pub path: OwnedPath,
    pub whom: Whom,
    pub letters: Rights,
}

/// Checks whether one of these users has this name.
fn is_declared(users: &[User], name: Name) -> bool
    ensures { result ≡ list_any (λ user. same name user.name) users.now }
{
    users.iter().any(|user| name == user.name)
}

/// Checks whether nobody or a declared user has this name.
fn is_somebody(accounts: &Accounts, name: Name) -> bool
    ensures { result ≡ has (somebody accounts.now) name }
{
    name == nobody() || is_declared(accounts.users(), name)
}

/// Reads a user: nobody, or one that is declared.
fn read_user(accounts: &Accounts, word: &[u8]) -> Option<Name>
    ensures { result ≡ user_in accounts.now word.now }
{
    let name = read_name(word)?;
    if !is_somebody(accounts, name) {
        return None;
    }
    Some(name)
}

/// Reads the users that words name.
fn read_users(
    alloc: Global,
    accounts: &Accounts,
    words: &[&[u8]],
) -> Result<Option<Excepted>, AllocError>
    ensures { IfOk result (λ users.
        users ≡ users_in accounts.now (map (λ word. word.now) words.now)) }
{
    let mut names = Vec::new(alloc);
    let mut rest = words;
    'words: while let [word, more @ ..] = rest {
        let Some(user) = read_user(accounts, word) else {
            return Ok(None);
        };
        names.push(user)?;
        rest = more;
    }
    Ok(Some(Excepted::of(names)))
}

/// Reads whom one word means: a process, or else a user.
fn read_one(accounts: &Accounts, word: &[u8]) -> Option<Whom>
    ensures { result ≡ one_by accounts.now word.now (process_of word.now) }
{
    if let Some(process) = read_process(word) {
        return Some(Whom::OfProcess(process));
    }
    let user = read_user(accounts, word)?;
    Some(Whom::OfUser(user))
}

/// Reads `all-but` and the users after it.
fn read_all_but(
    alloc: Global,
    accounts: &Accounts,
    word: &[u8],
    users: &[&[u8]],
) -> Result<Option<Whom>, AllocError>
    ensures { IfOk result (λ whom. whom ≡ (if bytes_eq word.now (codes "all-but")
        then option_map AllBut (users_in accounts.now (map (λ word. word.now) users.now))
        else None)) }
{
    if word != b"all-but".as_slice() {
        return Ok(None);
    }
    let Some(users) = read_users(alloc, accounts, users)? else {
        return Ok(None);
    };
    Ok(Some(Whom::AllBut(users)))
}

/// Reads whom words mean: one is a process or a user, and more are `all-but` and users.
pub(crate) fn read_whom(
    alloc: Global,
    accounts: &Accounts,
    words: &[&[u8]],
) -> Result<Option<Whom>, AllocError>
    ensures { IfOk result (λ whom.
        whom ≡ whom_of accounts.now (map (λ word. word.now) words.now)) }
{
    match words {
        [] => Ok(None),
        [word] => Ok(read_one(accounts, word)),
        [word, users @ ..] => read_all_but(alloc, accounts, word, users),
    }
}

/// Reads the claim of these words, in the text of line `number`.
#[tactic(auto, unfolding(crate::specs::Claims::never_by))]
fn read_words(
    alloc: Global,
    accounts: &Accounts,
    number: u32,
    text: &[u8],
    words: &[&[u8]],
) -> Result<Option<Never>, AllocError>
    ensures { IfOk result (λ claim. claim
        ≡ never_by accounts.now number text.now (map (λ word. word.now) words.now)) }
{
    let Some(path) = read_path(path_word(words)) else {
        return Ok(None);
    };
    let Some(whom) = read_whom(alloc, accounts, who_words(words))? else {
        return Ok(None);
    };
    let Some(letters) = read_letters(letters_word(words)) else {
        return Ok(None);
    };
    let said = Bytes::copy_of(alloc, text)?;
    let path = OwnedPath::of(alloc, &path)?;
    Ok(Some(Never {
        line: number,
        said,
        path,
        whom,
        letters,
    }))
}

/// Reads the claim in the text of line `number`: `never PATH WHO LETTERS`, where each user is one
/// of the accounts or nobody.
pub fn read_never(
    alloc: Global,
    accounts: &Accounts,
    number: u32,
    text: &[u8],
) -> Result<Option<Never>, AllocError>
    ensures { IfOk result (λ claim. claim ≡ never_of accounts.now number text.now) }
{
    let words = split_at_spaces(alloc, text)?;
    read_words(alloc, accounts, number, text, words.as_slice())
}
