//! The rules for lines that declare users and groups.
ghost use Rattle.std.specs.Prelude.{◌≡◌, ◌++◌, IfOk, option_map};
ghost use Rattle.std.specs.Option.{option_copied};
ghost use Rattle.histar_flat.specs.Accounts.{is_group};
ghost use Rattle.histar_script.specs.Lines.{lines_of};
ghost use Rattle.histar_script.specs.Reading.{has_user, item_of};
ghost use Rattle.histar_lint.specs.Lines.{first_sentence};
ghost use Rattle.histar_lint.specs.Rules.{are_two_words, declared_on, declared_twice, declares, group_place_rules, group_word_rules};
ghost use Rattle.histar_lint.specs.Rules.{has_stranger, has_twin, is_taken, member_rules, read_so_far, user_place_rules, user_word_rules};

use crate::line_rules::rest_of;
use crate::shapes::{Kind, kind_text};
use crate::texts::push_number;
use histar_flat::{Accounts, CallLine, Group, User, read_password, read_user_name};
use histar_script::{
    Item, are_distinct, are_users, has_user, read_group, read_item, split_line, split_word,
};
use std::alloc::{AllocError, Global};

/// The most users of a script.
const MOST_USERS: usize = 16;

/// The most groups of a script.
const MOST_GROUPS: usize = 8;

/// What the name of a user or of a group has to be.
const DECLARED_NAME: &str =
    "the name of a user or a group has 1 to 32 of a-z, 0-9, dot, underscore and hyphen, begins with a letter and is not nobody";

/// Checks whether a text is two words, with a space between them.
fn are_two_words(text: &[u8]) -> bool
    ensures { result ≡ are_two_words text.now }
{
    split_word(text).1.is_some() && split_word(rest_of(text)).1.is_none()
}

/// Returns the sentence of the first rule that the words after `user` break.
pub(crate) fn user_word_sentence(text: &[u8]) -> Option<&'static str>
    ensures { option_copied result ≡ first_sentence (user_word_rules text.now) }
{
    if !are_two_words(text) {
        return Some("a user line is `user NAME PASSWORD`");
    }
    if read_user_name(split_word(text).0).is_none() {
        return Some(DECLARED_NAME);
    }
    if read_password(rest_of(text)).is_none() {
        return Some(kind_text(Kind::Password));
    }
    None
}

/// Checks whether a line declares the user of this name.
fn declares(name: &[u8], item: Option<&Item>) -> bool
    ensures { result ≡ declares name.now (option_copied item.entry) }
{
    match item {
        Some(Item::User(user)) => user.name.as_bytes() == name,
        _ => false,
    }
}

/// Checks whether this line declares the user of this name.
fn line_declares(alloc: Global, line: &[u8], name: &[u8]) -> Result<bool, AllocError>
    ensures { IfOk result (λ is_so. is_so ≡ declares name.now (item_of line.now)) }
{
    let item = read_item(alloc, line)?;
    Ok(declares(name, item.as_ref()))
}

/// Returns the number of the first line of a text that declares the user of this name, or one more than there
/// are lines.
fn declared_on(alloc: Global, text: &[u8], name: &[u8]) -> Result<usize, AllocError>
    ensures { IfOk result (λ line. line ≡ declared_on (lines_of text.now) name.now) }
{
    let mut rest = text;
    let mut number = 1usize;
    'lines: while !rest.is_empty() {
        let (line, after) = split_line(rest);
        if line_declares(alloc, line, name)? {
            return Ok(number);
        }
        rest = after;
        number += 1;
    }
    Ok(number)
}

/// Returns the sentence that a user is declared already, with the line.
fn declared_twice(alloc: Global, text: &[u8], name: &[u8]) -> Result<Vec<u8>, AllocError>
    ensures { IfOk result (λ said. said.items ≡ declared_twice (lines_of text.now) name.now) }
{
    let line = declared_on(alloc, text, name)?;
    let mut said = Vec::from_slice(alloc, b"user ".as_slice())?;
    said.extend_from_slice(name)?;
    said.extend_from_slice(b" stands already on line ")?;
    push_number(&mut said, line as u64)?;
    Ok(said)
}

/// Checks whether the first word of a text is the name of a user.
fn is_user(users: &[User], words: &[u8]) -> bool
    ensures { result ≡ is_taken (has_user users.now) words.now }
{
    match read_user_name(split_word(words).0) {
        Some(name) => has_user(users, name),
        None => false,
    }
}

/// Checks whether the first word of a text is the name of a group.
fn is_group(accounts: &Accounts, words: &[u8]) -> bool
    ensures { result ≡ is_taken (is_group accounts.now) words.now }
{
    match read_user_name(split_word(words).0) {
        Some(name) => accounts.has_group(name),
        None => false,
    }
}

/// Returns the sentence of the first rule by which a user line of a text may not be where it is.
pub(crate) fn user_place_sentence(
    alloc: Global,
    text: &[u8],
    accounts: &Accounts,
    calls: &[CallLine],
    words: &[u8],
) -> Result<Option<Vec<u8>>, AllocError>
    ensures { IfOk result (λ said. option_map (λ text. text.items) said
        ≡ first_sentence (user_place_rules (lines_of text.now) (read_so_far accounts.now calls.now)
        words.now)) }
{
    let fixed = if !accounts.groups().is_empty() {
        b"a user line after a group line".as_slice()
    } else if !calls.is_empty() {
        b"a user line after a call line".as_slice()
    } else if accounts.users().len() >= MOST_USERS {
        b"17 users, and 16 is the most".as_slice()
    } else if is_user(accounts.users(), words) {
        return Ok(Some(declared_twice(alloc, text, split_word(words).0)?));
    } else {
        return Ok(None);
    };
    Ok(Some(Vec::from_slice(alloc, fixed)?))
}

/// Returns the sentence of the first rule that the words after `group` break.
pub(crate) fn group_word_sentence(
    alloc: Global,
    text: &[u8],
) -> Result<Option<&'static str>, AllocError>
    ensures { IfOk result (λ said. option_copied said ≡ first_sentence (group_word_rules text.now)) }
{
    let (word, rest) = split_word(text);
    if rest.is_none() {
        return Ok(Some("a group line is `group NAME USER..`"));
    }
    if read_user_name(word).is_none() {
        return Ok(Some(DECLARED_NAME));
    }
    if read_group(alloc, text)?.is_none() {
        return Ok(Some(
            "a group has 1 to 16 members, each a user's name, with one space between two",
        ));
    }
    Ok(None)
}

/// Checks whether a group has a member that is no user.
fn has_stranger(users: &[User], group: Option<&Group>) -> bool
    ensures { result ≡ has_stranger users.now (option_copied group.entry) }
{
    match group {
        Some(group) => !are_users(users, group.members()),
        None => false,
    }
}

/// Checks whether a group has a member twice.
fn has_twin(group: Option<&Group>) -> bool
    ensures { result ≡ has_twin (option_copied group.entry) }
{
    match group {
        Some(group) => !are_distinct(group.members()),
        None => false,
    }
}

/// Returns the sentence of the first rule by which a group line may not be where it is.
pub(crate) fn group_place_sentence(
    alloc: Global,
    accounts: &Accounts,
    calls: &[CallLine],
    words: &[u8],
) -> Result<Option<&'static str>, AllocError>
    ensures { IfOk result (λ said. option_copied said
        ≡ first_sentence (group_place_rules (read_so_far accounts.now calls.now) words.now)) }
{
    if !calls.is_empty() {
        Ok(Some("a group line after a call line"))
    } else if accounts.groups().len() >= MOST_GROUPS {
        Ok(Some("9 groups, and 8 is the most"))
    } else if is_user(accounts.users(), words) {
        Ok(Some("a user has this name already"))
    } else if is_group(accounts, words) {
        Ok(Some("a group has this name already"))
    } else {
        member_sentence(alloc, accounts.users(), words)
    }
}

/// Returns the sentence of the first rule that the members of a group break.
fn member_sentence(
    alloc: Global,
    users: &[User],
    words: &[u8],
) -> Result<Option<&'static str>, AllocError>
    ensures { IfOk result (λ said. option_copied said
        ≡ first_sentence (member_rules users.now words.now)) }
{
    let group = read_group(alloc, words)?;
    Ok(if has_stranger(users, group.as_ref()) {
        Some("a member is no user of the lines above")
    } else if has_twin(group.as_ref()) {
        Some("a member is there twice")
    } else {
        None
    })
}
