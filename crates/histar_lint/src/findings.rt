//! The sentence about a bad line.
ghost use Rattle.std.specs.Prelude.{◌≡◌, ◌++◌, IfOk, option_map};
ghost use Rattle.std.specs.Option.{option_copied};
ghost use Rattle.histar_script.specs.Lines.{lines_of};
ghost use Rattle.histar_lint.specs.Lines.{first_sentence};
ghost use Rattle.histar_lint.specs.Calls.{call_word_rules};
ghost use Rattle.histar_lint.specs.FreeParts.{word_rules};
ghost use Rattle.histar_lint.specs.Rules.{call_place_rules, group_place_rules, group_word_rules, is_comment, kind_rules, read_so_far};
ghost use Rattle.histar_lint.specs.Rules.{said_rules, sentence, user_place_rules, user_word_rules};

use crate::call_rules::{call_place_sentence, call_word_sentence};
use crate::declaration_rules::{
    group_place_sentence, group_word_sentence, user_place_sentence, user_word_sentence,
};
use crate::line_rules::{begins_with, byte_sentence, rest_of};
use crate::word_rules::word_sentence;
use histar_flat::{Accounts, CallLine};
use histar_script::split_word;
use std::alloc::{AllocError, Global};

/// Copies a sentence, if there is one.
pub fn copied(alloc: Global, said: Option<&str>) -> Result<Option<Vec<u8>>, AllocError>
    ensures { IfOk result (λ copy. option_map (λ text. text.items) copy ≡ option_copied said.entry) }
{
    match said {
        None => Ok(None),
        Some(said) => Ok(Some(Vec::from_slice(alloc, said.as_bytes())?)),
    }
}

/// Returns the sentence of the first rule that a user line of a text breaks: its words, or where it is.
fn user_sentence(
    alloc: Global,
    text: &[u8],
    accounts: &Accounts,
    calls: &[CallLine],
    words: &[u8],
) -> Result<Option<Vec<u8>>, AllocError>
    ensures { IfOk result (λ said. option_map (λ text. text.items) said
        ≡ first_sentence (user_word_rules words.now
        ++ user_place_rules (lines_of text.now) (read_so_far accounts.now calls.now) words.now)) }
{
    match copied(alloc, user_word_sentence(words))? {
        Some(said) => Ok(Some(said)),
        None => user_place_sentence(alloc, text, accounts, calls, words),
    }
}

/// Returns the sentence of the first rule that a group line breaks.
fn group_sentence(
    alloc: Global,
    accounts: &Accounts,
    calls: &[CallLine],
    words: &[u8],
) -> Result<Option<Vec<u8>>, AllocError>
    ensures { IfOk result (λ said. option_map (λ text. text.items) said
        ≡ first_sentence (group_word_rules words.now
        ++ group_place_rules (read_so_far accounts.now calls.now) words.now)) }
{
    let said = match group_word_sentence(alloc, words)? {
        Some(said) => Some(said),
        None => group_place_sentence(alloc, accounts, calls, words)?,
    };
    copied(alloc, said)
}

/// Returns the sentence of the first rule that a call line breaks.
fn call_sentence(
    alloc: Global,
    accounts: &Accounts,
    calls: &[CallLine],
    process: &[u8],
    words: &[u8],
) -> Result<Option<Vec<u8>>, AllocError>
    ensures { IfOk result (λ said. option_map (λ text. text.items) said
        ≡ first_sentence (call_word_rules process.now words.now
        ++ call_place_rules (read_so_far accounts.now calls.now) words.now)) }
{
    match call_word_sentence(alloc, process, words)? {
        Some(said) => Ok(Some(said)),
        None => copied(alloc, call_place_sentence(alloc, accounts, calls, words)?),
    }
}

/// Returns the sentence of the first rule for lines of its kind that a line breaks.
fn kind_sentence(
    alloc: Global,
    text: &[u8],
    accounts: &Accounts,
    calls: &[CallLine],
    line: &[u8],
) -> Result<Option<Vec<u8>>, AllocError>
    ensures { IfOk result (λ said. option_map (λ text. text.items) said
        ≡ first_sentence (kind_rules (lines_of text.now) (read_so_far accounts.now calls.now) line.now)) }
{
    let word = split_word(line).0;
    let words = rest_of(line);
    if word == b"user".as_slice() {
        user_sentence(alloc, text, accounts, calls, words)
    } else if word == b"group".as_slice() {
        group_sentence(alloc, accounts, calls, words)
    } else {
        call_sentence(alloc, accounts, calls, word, words)
    }
}

/// Returns the sentence of the first rule for words that a line breaks.
fn printable_sentence(
    alloc: Global,
    text: &[u8],
    accounts: &Accounts,
    calls: &[CallLine],
    line: &[u8],
) -> Result<Option<Vec<u8>>, AllocError>
    ensures { IfOk result (λ said. option_map (λ text. text.items) said
        ≡ first_sentence (word_rules line.now
        ++ kind_rules (lines_of text.now) (read_so_far accounts.now calls.now) line.now)) }
{
    match copied(alloc, word_sentence(line))? {
        Some(said) => Ok(Some(said)),
        None => kind_sentence(alloc, text, accounts, calls, line),
    }
}

/// Checks whether a line is a comment.
fn is_comment(line: &[u8]) -> bool
    ensures { result ≡ is_comment line.now }
{
    line.is_empty() || begins_with(line, b'#')
}

/// Returns the sentence of the first rule for what it says that a line breaks.
fn said_sentence(
    alloc: Global,
    text: &[u8],
    accounts: &Accounts,
    calls: &[CallLine],
    line: &[u8],
) -> Result<Option<Vec<u8>>, AllocError>
    ensures { IfOk result (λ said. option_map (λ text. text.items) said
        ≡ first_sentence (said_rules (lines_of text.now) (read_so_far accounts.now calls.now)
        line.now)) }
{
    if is_comment(line) {
        return Ok(None);
    }
    printable_sentence(alloc, text, accounts, calls, line)
}

/// Returns the sentence of the first rule that a line of a text breaks, given the accounts and calls of the
/// lines above it.
pub fn sentence(
    alloc: Global,
    text: &[u8],
    accounts: &Accounts,
    calls: &[CallLine],
    line: &[u8],
) -> Result<Option<Vec<u8>>, AllocError>
    ensures { IfOk result (λ said. option_map (λ text. text.items) said
        ≡ sentence (lines_of text.now) (read_so_far accounts.now calls.now) line.now) }
{
    match byte_sentence(alloc, line)? {
        Some(said) => Ok(Some(said)),
        None => said_sentence(alloc, text, accounts, calls, line),
    }
}
