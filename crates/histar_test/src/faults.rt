//! The sentence on the first bad line of a script that is no test.
ghost use Rattle.std.specs.Prelude.{◌≡◌, IfOk, false, is_some, option_map};
ghost use Rattle.std.specs.Option.{option_copied};
ghost use Rattle.histar_lint.specs.Lines.{first_sentence};
ghost use Rattle.histar_script.specs.Lines.{lines_of};
ghost use Rattle.histar_test.specs.Faults.{are_three_words, asked_rules, claim_rules, claimed_rules, expectation_rules};
ghost use Rattle.histar_test.specs.Faults.{fault_in, fault_text, last_after, line_fault, question_rules};
ghost use Rattle.histar_test.specs.Laws.{makes_call};
ghost use Rattle.histar_test.specs.Steps.{call_in, steps_from};

use crate::asking::asked_of;
use crate::claims::are_processes;
use crate::steps::{expectation_of, forbidden_of};
use histar_flat::{Accounts, read_path, read_process};
use histar_lint::copied;
use histar_lint::line_rules::rest_of;
use histar_never::{PATH, never_sentence};
use histar_rights::read_rights;
use histar_script::{Fault, Item, read_item, read_script, split_line, split_word};
use std::alloc::{AllocError, Global};

/// What a process has to be.
const PROCESS: &str =
    "a process is 0, or 0 and up to 7 numbers from 1 to 64 with a dot before each";

/// What rights have to be.
const RIGHTS: &str = "rights are four letters of srwd- in this order";

/// Returns the sentence on the first bad line of a text that is a script and no test. There is none for a test,
/// and none for a text that is no script.
pub fn fault_sentence(alloc: Global, text: &[u8]) -> Result<Option<Vec<u8>>, AllocError>
    ensures { IfOk result (λ said. option_map (λ text. text.items) said ≡ fault_text text.now) }
{
    match read_script(alloc, text) {
        Ok(script) => first_fault(alloc, script.accounts(), text),
        Err(Fault::OutOfMemory) => Err(AllocError),
        Err(_) => Ok(None),
    }
}

/// Returns the sentence on the first line that may not be in a test.
fn first_fault(
    alloc: Global,
    accounts: &Accounts,
    text: &[u8],
) -> Result<Option<Vec<u8>>, AllocError>
    ensures { IfOk result (λ said. option_map (λ text. text.items) said
        ≡ fault_in accounts.now (lines_of text.now) (steps_from accounts.now 1 false (lines_of text.now))) }
{
    let mut rest = text;
    let mut last = None;
    'lines: while !rest.is_empty() {
        let (line, after) = split_line(rest);
        if let Some(said) = line_fault(alloc, accounts, last, line)? {
            return copied(alloc, Some(said));
        }
        last = last_after(alloc, last, line)?;
        rest = after;
    }
    Ok(None)
}

/// Returns the sentence of the first rule that a line breaks, given whether the last call before it has no
/// expectation yet, if there is a call before it.
fn line_fault(
    alloc: Global,
    accounts: &Accounts,
    last: Option<bool>,
    line: &[u8],
) -> Result<Option<&'static str>, AllocError>
    ensures { IfOk result (λ said. option_copied said ≡ line_fault accounts.now last line.now) }
{
    if let Some(text) = forbidden_of(line) {
        return never_sentence(alloc, accounts, text);
    }
    if let Some(asked) = asked_of(line) {
        return asked_sentence(alloc, asked);
    }
    if expectation_of(line).is_some() {
        return Ok(expectation_sentence(last));
    }
    Ok(None)
}

/// Returns whether the last call up to a line has no expectation yet, given the same of the lines before it.
fn last_after(alloc: Global, last: Option<bool>, line: &[u8]) -> Result<Option<bool>, AllocError>
    ensures { IfOk result (λ after. after ≡ last_after last line.now) }
{
    if makes_call(alloc, line)? {
        return Ok(Some(true));
    }
    if expectation_of(line).is_some() {
        return Ok(last.map(|_| false));
    }
    Ok(last)
}

/// Checks whether a line makes a call.
fn makes_call(alloc: Global, line: &[u8]) -> Result<bool, AllocError>
    ensures { IfOk result (λ makes. makes ≡ makes_call line.now) }
{
    let item = read_item(alloc, line)?;
    Ok(is_call(&item))
}

/// Checks whether what a line says is a call.
fn is_call(item: &Option<Item>) -> bool
    ensures { result ≡ is_some (call_in 0 item.now) }
{
    match item {
        Some(Item::Call(_, _)) => true,
        Some(Item::User(_)) => false,
        Some(Item::Group(_)) => false,
        Some(Item::Comment) => false,
        None => false,
    }
}

/// Returns the sentence of the first rule that an expectation breaks.
fn expectation_sentence(last: Option<bool>) -> Option<&'static str>
    ensures { option_copied result ≡ first_sentence (expectation_rules last) }
{
    match last {
        None => Some("an expectation comes behind a call"),
        Some(false) => Some("a call has one expectation"),
        Some(true) => None,
    }
}

/// Returns the sentence of the first rule that a question or a claim breaks.
fn asked_sentence(alloc: Global, text: &[u8]) -> Result<Option<&'static str>, AllocError>
    ensures { IfOk result (λ said. option_copied said ≡ first_sentence (asked_rules text.now)) }
{
    if let Some(question) = text.strip_prefix(b"! ".as_slice()) {
        return Ok(question_sentence(question));
    }
    claim_sentence(alloc, text)
}

/// Checks whether a text is three words, with one space between two.
fn are_three_words(text: &[u8]) -> bool
    ensures { result ≡ are_three_words text.now }
{
    let rest = rest_of(text);
    split_word(text).1.is_some()
        && split_word(rest).1.is_some()
        && split_word(rest_of(rest)).1.is_none()
}

/// Returns the sentence of the first rule that a question breaks.
fn question_sentence(text: &[u8]) -> Option<&'static str>
    ensures { option_copied result ≡ first_sentence (question_rules text.now) }
{
    if !are_three_words(text) {
        return Some("a question is `#! PATH PROC RIGHTS`");
    }
    if read_path(split_word(text).0).is_none() {
        return Some(PATH);
    }
    let rest = rest_of(text);
    if read_process(split_word(rest).0).is_none() {
        return Some(PROCESS);
    }
    if read_rights(rest_of(rest)).is_none() {
        return Some(RIGHTS);
    }
    None
}

/// Returns the sentence of the first rule that a claim breaks.
fn claim_sentence(alloc: Global, text: &[u8]) -> Result<Option<&'static str>, AllocError>
    ensures { IfOk result (λ said. option_copied said ≡ first_sentence (claim_rules text.now)) }
{
    let rest = rest_of(text);
    if rest.is_empty() {
        return Ok(Some("a claim is `#trusted PATH PROC PROC ..`"));
    }
    let (word, names) = split_word(rest);
    if read_path(word).is_none() {
        return Ok(Some(PATH));
    }
    claimed_sentence(alloc, names)
}

/// Returns the sentence of the first rule that the processes of a claim break.
fn claimed_sentence(alloc: Global, names: Option<&[u8]>) -> Result<Option<&'static str>, AllocError>
    ensures { IfOk result (λ said. option_copied said
        ≡ first_sentence (claimed_rules (option_copied names.entry))) }
{
    let Some(text) = names else {
        return Ok(None);
    };
    if are_processes(alloc, text)? {
        return Ok(None);
    }
    Ok(Some(PROCESS))
}
