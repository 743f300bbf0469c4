//! The sentence about a bad line.
ghost use Rattle.std.specs.Prelude.{◌≡◌, ◌++◌, IfOk, None, Some, option_map};
ghost use Rattle.histar_lint.specs.Lines.{first_sentence, space_rules};
ghost use Rattle.histar_lint.specs.Rules.{read_so_far};
ghost use Rattle.histar_script.specs.Lines.{lines_of};
ghost use Rattle.histar_attack_lint.specs.Rules.{long_call_text, mixed_sentence, raw_byte_rules, raw_form, raw_word_rules};
ghost use Rattle.histar_attack_lint.specs.Rules.{thread_line_rules};

use histar_flat::{Accounts, CallLine};
use histar_lint::line_rules::{printable_sentence, space_sentence};
use histar_lint::texts::push_number;
use histar_lint::{copied, sentence};
use histar_raw_lint::thread_call_sentence;
use histar_script::split_word;
use std::alloc::{AllocError, Global};

/// The word in front of a raw call.
const THREAD_WORD: &[u8] = b"thread";

/// The most bytes of a raw call.
const MOST_CALL_BYTES: usize = 1_024;

/// Returns the form of a line with a raw call.
fn raw_form(alloc: Global) -> Result<Vec<u8>, AllocError>
    ensures { IfOk result (λ said. said.items ≡ raw_form) }
{
    Vec::from_slice(
        alloc,
        b"a line with a raw call is `thread N CALL`, as in `thread 2 make_category`".as_slice(),
    )
}

/// Returns the sentence that a raw call has too many bytes, with their number.
fn long_call_text(alloc: Global, call: &[u8]) -> Result<Vec<u8>, AllocError>
    ensures { IfOk result (λ said. said.items ≡ long_call_text call.now) }
{
    let mut said = Vec::from_slice(alloc, b"the raw call has ".as_slice())?;
    push_number(&mut said, call.len() as u64)?;
    said.extend_from_slice(b" bytes, and 1024 is the most")?;
    Ok(said)
}

/// Returns the sentence of the first rule for bytes that a line with a raw call breaks.
fn byte_sentence(alloc: Global, line: &[u8], call: &[u8]) -> Result<Option<Vec<u8>>, AllocError>
    ensures { IfOk result (λ said. option_map (λ text. text.items) said
        ≡ first_sentence (raw_byte_rules line.now call.now)) }
{
    if call.len() > MOST_CALL_BYTES {
        return Ok(Some(long_call_text(alloc, call)?));
    }
    printable_sentence(alloc, line)
}

/// Returns the sentence of the first rule for words that a raw call breaks.
fn word_sentence(alloc: Global, call: &[u8]) -> Result<Option<Vec<u8>>, AllocError>
    ensures { IfOk result (λ said. option_map (λ text. text.items) said
        ≡ first_sentence (raw_word_rules call.now)) }
{
    if split_word(call).1.is_none() {
        return Ok(Some(raw_form(alloc)?));
    }
    thread_call_sentence(alloc, call)
}

/// Returns the sentence of the first rule for spaces and words that a line with a raw call breaks.
fn printed_sentence(alloc: Global, line: &[u8], call: &[u8]) -> Result<Option<Vec<u8>>, AllocError>
    ensures { IfOk result (λ said. option_map (λ text. text.items) said
        ≡ first_sentence (space_rules line.now None ++ raw_word_rules call.now)) }
{
    match copied(alloc, space_sentence(line, None))? {
        Some(said) => Ok(Some(said)),
        None => word_sentence(alloc, call),
    }
}

/// Returns the sentence of the first rule that a line with a raw call breaks.
fn raw_sentence(alloc: Global, line: &[u8], call: &[u8]) -> Result<Option<Vec<u8>>, AllocError>
    ensures { IfOk result (λ said. option_map (λ text. text.items) said
        ≡ first_sentence (thread_line_rules line.now (Some call.now))) }
{
    match byte_sentence(alloc, line, call)? {
        Some(said) => Ok(Some(said)),
        None => printed_sentence(alloc, line, call),
    }
}

/// Returns the sentence of the first rule that a line of a text breaks, given the accounts and calls
/// of the lines above it.
pub(crate) fn mixed_sentence(
    alloc: Global,
    text: &[u8],
    accounts: &Accounts,
    calls: &[CallLine],
    line: &[u8],
) -> Result<Option<Vec<u8>>, AllocError>
    ensures { IfOk result (λ said. option_map (λ text. text.items) said
        ≡ mixed_sentence (lines_of text.now) (read_so_far accounts.now calls.now) line.now) }
{
    let (word, call) = split_word(line);
    if word != THREAD_WORD {
        return sentence(alloc, text, accounts, calls, line);
    }
    match call {
        Some(call) => raw_sentence(alloc, line, call),
        None => Ok(Some(raw_form(alloc)?)),
    }
}
