//! The sentence about a bad line.
ghost use Rattle.std.specs.Prelude.{◌≡◌, ◌++◌, IfOk, option_map};
ghost use Rattle.std.specs.Option.{option_copied};
ghost use Rattle.histar_lint.specs.Lines.{first_sentence, rest_of, word_of};
ghost use Rattle.histar_raw_lint.specs.Rules.{call_rules, sentence, thread_rules, word_rules};

use crate::call_rules::{call_sentence, thread_sentence};
use crate::line_rules::word_sentence;
use histar_lint::line_rules::{byte_sentence, rest_of};
use histar_script::split_word;
use std::alloc::{AllocError, Global};

/// Copies a sentence, where there is one.
fn copied(alloc: Global, said: Option<&str>) -> Result<Option<Vec<u8>>, AllocError>
    ensures { IfOk result (λ copy.
        option_map (λ text. text.items) copy ≡ option_copied said.entry) }
{
    match said {
        None => Ok(None),
        Some(said) => Ok(Some(Vec::from_slice(alloc, said.as_bytes())?)),
    }
}

/// Returns the sentence of the first rule that the thread of a line or its call breaks.
pub fn thread_call_sentence(alloc: Global, line: &[u8]) -> Result<Option<Vec<u8>>, AllocError>
    ensures { IfOk result (λ said. option_map (λ text. text.items) said
        ≡ first_sentence (thread_rules (word_of line.now) ++ call_rules (rest_of line.now))) }
{
    match thread_sentence(alloc, split_word(line).0)? {
        Some(said) => Ok(Some(said)),
        None => call_sentence(alloc, rest_of(line)),
    }
}

/// Returns the sentence of the first rule that a line of printable bytes breaks.
fn printable_sentence(alloc: Global, line: &[u8]) -> Result<Option<Vec<u8>>, AllocError>
    ensures { IfOk result (λ said. option_map (λ text. text.items) said
        ≡ first_sentence (word_rules line.now
        ++ (thread_rules (word_of line.now) ++ call_rules (rest_of line.now)))) }
{
    match copied(alloc, word_sentence(line))? {
        Some(said) => Ok(Some(said)),
        None => thread_call_sentence(alloc, line),
    }
}

/// Returns the sentence of the first rule that a line breaks.
pub(crate) fn sentence(alloc: Global, line: &[u8]) -> Result<Option<Vec<u8>>, AllocError>
    ensures { IfOk result (λ said. option_map (λ text. text.items) said ≡ sentence line.now) }
{
    match byte_sentence(alloc, line)? {
        Some(said) => Ok(Some(said)),
        None => printable_sentence(alloc, line),
    }
}
