//! The rules for raw calls.
ghost use Rattle.std.specs.Prelude.{◌≡◌, ◌++◌, [], IfOk, OnOk, map, option_map};
ghost use Rattle.std.specs.Option.{option_copied, option_map_or};
ghost use Rattle.histar_lint.specs.Lines.{first_sentence};
ghost use Rattle.histar_lint.specs.Calls.{first_near, is_near, suggestion};
ghost use Rattle.histar_raw_lint.specs.Rules.{argument_rules, call_rules, fits, kinds_rules, nearest, thread_rules, unknown_text};

use crate::kinds::{Kind, kinds_named, usage_text};
use crate::numbers::{are_digits, digit_sentence};
use crate::texts::said;
use crate::values::value_sentence;
use histar_script::split_word;
use std::alloc::{AllocError, Global};
use strsim::generic_levenshtein;

/// Checks whether one insertion, deletion or substitution leads from one word to another.
fn is_near(alloc: Global, word: &[u8], other: &[u8]) -> Result<bool, AllocError>
    ensures { IfOk result (λ near. near ≡ is_near word.now other.now) }
{
    let edits = generic_levenshtein(alloc, word, other)?;
    Ok(edits == 1)
}

/// Returns the first of these calls whose name is near.
fn first_near<'a>(
    alloc: Global,
    word: &[u8],
    calls: &[&'a str],
) -> Result<Option<&'a str>, AllocError>
    ensures { IfOk result (λ call. option_copied call
        ≡ first_near word.now (map (λ call. call.now) calls.now)) }
{
    'calls: for call in calls {
        if is_near(alloc, word, call.as_bytes())? {
            return Ok(Some(*call));
        }
    }
    Ok(None)
}

/// Returns the first raw call whose name is near.
fn nearest(alloc: Global, word: &[u8]) -> Result<Option<&'static str>, AllocError>
    ensures { IfOk result (λ call. option_copied call ≡ nearest word.now) }
{
    let calls = [
        "make_category",
        "self",
        "set_label",
        "set_clearance",
        "make_segment",
        "make_container",
        "make_thread",
        "make_gate",
        "enter",
        "read",
        "write",
        "unlink",
        "label",
    ];
    first_near(alloc, word, calls.as_slice())
}

/// Adds the name of a call that may be meant.
fn push_call(said: &mut Vec<u8>, call: &str) -> Result<(), AllocError>
    ensures { OnOk result (said.new.items ≡ said.old.items ++ suggestion call.now) }
{
    said.extend_from_slice(b" (did you mean ")?;
    said.extend_from_slice(call.as_bytes())?;
    said.extend_from_slice(b"?)")?;
    Ok(())
}

/// Adds the suggestion of a call that may be meant, if one is near.
fn push_suggestion(said: &mut Vec<u8>, near: Option<&str>) -> Result<(), AllocError>
    ensures { OnOk result (said.new.items
        ≡ said.old.items ++ option_map_or suggestion (option_copied near.entry) []) }
{
    match near {
        None => Ok(()),
        Some(call) => push_call(said, call),
    }
}

/// Returns the sentence that there is no such raw call, with the call that may be meant.
fn unknown_text(alloc: Global, word: &[u8]) -> Result<Vec<u8>, AllocError>
    ensures { IfOk result (λ said. said.items ≡ unknown_text word.now) }
{
    let near = nearest(alloc, word)?;
    let mut said = Vec::from_slice(alloc, b"there is no raw call ".as_slice())?;
    said.extend_from_slice(word)?;
    push_suggestion(&mut said, near)?;
    Ok(said)
}

/// Checks whether there are as many further words as arguments.
#[tactic(auto, unfolding(crate::specs::Rules::fits))]
fn fits(kinds: &[Kind], words: Option<&[u8]>) -> bool
    ensures { result ≡ fits kinds.now (option_copied words.entry) }
{
    let mut rest = words;
    'kinds: for _kind in kinds {
        let Some(text) = rest else {
            return false;
        };
        rest = split_word(text).1;
    }
    rest.is_none()
}

/// Returns the sentence of the first rule that the arguments of a call break, one after another.
fn argument_sentence(
    alloc: Global,
    kinds: &[Kind],
    words: Option<&[u8]>,
) -> Result<Option<Vec<u8>>, AllocError>
    ensures { IfOk result (λ said. option_map (λ text. text.items) said
        ≡ first_sentence (argument_rules kinds.now (option_copied words.entry))) }
{
    let mut rest = words;
    'kinds: for kind in kinds {
        let Some(text) = rest else {
            return Ok(None);
        };
        let (word, after) = split_word(text);
        if let Some(said) = value_sentence(alloc, *kind, word)? {
            return Ok(Some(said));
        }
        rest = after;
    }
    Ok(None)
}

/// Returns the sentence of the first rule that a call breaks: its name, or its arguments.
pub(crate) fn call_sentence(alloc: Global, text: &[u8]) -> Result<Option<Vec<u8>>, AllocError>
    ensures { IfOk result (λ said. option_map (λ text. text.items) said
        ≡ first_sentence (call_rules text.now)) }
{
    let (name, words) = split_word(text);
    let Some(kinds) = kinds_named(name) else {
        return Ok(Some(unknown_text(alloc, name)?));
    };
    if !fits(kinds, words) {
        return Ok(Some(usage_text(alloc, name, kinds)?));
    }
    argument_sentence(alloc, kinds, words)
}

/// Returns the sentence of the first rule for the number of a thread that a word breaks.
pub(crate) fn thread_sentence(alloc: Global, word: &[u8]) -> Result<Option<Vec<u8>>, AllocError>
    ensures { IfOk result (λ said. option_map (λ text. text.items) said
        ≡ first_sentence (thread_rules word.now)) }
{
    if !are_digits(word) {
        return said(alloc, "a thread is a number, as in `2 make_category`");
    }
    digit_sentence(alloc, "a thread", u64::MAX, word)
}
