//! The rules for call lines.
ghost use Rattle.std.specs.Prelude.{◌≡◌, ◌++◌, [], IfOk, OnOk, is_some, map, option_map};
ghost use Rattle.std.specs.Option.{option_copied, option_map_or};
ghost use Rattle.histar_lint.specs.Lines.{first_sentence};
ghost use Rattle.histar_lint.specs.Calls.{argument_rules, bad_argument, call_word_rules, goes_on, has_too_little, has_too_much, suggestion};
ghost use Rattle.histar_lint.specs.Calls.{unknown_text};
ghost use Rattle.histar_script.specs.Reading.{call_of};
ghost use Rattle.histar_lint.specs.Rules.{call_place_rules, is_undeclared, read_so_far};

use crate::line_rules::rest_of;
use crate::shapes::{Kind, Shape, is_bytes, is_value, kind_text, nearest, shape_named, usage_text};
use histar_flat::{Accounts, CallLine, UnixCall, read_process};
use histar_script::{is_declared_call, read_call, split_word};
use std::alloc::{AllocError, Global};

/// Checks whether more words follow an argument of this kind, which begins a text.
fn goes_on(kind: Kind, text: &[u8]) -> bool
    ensures { result ≡ goes_on kind text.now }
{
    !is_bytes(kind) && split_word(text).1.is_some()
}

/// Checks whether more words follow than a call has arguments.
fn has_too_much(text: &[u8], shape: Shape) -> bool
    ensures { result ≡ has_too_much text.now shape }
{
    match shape {
        Shape::Alone => split_word(text).1.is_some(),
        Shape::One(kind) => goes_on(kind, rest_of(text)),
        Shape::Two(_, kind) => goes_on(kind, rest_of(rest_of(text))),
    }
}

/// Checks whether a call lacks an argument.
fn has_too_little(text: &[u8], shape: Shape) -> bool
    ensures { result ≡ has_too_little text.now shape }
{
    match shape {
        Shape::Alone => false,
        Shape::One(_) => split_word(text).1.is_none(),
        Shape::Two(_, _) => split_word(rest_of(text)).1.is_none(),
    }
}

/// Returns what the first argument of a call that is not valid has to be.
fn bad_argument(text: &[u8], shape: Shape) -> &'static str
    ensures { result.now ≡ bad_argument text.now shape }
{
    match shape {
        Shape::Alone => "",
        Shape::One(kind) => kind_text(kind),
        Shape::Two(first, second) => {
            if is_value(first, split_word(rest_of(text)).0) {
                kind_text(second)
            } else {
                kind_text(first)
            }
        }
    }
}

/// Adds a call that may have been meant.
fn push_call(said: &mut Vec<u8>, call: &str) -> Result<(), AllocError>
    ensures { OnOk result (said.new.items ≡ said.old.items ++ suggestion call.now) }
{
    said.extend_from_slice(b" (did you mean ")?;
    said.extend_from_slice(call.as_bytes())?;
    said.extend_from_slice(b"?)")?;
    Ok(())
}

/// Adds the call that may have been meant, if one is near.
fn push_suggestion(said: &mut Vec<u8>, near: Option<&str>) -> Result<(), AllocError>
    ensures { OnOk result (said.new.items ≡ said.old.items
        ++ option_map_or suggestion (option_copied near.entry) []) }
{
    match near {
        None => Ok(()),
        Some(call) => push_call(said, call),
    }
}

/// Returns the sentence that there is no such call, with the one that may have been meant.
fn unknown_text(alloc: Global, word: &[u8]) -> Result<Vec<u8>, AllocError>
    ensures { IfOk result (λ said. said.items ≡ unknown_text word.now) }
{
    let near = nearest(alloc, word)?;
    let mut said = Vec::from_slice(alloc, b"there is no call ".as_slice())?;
    said.extend_from_slice(word)?;
    push_suggestion(&mut said, near)?;
    Ok(said)
}

/// Checks whether a text is a call.
fn is_call(alloc: Global, text: &[u8]) -> Result<bool, AllocError>
    ensures { IfOk result (λ is_so. is_so ≡ is_some (call_of text.now)) }
{
    Ok(read_call(alloc, text)?.is_some())
}

/// Returns the sentence of the first rule that the arguments of a call break.
fn argument_sentence(
    alloc: Global,
    text: &[u8],
    shape: Shape,
) -> Result<Option<Vec<u8>>, AllocError>
    ensures { IfOk result (λ said. option_map (λ text. text.items) said
        ≡ first_sentence (argument_rules text.now shape)) }
{
    if has_too_much(text, shape) || has_too_little(text, shape) {
        return Ok(Some(usage_text(alloc, split_word(text).0, shape)?));
    }
    if is_call(alloc, text)? {
        return Ok(None);
    }
    let said = Vec::from_slice(alloc, bad_argument(text, shape).as_bytes())?;
    Ok(Some(said))
}

/// Returns the sentence of the first rule that the words of a call line break: its process, its call and its
/// arguments.
pub(crate) fn call_word_sentence(
    alloc: Global,
    process: &[u8],
    text: &[u8],
) -> Result<Option<Vec<u8>>, AllocError>
    ensures { IfOk result (λ said. option_map (λ text. text.items) said
        ≡ first_sentence (call_word_rules process.now text.now)) }
{
    if read_process(process).is_none() {
        let said = Vec::from_slice(alloc, kind_text(Kind::Process).as_bytes())?;
        return Ok(Some(said));
    }
    let word = split_word(text).0;
    match shape_named(word) {
        None => Ok(Some(unknown_text(alloc, word)?)),
        Some(shape) => argument_sentence(alloc, text, shape),
    }
}

/// Checks whether a call names a group that is not declared.
fn is_undeclared(accounts: &Accounts, call: Option<&UnixCall>) -> bool
    ensures { result ≡ is_undeclared accounts.now (option_copied call.entry) }
{
    match call {
        Some(call) => !is_declared_call(accounts, call),
        None => false,
    }
}

/// Checks whether a text is a call that names a group that is not declared.
fn call_is_undeclared(alloc: Global, accounts: &Accounts, text: &[u8]) -> Result<bool, AllocError>
    ensures { IfOk result (λ is_so. is_so ≡ is_undeclared accounts.now (call_of text.now)) }
{
    let call = read_call(alloc, text)?;
    Ok(is_undeclared(accounts, call.as_ref()))
}

/// Returns the sentence of the first rule by which a call line may not be where it is.
pub(crate) fn call_place_sentence(
    alloc: Global,
    accounts: &Accounts,
    calls: &[CallLine],
    text: &[u8],
) -> Result<Option<&'static str>, AllocError>
    ensures { IfOk result (λ said. option_copied said
        ≡ first_sentence (call_place_rules (read_so_far accounts.now calls.now) text.now)) }
{
    if accounts.users().is_empty() {
        return Ok(Some("a call line before any user line"));
    }
    if call_is_undeclared(alloc, accounts, text)? {
        return Ok(Some(kind_text(Kind::Mode)));
    }
    Ok(None)
}
