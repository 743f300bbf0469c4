//! The shapes of calls: which arguments follow the word of each call, and which call is near to an unknown
//! word.
ghost use Rattle.std.specs.Prelude.{◌≡◌, ◌++◌, IfOk, OnOk, codes, map};
ghost use Rattle.std.specs.Option.{option_copied};
ghost use Rattle.std.specs.Str.{bytes_eq};
ghost use Rattle.histar_script.specs.CallForms.{call_forms, entry_calls, process_calls, reading_calls};
ghost use Rattle.histar_lint.specs.Calls.{arguments_text, first_near, is_bytes, is_near, is_value, kind_name, kind_text, nearest};
ghost use Rattle.histar_lint.specs.Calls.{shape_among, shape_named, usage_text};

use histar_flat::{read_mode, read_name, read_password, read_path, read_process, read_status};
use std::alloc::{AllocError, Global};
use strsim::generic_levenshtein;

/// The kind of an argument of a call.
#[derive(Clone, Copy)]
pub enum Kind {
    Path,
    Mode,
    Bytes,
    Name,
    Password,
    Process,
    Status,
}

/// The arguments that follow the word of a call.
#[derive(Clone, Copy)]
pub enum Shape {
    Alone,
    One(Kind),
    Two(Kind, Kind),
}

/// Checks whether a word is this one.
fn is_word(word: &[u8], other: &str) -> bool
    ensures { result ≡ bytes_eq word.now other.now }
{
    word == other.as_bytes()
}

/// Returns the shape of the call that a word names, or `None`.
pub(crate) fn shape_named(word: &[u8]) -> Option<Shape>
    ensures { result ≡ shape_named word.now }
{
    if is_word(word, "spawn") || is_word(word, "whoami") {
        Some(Shape::Alone)
    } else if is_word(word, "create") || is_word(word, "mkdir") {
        Some(Shape::Two(Kind::Path, Kind::Mode))
    } else if is_word(word, "write") || is_word(word, "append") {
        Some(Shape::Two(Kind::Path, Kind::Bytes))
    } else {
        reading_shape(word)
    }
}

/// Returns the shape of a call that only reads, or of one of the later groups.
fn reading_shape(word: &[u8]) -> Option<Shape>
    ensures { result ≡ shape_among (reading_calls ++ entry_calls ++ process_calls) word.now }
{
    if is_word(word, "read") || is_word(word, "list") || is_word(word, "stat") {
        Some(Shape::One(Kind::Path))
    } else {
        entry_shape(word)
    }
}

/// Returns the shape of a call on an entry, or of one of the later groups.
fn entry_shape(word: &[u8]) -> Option<Shape>
    ensures { result ≡ shape_among (entry_calls ++ process_calls) word.now }
{
    if is_word(word, "unlink")
        || is_word(word, "rmdir")
        || is_word(word, "rmtree")
        || is_word(word, "wrap")
    {
        Some(Shape::One(Kind::Path))
    } else if is_word(word, "rename") {
        Some(Shape::Two(Kind::Path, Kind::Name))
    } else {
        process_shape(word)
    }
}

/// Returns the shape of a call of processes.
fn process_shape(word: &[u8]) -> Option<Shape>
    ensures { result ≡ shape_among process_calls word.now }
{
    if is_word(word, "exit") {
        Some(Shape::One(Kind::Status))
    } else if is_word(word, "status") || is_word(word, "kill") {
        Some(Shape::One(Kind::Process))
    } else if is_word(word, "login") {
        Some(Shape::Two(Kind::Name, Kind::Password))
    } else {
        None
    }
}

/// Checks whether one insertion, deletion or substitution leads from one word to another.
fn is_near(alloc: Global, word: &[u8], other: &[u8]) -> Result<bool, AllocError>
    ensures { IfOk result (λ near. near ≡ is_near word.now other.now) }
{
    let edits = generic_levenshtein(alloc, word, other)?;
    Ok(edits == 1)
}

/// Returns the first of these calls whose word is near to this one.
#[tactic(auto, unfolding(crate::specs::Calls::first_near))]
fn first_near<'a>(
    alloc: Global,
    word: &[u8],
    calls: &[&'a str],
) -> Result<Option<&'a str>, AllocError>
    ensures { IfOk result (λ call. option_copied call
        ≡ first_near word.now (map (λ call. call.now) calls.now)) }
{
    'calls: for call in calls {
        if is_near(alloc, word, call.as_bytes())? {
            return Ok(Some(*call));
        }
    }
    Ok(None)
}

/// Returns the first call whose word is near to this one.
pub(crate) fn nearest(alloc: Global, word: &[u8]) -> Result<Option<&'static str>, AllocError>
    ensures { IfOk result (λ call. option_copied call ≡ nearest word.now) }
{
    let calls = [
        "spawn", "whoami", "create", "mkdir", "write", "append", "read", "list", "stat", "unlink",
        "rmdir", "rmtree", "rename", "wrap", "exit", "status", "kill", "login",
    ];
    first_near(alloc, word, calls.as_slice())
}

/// Returns the name of an argument in the form of a call.
fn kind_name(kind: Kind) -> &'static str
    ensures { result.now ≡ kind_name kind }
{
    match kind {
        Kind::Path => "PATH",
        Kind::Mode => "MODE",
        Kind::Bytes => "BYTES",
        Kind::Name => "NAME",
        Kind::Password => "PASSWORD",
        Kind::Process => "PROC",
        Kind::Status => "STATUS",
    }
}

/// Returns what an argument has to be.
pub(crate) fn kind_text(kind: Kind) -> &'static str
    ensures { result.now ≡ kind_text kind }
{
    match kind {
        Kind::Path =>
            "a path is / or up to 8 names, each behind a slash and of 1 to 32 of a-z, 0-9, dot, underscore and hyphen",
        Kind::Mode => "a mode is private, readable, open or group:NAME of a declared group",
        Kind::Bytes => "bytes follow a space",
        Kind::Name => "a name has 1 to 32 of a-z, 0-9, dot, underscore and hyphen",
        Kind::Password => "a password has 1 to 32 printable bytes and no space",
        Kind::Process =>
            "a process is 0, or 0 and up to 7 numbers from 1 to 64 with a dot before each",
        Kind::Status => "an exit status is a number from 0 to 255",
    }
}

/// Checks whether an argument of this kind is all the rest of its line.
pub(crate) fn is_bytes(kind: Kind) -> bool
    ensures { result ≡ is_bytes kind }
{
    matches!(kind, Kind::Bytes)
}

/// Checks whether a text is a value of this kind.
pub(crate) fn is_value(kind: Kind, text: &[u8]) -> bool
    ensures { result ≡ is_value kind text.now }
{
    match kind {
        Kind::Path => read_path(text).is_some(),
        Kind::Mode => read_mode(text).is_some(),
        Kind::Bytes => true,
        Kind::Name => read_name(text).is_some(),
        Kind::Password => read_password(text).is_some(),
        Kind::Process => read_process(text).is_some(),
        Kind::Status => read_status(text).is_some(),
    }
}

/// Adds the name of an argument, after a space.
fn push_kind(said: &mut Vec<u8>, kind: Kind) -> Result<(), AllocError>
    ensures { OnOk result (said.new.items ≡ said.old.items ++ codes " " ++ kind_name kind) }
{
    said.extend_from_slice(b" ")?;
    said.extend_from_slice(kind_name(kind).as_bytes())
}

/// Adds the names of the arguments of a call.
fn push_arguments(said: &mut Vec<u8>, shape: Shape) -> Result<(), AllocError>
    ensures { OnOk result (said.new.items ≡ said.old.items ++ arguments_text shape) }
{
    match shape {
        Shape::Alone => Ok(()),
        Shape::One(kind) => push_kind(said, kind),
        Shape::Two(first, second) => {
            push_kind(said, first)?;
            push_kind(said, second)
        }
    }
}

/// Returns the form of the call of a word: the word and its arguments.
pub(crate) fn usage_text(alloc: Global, word: &[u8], shape: Shape) -> Result<Vec<u8>, AllocError>
    ensures { IfOk result (λ said. said.items ≡ usage_text word.now shape) }
{
    let mut said = Vec::from_slice(alloc, b"the call is `PROC ".as_slice())?;
    said.extend_from_slice(word)?;
    push_arguments(&mut said, shape)?;
    said.extend_from_slice(b"`")?;
    Ok(said)
}
