//! A check: an expectation beside the reply to its call, a question beside the rights that it asks for, a claim on
//! trust beside the processes that are trusted, a claim `#never` beside its first breach, or a refusal that nobody
//! expected; and its text.
ghost use Rattle.std.specs.Prelude.{◌≡◌, ◌++◌, IfOk, OnOk, decimal};
ghost use Rattle.std.specs.List.{flat_map};
ghost use Rattle.histar_test.specs.declared.checks.Wanted.TheVariants.{Text};
ghost use Rattle.histar_test.specs.Checks.{check_text, difference_text, escaped_byte};
ghost use Rattle.histar_test.specs.Checks.{expected_text, is_met, place_text, result_line, unexpected};

use histar_base::Bytes;
use itoa::Buffer;
use std::alloc::{AllocError, Global};

/// A call that was made, a question or a claim that was asked, or a claim that was watched.
#[derive(Drop)]
pub struct Made {
    /// The number of its line.
    pub line: u32,
    /// The text of that line, without `#! ` in a question, and without `#` in a claim.
    pub said: Bytes,
    /// The text of the reply, the letters of the rights, the processes that are trusted, or the first breach.
    pub reply: Bytes,
    /// Whether the reply is a refusal.
    pub is_refused: bool,
}

/// What a check wants.
#[derive(Drop)]
pub enum Wanted {
    /// That the reply, the rights or the trusted have this text.
    Text(Bytes),
    /// That the call is no refusal, since nobody expected one.
    NoRefusal,
    /// That there is no breach.
    NoBreach,
}

/// What is wanted of a call, a question or a claim, and what was found.
#[derive(Drop)]
pub struct Check {
    pub made: Made,
    pub wanted: Wanted,
}

impl Check {
    /// Checks whether the reply, the rights, the trusted processes or the breach are as they are wanted.
    pub fn is_met(&self) -> bool
        ensures { result ≡ is_met self.now }
    {
        match &self.wanted {
            Wanted::Text(wanted) => self.made.reply.as_slice() == wanted.as_slice(),
            Wanted::NoRefusal => false,
            Wanted::NoBreach => self.made.reply.as_slice().is_empty(),
        }
    }
}

/// Returns the check of a call that is open where nobody can expect its reply any more. Only a strict test has
/// one, and only of a refusal.
pub(crate) fn unexpected(strict: bool, last: Option<Made>) -> Option<Check>
    ensures { result ≡ unexpected strict last }
{
    let made = last?;
    if !strict || !made.is_refused {
        return None;
    }
    Some(Check {
        made,
        wanted: Wanted::NoRefusal,
    })
}

/// Adds a number, in decimal digits.
pub(crate) fn push_number(text: &mut Vec<u8>, number: usize) -> Result<(), AllocError>
    ensures { OnOk result (text.new.items ≡ text.old.items ++ decimal number) }
{
    let mut digits = Buffer::new();
    text.extend_from_slice(digits.format(number).as_bytes())
}

/// Adds a byte of a description.
fn push_escaped_byte(text: &mut Vec<u8>, byte: u8) -> Result<(), AllocError>
    ensures { OnOk result (text.new.items ≡ text.old.items ++ escaped_byte byte) }
{
    if byte == b'#' || byte == b'\\' {
        text.push(b'\\')?;
    }
    text.push(byte)?;
    Ok(())
}

/// Adds the bytes of a description.
fn push_escaped(text: &mut Vec<u8>, bytes: &[u8]) -> Result<(), AllocError>
    ensures { OnOk result (text.new.items ≡ text.old.items ++ flat_map escaped_byte bytes.now) }
{
    for byte in bytes {
        push_escaped_byte(text, *byte)?;
    }
    Ok(())
}

/// Returns the place of a call or a question: the file, its line, and the text of the call or the question.
fn place_text(alloc: Global, file: &[u8], made: &Made) -> Result<Vec<u8>, AllocError>
    ensures { IfOk result (λ text. text.items ≡ place_text file.now made.now) }
{
    let mut text = Vec::from_slice(alloc, file)?;
    text.extend_from_slice(b":")?;
    push_number(&mut text, made.line as usize)?;
    text.extend_from_slice(b": ")?;
    text.extend_from_slice(made.said.as_slice())?;
    Ok(text)
}

/// Returns the line of check `number`, which begins with this word.
fn result_line(
    alloc: Global,
    word: &[u8],
    file: &[u8],
    number: usize,
    made: &Made,
) -> Result<Vec<u8>, AllocError>
    ensures { IfOk result (λ text. text.items ≡ result_line word.now file.now number made.now) }
{
    let place = place_text(alloc, file, made)?;
    let mut text = Vec::from_slice(alloc, word)?;
    push_number(&mut text, number)?;
    text.extend_from_slice(b" - ")?;
    push_escaped(&mut text, place.as_slice())?;
    text.extend_from_slice(b"\n")?;
    Ok(text)
}

/// Adds the text that is expected.
fn push_text(text: &mut Vec<u8>, wanted: &Bytes) -> Result<(), AllocError>
    ensures { OnOk result (text.new.items ≡ text.old.items ++ expected_text (Text wanted.now)) }
{
    text.extend_from_slice(b"# expected ")?;
    text.extend_from_slice(wanted.as_slice())?;
    text.extend_from_slice(b", was ")
}

/// Adds the expected answer, or that nobody expected one.
fn push_expected(text: &mut Vec<u8>, wanted: &Wanted) -> Result<(), AllocError>
    ensures { OnOk result (text.new.items ≡ text.old.items ++ expected_text wanted.now) }
{
    match wanted {
        Wanted::Text(wanted) => push_text(text, wanted),
        Wanted::NoRefusal => text.extend_from_slice(b"# nobody expected "),
        Wanted::NoBreach => text.extend_from_slice(b"# "),
    }
}

/// Adds a line with the expected answer, if there is one, and what was found.
fn push_difference(text: &mut Vec<u8>, check: &Check) -> Result<(), AllocError>
    ensures { OnOk result (text.new.items ≡ text.old.items ++ difference_text check.now) }
{
    push_expected(text, &check.wanted)?;
    text.extend_from_slice(check.made.reply.as_slice())?;
    text.extend_from_slice(b"\n")?;
    Ok(())
}

/// Returns the lines of check `number`, of a file.
pub(crate) fn check_text(
    alloc: Global,
    file: &[u8],
    number: usize,
    check: &Check,
) -> Result<Vec<u8>, AllocError>
    ensures { IfOk result (λ text. text.items ≡ check_text file.now number check.now) }
{
    if check.is_met() {
        return result_line(alloc, b"ok ".as_slice(), file, number, &check.made);
    }
    let mut text = result_line(alloc, b"not ok ".as_slice(), file, number, &check.made)?;
    push_difference(&mut text, check)?;
    Ok(text)
}
