//! What a line asks: for the rights of a process at a path, or who is trusted with what is at a path.
ghost use Rattle.std.specs.Prelude.{◌≡◌, IfOk};
ghost use Rattle.std.specs.Option.{option_copied};
ghost use Rattle.histar_trust.specs.Findings.{HasState};
ghost use Rattle.histar_test.specs.Running.{AsksMachine};
ghost use Rattle.histar_test.specs.Steps.{asked_of, asking_of, is_claim, is_question};

use crate::checks::Check;
use crate::claims::{Claim, ask_trusted, read_claim};
use crate::questions::{Question, ask_rights, read_question};
use histar_label::InternStore;
use histar_shell::Machine;
use std::alloc::{AllocError, Global};

/// A question about rights, or a claim on trust.
#[derive(Drop)]
pub enum Asking {
    OfRights(Question),
    OfTrust(Claim),
}

/// Checks whether a line is a question about rights.
fn is_question(line: &[u8]) -> bool
    ensures { result ≡ is_question line.now }
{
    line.starts_with(b"#! ")
}

/// Checks whether a line is a claim on trust.
fn is_claim(line: &[u8]) -> bool
    ensures { result ≡ is_claim line.now }
{
    line.starts_with(b"#trusted ") || line == b"#trusted".as_slice()
}

/// Returns the text of the question or the claim on a line, if the line is one.
pub(crate) fn asked_of(line: &[u8]) -> Option<&[u8]>
    ensures { option_copied result ≡ asked_of line.now }
{
    if !is_question(line) && !is_claim(line) {
        return None;
    }
    let [_, text @ ..] = line else {
        return Some(line);
    };
    Some(text)
}

/// Reads the question or the claim in the text of line `number`.
pub(crate) fn read_asking(
    alloc: Global,
    number: u32,
    text: &[u8],
) -> Result<Option<Asking>, AllocError>
    ensures { IfOk result (λ asking. asking ≡ asking_of number text.now) }
{
    if let Some(asked) = text.strip_prefix(b"! ".as_slice()) {
        let question = read_question(alloc, number, asked)?;
        return Ok(question.map(|question| Asking::OfRights(question)));
    }
    let claim = read_claim(alloc, number, text)?;
    Ok(claim.map(|claim| Asking::OfTrust(claim)))
}

/// Returns the check of a question or a claim: what is so in a machine, beside what is expected. No call is
/// made.
pub(crate) fn ask(
    alloc: Global,
    machine: &Machine<InternStore>,
    asking: Asking,
) -> Result<Check, AllocError>
    requires { HasState machine.now }
    ensures { IfOk result (AsksMachine machine.now asking) }
{
    match asking {
        Asking::OfRights(question) => ask_rights(alloc, machine, question),
        Asking::OfTrust(claim) => ask_trusted(alloc, machine, claim),
    }
}
