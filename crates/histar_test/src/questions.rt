//! Questions about rights, and their answers.
ghost use Rattle.std.specs.Prelude.{◌≡◌, IfOk};
ghost use Rattle.histar_rights.specs.Rights.{rights_text};
ghost use Rattle.histar_test.specs.Running.{AsksMachine};
ghost use Rattle.histar_test.specs.declared.asking.Asking.TheVariants.{OfRights};
ghost use Rattle.histar_test.specs.Steps.{process_and_rights_of, question_of};

use crate::checks::{Check, Made, Wanted};
use histar_base::Bytes;
use histar_cells::rights_of;
use histar_flat::{OwnedPath, ProcName, read_path, read_process};
use histar_label::InternStore;
use histar_rights::{Rights, read_rights};
use histar_script::split_word;
use histar_shell::Machine;
use std::alloc::{AllocError, Global};

/// A question for the rights of a process at a path.
#[derive(Drop)]
pub struct Question {
    /// The number of its line.
    pub line: u32,
    /// The text of the question, after `#! `.
    pub said: Bytes,
    pub path: OwnedPath,
    pub process: ProcName,
    /// The expected rights.
    pub wanted: Rights,
}

/// Reads `PROC RIGHTS`.
#[tactic(auto, unfolding(crate::specs::Steps::process_and_rights_of))]
fn read_process_and_rights(text: &[u8]) -> Option<(ProcName, Rights)>
    ensures { result ≡ process_and_rights_of text.now }
{
    let (word, rest) = split_word(text);
    let process = read_process(word)?;
    let rights = read_rights(rest?)?;
    Some((process, rights))
}

/// Reads the question in the text of line `number`: `PATH PROC RIGHTS`.
#[tactic(auto, unfolding(crate::specs::Steps::question_of))]
pub(crate) fn read_question(
    alloc: Global,
    number: u32,
    text: &[u8],
) -> Result<Option<Question>, AllocError>
    ensures { IfOk result (λ question. question ≡ question_of number text.now) }
{
    let (word, rest) = split_word(text);
    let Some(path) = read_path(word) else {
        return Ok(None);
    };
    let Some((process, wanted)) = rest.and_then(|rest| read_process_and_rights(rest)) else {
        return Ok(None);
    };
    let said = Bytes::copy_of(alloc, text)?;
    let path = OwnedPath::of(alloc, &path)?;
    Ok(Some(Question {
        line: number,
        said,
        path,
        process,
        wanted,
    }))
}

/// Returns the letters of rights.
fn letters(alloc: Global, rights: Rights) -> Result<Bytes, AllocError>
    ensures { IfOk result (λ text. text ≡ rights_text rights) }
{
    let mut text = Vec::new(alloc);
    rights.push_letters(&mut text)?;
    Ok(Bytes::from_vec(text))
}

/// Returns the check of a question: the rights that the process has in a machine, beside the expected ones.
/// No call is made.
pub(crate) fn ask_rights(
    alloc: Global,
    machine: &Machine<InternStore>,
    question: Question,
) -> Result<Check, AllocError>
    ensures { IfOk result (AsksMachine machine.now (OfRights question)) }
{
    let Question {
        line,
        said,
        path,
        process,
        wanted,
    } = question;
    let asked = path.path();
    let rights = rights_of(machine, &asked, &process);
    let reply = letters(alloc, rights)?;
    let wanted = letters(alloc, wanted)?;
    let made = Made {
        line,
        said,
        reply,
        is_refused: false,
    };
    Ok(Check {
        made,
        wanted: Wanted::Text(wanted),
    })
}
