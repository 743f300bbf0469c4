//! The warnings on the call lines of a script.
ghost use Rattle.std.specs.Prelude.{◌≡◌, ◌++◌, IfOk, OnOk, option_map};
ghost use Rattle.std.specs.Option.{option_to_list};
ghost use Rattle.histar_policy.specs.Names.{Adds};
ghost use Rattle.histar_policy.specs.Sets.{AreUsed, IsSentence, IsWritingSentence, Warns};
ghost use Rattle.histar_policy.specs.Warnings.{child_of, never_started, never_used};
ghost use Rattle.histar_policy.specs.Warnings.{warning_line, warnings_text, wrong_password};

use crate::names::Names;
use crate::notes::{Event, Note};
use crate::taking::{taking_sentence, writing_sentence};
use crate::written::{Written, written_in};
use histar_flat::{Name, ProcName};
use histar_lint::finding;
use histar_texts::push_process;
use std::alloc::{AllocError, Global};

/// What warnings depend on, beside the call line.
#[derive(Drop)]
pub(crate) struct Known {
    /// The processes that were started so far.
    started: Names,
    /// The processes that make a call somewhere, and those above them.
    used: Names,
    /// Who writes where, somewhere in the script.
    written: Written,
}

/// Returns the sentence that a process was never started.
fn never_started(alloc: Global, process: &ProcName) -> Result<Vec<u8>, AllocError>
    ensures { IfOk result (λ said. said.items ≡ never_started process.now) }
{
    let mut said = Vec::new(alloc);
    push_process(alloc, &mut said, process)?;
    said.extend_from_slice(b" was never started")?;
    Ok(said)
}

/// Returns the sentence that a job is never used.
fn never_used(alloc: Global, job: &ProcName) -> Result<Vec<u8>, AllocError>
    ensures { IfOk result (λ said. said.items ≡ never_used job.now) }
{
    let mut said = Vec::from_slice(alloc, b"job ".as_slice())?;
    push_process(alloc, &mut said, job)?;
    said.extend_from_slice(b" is never used")?;
    Ok(said)
}

/// Returns the sentence that a password is not the user's.
fn wrong_password(alloc: Global, user: &Name) -> Result<Vec<u8>, AllocError>
    ensures { IfOk result (λ said. said.items ≡ wrong_password user.now) }
{
    let mut said = Vec::from_slice(alloc, b"that is not the password of ".as_slice())?;
    said.extend_from_slice(user.as_bytes())?;
    Ok(said)
}

/// Returns the sentence on what a call line of a process says, if there is one.
fn sentence_on(
    alloc: Global,
    known: &Known,
    process: &ProcName,
    event: &Event,
) -> Result<Option<Vec<u8>>, AllocError>
    ensures { IfOk result (λ said.
        IsSentence known.now process.now event.now (option_map (λ text. text.items) said)) }
{
    match event {
        Event::IsGone => {
            if known.started.has(process) {
                return Ok(None);
            }
            Ok(Some(never_started(alloc, process)?))
        }
        Event::StartsJob(job) => {
            if known.used.has(job) {
                return Ok(None);
            }
            Ok(Some(never_used(alloc, job)?))
        }
        Event::WrongPassword(user) => Ok(Some(wrong_password(alloc, user)?)),
        Event::Made(made) => taking_sentence(alloc, made),
        _ => Ok(None),
    }
}

/// Returns the sentence on who may write what a call line made, if there is one.
fn writing_sentence_on(
    alloc: Global,
    known: &Known,
    event: &Event,
) -> Result<Option<Vec<u8>>, AllocError>
    ensures { IfOk result (λ said.
        IsWritingSentence known.now event.now (option_map (λ text. text.items) said)) }
{
    match event {
        Event::Made(made) => {
            let by_another = known.written.by_another(&made.maker, &made.path.path());
            writing_sentence(alloc, made, by_another)
        }
        _ => Ok(None),
    }
}

/// Adds the line of a warning, if there is one.
fn push_line(
    alloc: Global,
    text: &mut Vec<u8>,
    file: &[u8],
    line: u32,
    said: Option<Vec<u8>>,
) -> Result<(), AllocError>
    ensures { OnOk result (text.new.items ≡ text.old.items
        ++ warning_line file.now line (option_map (λ text. text.items) said)) }
{
    let Some(said) = said else {
        return Ok(());
    };
    let found = finding(alloc, file, line, said.as_slice())?;
    text.extend_from_slice(found.as_slice())
}

/// Adds the warnings on a call line.
fn push_warnings(
    alloc: Global,
    text: &mut Vec<u8>,
    file: &[u8],
    known: &Known,
    note: &Note,
) -> Result<(), AllocError>
    ensures { OnOk result (Warns known.now file.now note.now text.old.items text.new.items) }
{
    let said = sentence_on(alloc, known, &note.process, &note.event)?;
    push_line(alloc, text, file, note.line, said)?;
    let on_writing = writing_sentence_on(alloc, known, &note.event)?;
    push_line(alloc, text, file, note.line, on_writing)
}

/// Adds the process that was started, if one was.
fn add_child(started: &mut Names, event: &Event) -> Result<(), AllocError>
    ensures { OnOk result (Adds started.old started.new (option_to_list (child_of event.now))) }
{
    match event {
        Event::Starts(child) => started.add(child),
        Event::StartsJob(child) => started.add(child),
        _ => Ok(()),
    }
}

/// Returns the processes that make a call in a script, and all those above them.
fn used_names(alloc: Global, script: &[Note]) -> Result<Names, AllocError>
    ensures { IfOk result (λ used. AreUsed used script.now) }
{
    let mut used = Names::new(alloc);
    'notes: for note in script {
        used.add_way(note.process.numbers())?;
    }
    Ok(used)
}

/// Returns the warnings on the call lines of a script, a line each.
pub(crate) fn warnings_on(
    alloc: Global,
    file: &[u8],
    script: &[Note],
) -> Result<Vec<u8>, AllocError>
    ensures { IfOk result (λ text. text.items ≡ warnings_text file.now script.now) }
{
    let mut started = Names::new(alloc);
    started.add(&ProcName::zero())?;
    let used = used_names(alloc, script)?;
    let written = written_in(alloc, script)?;
    let mut known = Known {
        started,
        used,
        written,
    };
    let mut text = Vec::new(alloc);
    'notes: for note in script {
        push_warnings(alloc, &mut text, file, &known, note)?;
        add_child(&mut known.started, &note.event)?;
    }
    Ok(text)
}
