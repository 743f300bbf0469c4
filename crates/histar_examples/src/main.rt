//! Runs the scripts and raw sessions of standard input, and prints the replies of each: each script over all
//! stores of labels and through devices that move one byte a call, each raw session line by line and at once.
//! It asks scripts the questions of the other subcommands too.
//!
//! The gate runs it on the scripts and raw sessions of `examples/`, whose replies were written by hand. It
//! shows that each public call that may answer out of memory answers otherwise where memory is ample.
#![tactic(auto)]

mod devices;
mod questions;
mod raw;
mod script;
mod trial;

use crate::trial::{Kind, Trial, next_trial};
use histar_io::read_input;
use histar_output::{coloured, json_lines};
use histar_script::Fault;
use histar_shell::Counted;
use std::alloc::Global;
use std::io;
use std::io::Write;
use std::process::ExitCode;

/// Returns what a trial prints.
fn run_trial(alloc: Global, trial: &Trial<'_>) -> Result<Vec<u8>, Fault> {
    match trial.kind {
        Kind::Run(options) => script::replies(alloc, trial.body, options),
        Kind::RunAt(at) => questions::run_before(alloc, trial.body, at),
        Kind::Explain(options) => questions::explained(alloc, trial.body, options),
        Kind::Why(options) => questions::with_reasons(alloc, trial.body, options),
        Kind::Noted(notes) => questions::with_notes(alloc, trial.body, notes),
        Kind::Check(job) => script::verdict(alloc, trial.body, &job),
        Kind::CheckWhy(job) => questions::reason(alloc, trial.body, &job),
        Kind::CheckAll => questions::verdicts(alloc, trial.body),
        Kind::Access(at) => questions::rights(alloc, trial.body, at),
        Kind::AccessUsers(at) => questions::user_rights(alloc, trial.body, at),
        Kind::AccessEver(at) => questions::rights_ever(alloc, trial.body, at),
        Kind::AccessUsersEver(at) => questions::user_rights_ever(alloc, trial.body, at),
        Kind::Diff(options) => questions::changes(alloc, trial.body, options),
        Kind::Trust(path, options) => questions::trusted(alloc, trial.body, &path, options),
        Kind::Leak(path, at) => questions::leaks(alloc, trial.body, &path, at),
        Kind::Flows(at) => questions::flowing(alloc, trial.body, at),
        Kind::Try(at) => questions::tried(alloc, trial.body, at),
        Kind::Attack(job, options) => questions::attacked(alloc, trial.body, &job, options),
        Kind::File(kind) => questions::of_file(alloc, kind, trial.title, trial.body),
        Kind::Shell => questions::conversation(alloc, trial.body),
        Kind::Raw => raw::answers(alloc, trial.body),
        Kind::ExplainRaw => raw::explained(alloc, trial.body),
        Kind::Json(form) => Ok(json_lines(alloc, form, trial.body)?),
        Kind::Coloured => Ok(coloured(alloc, trial.body)?),
    }
}

/// Prints the title of a trial, and its answers below it.
fn print_trial<W: Write>(alloc: Global, output: &mut W, trial: &Trial<'_>) -> Result<(), Fault> {
    let text = run_trial(alloc, trial)?;
    for part in [b"== ".as_slice(), trial.title, b"\n", text.as_slice()] {
        output.write_all(part).map_err(|_| Fault::WriteFailed)?;
    }
    Ok(())
}

/// Runs all trials of standard input. Text that is no trial is reported, and ends the run.
fn run_all<R: Input + Print + AllocGlobal>(rt: &R) -> Result<(), Fault> {
    let alloc = rt.alloc();
    let mut reader = Counted::new(rt.reader());
    let input = read_input(alloc, &mut reader)?;
    let mut output = io::writer(rt);
    let mut rest = input.as_slice();
    for _ in 0..input.len() {
        let Some((trial, later)) = next_trial(rest) else {
            break;
        };
        print_trial(alloc, &mut output, &trial)?;
        rest = later;
    }
    if rest.is_empty() {
        Ok(())
    } else {
        Err(Fault::BadScript(0))
    }
}

fn main(rt: HostRuntime) -> ExitCode {
    match run_all(&rt) {
        Ok(()) => ExitCode::SUCCESS,
        Err(_) => ExitCode::FAILURE,
    }
}
