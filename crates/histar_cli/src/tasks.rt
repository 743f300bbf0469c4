//! The tasks of the program, one for each subcommand.
ghost use Rattle.std.specs.Prelude.{◌≡◌, IfOk};
ghost use Rattle.std.specs.List.{flat_map, list_all};
ghost use Rattle.histar_comparison.specs.Jobs.{job_text};
ghost use Rattle.histar_cli.specs.Checks.{is_same_without};

use crate::draft::Draft;
use crate::folder::Folder;
use crate::names::shown_name;
use crate::output::{Dress, Host};
use histar_access::{DiffOptions, access, access_users, diff};
use histar_attack::{AttackOptions, attack};
use histar_attack_lint::lint_attack;
use histar_command_line::{AccessKind, AttackFlags, CheckFlags, LintKind, RunFlags, VERSION};
use histar_comparison::{JobVerdict, Verdict, compare, compare_all, explain_comparison};
use histar_console::{Outcome, open, run_plain};
use histar_dialogue::converse;
use histar_ever::{access_ever, access_users_ever};
use histar_flat::{Path, ProcName};
use histar_io::{Sink, read_input};
use histar_leak::leak;
use histar_lint::lint;
use histar_policy::{Found, lint_policy};
use histar_raw_explain::explain_raw_script;
use histar_raw_lint::lint_raw;
use histar_raw_session::run_raw_script;
use histar_report::report;
use histar_run_explain::explain_script;
use histar_script::Fault;
use histar_shell::{Counted, Options, Source, run};
use histar_test::{TestFile, test};
use histar_transcript::{Notes, Tried, front_before, run_with_notes, try_calls};
use histar_trust::{TrustOptions, flows, trust};
use histar_why::run_with_reasons;
use std::alloc::{AllocError, Global};
use std::io::{self, Write};
use std::mem::forget;
use std::rt::Files;

/// Runs the script in a file, or its calls before a line, and prints the replies and what else is asked for.
pub fn run_file<R: Files + Input + Print>(
    host: &Host<'_, R>,
    alloc: Global,
    path: &str,
    flags: RunFlags,
    at: Option<u32>,
) -> Result<Outcome, Fault> {
    match at {
        None if is_plain(flags) && matches!(host.dress, Dress::Plain) => {
            run_plain(host.rt, alloc, path, options_of(flags))
        }
        None => run_source(host, alloc, &mut open(host.rt, path)?, flags),
        Some(_) => {
            let front = read_until(host, alloc, path, at)?;
            run_source(host, alloc, &mut Counted::new(front.as_slice()), flags)
        }
    }
}

/// Returns what a run writes besides its replies, by these flags.
fn options_of(flags: RunFlags) -> Options {
    Options {
        tree: flags.tree,
        trace: flags.trace,
    }
}

/// Returns what a run writes with its replies, by these flags.
fn notes_of(flags: RunFlags) -> Notes {
    Notes {
        calls: flags.calls,
        why: flags.why,
        explain: flags.explain,
    }
}

/// Checks whether flags ask for nothing but what `run` of `histar_shell` writes.
fn is_plain(flags: RunFlags) -> bool {
    !flags.calls && !flags.explain && !flags.why
}

/// Runs the script of a source, and prints the replies and what else is asked for.
fn run_source<R: Print, S: Source>(
    host: &Host<'_, R>,
    alloc: Global,
    reader: &mut S,
    flags: RunFlags,
) -> Result<Outcome, Fault> {
    let options = options_of(flags);
    let mut writer = host.page(alloc)?;
    let done = if flags.calls || (flags.why && flags.explain) {
        run_with_notes(alloc, reader, &mut writer, options, notes_of(flags))
    } else if flags.why {
        run_with_reasons(alloc, reader, &mut writer, options)
    } else if flags.explain {
        explain_script(alloc, reader, &mut writer, options)
    } else {
        run(alloc, reader, &mut writer, options).map(|trace| forget(trace))
    };
    host.end(alloc, done.map(|_| Outcome::Done), writer)
}

/// Runs the raw session in a file, and prints the replies to its calls, and the reasons of denials if asked
/// for.
pub fn run_raw_file<R: Files + Input + Print>(
    host: &Host<'_, R>,
    alloc: Global,
    path: &str,
    explain: bool,
) -> Result<Outcome, Fault> {
    let mut reader = open(host.rt, path)?;
    let mut writer = host.page(alloc)?;
    let done = if explain {
        explain_raw_script(alloc, &mut reader, &mut writer)
    } else {
        run_raw_script(alloc, &mut reader, &mut writer)
    };
    host.end(alloc, done.map(|_| Outcome::Done), writer)
}

/// What a comparison prints, and up to which line it runs.
#[derive(Clone, Copy)]
pub struct CheckOptions {
    pub flags: CheckFlags,
    pub at: Option<u32>,
}

/// Prints what differs for outsiders when the script in a file, or its calls before a line, are run without a job.
pub fn check_file<R: Files + Input + Print>(
    host: &Host<'_, R>,
    alloc: Global,
    job: &ProcName,
    path: &str,
    options: CheckOptions,
) -> Result<Outcome, Fault> {
    let CheckOptions { flags, at } = options;
    let input = read_until(host, alloc, path, at)?;
    let (line, verdict) = compared(alloc, input.as_slice(), job, flags.why)?;
    host.print(alloc, line.as_slice())?;
    Ok(is_so(!flags.exit_code || matches!(verdict, Verdict::Same)))
}

/// Returns what is printed of a comparison, and its verdict.
fn compared(
    alloc: Global,
    text: &[u8],
    job: &ProcName,
    why: bool,
) -> Result<(Vec<u8>, Verdict), Fault> {
    if why {
        let found = explain_comparison(alloc, text, job)?;
        return Ok((found.line(alloc, true)?, found.verdict));
    }
    let verdict = compare(alloc, text, job)?;
    let line = format!(in alloc; "{verdict}\n")?;
    Ok((line.into_bytes(), verdict))
}

/// Prints what differs for outsiders when the script in a file is run without each job that it starts.
pub fn check_each_job<R: Files + Input + Print>(
    host: &Host<'_, R>,
    alloc: Global,
    path: &str,
    options: CheckOptions,
) -> Result<Outcome, Fault> {
    let CheckOptions { flags, at } = options;
    let input = read_until(host, alloc, path, at)?;
    let verdicts = compare_all(alloc, input.as_slice())?;
    let text = verdict_lines(alloc, verdicts.as_slice(), flags.why)?;
    host.print(alloc, text.as_slice())?;
    Ok(is_so(!flags.exit_code || are_same(verdicts.as_slice())))
}

/// Returns what is printed of these verdicts on jobs.
fn verdict_lines(alloc: Global, verdicts: &[JobVerdict], why: bool) -> Result<Vec<u8>, AllocError>
    ensures { IfOk result (λ text. text.items ≡ flat_map (job_text why) verdicts.now) }
{
    let mut text = Vec::new(alloc);
    let mut rest = verdicts;
    'verdicts: while let [verdict, more @ ..] = rest {
        let line = verdict.line(alloc, why)?;
        text.extend_from_slice(line.as_slice())?;
        rest = more;
    }
    Ok(text)
}

/// Checks whether nothing differs for outsiders without any of the jobs.
fn are_same(verdicts: &[JobVerdict]) -> bool
    ensures { result ≡ list_all is_same_without verdicts.now }
{
    let mut rest = verdicts;
    'verdicts: while let [verdict, more @ ..] = rest {
        if !matches!(verdict.found.verdict, Verdict::Same) {
            return false;
        }
        rest = more;
    }
    true
}

/// Returns the outcome of a task that answers a question.
fn is_so(holds: bool) -> Outcome {
    if holds { Outcome::Done } else { Outcome::NotSo }
}

/// Prints who may do what after the calls of the script in a file, or before a line, or who ever could.
pub fn access_file<R: Files + Input + Print>(
    host: &Host<'_, R>,
    alloc: Global,
    path: &str,
    at: Option<u32>,
    kind: AccessKind,
) -> Result<Outcome, Fault> {
    let mut reader = open(host.rt, path)?;
    let mut writer = host.page(alloc)?;
    let done = match kind {
        AccessKind::Processes => access(alloc, &mut reader, &mut writer, at),
        AccessKind::Users => access_users(alloc, &mut reader, &mut writer, at),
        AccessKind::Ever => access_ever(alloc, &mut reader, &mut writer, at),
        AccessKind::UsersEver => access_users_ever(alloc, &mut reader, &mut writer, at),
    };
    host.end(alloc, done.map(|_| Outcome::Done), writer)
}

/// Prints whose rights differ after the calls of two scripts, or before a line of each; or only where the new one
/// gives more.
pub fn diff_files<R: Files + Input + Print>(
    host: &Host<'_, R>,
    alloc: Global,
    old: &str,
    new: &str,
    options: DiffOptions,
) -> Result<Outcome, Fault> {
    let mut old_reader = open(host.rt, old)?;
    let mut new_reader = open(host.rt, new)?;
    let mut writer = host.page(alloc)?;
    let done = diff(
        alloc,
        &mut old_reader,
        &mut new_reader,
        &mut writer,
        options,
    );
    host.end(alloc, done.map(|holds| is_so(holds)), writer)
}

/// Prints which processes have to be trusted with a path after the calls of the script in a file, or before a
/// line, and why, if that is asked for.
pub fn trust_file<R: Files + Input + Print>(
    host: &Host<'_, R>,
    alloc: Global,
    path: &Path,
    file: &str,
    options: TrustOptions,
) -> Result<Outcome, Fault> {
    let mut reader = open(host.rt, file)?;
    let mut writer = host.page(alloc)?;
    let done = trust(alloc, path, &mut reader, &mut writer, options);
    host.end(alloc, done.map(|_| Outcome::Done), writer)
}

/// Prints the calls by which processes leak or change what is at a path after the calls of the script in a file,
/// or before a line.
pub fn leak_file<R: Files + Input + Print>(
    host: &Host<'_, R>,
    alloc: Global,
    path: &Path,
    file: &str,
    at: Option<u32>,
) -> Result<Outcome, Fault> {
    let mut reader = open(host.rt, file)?;
    let mut writer = host.page(alloc)?;
    let done = leak(alloc, path, &mut reader, &mut writer, at);
    host.end(alloc, done.map(|_| Outcome::Done), writer)
}

/// Prints which process can pass on what it knows to which after the calls of the script in a file, or before a
/// line.
pub fn flows_file<R: Files + Input + Print>(
    host: &Host<'_, R>,
    alloc: Global,
    path: &str,
    at: Option<u32>,
) -> Result<Outcome, Fault> {
    let mut reader = open(host.rt, path)?;
    let mut writer = host.page(alloc)?;
    let done = flows(alloc, &mut reader, &mut writer, at);
    host.end(alloc, done.map(|_| Outcome::Done), writer)
}

/// Runs a script in a file in which threads of a job make raw calls, and prints what became of each call.
pub fn attack_file<R: Files + Input + Print>(
    host: &Host<'_, R>,
    alloc: Global,
    job: &ProcName,
    path: &str,
    flags: AttackFlags,
) -> Result<Outcome, Fault> {
    let options = AttackOptions {
        trace: flags.trace,
        follow: flags.follow,
    };
    let mut reader = open(host.rt, path)?;
    let mut writer = host.page(alloc)?;
    let done = attack(alloc, job, &mut reader, &mut writer, options);
    host.end(alloc, done.map(|_| Outcome::Done), writer)
}

/// Makes calls behind the script in a file, or before a line of it, and prints their replies.
pub fn try_file<R: Files + Input + Print>(
    host: &Host<'_, R>,
    alloc: Global,
    path: &str,
    calls: &[&str],
    at: Option<u32>,
) -> Result<Tried, Fault> {
    let mut reader = open(host.rt, path)?;
    let mut writer = host.page(alloc)?;
    let mut texts = Vec::with_capacity(alloc, calls.len())?;
    for call in calls {
        texts.push(call.as_bytes())?;
    }
    let done = try_calls(alloc, texts.as_slice(), &mut reader, &mut writer, at);
    host.end(alloc, done, writer)
}

/// Answers lines of standard input, one after another, behind those of the script in a file, if there is one. Each
/// answer is written at once.
pub fn shell_file<R: Files + Input + Print>(
    host: &Host<'_, R>,
    alloc: Global,
    path: Option<&str>,
    prompt: bool,
) -> Result<Outcome, Fault> {
    let first = match path {
        None => None,
        Some(path) => Some(read_file(host, alloc, path)?),
    };
    let text = first.as_ref().map(|text| text.as_slice());
    let mut reader = Counted::new(host.rt.reader());
    let mut writer = Counted::new(io::writer(host.rt));
    let mut shelf = Folder { rt: host.rt };
    converse(alloc, text, &mut reader, &mut writer, &mut shelf, prompt)?;
    Ok(Outcome::Done)
}

/// Prints why files of this kind are bad, if they are, and the warnings on right ones, if they are asked for. Whether the
/// status says that there was a warning is the last argument.
pub fn lint_files<R: Files + Input + Print>(
    host: &Host<'_, R>,
    alloc: Global,
    paths: &[&str],
    kind: LintKind,
    exit_code: bool,
) -> Result<Outcome, Fault> {
    let mut outcome = Outcome::Done;
    for path in paths {
        match (lint_file(host, alloc, path, kind)?, outcome) {
            (Found::BadLine, _) => outcome = Outcome::BadScript,
            (Found::Warnings, Outcome::Done) if exit_code => outcome = Outcome::NotSo,
            _ => {}
        }
    }
    Ok(outcome)
}

/// Prints what is found in a file of this kind, and returns whether that is a bad line, or warnings.
fn lint_file<R: Files + Input + Print>(
    host: &Host<'_, R>,
    alloc: Global,
    path: &str,
    kind: LintKind,
) -> Result<Found, Fault> {
    let mut reader = open(host.rt, path)?;
    let mut writer = host.page(alloc)?;
    let name = shown_name(alloc, path.as_bytes())?;
    let name = name.as_slice();
    let done = match kind {
        LintKind::Script => lint(alloc, name, &mut reader, &mut writer).map(|is_right| found(
            is_right,
        )),
        LintKind::Raw => lint_raw(alloc, name, &mut reader, &mut writer).map(|is_right| found(
            is_right,
        )),
        LintKind::Attack => {
            lint_attack(alloc, name, &mut reader, &mut writer).map(|is_right| found(is_right))
        }
        LintKind::Policy => lint_policy(alloc, name, &mut reader, &mut writer),
    };
    host.end(alloc, done, writer)
}

/// Returns what was found in a file that is right or has a bad line.
fn found(is_right: bool) -> Found {
    if is_right {
        Found::Nothing
    } else {
        Found::BadLine
    }
}

/// Prints the session of the script in a file as a page, or that of its calls before a line.
pub fn report_file<R: Files + Input + Print>(
    host: &Host<'_, R>,
    alloc: Global,
    path: &str,
    at: Option<u32>,
) -> Result<Outcome, Fault> {
    let input = read_until(host, alloc, path, at)?;
    let mut writer = host.page(alloc)?;
    let done = write_report(alloc, path, input.as_slice(), &mut writer);
    host.end(alloc, done.map(|_| Outcome::Done), writer)
}

/// Writes the session of the script in a file as a page, or that of its calls before a line, to a file of this name.
pub fn save_report<R: Files + Input>(
    host: &Host<'_, R>,
    alloc: Global,
    path: &str,
    at: Option<u32>,
    page: &str,
) -> Result<Outcome, Fault> {
    let input = read_until(host, alloc, path, at)?;
    let mut draft = Draft::begin(host.rt, alloc, page)?;
    let done = write_report(alloc, path, input.as_slice(), draft.writer());
    draft.end(host.rt, done)?;
    Ok(Outcome::Done)
}

/// Writes the session of a script, which a file of this path has, as a page.
fn write_report<W: Sink>(
    alloc: Global,
    path: &str,
    script: &[u8],
    writer: &mut W,
) -> Result<(), Fault> {
    let name = match path.rsplit_once('/') {
        Some((_, name)) => name,
        None => path,
    };
    let name = shown_name(alloc, name.as_bytes())?;
    let mut reader = Counted::new(script);
    report(
        alloc,
        &mut reader,
        writer,
        name.as_slice(),
        VERSION.as_bytes(),
    )
}

/// Compares the replies to the scripts in files with those that they expect, and prints the results.
pub fn test_files<R: Files + Input + Print>(
    host: &Host<'_, R>,
    alloc: Global,
    paths: &[&str],
    strict: bool,
) -> Result<Outcome, Fault> {
    let files = read_files(host, alloc, paths)?;
    let mut writer = host.page(alloc)?;
    let done = test(alloc, files.as_slice(), strict, &mut writer);
    host.end(alloc, done.map(|holds| is_so(holds)), writer)
}

/// Reads the whole of a file.
fn read_file<R: Files + Input>(
    host: &Host<'_, R>,
    alloc: Global,
    path: &str,
) -> Result<Vec<u8>, Fault> {
    let mut reader = open(host.rt, path)?;
    let input = read_input(alloc, &mut reader)?;
    Ok(input)
}

/// Reads the whole of a file, or the front of the script in it up to a line.
fn read_until<R: Files + Input>(
    host: &Host<'_, R>,
    alloc: Global,
    path: &str,
    at: Option<u32>,
) -> Result<Vec<u8>, Fault> {
    let input = read_file(host, alloc, path)?;
    match at {
        None => Ok(input),
        Some(line) => front_before(alloc, input.as_slice(), line),
    }
}

/// Reads files, each with its name.
fn read_files<R: Files + Input>(
    host: &Host<'_, R>,
    alloc: Global,
    paths: &[&str],
) -> Result<Vec<TestFile>, Fault> {
    let mut files = Vec::with_capacity(alloc, paths.len())?;
    for path in paths {
        let text = read_file(host, alloc, path)?;
        let name = shown_name(alloc, path.as_bytes())?;
        files.push(TestFile { name, text })?;
    }
    Ok(files)
}
