//! The program: `histar run FILE` runs a script and prints the replies; `histar --help` lists subcommands.
#![tactic(auto)]

mod draft;
mod dress;
mod folder;
mod hints;
mod names;
mod output;
mod tasks;
mod version;

use crate::dress::dress_of;
use crate::hints::{say_why, say_word};
use crate::output::Host;
use crate::tasks::{
    CheckOptions, access_file, attack_file, check_each_job, check_file, diff_files, flows_file,
    leak_file, lint_files, report_file, run_file, run_raw_file, save_report, shell_file,
    test_files, trust_file, try_file,
};
use crate::version::installed_version;
use clap::error::ErrorKind;
use histar_access::DiffOptions;
use histar_command_line::{
    AccessKind, AttackFlags, CheckFlags, DiffFlags, Request, RunFlags, Task, read_words,
};
use histar_console::{Outcome, REFUSED, command_line, outcome_status, refuse, report};
use histar_flat::{ProcName, read_path, read_process};
use histar_script::Fault;
use histar_transcript::Tried;
use histar_trust::TrustOptions;
use std::alloc::Global;
use std::io::{self, IsTerminal};
use std::process::ExitCode;
use std::rt::{Env, Files};
use std::{env, str};

/// A word of the command line that can't be read.
#[derive(Drop)]
enum BadWord {
    /// The job is not the name of a process.
    Job,
    /// The line is not a line number.
    Line,
    /// The path is not a path.
    Path,
    /// It is not said when refusals are in colour.
    Color,
    /// The call of this number, which counts from 1, is bad. The sentence says what is wrong.
    Call(usize, Vec<u8>),
}

/// Reads the number of a line.
fn read_line(word: Option<&str>) -> Result<Option<u32>, BadWord> {
    match word {
        None => Ok(None),
        Some(word) => match word.parse::<u32>() {
            Ok(line) => Ok(Some(line)),
            Err(_) => Err(BadWord::Line),
        },
    }
}

/// Reads the number of a line of two scripts, or those of the old one and of the new one with a colon between them.
fn read_sides(word: Option<&str>) -> Result<(Option<u32>, Option<u32>), BadWord> {
    match word.and_then(|word| word.split_once(':')) {
        None => {
            let at = read_line(word)?;
            Ok((at, at))
        }
        Some((old, new)) => Ok((read_line(Some(old))?, read_line(Some(new))?)),
    }
}

/// Reads the name of a job.
fn read_job(word: &str) -> Result<ProcName, BadWord> {
    read_process(word.as_bytes()).ok_or(BadWord::Job)
}

/// What a task came to, unless a word of it can't be read.
type Performed = Result<Result<Outcome, Fault>, BadWord>;

/// Runs the script in a file, or its calls before this line.
fn run_at<R: Files + Input + Print>(
    host: &Host<'_, R>,
    alloc: Global,
    path: &str,
    flags: RunFlags,
    line: Option<&str>,
) -> Performed {
    let at = read_line(line)?;
    Ok(run_file(host, alloc, path, flags, at))
}

/// Compares the script in a file, or its calls before a line, with the ones without this job.
fn check_job<R: Files + Input + Print>(
    host: &Host<'_, R>,
    alloc: Global,
    job: &str,
    path: &str,
    flags: CheckFlags,
    line: Option<&str>,
) -> Performed {
    let at = read_line(line)?;
    let job = read_job(job)?;
    Ok(check_file(host, alloc, &job, path, CheckOptions { flags, at }))
}

/// Compares the script in a file, or its calls before a line, with the ones without each job.
fn check_all<R: Files + Input + Print>(
    host: &Host<'_, R>,
    alloc: Global,
    path: &str,
    flags: CheckFlags,
    line: Option<&str>,
) -> Performed {
    let at = read_line(line)?;
    Ok(check_each_job(host, alloc, path, CheckOptions { flags, at }))
}

/// Prints the session of the script in a file as a page, or that of its calls before this line, or writes the page
/// to a file.
fn report_at<R: Files + Input + Print>(
    host: &Host<'_, R>,
    alloc: Global,
    path: &str,
    line: Option<&str>,
    page: Option<&str>,
) -> Performed {
    let at = read_line(line)?;
    match page {
        None => Ok(report_file(host, alloc, path, at)),
        Some(page) => Ok(save_report(host, alloc, path, at, page)),
    }
}

/// Runs a script in a file in which threads of this job make raw calls.
fn attack_by<R: Files + Input + Print>(
    host: &Host<'_, R>,
    alloc: Global,
    job: &str,
    path: &str,
    flags: AttackFlags,
) -> Performed {
    let job = read_job(job)?;
    Ok(attack_file(host, alloc, &job, path, flags))
}

/// Prints who may do what after the script in a file, or before this line, or who ever could.
fn access_at<R: Files + Input + Print>(
    host: &Host<'_, R>,
    alloc: Global,
    path: &str,
    line: Option<&str>,
    kind: AccessKind,
) -> Performed {
    let line = read_line(line)?;
    Ok(access_file(host, alloc, path, line, kind))
}

/// Prints whose rights differ after two scripts, or before this line of both, or these of each.
fn diff_at<R: Files + Input + Print>(
    host: &Host<'_, R>,
    alloc: Global,
    old: &str,
    new: &str,
    line: Option<&str>,
    flags: DiffFlags,
) -> Performed {
    let (old_at, new_at) = read_sides(line)?;
    let options = DiffOptions {
        old_at,
        new_at,
        users: flags.users,
        more: flags.more,
    };
    Ok(diff_files(host, alloc, old, new, options))
}

/// Prints who has to be trusted with this path after the script in a file, or before a line, perhaps with the
/// reasons.
fn trust_at<R: Files + Input + Print>(
    host: &Host<'_, R>,
    alloc: Global,
    path: &str,
    file: &str,
    line: Option<&str>,
    why: bool,
) -> Performed {
    let at = read_line(line)?;
    let path = read_path(path.as_bytes()).ok_or(BadWord::Path)?;
    Ok(trust_file(host, alloc, &path, file, TrustOptions { at, why }))
}

/// Prints the calls by which processes leak or change what is at this path after the script in a file, or before
/// this line.
fn leak_at<R: Files + Input + Print>(
    host: &Host<'_, R>,
    alloc: Global,
    path: &str,
    file: &str,
    line: Option<&str>,
) -> Performed {
    let path = read_path(path.as_bytes()).ok_or(BadWord::Path)?;
    let line = read_line(line)?;
    Ok(leak_file(host, alloc, &path, file, line))
}

/// Prints which process can pass on what it knows to which after the script in a file, or before this line.
fn flows_at<R: Files + Input + Print>(
    host: &Host<'_, R>,
    alloc: Global,
    path: &str,
    line: Option<&str>,
) -> Performed {
    let line = read_line(line)?;
    Ok(flows_file(host, alloc, path, line))
}

/// Makes calls behind the script in a file, or before this line of it, and prints their replies.
fn try_at<R: Files + Input + Print>(
    host: &Host<'_, R>,
    alloc: Global,
    path: &str,
    calls: &[&str],
    line: Option<&str>,
) -> Performed {
    let line = read_line(line)?;
    match try_file(host, alloc, path, calls, line) {
        Ok(Tried::Made) => Ok(Ok(Outcome::Done)),
        Ok(Tried::BadCall(number, sentence)) => Err(BadWord::Call(number, sentence)),
        Err(fault) => Ok(Err(fault)),
    }
}

/// Which of the standard streams a person is at.
#[derive(Clone, Copy)]
struct Terminals {
    input: bool,
    output: bool,
    errors: bool,
}

/// Does a task. It prints nothing if a word of the task can't be read.
fn perform<R: Files + Input + Print>(
    host: &Host<'_, R>,
    alloc: Global,
    task: &Task<'_>,
    terminals: Terminals,
) -> Performed {
    match task {
        Task::Shell(path) => Ok(shell_file(host, alloc, *path, terminals.input)),
        Task::Run(path, flags, line) => run_at(host, alloc, path, *flags, *line),
        Task::Try(path, calls, line) => try_at(host, alloc, path, calls.as_slice(), *line),
        Task::Raw(path, explain) => Ok(run_raw_file(host, alloc, path, *explain)),
        Task::Check(job, path, flags, line) => check_job(host, alloc, job, path, *flags, *line),
        Task::CheckAll(path, flags, line) => check_all(host, alloc, path, *flags, *line),
        Task::Access(path, line, kind) => access_at(host, alloc, path, *line, *kind),
        Task::Diff(old, new, line, flags) => diff_at(host, alloc, old, new, *line, *flags),
        Task::Trust(path, file, line, why) => trust_at(host, alloc, path, file, *line, *why),
        Task::Leak(path, file, line) => leak_at(host, alloc, path, file, *line),
        Task::Flows(path, line) => flows_at(host, alloc, path, *line),
        Task::Attack(job, path, flags) => attack_by(host, alloc, job, path, *flags),
        Task::Lint(files, kind, exit_code) => {
            Ok(lint_files(host, alloc, files.as_slice(), *kind, *exit_code))
        }
        Task::Report(path, line, page) => report_at(host, alloc, path, *line, *page),
        Task::Test(files, strict) => Ok(test_files(host, alloc, files.as_slice(), *strict)),
    }
}

/// Reports a word that can't be read, to a person at a terminal with the word, and returns the status.
fn refuse_word<R: Eprint>(rt: &R, request: &Request<'_>, bad: &BadWord, is_terminal: bool) -> u8 {
    let _ = match bad {
        BadWord::Job => eprintln!(rt; "histar: bad job"),
        BadWord::Line => eprintln!(rt; "histar: bad line"),
        BadWord::Path => eprintln!(rt; "histar: bad path"),
        BadWord::Color => eprintln!(rt; "histar: bad color: it is auto, always or never"),
        BadWord::Call(number, sentence) => refuse_call(rt, *number, sentence.as_slice()),
    };
    if is_terminal {
        say_word(rt, request, bad);
    }
    REFUSED
}

/// Reports a bad call and what is wrong with it.
fn refuse_call<R: Eprint>(rt: &R, number: usize, sentence: &[u8]) -> io::Result<()> {
    match str::from_utf8(sentence) {
        Ok(sentence) => eprintln!(rt; "histar: bad call {number}: {sentence}"),
        Err(_) => eprintln!(rt; "histar: bad call {number}"),
    }
}

/// Writes `clap`'s answer in place of a task, and returns the status.
///
/// Help and the version go to standard output, with status 0, or with the fault of a failed write. An installed program
/// has its version in a file. A refusal goes to standard error, with the status of a refused command line.
fn explain<R: Files + Print + Eprint + AllocGlobal>(rt: &R, error: &clap::Error) -> u8 {
    if let (ErrorKind::DisplayVersion, Some(version)) = (error.kind(), installed_version(rt)) {
        return match print!(rt; "{version}") {
            Ok(()) => 0,
            Err(_) => report(rt, &Fault::WriteFailed),
        };
    }
    if error.print(rt).is_err() && !error.use_stderr() {
        return report(rt, &Fault::WriteFailed);
    }
    error.exit_code() as u8
}

/// Reports a fault of a task, to a person at a terminal with the reason why a file is bad or can't be read, and returns
/// the status.
fn report_fault<R: Files + Input + Eprint>(
    rt: &R,
    alloc: Global,
    task: &Task<'_>,
    fault: &Fault,
    is_terminal: bool,
) -> u8 {
    let status = report(rt, fault);
    if is_terminal {
        say_why(rt, alloc, task, fault);
    }
    status
}

/// Does a task, and writes in the form that is asked for. It prints nothing if a word can't be read.
fn answer<R: Env + Files + Input + Print + AllocGlobal>(
    rt: &R,
    alloc: Global,
    request: &Request<'_>,
    terminals: Terminals,
) -> Performed {
    let dress = dress_of(request, is_coloured(rt, terminals)).ok_or(BadWord::Color)?;
    perform(&Host { rt, dress }, alloc, &request.task, terminals)
}

/// Checks whether refusals are in colour where the command line doesn't say: at a terminal, unless NO_COLOR has a
/// value.
fn is_coloured<R: Env + AllocGlobal>(rt: &R, terminals: Terminals) -> bool {
    let is_refused = match env::var(rt, "NO_COLOR") {
        Ok(value) => !value.is_empty(),
        Err(_) => false,
    };
    terminals.output && !is_refused
}

/// Does what the words ask for, and returns the status.
fn obey<R: Env + Files + Input + Print + Eprint + AllocGlobal>(
    rt: &R,
    alloc: Global,
    words: &[&str],
    terminals: Terminals,
) -> u8 {
    match read_words(alloc, words) {
        Err(error) => explain(rt, &error),
        Ok(request) => match answer(rt, alloc, &request, terminals) {
            Err(bad) => refuse_word(rt, &request, &bad, terminals.errors),
            Ok(Ok(outcome)) => outcome_status(outcome),
            Ok(Err(fault)) => report_fault(rt, alloc, &request.task, &fault, terminals.errors),
        },
    }
}

/// Reads the command line and obeys it. A command line that can't be read is refused.
fn start<R: Env + Files + Input + Print + Eprint + AllocGlobal>(
    rt: &R,
    terminals: Terminals,
) -> u8 {
    let alloc = rt.alloc();
    let owned = match command_line(rt) {
        Ok(owned) => owned,
        Err(error) => return refuse(rt, &error),
    };
    let words = owned.iter().map(|word| word.as_str());
    match words.collect::<Vec<&str>>(alloc) {
        Ok(words) => obey(rt, alloc, words.as_slice(), terminals),
        Err(error) => refuse(rt, &io::Error::from(error)),
    }
}

fn main(rt: HostRuntime) -> ExitCode {
    let terminals = Terminals {
        input: rt.stdin().is_terminal(),
        output: rt.stdout().is_terminal(),
        errors: rt.stderr().is_terminal(),
    };
    ExitCode::from(start(&rt, terminals))
}
