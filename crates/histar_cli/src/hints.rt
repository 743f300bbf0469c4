//! The line behind a fault or a refusal that says more to a person at a terminal.
use crate::BadWord;
use crate::names::shown_name;
use histar_attack_lint::lint_attack;
use histar_command_line::{LintKind, Request, Task};
use histar_console::open;
use histar_io::read_input;
use histar_lint::lint;
use histar_raw_lint::lint_raw;
use histar_script::Fault;
use histar_shell::Counted;
use histar_test::fault_sentence;
use std::alloc::{AllocError, Global};
use std::io::{self, Read};
use std::rt::Files;
use std::{fs, str};

/// Returns the files of a task.
fn files_of<'a>(alloc: Global, task: &Task<'a>) -> Result<Vec<&'a str>, AllocError> {
    match task {
        Task::Run(path, _, _) => Vec::from_slice(alloc, &[*path]),
        Task::Try(path, _, _) => Vec::from_slice(alloc, &[*path]),
        Task::Raw(path, _) => Vec::from_slice(alloc, &[*path]),
        Task::Check(_, path, _, _) => Vec::from_slice(alloc, &[*path]),
        Task::CheckAll(path, _, _) => Vec::from_slice(alloc, &[*path]),
        Task::Access(path, _, _) => Vec::from_slice(alloc, &[*path]),
        Task::Trust(_, path, _, _) => Vec::from_slice(alloc, &[*path]),
        Task::Leak(_, path, _) => Vec::from_slice(alloc, &[*path]),
        Task::Flows(path, _) => Vec::from_slice(alloc, &[*path]),
        Task::Attack(_, path, _) => Vec::from_slice(alloc, &[*path]),
        Task::Report(path, _, _) => Vec::from_slice(alloc, &[*path]),
        Task::Shell(Some(path)) => Vec::from_slice(alloc, &[*path]),
        Task::Shell(None) => Ok(Vec::new(alloc)),
        Task::Diff(old, new, _, _) => Vec::from_slice(alloc, &[*old, *new]),
        Task::Lint(files, _, _) => Vec::from_slice(alloc, files.as_slice()),
        Task::Test(files, _) => Vec::from_slice(alloc, files.as_slice()),
    }
}

/// What the files of a task are.
#[derive(Clone, Copy)]
enum Kind {
    /// Scripts.
    Script,
    /// Scripts that say what they expect.
    Test,
    /// Sessions of raw calls.
    Raw,
    /// Scripts with raw calls between their lines.
    Attack,
}

/// Returns what the files of a task are.
fn kind_of(task: &Task<'_>) -> Kind {
    match task {
        Task::Test(_, _) => Kind::Test,
        Task::Raw(_, _) | Task::Lint(_, LintKind::Raw, _) => Kind::Raw,
        Task::Attack(_, _, _) | Task::Lint(_, LintKind::Attack, _) => Kind::Attack,
        _ => Kind::Script,
    }
}

/// Returns the line of `lint` on a bad file of this kind, or nothing on a right one.
fn sentence_of<R: Files + Input>(
    rt: &R,
    alloc: Global,
    path: &str,
    kind: Kind,
) -> Result<Vec<u8>, Fault> {
    let mut reader = open(rt, path)?;
    let mut writer = Counted::new(Vec::new(alloc));
    let name = shown_name(alloc, path.as_bytes())?;
    let name = name.as_slice();
    let _is_right = match kind {
        Kind::Raw => lint_raw(alloc, name, &mut reader, &mut writer)?,
        Kind::Attack => lint_attack(alloc, name, &mut reader, &mut writer)?,
        Kind::Script | Kind::Test => lint(alloc, name, &mut reader, &mut writer)?,
    };
    Ok(writer.into_inner())
}

/// Returns the sentence on the first line of a right script that says badly what it expects, if there is one.
fn expectation_of<R: Files + Input>(
    rt: &R,
    alloc: Global,
    path: &str,
) -> Result<Option<Vec<u8>>, Fault> {
    let mut reader = open(rt, path)?;
    let input = read_input(alloc, &mut reader)?;
    Ok(fault_sentence(alloc, input.as_slice())?)
}

/// Writes what is wrong with the expectations of a right script, whose bad line has this number, and returns whether
/// anything is.
fn say_expectation<R: Files + Input + Eprint>(
    rt: &R,
    alloc: Global,
    path: &str,
    line: u32,
) -> bool {
    let Ok(Some(sentence)) = expectation_of(rt, alloc, path) else {
        return false;
    };
    if let Ok(sentence) = str::from_utf8(sentence.as_slice()) {
        let _ = eprintln!(rt; "{path}:{line}: {sentence}");
    }
    true
}

/// Writes why a file is bad or can't be read, and returns whether it is or can't.
fn say_of<R: Files + Input + Eprint>(
    rt: &R,
    alloc: Global,
    path: &str,
    kind: Kind,
    fault: &Fault,
) -> bool {
    match (sentence_of(rt, alloc, path, kind), fault) {
        (Ok(line), Fault::BadScript(number)) => {
            say_text(rt, line.as_slice())
                || matches!(kind, Kind::Test) && say_expectation(rt, alloc, path, *number)
        }
        (Err(Fault::TooLong), Fault::TooLong) => {
            let _ = eprintln!(rt; "{path}: script too long");
            true
        }
        (Err(Fault::ReadFailed), Fault::ReadFailed) => say_reason(rt, path),
        _ => false,
    }
}

/// Writes a text, and returns whether there is any.
fn say_text<R: Eprint>(rt: &R, text: &[u8]) -> bool {
    if let Ok(text) = str::from_utf8(text) {
        let _ = eprint!(rt; "{text}");
    }
    !text.is_empty()
}

/// Writes why a file can't be read, and returns whether it can't.
fn say_reason<R: Files + Eprint>(rt: &R, path: &str) -> bool {
    let Err(error) = read_byte(rt, path) else {
        return false;
    };
    let _ = match error.kind() {
        io::ErrorKind::NotFound => eprintln!(rt; "{path}: no such file"),
        io::ErrorKind::IsADirectory => eprintln!(rt; "{path}: is a directory"),
        io::ErrorKind::PermissionDenied => eprintln!(rt; "{path}: permission denied"),
        _ => eprintln!(rt; "{path}: {error}"),
    };
    true
}

/// Reads a byte of a file, if it has one.
fn read_byte<R: Files>(rt: &R, path: &str) -> io::Result<usize> {
    let mut file = fs::open(rt, path)?;
    file.read(&mut [0u8; 1])
}

/// Writes to standard error why the first bad file of a task is bad, as `lint` does, or why the first that can't be read
/// can't. It reads the files once more, and writes nothing of standard input.
pub fn say_why<R: Files + Input + Eprint>(rt: &R, alloc: Global, task: &Task<'_>, fault: &Fault) {
    let Ok(files) = files_of(alloc, task) else {
        return;
    };
    for path in &files {
        if *path != "-" && say_of(rt, alloc, path, kind_of(task), fault) {
            return;
        }
    }
}

/// Returns the word of the command line that can't be read.
fn word_of<'a>(request: &Request<'a>, bad: &BadWord) -> Option<&'a str> {
    match bad {
        BadWord::Color => request.shape.color,
        BadWord::Job => match &request.task {
            Task::Check(job, _, _, _) => Some(*job),
            Task::Attack(job, _, _) => Some(*job),
            _ => None,
        },
        BadWord::Path => match &request.task {
            Task::Trust(path, _, _, _) => Some(*path),
            Task::Leak(path, _, _) => Some(*path),
            _ => None,
        },
        BadWord::Line => line_of(&request.task),
        BadWord::Call(_, _) => None,
    }
}

/// Returns the word after `--at`.
fn line_of<'a>(task: &Task<'a>) -> Option<&'a str> {
    match task {
        Task::Run(_, _, line) => *line,
        Task::Try(_, _, line) => *line,
        Task::Check(_, _, _, line) => *line,
        Task::CheckAll(_, _, line) => *line,
        Task::Access(_, line, _) => *line,
        Task::Diff(_, _, line, _) => *line,
        Task::Trust(_, _, line, _) => *line,
        Task::Leak(_, _, line) => *line,
        Task::Flows(_, line) => *line,
        Task::Report(_, line, _) => *line,
        _ => None,
    }
}

/// Writes to standard error the word of the command line that can't be read.
pub fn say_word<R: Eprint>(rt: &R, request: &Request<'_>, bad: &BadWord) {
    if let Some(word) = word_of(request, bad) {
        let _ = eprintln!(rt; "{word}");
    }
}
