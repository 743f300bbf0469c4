//! The trials that a text lists.
use histar_access::DiffOptions;
use histar_attack::AttackOptions;
use histar_flat::{Path, ProcName, read_number, read_path, read_process, split_at_first};
use histar_output::Form;
use histar_shell::Options;
use histar_transcript::Notes;
use histar_trust::TrustOptions;
use memchr::memmem;

/// What a trial runs.
#[derive(Clone, Copy)]
pub enum Kind {
    /// A script, with what is printed beside the replies.
    Run(Options),
    /// The calls of a script before a line.
    RunAt(Option<u32>),
    /// A script, with the explanations of denials.
    Explain(Options),
    /// The same, with the reasons of refusals.
    Why(Options),
    /// A script, with these notes.
    Noted(Notes),
    /// A script, compared with the one without this job.
    Check(ProcName),
    /// The same, with what each of the two prints where they differ.
    CheckWhy(ProcName),
    /// A script, compared with the one without each of its jobs.
    CheckAll,
    /// The rights in a script, before a line or at its end.
    Access(Option<u32>),
    /// The rights of users there.
    AccessUsers(Option<u32>),
    /// The rights that processes ever had there.
    AccessEver(Option<u32>),
    /// The rights that users ever had there.
    AccessUsersEver(Option<u32>),
    /// The rights that differ between two scripts, or only those that the new one gives.
    Diff(DiffOptions),
    /// On whom it depends what is at a path, and why, if that is asked for.
    Trust(Path, TrustOptions),
    /// By which calls what is at a path is leaked and changed.
    Leak(Path, Option<u32>),
    /// Which process can pass on what it knows to which.
    Flows(Option<u32>),
    /// Calls behind a script, or before a line of it.
    Try(Option<u32>),
    /// A script in which threads of this job make raw calls.
    Attack(ProcName, AttackOptions),
    /// A script or a raw session whose name is in the title.
    File(FileKind),
    /// Lines that are answered one after another, perhaps behind a script.
    Shell,
    /// A session of raw calls.
    Raw,
    /// The same, with the explanations of denials.
    ExplainRaw,
    /// Lines that a subcommand writes, as JSON objects.
    Json(Form),
    /// Lines of a run, with refusals in red.
    Coloured,
}

/// What is made of a script or a raw session that has a name.
#[derive(Clone, Copy)]
pub enum FileKind {
    /// The sentence on the first bad line of a script.
    Lint,
    /// The sentence on the first bad line of a raw session.
    LintRaw,
    /// The page of a session.
    Report,
    /// The sentence on the first bad line of a script with raw calls between its lines.
    LintAttack,
    /// The warnings on a right script.
    LintPolicy,
    /// The results of what a script expects.
    Test,
    /// The same of a strict test.
    StrictTest,
}

/// A title, and the script or the raw session below it.
#[derive(Clone, Copy)]
pub struct Trial<'a> {
    pub title: &'a [u8],
    pub kind: Kind,
    pub body: &'a [u8],
}

/// The beginning of a title.
const MARK: &[u8] = b"== ";

/// The greatest number of a line.
const MOST_LINES: u64 = 1_048_576;

/// Reads the options of a run.
fn read_options(words: Option<&[u8]>) -> Option<Options> {
    let Some(words) = words else {
        return Some(options(false, false));
    };
    match words {
        b"--tree" => Some(options(true, false)),
        b"--trace" => Some(options(false, true)),
        b"--tree --trace" => Some(options(true, true)),
        _ => None,
    }
}

/// Returns the options that ask for the tree and for the trace.
fn options(tree: bool, trace: bool) -> Options {
    Options { tree, trace }
}

/// Reads the number of a line, if there is one.
fn read_line(word: Option<&[u8]>) -> Option<Option<u32>> {
    let Some(word) = word else {
        return Some(None);
    };
    let number = read_number(word, MOST_LINES)?;
    Some(Some(number as u32))
}

/// Reads how two scripts are compared, by the first word of a title and the line before which it is done, if it is
/// before one.
fn read_difference(word: &[u8], line: Option<&[u8]>) -> Option<Kind> {
    let (users, more) = match word {
        b"diff" => (false, false),
        b"diff_more" => (false, true),
        b"diff_users" => (true, false),
        b"diff_users_more" => (true, true),
        _ => return None,
    };
    let at = read_line(line)?;
    Some(Kind::Diff(DiffOptions {
        old_at: at,
        new_at: at,
        users,
        more,
    }))
}

/// Reads a path, and behind it the number of a line, if there is one.
fn read_place(words: &[u8]) -> Option<(Path, Option<u32>)> {
    let (path, line) = split_at_first(words, b' ');
    Some((read_path(path)?, read_line(line)?))
}

/// Returns the options that ask for the trust before a line or at the end, perhaps with reasons.
fn trust_options(at: Option<u32>, why: bool) -> TrustOptions {
    TrustOptions { at, why }
}

/// Reads what a title asks of a path in a script, by its first word.
fn read_secret(word: &[u8], rest: Option<&[u8]>) -> Option<Kind> {
    let (path, line) = read_place(rest?)?;
    match word {
        b"trust" => Some(Kind::Trust(path, trust_options(line, false))),
        b"trust_why" => Some(Kind::Trust(path, trust_options(line, true))),
        b"leak" => Some(Kind::Leak(path, line)),
        _ => None,
    }
}

/// Reads which run a title asks for, by its first word and the flags behind it.
fn read_run(word: &[u8], rest: Option<&[u8]>) -> Option<Kind> {
    match word {
        b"run" => Some(Kind::Run(read_options(rest)?)),
        b"run_at" => Some(Kind::RunAt(read_line(rest)?)),
        b"explain" => Some(Kind::Explain(read_options(rest)?)),
        b"why" => Some(Kind::Why(read_options(rest)?)),
        _ => read_notes(word),
    }
}

/// Reads which notes a title asks for.
fn read_notes(word: &[u8]) -> Option<Kind> {
    let (calls, why, explain) = match word {
        b"calls" => (true, false, false),
        b"calls_why" => (true, true, false),
        b"calls_explain" => (true, false, true),
        b"calls_why_explain" => (true, true, true),
        b"why_explain" => (false, true, true),
        _ => return None,
    };
    Some(Kind::Noted(Notes {
        calls,
        why,
        explain,
    }))
}

/// Reads which comparison a title asks for, by its first word and the job behind it.
fn read_check(word: &[u8], rest: Option<&[u8]>) -> Option<Kind> {
    match word {
        b"check" => Some(Kind::Check(read_process(rest?)?)),
        b"check_why" => Some(Kind::CheckWhy(read_process(rest?)?)),
        b"check_all" => Some(Kind::CheckAll),
        _ => read_attack(word, rest),
    }
}

/// Reads which attack a title asks for, by its first word and the job behind it.
fn read_attack(word: &[u8], rest: Option<&[u8]>) -> Option<Kind> {
    let (trace, follow) = match word {
        b"attack" => (false, false),
        b"attack_trace" => (true, false),
        b"attack_follow" => (false, true),
        _ => return None,
    };
    Some(Kind::Attack(read_process(rest?)?, AttackOptions { trace, follow }))
}

/// Reads what a title asks of a script, by its first word and the line or the path behind it.
fn read_question(word: &[u8], rest: Option<&[u8]>) -> Option<Kind> {
    match word {
        b"access" => Some(Kind::Access(read_line(rest)?)),
        b"access_users" => Some(Kind::AccessUsers(read_line(rest)?)),
        b"access_ever" => Some(Kind::AccessEver(read_line(rest)?)),
        b"access_users_ever" => Some(Kind::AccessUsersEver(read_line(rest)?)),
        b"flows" => Some(Kind::Flows(read_line(rest)?)),
        b"try" => Some(Kind::Try(read_line(rest)?)),
        _ => read_difference(word, rest).or(read_secret(word, rest)),
    }
}

/// Reads what a title asks for of a raw session or a file, by its first word.
fn read_session(word: &[u8]) -> Option<Kind> {
    match word {
        b"shell" => Some(Kind::Shell),
        b"raw" => Some(Kind::Raw),
        b"explain_raw" => Some(Kind::ExplainRaw),
        b"lint" => Some(Kind::File(FileKind::Lint)),
        b"lint_raw" => Some(Kind::File(FileKind::LintRaw)),
        b"lint_attack" => Some(Kind::File(FileKind::LintAttack)),
        b"lint_policy" => Some(Kind::File(FileKind::LintPolicy)),
        b"report" => Some(Kind::File(FileKind::Report)),
        b"test" => Some(Kind::File(FileKind::Test)),
        b"test_strict" => Some(Kind::File(FileKind::StrictTest)),
        _ => None,
    }
}

/// Reads what a title asks for of lines of an output, by its first word and the subcommand behind it.
fn read_lines(word: &[u8], rest: Option<&[u8]>) -> Option<Kind> {
    match word {
        b"json" => Some(Kind::Json(read_form(rest?)?)),
        b"coloured" => Some(Kind::Coloured),
        _ => None,
    }
}

/// Reads the subcommand whose lines are meant.
fn read_form(word: &[u8]) -> Option<Form> {
    match word {
        b"run" => Some(Form::Run),
        b"access" => Some(Form::Access),
        b"trust" => Some(Form::Trust),
        b"flows" => Some(Form::Flows),
        b"check" => Some(Form::Check),
        b"check_all" => Some(Form::CheckAll),
        b"diff" => Some(Form::Diff),
        b"diff_users" => Some(Form::DiffUsers),
        b"test" => Some(Form::Test),
        b"lint" => Some(Form::Lint),
        _ => None,
    }
}

/// Reads what a title asks for: the first that it is of a run, a comparison, a question, a session and lines.
fn read_kind(title: &[u8]) -> Option<Kind> {
    let (word, rest) = split_at_first(title, b' ');
    read_run(word, rest)
        .or(read_check(word, rest))
        .or(read_question(word, rest))
        .or(read_session(word))
        .or(read_lines(word, rest))
}

/// Splits a text into the lines before the next title and the rest.
fn split_body(text: &[u8]) -> (&[u8], &[u8]) {
    if text.starts_with(MARK) {
        return (&[], text);
    }
    match memmem::find(text, b"\n== ") {
        Some(at) => text.split_at(at + 1),
        None => (text, &[]),
    }
}

/// Reads the first trial of a text, and returns it with the text after it.
pub fn next_trial(text: &[u8]) -> Option<(Trial<'_>, &[u8])> {
    let rest = text.strip_prefix(MARK)?;
    let (title, lines) = split_at_first(rest, b'\n');
    let kind = read_kind(title)?;
    let (body, later) = split_body(lines?);
    Some((Trial { title, kind, body }, later))
}
