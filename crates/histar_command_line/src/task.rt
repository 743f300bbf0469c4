//! The task that the command line names.
ghost use Rattle.std.specs.Prelude.{◌≡◌, IfOk, IfSome, map};
ghost use Rattle.clap.specs.Words.{app_of, first_value, found_of, rows_of, subcommand_of, subcommand_rows_of};
ghost use Rattle.histar_command_line.specs.Forms.{histar_app};
ghost use Rattle.histar_command_line.specs.Tasks.{IsCheckOf, IsRequestOf, IsShapeOf, IsTaskOf, access_kind, is_given, lint_kind};

use crate::command::command;
use clap::error::ErrorKind;
use clap::{ArgMatches, Command, Error};
use std::alloc::{AllocError, Global};

/// What a run prints besides the replies.
#[derive(Clone, Copy)]
pub struct RunFlags {
    pub tree: bool,
    pub trace: bool,
    /// Why each call was refused, by the rules.
    pub why: bool,
    /// Why each denied raw call was denied.
    pub explain: bool,
    /// The text of its call before each reply.
    pub calls: bool,
}

/// What a comparison prints besides the verdict.
#[derive(Clone, Copy)]
pub struct CheckFlags {
    /// What each run prints where they differ.
    pub why: bool,
    /// Whether the status says what was found.
    pub exit_code: bool,
}

/// Whose rights are printed, and when they had them.
#[derive(Clone, Copy)]
pub enum AccessKind {
    /// Those of each running process.
    Processes,
    /// Those of each user.
    Users,
    /// Those that each process had at one time or another.
    Ever,
    /// Those that each user had at one time or another.
    UsersEver,
}

/// Whose rights are compared, and which differences are printed.
#[derive(Clone, Copy)]
pub struct DiffFlags {
    /// Whether the rights are those of users, and not of processes.
    pub users: bool,
    /// Whether only the lines are printed where the new script gives more.
    pub more: bool,
}

/// What kind of file is linted.
#[derive(Clone, Copy)]
pub enum LintKind {
    /// A script.
    Script,
    /// A session of raw calls.
    Raw,
    /// A script with raw calls between its lines.
    Attack,
    /// A script, of which a right one may have warnings.
    Policy,
}

/// What an attack prints besides what becomes of its lines, and which lines it makes.
#[derive(Clone, Copy)]
pub struct AttackFlags {
    pub trace: bool,
    /// Whether calls inside are made too.
    pub follow: bool,
}

/// What the program is to do: the subcommand with its words and its flags.
#[derive(Drop)]
pub enum Task<'a> {
    /// Run the script in this file, or its lines before the one of this number, and print what is asked for
    /// beside the replies.
    Run(&'a str, RunFlags, Option<&'a str>),
    /// Run the script in this file, make these calls behind it, or before the line of this number, and print
    /// their replies.
    Try(&'a str, Vec<&'a str>, Option<&'a str>),
    /// Answer lines of standard input, one after another, behind those of the script in this file, if there is one.
    Shell(Option<&'a str>),
    /// Run the raw session in this file, and explain why calls were denied, if that is asked for.
    Raw(&'a str, bool),
    /// Compare the script in a file with the one without a job, or the lines of both before the one of this
    /// number: first the job, then the file.
    Check(&'a str, &'a str, CheckFlags, Option<&'a str>),
    /// Compare the script in this file with the ones without each of the jobs that it starts, or the lines of all
    /// before the one of this number.
    CheckAll(&'a str, CheckFlags, Option<&'a str>),
    /// Print who may do what after the script in this file, or before the line of this number.
    Access(&'a str, Option<&'a str>, AccessKind),
    /// Print whose rights differ after an old script and a new one, or before the line of this number in
    /// both.
    Diff(&'a str, &'a str, Option<&'a str>, DiffFlags),
    /// Print which processes have to be trusted with a path after a script, or before the line of this
    /// number: first the path, then the file; and why, if that is asked for.
    Trust(&'a str, &'a str, Option<&'a str>, bool),
    /// Print the calls by which processes leak or change what is at a path after a script, or before the line
    /// of this number: first the path, then the file.
    Leak(&'a str, &'a str, Option<&'a str>),
    /// Print which process can pass on what it knows to which others after the script in this file, or before
    /// the line of this number.
    Flows(&'a str, Option<&'a str>),
    /// Run a script in which threads of a job make raw calls: first the job, then the file.
    Attack(&'a str, &'a str, AttackFlags),
    /// Print why the files of this kind are bad, if they are; whether the status says that there were warnings.
    Lint(Vec<&'a str>, LintKind, bool),
    /// Print the session of the script in this file as a page, or that of its lines before the one of this number;
    /// or write the page to a file of the last name, if there is one.
    Report(&'a str, Option<&'a str>, Option<&'a str>),
    /// Compare the replies to the scripts in these files with those that they expect, and miss what nothing is
    /// expected of and is refused, if that is asked for.
    Test(Vec<&'a str>, bool),
}

/// How the output of a task is written.
#[derive(Clone, Copy)]
pub struct Shape<'a> {
    /// Whether each line is written as a JSON object.
    pub json: bool,
    /// When refusals are in colour, if that is said.
    pub color: Option<&'a str>,
}

/// What the command line asks for: a task, and how its output is written.
#[derive(Drop)]
pub struct Request<'a> {
    pub task: Task<'a>,
    pub shape: Shape<'a>,
}

/// Checks whether a flag was given: its value is `true` then.
fn is_set(matches: &ArgMatches, name: &str) -> bool
    ensures { result ≡ is_given (first_value (found_of matches.now) name.now) }
{
    match matches.get_str(name) {
        None => false,
        Some(value) => value == "true",
    }
}

/// Returns the task of the subcommand that was matched.
fn task_of<'a>(matches: &ArgMatches<'a>) -> Option<Task<'a>>
    ensures { IfSome result (λ task. IsTaskOf task (subcommand_rows_of matches.now)) }
{
    if let Some(run) = matches.subcommand_matches("run") {
        let file = run.get_str("FILE")?;
        let tree = is_set(run, "tree");
        let trace = is_set(run, "trace");
        let why = is_set(run, "why");
        let explain = is_set(run, "explain");
        let calls = is_set(run, "calls");
        let at = run.get_str("LINE");
        let flags = RunFlags {
            tree,
            trace,
            why,
            explain,
            calls,
        };
        return Some(Task::Run(file, flags, at));
    }
    if let Some(raw) = matches.subcommand_matches("raw") {
        let file = raw.get_str("FILE")?;
        let explain = is_set(raw, "explain");
        return Some(Task::Raw(file, explain));
    }
    if let Some(check) = matches.subcommand_matches("check") {
        return check_task_of(check);
    }
    state_task_of(matches)
}

/// Returns the task of `check` with these words and flags. With `--all` its one word is the file.
fn check_task_of<'a>(check: &ArgMatches<'a>) -> Option<Task<'a>>
    ensures { IfSome result (λ task. IsCheckOf task (rows_of (found_of check.now))) }
{
    let word = check.get_str("JOB")?;
    let why = is_set(check, "why");
    let exit_code = is_set(check, "exit-code");
    let flags = CheckFlags { why, exit_code };
    let at = check.get_str("LINE");
    match (is_set(check, "all"), check.get_str("FILE")) {
        (true, None) => Some(Task::CheckAll(word, flags, at)),
        (false, Some(file)) => Some(Task::Check(word, file, flags, at)),
        _ => None,
    }
}

/// Returns the task of a matched subcommand that looks at a state.
fn state_task_of<'a>(matches: &ArgMatches<'a>) -> Option<Task<'a>>
    ensures { IfSome result (λ task. IsTaskOf task (subcommand_rows_of matches.now)) }
{
    if let Some(access) = matches.subcommand_matches("access") {
        let file = access.get_str("FILE")?;
        let at = access.get_str("LINE");
        let users = is_set(access, "users");
        let ever = is_set(access, "ever");
        return Some(Task::Access(file, at, access_kind(users, ever)));
    }
    if let Some(diff) = matches.subcommand_matches("diff") {
        let old = diff.get_str("OLD")?;
        let new = diff.get_str("NEW")?;
        let at = diff.get_str("LINE");
        let users = is_set(diff, "users");
        let more = is_set(diff, "more");
        return Some(Task::Diff(old, new, at, DiffFlags { users, more }));
    }
    secret_task_of(matches)
}

/// Returns whose rights these flags of `access` name.
fn access_kind(users: bool, ever: bool) -> AccessKind
    ensures { result ≡ access_kind users ever }
{
    match (users, ever) {
        (false, false) => AccessKind::Processes,
        (true, false) => AccessKind::Users,
        (false, true) => AccessKind::Ever,
        (true, true) => AccessKind::UsersEver,
    }
}

/// Returns the task of a matched subcommand on secrets and on who can pass them on.
fn secret_task_of<'a>(matches: &ArgMatches<'a>) -> Option<Task<'a>>
    ensures { IfSome result (λ task. IsTaskOf task (subcommand_rows_of matches.now)) }
{
    if let Some(trust) = matches.subcommand_matches("trust") {
        let path = trust.get_str("PATH")?;
        let file = trust.get_str("FILE")?;
        let at = trust.get_str("LINE");
        let why = is_set(trust, "why");
        return Some(Task::Trust(path, file, at, why));
    }
    if let Some(leak) = matches.subcommand_matches("leak") {
        let path = leak.get_str("PATH")?;
        let file = leak.get_str("FILE")?;
        let at = leak.get_str("LINE");
        return Some(Task::Leak(path, file, at));
    }
    if let Some(flows) = matches.subcommand_matches("flows") {
        let file = flows.get_str("FILE")?;
        let at = flows.get_str("LINE");
        return Some(Task::Flows(file, at));
    }
    session_task_of(matches)
}

/// Returns the task of a matched subcommand that attacks, or answers or shows a whole session.
fn session_task_of<'a>(matches: &ArgMatches<'a>) -> Option<Task<'a>>
    ensures { IfSome result (λ task. IsTaskOf task (subcommand_rows_of matches.now)) }
{
    if let Some(attack) = matches.subcommand_matches("attack") {
        let job = attack.get_str("JOB")?;
        let file = attack.get_str("FILE")?;
        let trace = is_set(attack, "trace");
        let follow = is_set(attack, "follow");
        return Some(Task::Attack(job, file, AttackFlags { trace, follow }));
    }
    if let Some(shell) = matches.subcommand_matches("shell") {
        return Some(Task::Shell(shell.get_str("FILE")));
    }
    let report = matches.subcommand_matches("report")?;
    let file = report.get_str("FILE")?;
    let at = report.get_str("LINE");
    let page = report.get_str("PAGE");
    Some(Task::Report(file, at, page))
}

/// Returns the task of `lint`, if it was matched.
fn lint_task_of<'a>(alloc: Global, matches: &ArgMatches<'a>) -> Result<Option<Task<'a>>, AllocError>
    ensures { IfOk result (λ found. IfSome found (λ task. IsTaskOf task (subcommand_rows_of matches.now))) }
{
    let Some(lint) = matches.subcommand_matches("lint") else {
        return Ok(None);
    };
    let Some(files) = lint.get_strs("FILE") else {
        return Ok(None);
    };
    let raw = is_set(lint, "raw");
    let attack = is_set(lint, "attack");
    let policy = is_set(lint, "policy");
    let Some(kind) = lint_kind(raw, attack, policy) else {
        return Ok(None);
    };
    let exit_code = is_set(lint, "exit-code");
    let files = Vec::from_slice(alloc, files)?;
    Ok(Some(Task::Lint(files, kind, exit_code)))
}

/// Returns which kind of file these flags of `lint` name, if they don't name two.
fn lint_kind(raw: bool, attack: bool, policy: bool) -> Option<LintKind>
    ensures { result ≡ lint_kind raw attack policy }
{
    match (raw, attack, policy) {
        (false, false, false) => Some(LintKind::Script),
        (true, false, false) => Some(LintKind::Raw),
        (false, true, false) => Some(LintKind::Attack),
        (false, false, true) => Some(LintKind::Policy),
        _ => None,
    }
}

/// Returns the task of `test`, if it was matched.
fn test_task_of<'a>(alloc: Global, matches: &ArgMatches<'a>) -> Result<Option<Task<'a>>, AllocError>
    ensures { IfOk result (λ found. IfSome found (λ task. IsTaskOf task (subcommand_rows_of matches.now))) }
{
    let Some(test) = matches.subcommand_matches("test") else {
        return Ok(None);
    };
    let Some(files) = test.get_strs("FILE") else {
        return Ok(None);
    };
    let strict = is_set(test, "strict");
    let files = Vec::from_slice(alloc, files)?;
    Ok(Some(Task::Test(files, strict)))
}

/// Returns the task of `try`, if it was matched.
fn try_task_of<'a>(alloc: Global, matches: &ArgMatches<'a>) -> Result<Option<Task<'a>>, AllocError>
    ensures { IfOk result (λ found. IfSome found (λ task. IsTaskOf task (subcommand_rows_of matches.now))) }
{
    let Some(tried) = matches.subcommand_matches("try") else {
        return Ok(None);
    };
    let (Some(file), Some(calls)) = (tried.get_str("FILE"), tried.get_strs("CALL")) else {
        return Ok(None);
    };
    let at = tried.get_str("LINE");
    let calls = Vec::from_slice(alloc, calls)?;
    Ok(Some(Task::Try(file, calls, at)))
}

/// Returns the task that was matched, or `None` if the words don't fit together.
fn matched_task<'a>(alloc: Global, matches: &ArgMatches<'a>) -> Result<Option<Task<'a>>, AllocError>
    ensures { IfOk result (λ found. IfSome found (λ task. IsTaskOf task (subcommand_rows_of matches.now))) }
{
    if let Some(task) = test_task_of(alloc, matches)? {
        return Ok(Some(task));
    }
    if let Some(task) = try_task_of(alloc, matches)? {
        return Ok(Some(task));
    }
    if let Some(task) = lint_task_of(alloc, matches)? {
        return Ok(Some(task));
    }
    Ok(task_of(matches))
}

/// Returns the shape of the output that the flags of the subcommand ask for.
fn shape_of<'a>(matches: &ArgMatches<'a>) -> Shape<'a>
    ensures { IsShapeOf result (subcommand_rows_of matches.now) }
{
    match matches.subcommand() {
        None => Shape {
            json: false,
            color: None,
        },
        Some((_, found)) => Shape {
            json: is_set(found, "json"),
            color: found.get_str("WHEN"),
        },
    }
}

/// Returns the task that the words name and the shape of its output, as this command reads them.
fn request_by<'a>(
    alloc: Global,
    command: &mut Command<'a>,
    words: &'a [&'a str],
) -> Result<Request<'a>, Error>
    requires { app_of command.old ≡ histar_app }
    ensures { IfOk result (λ request. IsRequestOf request
        (subcommand_of histar_app (map (λ word. word.now) words.entry.now))) }
{
    let matches = command.try_get_matches_from_mut(words)?;
    let Some(task) = matched_task(alloc, &matches)? else {
        return Err(command.error(
            ErrorKind::MissingRequiredArgument,
            "words that don't fit together",
        )?);
    };
    Ok(Request {
        task,
        shape: shape_of(&matches),
    })
}

/// Returns the task that the words name and the shape of its output, the program's own name first.
///
/// An error is `clap`'s own: help or the version, if the words ask for it, a refused command line, or out of
/// memory.
pub fn read_words<'a>(alloc: Global, words: &'a [&'a str]) -> Result<Request<'a>, Error>
    ensures { IfOk result (λ request. IsRequestOf request
        (subcommand_of histar_app (map (λ word. word.now) words.entry.now))) }
{
    let mut command = command(alloc)?;
    request_by(alloc, &mut command, words)
}
