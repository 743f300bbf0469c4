//! The parts of the lines that each subcommand writes.
ghost use Rattle.std.specs.Prelude.{◌≡◌, Some, map};
ghost use Rattle.json.specs.Tree.{members_tokens};
ghost use Rattle.histar_output.specs.Forms.{access_parts, call_parts, check_all_parts, check_parts, denial_parts};
ghost use Rattle.histar_output.specs.Forms.{diff_parts, diff_users_parts, flows_parts};
ghost use Rattle.histar_output.specs.Forms.{has_call, has_kind, has_user, is_read};
ghost use Rattle.histar_output.specs.Forms.{lint_parts, parts_of, reply_parts, run_parts, test_parts, trust_parts};
ghost use Rattle.histar_output.specs.Parts.{members_of};
ghost use Rattle.histar_output.specs.Written.{Adds, part_of};

use crate::cuts::{begins, behind, cut_at};
use crate::parts::Kind::{Holders, Names, Number, Rights, Text};
use crate::parts::Part::{Is, Past, Rest, Upto, UptoLast};
use crate::parts::{Part, write_members};
use json::Writer;
use std::alloc::AllocError;

/// Which subcommand writes the lines.
#[derive(Clone, Copy)]
pub enum Form {
    /// `run`, with calls, a tree, a trace, reasons or explanations, `try` and `raw`.
    Run,
    /// `access`.
    Access,
    /// `trust`.
    Trust,
    /// `flows`.
    Flows,
    /// `check JOB`.
    Check,
    /// `check --all`.
    CheckAll,
    /// `diff`.
    Diff,
    /// `diff --users`.
    DiffUsers,
    /// `test`.
    Test,
    /// `lint`.
    Lint,
}

/// Writes the members of the fact that a line in a form says, and closes the object.
pub(crate) fn write_fact(writer: &mut Writer, form: Form, line: &str) -> Result<(), AllocError>
    ensures { Adds result writer.old writer.new
        (members_tokens (members_of (parts_of form line.now) (Some line.now))) }
{
    let parts = match form {
        Form::Run => run_parts(line),
        Form::Access => access_parts(line),
        Form::Trust => trust_parts(line),
        Form::Flows => flows_parts(line),
        Form::Check => check_parts(line),
        Form::CheckAll => return write_check_all(writer, line),
        Form::Diff => diff_parts(line),
        Form::DiffUsers => diff_users_parts(line),
        Form::Test => test_parts(line),
        Form::Lint => lint_parts(),
    };
    write_members(writer, parts, line)
}

/// Writes the members of a line of `check --all`, and closes the object.
fn write_check_all(writer: &mut Writer, line: &str) -> Result<(), AllocError>
    ensures { Adds result writer.old writer.new
        (members_tokens (members_of (check_all_parts line.now) (Some line.now))) }
{
    let (job, verdict) = cut_at(line, " ");
    writer.key("job")?;
    writer.string(job)?;
    match verdict {
        None => writer.end_object(),
        Some(verdict) => write_members(writer, check_parts(verdict), verdict),
    }
}

/// Returns the parts of a line of `run`.
fn run_parts(line: &str) -> &'static [Part]
    ensures { map part_of result.now ≡ run_parts line.now }
{
    if begins(line, "/") {
        &[
            Upto("path", Text, " "),
            Upto("kind", Text, " "),
            Upto("owner", Text, " "),
            Upto("mode", Text, " = "),
            Rest("bytes", Text),
        ]
    } else if begins(line, "@") {
        &[
            Past("@"),
            Upto("line", Number, " "),
            Upto("thread", Number, " "),
            Upto("call", Text, " = "),
            Rest("outcome", Text),
        ]
    } else if begins(line, "!") {
        &[
            Past("!"),
            Upto("line", Number, " "),
            Upto("reply", Text, ": "),
            Rest("why", Text),
        ]
    } else if begins(line, "?") {
        denial_parts(line)
    } else {
        reply_parts(line)
    }
}

/// Checks whether what explains a denial has the user of the process, in brackets.
fn has_user(line: &str) -> bool
    ensures { result ≡ has_user line.now }
{
    begins(behind(behind(line, " "), " "), "(")
}

/// Returns the parts of a line that explains a denial.
fn denial_parts(line: &str) -> &'static [Part]
    ensures { map part_of result.now ≡ denial_parts line.now }
{
    if has_user(line) {
        &[
            Past("?"),
            Upto("line", Number, " "),
            Upto("process", Text, " "),
            Past("("),
            Upto("user", Text, ") may not "),
            Upto("denied", Text, ": "),
            Rest("because", Text),
        ]
    } else {
        &[
            Past("?"),
            Upto("line", Number, " "),
            Upto("process", Text, " may not "),
            Upto("denied", Text, ": "),
            Rest("because", Text),
        ]
    }
}

/// Returns the parts of a line with a reply.
fn reply_parts(line: &str) -> &'static [Part]
    ensures { map part_of result.now ≡ reply_parts line.now }
{
    if has_call(line) {
        call_parts(line)
    } else {
        &[
            Upto("line", Number, " "),
            Upto("reply", Text, " "),
            Rest("value", Text),
        ]
    }
}

/// Checks whether a line has its call before the reply.
fn has_call(line: &str) -> bool
    ensures { result ≡ has_call line.now }
{
    begins(behind(line, " "), " ")
}

/// Checks whether the call of a line is a `read`.
fn is_read(line: &str) -> bool
    ensures { result ≡ is_read line.now }
{
    begins(behind(behind(line, "  "), " "), "read ")
}

/// Returns the parts of a line with a call and its reply.
fn call_parts(line: &str) -> &'static [Part]
    ensures { map part_of result.now ≡ call_parts line.now }
{
    if is_read(line) {
        &[
            Upto("line", Number, "  "),
            Upto("process", Text, " "),
            Upto("call", Text, "  "),
            Upto("reply", Text, " "),
            Rest("value", Text),
        ]
    } else {
        &[
            Upto("line", Number, "  "),
            Upto("process", Text, " "),
            UptoLast("call", Text, "  "),
            Upto("reply", Text, " "),
            Rest("value", Text),
        ]
    }
}

/// Checks whether a line of `access` shows what is at its path.
fn has_kind(line: &str) -> bool
    ensures { result ≡ has_kind line.now }
{
    let more = behind(line, " ");
    begins(more, "dir ") || begins(more, "file ")
}

/// Returns the parts of a line of `access`.
fn access_parts(line: &str) -> &'static [Part]
    ensures { map part_of result.now ≡ access_parts line.now }
{
    if has_kind(line) {
        &[
            Upto("path", Text, " "),
            Upto("kind", Text, " "),
            Upto("owner", Text, " "),
            Upto("mode", Text, " "),
            Rest("rights", Rights),
        ]
    } else {
        &[Upto("path", Text, " "), Rest("rights", Rights)]
    }
}

/// Returns the parts of a line of `trust`.
fn trust_parts(line: &str) -> &'static [Part]
    ensures { map part_of result.now ≡ trust_parts line.now }
{
    if begins(line, "/") {
        &[
            Upto("path", Text, " "),
            Upto("kind", Text, " "),
            Upto("owner", Text, " "),
            Upto("mode", Text, " "),
        ]
    } else if begins(line, "no ") {
        &[Rest("entry", Text)]
    } else if begins(line, "login ") {
        &[Upto("role", Text, " "), Rest("user", Text)]
    } else if begins(line, "changer-login ") {
        &[
            Upto("role", Text, " "),
            Upto("user", Text, " by "),
            Rest("by", Text),
        ]
    } else {
        &[
            Upto("role", Text, " "),
            Upto("process", Text, " "),
            Upto("user", Text, " by "),
            Rest("by", Text),
        ]
    }
}

/// Returns the parts of a line of `flows`.
fn flows_parts(line: &str) -> &'static [Part]
    ensures { map part_of result.now ≡ flows_parts line.now }
{
    if begins(line, "free ") {
        &[Past(" "), Upto("free", Names, " tell everyone")]
    } else {
        &[
            Upto("process", Text, " "),
            Upto("user", Text, " tells "),
            Rest("holders", Holders),
            Rest("tells", Names),
        ]
    }
}

/// Returns the parts of a line of `check`.
fn check_parts(line: &str) -> &'static [Part]
    ensures { map part_of result.now ≡ check_parts line.now }
{
    if begins(line, "line ") {
        &[
            Upto("verdict", Text, " "),
            Upto("line", Number, ": "),
            Upto("with", Text, " | "),
            Rest("without", Text),
        ]
    } else if begins(line, "tree ") {
        &[
            Upto("verdict", Text, " "),
            Upto("path", Text, ": "),
            Upto("with", Text, " | "),
            Rest("without", Text),
        ]
    } else if begins(line, "released ") {
        &[Past(" by line "), Rest("released", Number)]
    } else {
        &[Rest("verdict", Text)]
    }
}

/// Returns the parts of a line of `diff`.
fn diff_parts(line: &str) -> &'static [Part]
    ensures { map part_of result.now ≡ diff_parts line.now }
{
    if begins(line, "process ") {
        &[
            Past(" "),
            Upto("process", Text, " "),
            Upto("user", Text, " "),
            Rest("change", Text),
        ]
    } else {
        &[
            Upto("path", Text, " "),
            Upto("process", Text, " "),
            Upto("user", Text, " "),
            Upto("old", Text, " "),
            Rest("new", Text),
        ]
    }
}

/// Returns the parts of a line of `diff --users`.
fn diff_users_parts(line: &str) -> &'static [Part]
    ensures { map part_of result.now ≡ diff_users_parts line.now }
{
    if begins(line, "user ") {
        &[Past(" "), Upto("user", Text, " "), Rest("change", Text)]
    } else {
        &[
            Upto("path", Text, " "),
            Upto("user", Text, " "),
            Upto("old", Text, " "),
            Rest("new", Text),
        ]
    }
}

/// Returns the parts of a line of `test`.
fn test_parts(line: &str) -> &'static [Part]
    ensures { map part_of result.now ≡ test_parts line.now }
{
    if begins(line, "ok ") {
        &[
            Is("met", true),
            Past("ok "),
            Upto("number", Number, " - "),
            Upto("place", Text, ": "),
            Rest("check", Text),
        ]
    } else if begins(line, "not ok ") {
        &[
            Is("met", false),
            Past("not ok "),
            Upto("number", Number, " - "),
            Upto("place", Text, ": "),
            Rest("check", Text),
        ]
    } else if begins(line, "# ") {
        &[Past("# "), Rest("because", Text)]
    } else {
        &[Past(".."), Rest("checks", Number)]
    }
}

/// Returns the parts of a line of `lint`.
fn lint_parts() -> &'static [Part]
    ensures { map part_of result.now ≡ lint_parts }
{
    &[Upto("place", Text, ": "), Rest("sentence", Text)]
}
