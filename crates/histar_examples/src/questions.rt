//! Questions to scripts: why, who may, what changes, on whom it depends, and what is wrong.
use crate::script::with_fault;
use crate::trial::FileKind;
use histar_access::{DiffOptions, access, access_users, diff};
use histar_attack::{AttackOptions, attack};
use histar_attack_lint::lint_attack;
use histar_comparison::{compare_all, explain_comparison};
use histar_dialogue::{MemoryShelf, converse};
use histar_ever::{access_ever, access_users_ever};
use histar_flat::{Path, ProcName, split_at_first};
use histar_leak::leak;
use histar_lint::lint;
use histar_policy::lint_policy;
use histar_raw_lint::lint_raw;
use histar_report::report;
use histar_run_explain::explain_script;
use histar_script::Fault;
use histar_shell::{Counted, Options, run};
use histar_test::{TestFile, test};
use histar_transcript::{Notes, Tried, front_before, run_with_notes, try_calls};
use histar_trust::{TrustOptions, flows, trust};
use histar_why::run_with_reasons;
use memchr::memmem;
use std::alloc::Global;

/// The line between two scripts.
const BETWEEN: &[u8] = b"# and\n";

/// Returns what a script writes, with the explanations of its denials.
pub fn explained(alloc: Global, script: &[u8], options: Options) -> Result<Vec<u8>, Fault> {
    let mut reader = Counted::new(script);
    let mut writer = Counted::new(Vec::new(alloc));
    let done = explain_script(alloc, &mut reader, &mut writer, options);
    with_fault(alloc, done, writer.into_inner())
}

/// Returns what a script writes, with these notes.
pub fn with_notes(alloc: Global, script: &[u8], notes: Notes) -> Result<Vec<u8>, Fault> {
    let mut reader = Counted::new(script);
    let mut writer = Counted::new(Vec::new(alloc));
    let options = Options {
        tree: false,
        trace: false,
    };
    let done = run_with_notes(alloc, &mut reader, &mut writer, options, notes);
    with_fault(alloc, done, writer.into_inner())
}

/// Returns what a script writes, with the reasons of its refusals.
pub fn with_reasons(alloc: Global, script: &[u8], options: Options) -> Result<Vec<u8>, Fault> {
    let mut reader = Counted::new(script);
    let mut writer = Counted::new(Vec::new(alloc));
    let done = run_with_reasons(alloc, &mut reader, &mut writer, options);
    with_fault(alloc, done, writer.into_inner())
}

/// Returns the line of the comparison of a script with the one without a job, and what differs.
pub fn reason(alloc: Global, script: &[u8], job: &ProcName) -> Result<Vec<u8>, Fault> {
    let found = explain_comparison(alloc, script, job)?;
    Ok(found.line(alloc, true)?)
}

/// Returns the lines of the comparisons of a script with the one without each of its jobs.
pub fn verdicts(alloc: Global, script: &[u8]) -> Result<Vec<u8>, Fault> {
    let found = compare_all(alloc, script)?;
    let mut text = Vec::new(alloc);
    for verdict in found.as_slice() {
        let line = verdict.line(alloc, false)?;
        text.extend_from_slice(line.as_slice())?;
    }
    Ok(text)
}

/// Returns the table of the rights in a script, before a line or at its end.
pub fn rights(alloc: Global, script: &[u8], at: Option<u32>) -> Result<Vec<u8>, Fault> {
    let mut reader = Counted::new(script);
    let mut writer = Counted::new(Vec::new(alloc));
    let done = access(alloc, &mut reader, &mut writer, at);
    with_fault(alloc, done, writer.into_inner())
}

/// Returns the table of the rights of users in a script, before a line or at its end.
pub fn user_rights(alloc: Global, script: &[u8], at: Option<u32>) -> Result<Vec<u8>, Fault> {
    let mut reader = Counted::new(script);
    let mut writer = Counted::new(Vec::new(alloc));
    let done = access_users(alloc, &mut reader, &mut writer, at);
    with_fault(alloc, done, writer.into_inner())
}

/// Returns the table of the rights that processes ever had in a script, before a line or up to its end.
pub fn rights_ever(alloc: Global, script: &[u8], at: Option<u32>) -> Result<Vec<u8>, Fault> {
    let mut reader = Counted::new(script);
    let mut writer = Counted::new(Vec::new(alloc));
    let done = access_ever(alloc, &mut reader, &mut writer, at);
    with_fault(alloc, done, writer.into_inner())
}

/// Returns the table of the rights that users ever had in a script, before a line or up to its end.
pub fn user_rights_ever(alloc: Global, script: &[u8], at: Option<u32>) -> Result<Vec<u8>, Fault> {
    let mut reader = Counted::new(script);
    let mut writer = Counted::new(Vec::new(alloc));
    let done = access_users_ever(alloc, &mut reader, &mut writer, at);
    with_fault(alloc, done, writer.into_inner())
}

/// Returns the rights that differ between two scripts, before a line of both or at their ends.
pub fn changes(alloc: Global, scripts: &[u8], options: DiffOptions) -> Result<Vec<u8>, Fault> {
    let (old, new) = split_scripts(scripts).ok_or(Fault::BadScript(0))?;
    let (mut old, mut new) = (Counted::new(old), Counted::new(new));
    let mut writer = Counted::new(Vec::new(alloc));
    let done = diff(alloc, &mut old, &mut new, &mut writer, options);
    with_fault(alloc, done.map(|_| ()), writer.into_inner())
}

/// Splits a text into two scripts, at the line between them.
fn split_scripts(scripts: &[u8]) -> Option<(&[u8], &[u8])> {
    let (old, rest) = scripts.split_at(memmem::find(scripts, BETWEEN)?);
    let new = rest.strip_prefix(BETWEEN)?;
    Some((old, new))
}

/// Returns on whom it depends what is at a path, before a line of a script or at its end.
pub fn trusted(
    alloc: Global,
    script: &[u8],
    path: &Path,
    options: TrustOptions,
) -> Result<Vec<u8>, Fault> {
    let mut reader = Counted::new(script);
    let mut writer = Counted::new(Vec::new(alloc));
    let done = trust(alloc, path, &mut reader, &mut writer, options);
    with_fault(alloc, done, writer.into_inner())
}

/// Returns the calls by which what is at a path is leaked and changed, before a line of a script or at its end.
pub fn leaks(alloc: Global, script: &[u8], path: &Path, at: Option<u32>) -> Result<Vec<u8>, Fault> {
    let mut reader = Counted::new(script);
    let mut writer = Counted::new(Vec::new(alloc));
    let done = leak(alloc, path, &mut reader, &mut writer, at);
    with_fault(alloc, done, writer.into_inner())
}

/// Returns which process can pass on what it knows to which, before a line of a script or at its end.
pub fn flowing(alloc: Global, script: &[u8], at: Option<u32>) -> Result<Vec<u8>, Fault> {
    let mut reader = Counted::new(script);
    let mut writer = Counted::new(Vec::new(alloc));
    let done = flows(alloc, &mut reader, &mut writer, at);
    with_fault(alloc, done, writer.into_inner())
}

/// Returns what a script writes of its calls before a line.
pub fn run_before(alloc: Global, script: &[u8], at: Option<u32>) -> Result<Vec<u8>, Fault> {
    let line = at.ok_or(Fault::BadScript(0))?;
    let front = front_before(alloc, script, line)?;
    let mut writer = Counted::new(Vec::new(alloc));
    let options = Options {
        tree: false,
        trace: false,
    };
    let done = run(
        alloc,
        &mut Counted::new(front.as_slice()),
        &mut writer,
        options,
    );
    with_fault(alloc, done.map(|_| ()), writer.into_inner())
}

/// Returns the replies to calls that are made behind a script, or before a line of it, or what is wrong with
/// one. The calls are before the script.
pub fn tried(alloc: Global, text: &[u8], at: Option<u32>) -> Result<Vec<u8>, Fault> {
    let (calls, script) = split_scripts(text).ok_or(Fault::BadScript(0))?;
    let calls = calls.strip_suffix(b"\n").ok_or(Fault::BadScript(0))?;
    let mut reader = Counted::new(script);
    let mut writer = Counted::new(Vec::new(alloc));
    match try_calls(alloc, &[calls], &mut reader, &mut writer, at) {
        Ok(Tried::BadCall(number, sentence)) => refused(alloc, number, sentence.as_slice()),
        done => with_fault(alloc, done.map(|_| ()), writer.into_inner()),
    }
}

/// Returns the answers to lines, which come one after another, perhaps behind a script that is before them.
pub fn conversation(alloc: Global, text: &[u8]) -> Result<Vec<u8>, Fault> {
    let (first, lines) = match split_scripts(text) {
        Some((first, lines)) => (Some(first), lines),
        None => (None, text),
    };
    let mut reader = Counted::new(lines);
    let mut writer = Counted::new(Vec::new(alloc));
    let mut shelf = MemoryShelf::new(alloc);
    let done = converse(alloc, first, &mut reader, &mut writer, &mut shelf, false);
    with_fault(alloc, done, writer.into_inner())
}

/// Returns what becomes of the calls of a script in which threads of a job make raw calls.
pub fn attacked(
    alloc: Global,
    script: &[u8],
    job: &ProcName,
    options: AttackOptions,
) -> Result<Vec<u8>, Fault> {
    let mut reader = Counted::new(script);
    let mut writer = Counted::new(Vec::new(alloc));
    let done = attack(alloc, job, &mut reader, &mut writer, options);
    with_fault(alloc, done, writer.into_inner())
}

/// Returns the line that says what is wrong with a call.
fn refused(alloc: Global, number: usize, sentence: &[u8]) -> Result<Vec<u8>, Fault> {
    let line = format!(in alloc; "histar: bad call {number}: ")?;
    let mut text = line.into_bytes();
    text.extend_from_slice(sentence)?;
    text.push(b'\n')?;
    Ok(text)
}

/// Returns what is made of a script or a raw session, whose name is behind the first word of a title.
pub fn of_file(alloc: Global, kind: FileKind, title: &[u8], text: &[u8]) -> Result<Vec<u8>, Fault> {
    let (_, name) = split_at_first(title, b' ');
    let name = name.ok_or(Fault::BadScript(0))?;
    match kind {
        FileKind::Lint => sentence(alloc, name, text),
        FileKind::LintRaw => raw_sentence(alloc, name, text),
        FileKind::LintAttack => mixed_sentence(alloc, name, text),
        FileKind::LintPolicy => warnings(alloc, name, text),
        FileKind::Report => page(alloc, name, text),
        FileKind::Test => results(alloc, name, text, false),
        FileKind::StrictTest => results(alloc, name, text, true),
    }
}

/// Returns the sentence on the first bad line of a script.
fn sentence(alloc: Global, name: &[u8], script: &[u8]) -> Result<Vec<u8>, Fault> {
    let mut reader = Counted::new(script);
    let mut writer = Counted::new(Vec::new(alloc));
    let done = lint(alloc, name, &mut reader, &mut writer);
    with_fault(alloc, done.map(|_| ()), writer.into_inner())
}

/// Returns the sentence on the first bad line of a raw session.
fn raw_sentence(alloc: Global, name: &[u8], session: &[u8]) -> Result<Vec<u8>, Fault> {
    let mut reader = Counted::new(session);
    let mut writer = Counted::new(Vec::new(alloc));
    let done = lint_raw(alloc, name, &mut reader, &mut writer);
    with_fault(alloc, done.map(|_| ()), writer.into_inner())
}

/// Returns the sentence on the first bad line of a script with raw calls between its lines.
fn mixed_sentence(alloc: Global, name: &[u8], session: &[u8]) -> Result<Vec<u8>, Fault> {
    let mut reader = Counted::new(session);
    let mut writer = Counted::new(Vec::new(alloc));
    let done = lint_attack(alloc, name, &mut reader, &mut writer);
    with_fault(alloc, done.map(|_| ()), writer.into_inner())
}

/// Returns the warnings on a script.
fn warnings(alloc: Global, name: &[u8], script: &[u8]) -> Result<Vec<u8>, Fault> {
    let mut reader = Counted::new(script);
    let mut writer = Counted::new(Vec::new(alloc));
    let done = lint_policy(alloc, name, &mut reader, &mut writer);
    with_fault(alloc, done.map(|_| ()), writer.into_inner())
}

/// Returns the page of a session, whose name has the version of the program before it.
fn page(alloc: Global, words: &[u8], script: &[u8]) -> Result<Vec<u8>, Fault> {
    let (version, name) = split_at_first(words, b' ');
    let name = name.ok_or(Fault::BadScript(0))?;
    let mut reader = Counted::new(script);
    let mut writer = Counted::new(Vec::new(alloc));
    let done = report(alloc, &mut reader, &mut writer, name, version);
    with_fault(alloc, done, writer.into_inner())
}

/// Returns the results of what a script expects, perhaps those of a strict test.
fn results(alloc: Global, name: &[u8], script: &[u8], strict: bool) -> Result<Vec<u8>, Fault> {
    let name = Vec::from_slice(alloc, name)?;
    let text = Vec::from_slice(alloc, script)?;
    let files = [TestFile { name, text }];
    let mut writer = Counted::new(Vec::new(alloc));
    let done = test(alloc, &files, strict, &mut writer);
    with_fault(alloc, done.map(|_| ()), writer.into_inner())
}
