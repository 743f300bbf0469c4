//! Raw sessions, run line by line and as one list of calls.
use crate::devices::{ByteReader, ByteWriter};
use crate::script::{DIFFERS, with_fault};
use histar_label::{InternStore, LabelStore, PlainStore};
use histar_object::ObjId;
use histar_raw_explain::explain_raw_script;
use histar_raw_session::run_raw_script;
use histar_rawtext::{denial_name, read_raw};
use histar_rules::RawCall;
use histar_script::{Fault, split_line};
use histar_shell::Counted;
use histar_syscall::{Kernel, Trace, TraceEntry, run_raw};
use std::alloc::Global;

/// Reads the raw calls of a session; other lines are skipped.
fn read_calls(alloc: Global, session: &[u8]) -> Result<Vec<(ObjId, RawCall)>, Fault> {
    let mut calls = Vec::new(alloc);
    let mut rest = session;
    while !rest.is_empty() {
        let (line, after) = split_line(rest);
        if let Some(call) = read_raw(alloc, line)? {
            calls.push(call)?;
        }
        rest = after;
    }
    Ok(calls)
}

/// Checks that a line of answers shows the denial of an entry, or none.
fn agrees(line: &[u8], entry: &TraceEntry) -> bool {
    match entry.denied {
        Some(denied) => line.ends_with(denial_name(denied).as_bytes()),
        None => line.contains(&b'='),
    }
}

/// Checks that the lines of answers show the denials of a trace, line by line.
fn shows(alloc: Global, text: &[u8], trace: &Trace) -> Result<bool, Fault> {
    let mut rest = text;
    for at in 0..trace.len() {
        if rest.is_empty() {
            return Ok(false);
        }
        let (line, after) = split_line(rest);
        if !agrees(line, &trace.entry(alloc, at)?) {
            return Ok(false);
        }
        rest = after;
    }
    Ok(rest.is_empty())
}

/// Checks that all calls of a session, made at once, are granted and denied as these answers say, over every
/// store of labels: the one that remembers comparisons, with many places and with one, and the plain one.
fn is_so_at_once(alloc: Global, session: &[u8], text: &[u8]) -> Result<bool, Fault> {
    let calls = read_calls(alloc, session)?;
    let many = is_so_over(alloc, InternStore::new(alloc, 256)?, calls.as_slice(), text)?;
    let one = is_so_over(alloc, InternStore::new(alloc, 1)?, calls.as_slice(), text)?;
    let plain = is_so_over(alloc, PlainStore::new(alloc), calls.as_slice(), text)?;
    Ok(many && one && plain)
}

/// Checks that these calls, made at once over a store of labels, are granted and denied as these answers say.
fn is_so_over<S: LabelStore + Drop>(
    alloc: Global,
    store: S,
    calls: &[(ObjId, RawCall)],
    text: &[u8],
) -> Result<bool, Fault> {
    let mut kernel = Kernel::new(alloc, store)?;
    run_raw(alloc, &mut kernel, calls)?;
    shows(alloc, text, kernel.trace())
}

/// Runs a session as the program does, and returns what it writes.
fn run_whole(alloc: Global, session: &[u8]) -> Result<Vec<u8>, Fault> {
    let mut reader = Counted::new(session);
    let mut writer = Counted::new(Vec::new(alloc));
    let ran = run_raw_script(alloc, &mut reader, &mut writer);
    with_fault(alloc, ran, writer.into_inner())
}

/// Runs a session through devices that move one byte a call, and returns what it writes.
fn run_by_bytes(alloc: Global, session: &[u8]) -> Result<Vec<u8>, Fault> {
    let mut reader = Counted::new(ByteReader::new(session));
    let mut writer = Counted::new(ByteWriter::new(alloc));
    let ran = run_raw_script(alloc, &mut reader, &mut writer);
    with_fault(alloc, ran, writer.into_inner().into_taken())
}

/// Returns what a raw session writes, the same line by line and as one list of calls.
pub fn answers(alloc: Global, session: &[u8]) -> Result<Vec<u8>, Fault> {
    let text = run_whole(alloc, session)?;
    let by_bytes = run_by_bytes(alloc, session)?;
    if by_bytes.as_slice() == text.as_slice() && is_so_at_once(alloc, session, text.as_slice())? {
        Ok(text)
    } else {
        Ok(DIFFERS.to_vec(alloc)?)
    }
}

/// Returns what a raw session writes, with the explanations of its denials.
pub fn explained(alloc: Global, session: &[u8]) -> Result<Vec<u8>, Fault> {
    let mut reader = Counted::new(session);
    let mut writer = Counted::new(Vec::new(alloc));
    let done = explain_raw_script(alloc, &mut reader, &mut writer);
    with_fault(alloc, done, writer.into_inner())
}
