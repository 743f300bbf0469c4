//! Scripts, run over every store of labels and through devices that move one byte a call.
use crate::devices::{ByteReader, ByteWriter};
use histar_comparison::compare;
use histar_flat::ProcName;
use histar_label::{InternStore, LabelStore, PlainStore};
use histar_script::Fault;
use histar_shell::{Counted, Options, run, run_with};
use std::alloc::Global;

/// The text that is printed where two runs of one script differ.
pub const DIFFERS: &[u8] = b"differs\n";

/// Adds the fault of a run to what it wrote, on a line of its own.
pub fn with_fault(
    alloc: Global,
    ran: Result<(), Fault>,
    mut text: Vec<u8>,
) -> Result<Vec<u8>, Fault> {
    if let Err(fault) = ran {
        let line = format!(in alloc; "histar: {fault}\n")?;
        text.extend_from_slice(line.as_bytes())?;
    }
    Ok(text)
}

/// Runs a script as the program does, and returns what it writes.
fn run_whole(alloc: Global, script: &[u8], options: Options) -> Result<Vec<u8>, Fault> {
    let mut reader = Counted::new(script);
    let mut writer = Counted::new(Vec::new(alloc));
    let ran = run(alloc, &mut reader, &mut writer, options);
    with_fault(alloc, ran.map(|_trace| ()), writer.into_inner())
}

/// Runs a script over a store through devices that move one byte a call, and returns what it writes.
fn run_by_bytes<S: LabelStore + Drop>(
    alloc: Global,
    store: S,
    script: &[u8],
    options: Options,
) -> Result<Vec<u8>, Fault> {
    let mut reader = Counted::new(ByteReader::new(script));
    let mut writer = Counted::new(ByteWriter::new(alloc));
    let ran = run_with(alloc, store, &mut reader, &mut writer, options);
    with_fault(
        alloc,
        ran.map(|_trace| ()),
        writer.into_inner().into_taken(),
    )
}

/// Returns what a script writes, the same over every store of labels.
pub fn replies(alloc: Global, script: &[u8], options: Options) -> Result<Vec<u8>, Fault> {
    let text = run_whole(alloc, script, options)?;
    let plain = run_by_bytes(alloc, PlainStore::new(alloc), script, options)?;
    let first = run_by_bytes(alloc, InternStore::new(alloc, 1)?, script, options)?;
    let interned = run_by_bytes(alloc, InternStore::new(alloc, 256)?, script, options)?;
    if plain.as_slice() == text.as_slice()
        && first.as_slice() == text.as_slice()
        && interned.as_slice() == text.as_slice()
    {
        Ok(text)
    } else {
        Ok(DIFFERS.to_vec(alloc)?)
    }
}

/// Returns the line of the comparison of a script with the one without a job.
pub fn verdict(alloc: Global, script: &[u8], job: &ProcName) -> Result<Vec<u8>, Fault> {
    match compare(alloc, script, job) {
        Ok(verdict) => {
            let line = format!(in alloc; "{verdict}\n")?;
            Ok(line.into_bytes())
        }
        Err(fault) => with_fault(alloc, Err(fault), Vec::new(alloc)),
    }
}
