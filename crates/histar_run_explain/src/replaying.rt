//! Raw calls of a trace that change something, made once more on a second kernel.
ghost use Rattle.std.specs.Prelude.{◌≡◌, [], ◌∷◌, OnOk, drop};
ghost use Rattle.histar_object.specs.State.{empty_state};
ghost use Rattle.histar_rules.specs.Sound.{IsSound};
ghost use Rattle.histar_syscall.specs.Runs.{IsMade};
ghost use Rattle.histar_syscall.specs.KernelModel.{state};
ghost use Rattle.histar_run_explain.specs.Entries.{Adds, AddsEntries, EndsAsRun, ExplainsOutcome, IsRunFrom, changes_nothing, only_looks};

use histar_explain::explain;
use histar_label::{LabelStore, OutOfMemory};
use histar_raw_explain::{Wording, push_explanation};
use histar_rules::{RawCall, Refusal};
use histar_syscall::{Kernel, Trace, TraceEntry};
use std::alloc::Global;

/// The entries of a trace from one on.
#[derive(Clone, Copy)]
pub(crate) struct Entries<'a> {
    pub trace: &'a Trace,
    pub from: usize,
}

/// Checks whether a granted call only looks.
fn only_looks(call: &RawCall) -> bool
    ensures { result ≡ only_looks call.now }
{
    matches!(
        call,
        RawCall::OwnLabel | RawCall::Read(_, _) | RawCall::LabelOf(_, _)
    )
}

/// Checks whether an entry leaves the state as it was.
fn changes_nothing(entry: &TraceEntry) -> bool
    ensures { result ≡ changes_nothing entry.now.denied entry.now.call }
{
    entry.denied.is_some() || only_looks(&entry.call)
}

/// Makes the call of an entry once more on a second kernel.
fn make_again<S: LabelStore + Drop>(
    alloc: Global,
    kernel: &mut Kernel<S>,
    entry: &TraceEntry,
) -> Result<(), OutOfMemory>
    ensures made { OnOk result (IsMade kernel.old entry.now.thread entry.now.call kernel.new) }
    ensures sound { OnOk result (IsSound (state kernel.old)) }
{
    match kernel.make_call(alloc, entry.thread, &entry.call) {
        Ok(_) => Ok(()),
        Err(refusal) => match refusal {
            Refusal::Denied(_) => Ok(()),
            Refusal::OutOfMemory => Err(OutOfMemory),
        },
    }
}

/// Brings a second kernel to the state after an entry.
fn replay<S: LabelStore + Drop>(
    alloc: Global,
    kernel: &mut Kernel<S>,
    entry: &TraceEntry,
) -> Result<(), OutOfMemory>
    ensures { OnOk result (EndsAsRun (state kernel.old) (entry.now ∷ []) (state kernel.new)) }
{
    if changes_nothing(entry) {
        return Ok(());
    }
    make_again(alloc, kernel, entry)
}

/// Adds the lines that explain why the call of an entry was denied, if it was, at the state of a kernel.
fn explain_outcome<S: LabelStore + Drop, V: Wording>(
    alloc: Global,
    kernel: &Kernel<S>,
    words: &V,
    text: &mut Vec<u8>,
    entry: &TraceEntry,
) -> Result<(), OutOfMemory>
    ensures { OnOk result (Adds (ExplainsOutcome (V.words words.now) (state kernel.now) entry.now
        entry.now.denied)
        text.old.items text.new.items) }
{
    let Some(denied) = entry.denied else {
        return Ok(());
    };
    let explanation = explain(alloc, kernel, entry.thread, &entry.call, denied)?;
    push_explanation(alloc, text, words, entry, &explanation)
}

/// Adds the lines that explain why the call of an entry was denied, if it was, at the state of a second kernel,
/// and brings the kernel to the state after the entry.
fn explain_entry<S: LabelStore + Drop, V: Wording>(
    alloc: Global,
    kernel: &mut Kernel<S>,
    words: &V,
    text: &mut Vec<u8>,
    entry: &TraceEntry,
) -> Result<(), OutOfMemory>
    ensures explained { OnOk result (Adds (ExplainsOutcome (V.words words.now) (state kernel.old) entry.now
        entry.now.denied) text.old.items text.new.items) }
    ensures ends { OnOk result (EndsAsRun (state kernel.old) (entry.now ∷ []) (state kernel.new)) }
{
    explain_outcome(alloc, kernel, words, text, entry)?;
    replay(alloc, kernel, entry)
}

/// Brings a second kernel to the state after the entries of a trace from this one on, and adds the lines that
/// explain why the denied ones were denied, each at the state before it.
pub(crate) fn explain_entries<S: LabelStore + Drop, V: Wording>(
    alloc: Global,
    kernel: &mut Kernel<S>,
    words: &V,
    text: &mut Vec<u8>,
    entries: Entries,
) -> Result<(), OutOfMemory>
    requires { IsRunFrom (state kernel.old) (drop entries.from entries.trace.now.entries) }
    ensures explained { OnOk result (AddsEntries (V.words words.now) (state kernel.old)
        (drop entries.entry.from entries.entry.trace.now.entries) (state kernel.new) text.old.items text.new.items) }
    ensures ends { OnOk result (EndsAsRun (state kernel.old)
        (drop entries.entry.from entries.entry.trace.now.entries) (state kernel.new)) }
{
    let count = entries.trace.len().saturating_sub(entries.from);
    for behind in 0..count {
        let entry = entries.trace.entry(alloc, entries.from + behind)?;
        let outcome = explain_entry(alloc, kernel, words, text, &entry);
        drop(entry);
        outcome?;
    }
    Ok(())
}
