//! Writing the entries of the trace.
ghost use Rattle.std.specs.Prelude.{◌≡◌, ◌++◌, IfOk, OnOk, OnErr};
ghost use Rattle.histar_rawtext.specs.RawText.{denied_text, outcome_text, trace_line};

use crate::raw_calls::push_thread_call;
use crate::words::push_number;
use histar_heap::Heap;
use histar_rules::Denied;
use histar_syscall::TraceEntry;
use std::alloc::AllocError;

/// Returns the name of a denial.
pub fn denial_name(denied: Denied) -> &'static str
    ensures { result.now ≡ denied_text denied }
{
    match denied {
        Denied::Observe => "Observe",
        Denied::Modify => "Modify",
        Denied::Range => "Range",
        Denied::Gate => "Gate",
        Denied::NoEntry => "NoEntry",
        Denied::NoThread => "NoThread",
        Denied::BadKind => "BadKind",
        Denied::TooBig => "TooBig",
    }
}

/// Adds the outcome of a call: ok, or the name of its denial.
fn push_outcome<H: Heap>(
    heap: H,
    line: &mut Vec<u8>,
    denied: Option<Denied>,
) -> Result<(), AllocError>
    ensures ok { OnOk result (line.new.items ≡ line.old.items ++ outcome_text denied) }
    ensures memory { OnErr result H.Refused }
{
    match denied {
        None => heap.extend(line, b"ok"),
        Some(denied) => heap.extend(line, denial_name(denied).as_bytes()),
    }
}

/// Returns the line of an entry of the trace: an at sign, the line of the script, the call of the thread, an
/// equals sign, the outcome of the call, and a line end.
pub fn trace_line<H: Heap>(heap: H, entry: &TraceEntry) -> Result<Vec<u8>, AllocError>
    ensures ok { IfOk result (λ line. line.items ≡ trace_line entry.now) }
    ensures memory { OnErr result H.Refused }
{
    let mut line = heap.copy_of(b"@".as_slice())?;
    push_number(heap, &mut line, u64::from(entry.line))?;
    heap.extend(&mut line, b" ")?;
    push_thread_call(heap, &mut line, entry.thread, &entry.call)?;
    heap.extend(&mut line, b" = ")?;
    push_outcome(heap, &mut line, entry.denied)?;
    heap.extend(&mut line, b"\n")?;
    Ok(line)
}
