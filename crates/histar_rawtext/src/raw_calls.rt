//! Writing raw calls.
ghost use Rattle.std.specs.Prelude.{◌≡◌, ◌++◌, IfOk, OnOk, OnErr};
ghost use Rattle.histar_rawtext.specs.RawText.{bytes_word, call_name, call_text, call_words, entry_word, label_word, number_word, thread_call_text};

use crate::labels::push_label_word;
use crate::words::{push_bytes_word, push_entry_word, push_number, push_number_word};
use histar_base::Bytes;
use histar_heap::Heap;
use histar_label::Label;
use histar_object::{Entry, ObjId};
use histar_rules::RawCall;
use std::alloc::AllocError;

/// Adds the words for a container and for an object in it.
fn push_pair<H: Heap>(
    heap: H,
    line: &mut Vec<u8>,
    container: ObjId,
    object: ObjId,
) -> Result<(), AllocError>
    ensures ok { OnOk result (line.new.items
        ≡ line.old.items ++ number_word container ++ number_word object) }
    ensures memory { OnErr result H.Refused }
{
    push_number_word(heap, line, container.number())?;
    push_number_word(heap, line, object.number())
}

/// Adds the words for a container and for the label of the new object in it.
fn push_making<H: Heap>(
    heap: H,
    line: &mut Vec<u8>,
    container: ObjId,
    label: &Label,
) -> Result<(), AllocError>
    ensures ok { OnOk result (line.new.items
        ≡ line.old.items ++ number_word container ++ label_word label.now) }
    ensures memory { OnErr result H.Refused }
{
    push_number_word(heap, line, container.number())?;
    push_label_word(heap, line, label)
}

/// Adds the words for a container and for the label and the clearance of the new object in it.
fn push_bounded<H: Heap>(
    heap: H,
    line: &mut Vec<u8>,
    container: ObjId,
    label: &Label,
    clearance: &Label,
) -> Result<(), AllocError>
    ensures ok { OnOk result (line.new.items
        ≡ line.old.items ++ number_word container ++ label_word label.now ++ label_word clearance.now) }
    ensures memory { OnErr result H.Refused }
{
    push_making(heap, line, container, label)?;
    push_label_word(heap, line, clearance)
}

/// Adds the words for the three labels with which a gate is entered.
fn push_entering<H: Heap>(
    heap: H,
    line: &mut Vec<u8>,
    wanted: &Label,
    clearance: &Label,
    verify: &Label,
) -> Result<(), AllocError>
    ensures ok { OnOk result (line.new.items
        ≡ line.old.items ++ label_word wanted.now ++ label_word clearance.now ++ label_word verify.now) }
    ensures memory { OnErr result H.Refused }
{
    push_label_word(heap, line, wanted)?;
    push_label_word(heap, line, clearance)?;
    push_label_word(heap, line, verify)
}

/// Adds the words for a container, and for the label and the bytes of the new segment in it.
fn push_segment<H: Heap>(
    heap: H,
    line: &mut Vec<u8>,
    container: ObjId,
    label: &Label,
    bytes: &Bytes,
) -> Result<(), AllocError>
    ensures ok { OnOk result (line.new.items
        ≡ line.old.items ++ number_word container ++ label_word label.now ++ bytes_word bytes.now) }
    ensures memory { OnErr result H.Refused }
{
    push_making(heap, line, container, label)?;
    push_bytes_word(heap, line, bytes)
}

/// Adds the words for a container, for a segment in it, for how many of its bytes are kept, and for bytes.
fn push_write<H: Heap>(
    heap: H,
    line: &mut Vec<u8>,
    container: ObjId,
    segment: ObjId,
    keep: u32,
    bytes: &Bytes,
) -> Result<(), AllocError>
    ensures ok { OnOk result (line.new.items
        ≡ line.old.items ++ number_word container ++ number_word segment ++ number_word keep
        ++ bytes_word bytes.now) }
    ensures memory { OnErr result H.Refused }
{
    push_pair(heap, line, container, segment)?;
    push_number_word(heap, line, u64::from(keep))?;
    push_bytes_word(heap, line, bytes)
}

/// Returns the name of a raw call.
fn call_name(call: &RawCall) -> &'static str
    ensures { result.now ≡ call_name call.now }
{
    match call {
        RawCall::MakeCategory => "make_category",
        RawCall::OwnLabel => "self",
        RawCall::SetLabel(_) => "set_label",
        RawCall::SetClearance(_) => "set_clearance",
        RawCall::MakeSegment(_, _, _) => "make_segment",
        RawCall::MakeContainer(_, _) => "make_container",
        RawCall::MakeThread(_, _, _) => "make_thread",
        RawCall::MakeGate(_, _, _, _) => "make_gate",
        RawCall::Enter(_, _, _, _, _) => "enter",
        RawCall::Read(_, _) => "read",
        RawCall::Write(_, _, _, _) => "write",
        RawCall::Unlink(_, _) => "unlink",
        RawCall::LabelOf(_, _) => "label",
    }
}

/// Adds the words after the name of a raw call.
fn push_words<H: Heap>(heap: H, line: &mut Vec<u8>, call: &RawCall) -> Result<(), AllocError>
    ensures ok { OnOk result (line.new.items ≡ line.old.items ++ call_words call.now) }
    ensures memory { OnErr result H.Refused }
{
    match call {
        RawCall::MakeCategory | RawCall::OwnLabel => Ok(()),
        RawCall::SetLabel(label) => push_label_word(heap, line, label.label()),
        RawCall::SetClearance(clearance) => push_label_word(heap, line, clearance.label()),
        RawCall::MakeSegment(container, label, bytes) => {
            push_segment(heap, line, *container, label.label(), bytes)
        }
        RawCall::MakeContainer(container, label) => {
            push_making(heap, line, *container, label.label())
        }
        RawCall::MakeThread(container, label, clearance) => {
            push_bounded(heap, line, *container, label.label(), clearance.label())
        }
        RawCall::MakeGate(container, label, clearance, entry) => {
            push_bounded(heap, line, *container, label.label(), clearance.label())?;
            push_entry_word(heap, line, *entry)
        }
        RawCall::Enter(container, gate, wanted, clearance, verify) => {
            push_pair(heap, line, *container, *gate)?;
            push_entering(
                heap,
                line,
                wanted.label(),
                clearance.label(),
                verify.label(),
            )
        }
        RawCall::Read(container, segment) => push_pair(heap, line, *container, *segment),
        RawCall::Write(container, segment, keep, bytes) => {
            push_write(heap, line, *container, *segment, *keep, bytes)
        }
        RawCall::Unlink(container, object) => push_pair(heap, line, *container, *object),
        RawCall::LabelOf(container, object) => push_pair(heap, line, *container, *object),
    }
}

/// Adds a raw call: its name, and then its words.
fn push_call<H: Heap>(heap: H, line: &mut Vec<u8>, call: &RawCall) -> Result<(), AllocError>
    ensures ok { OnOk result (line.new.items ≡ line.old.items ++ call_text call.now) }
    ensures memory { OnErr result H.Refused }
{
    heap.extend(line, call_name(call).as_bytes())?;
    push_words(heap, line, call)
}

/// Adds a thread's raw call: the number of the thread, a space, and the call.
pub(crate) fn push_thread_call<H: Heap>(
    heap: H,
    line: &mut Vec<u8>,
    thread: ObjId,
    call: &RawCall,
) -> Result<(), AllocError>
    ensures ok { OnOk result (line.new.items ≡ line.old.items ++ thread_call_text thread call.now) }
    ensures memory { OnErr result H.Refused }
{
    push_number(heap, line, thread.number())?;
    heap.extend(line, b" ")?;
    push_call(heap, line, call)
}

/// Returns the text of a thread's raw call: the number of the thread, a space, and the call.
pub fn write_call<H: Heap>(heap: H, thread: ObjId, call: &RawCall) -> Result<Vec<u8>, AllocError>
    ensures ok { IfOk result (λ text. text.items ≡ thread_call_text thread call.now) }
    ensures memory { OnErr result H.Refused }
{
    let mut text = Vec::new(heap.alloc());
    push_thread_call(heap, &mut text, thread, call)?;
    Ok(text)
}
