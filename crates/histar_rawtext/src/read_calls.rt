//! Reading raw calls.
ghost use Rattle.std.specs.Prelude.{◌≡◌, IfOk, OnErr};
ghost use Rattle.std.specs.Option.{option_copied};
ghost use Rattle.std.specs.Str.{bytes_eq};
ghost use Rattle.histar_rawtext.specs.RawText.{thread_call_text};
ghost use Rattle.histar_rawtext.specs.Memory.{OnOutOfMemory};
ghost use Rattle.histar_rawtext.specs.Outcome.{Gives};
ghost use Rattle.histar_rawtext.specs.Readable.{IsReadAs};
ghost use Rattle.histar_rawtext.specs.Reading.{make_segment_in, make_container_in, make_thread_in, make_gate_in, enter_in};
ghost use Rattle.histar_rawtext.specs.Reading.{write_in, pair_in, own_label_in, pair_named, making_named, call_named};
ghost use Rattle.histar_rawtext.specs.Reading.{thread_call_in};
ghost use Rattle.histar_rawtext.specs.Reading.{make_segment_of, make_thread_of, make_gate_of, enter_of, write_of};

use crate::raw_calls::write_call;
use crate::read_labels::read_handed;
use crate::read_words::{next_word, read_bytes, read_entry, read_object, read_short_number};
use crate::unread::Unread;
use histar_heap::Heap;
use histar_object::ObjId;
use histar_rules::{HandedLabel, RawCall};
use std::alloc::AllocError;

/// Reads a container, the label of a segment in it, and bytes.
#[tactic(auto, unfolding(crate::specs::Reading::make_segment_in))]
fn read_make_segment<H: Heap>(heap: H, words: Option<&[u8]>) -> Result<RawCall, Unread>
    ensures exact { Gives result (make_segment_in (option_copied words.entry)) }
    ensures memory { OnOutOfMemory result H.Refused }
{
    let (container, words) = next_word(words)?;
    let (label, words) = next_word(words)?;
    let (bytes, _) = next_word(words)?;
    make_segment_of(heap, container, label, bytes)
}

// Reads the words of the same call.
fn make_segment_of<H: Heap>(
    heap: H,
    container: &[u8],
    label: &[u8],
    bytes: &[u8],
) -> Result<RawCall, Unread>
    ensures exact { Gives result (make_segment_of container.now label.now bytes.now) }
    ensures memory { OnOutOfMemory result H.Refused }
{
    Ok(RawCall::MakeSegment(
        read_object(container)?,
        read_handed(heap, label)?,
        read_bytes(heap, bytes)?,
    ))
}

/// Reads a container, and the label of a container in it.
#[tactic(auto, unfolding(crate::specs::Reading::make_container_in))]
fn read_make_container<H: Heap>(heap: H, words: Option<&[u8]>) -> Result<RawCall, Unread>
    ensures exact { Gives result (make_container_in (option_copied words.entry)) }
    ensures memory { OnOutOfMemory result H.Refused }
{
    let (container, words) = next_word(words)?;
    let (label, _) = next_word(words)?;
    Ok(RawCall::MakeContainer(read_object(container)?, read_handed(heap, label)?))
}

/// Reads a container, and the label and the clearance of a thread in it.
#[tactic(auto, unfolding(crate::specs::Reading::make_thread_in))]
fn read_make_thread<H: Heap>(heap: H, words: Option<&[u8]>) -> Result<RawCall, Unread>
    ensures exact { Gives result (make_thread_in (option_copied words.entry)) }
    ensures memory { OnOutOfMemory result H.Refused }
{
    let (container, words) = next_word(words)?;
    let (label, words) = next_word(words)?;
    let (clearance, _) = next_word(words)?;
    make_thread_of(heap, container, label, clearance)
}

// Reads the words of the same call.
fn make_thread_of<H: Heap>(
    heap: H,
    container: &[u8],
    label: &[u8],
    clearance: &[u8],
) -> Result<RawCall, Unread>
    ensures exact { Gives result (make_thread_of container.now label.now clearance.now) }
    ensures memory { OnOutOfMemory result H.Refused }
{
    Ok(RawCall::MakeThread(
        read_object(container)?,
        read_handed(heap, label)?,
        read_handed(heap, clearance)?,
    ))
}

/// Reads a container, the label and the clearance of a gate in it, and the gate's entry.
#[tactic(auto, unfolding(crate::specs::Reading::make_gate_in))]
fn read_make_gate<H: Heap>(heap: H, words: Option<&[u8]>) -> Result<RawCall, Unread>
    ensures exact { Gives result (make_gate_in (option_copied words.entry)) }
    ensures memory { OnOutOfMemory result H.Refused }
{
    let (container, words) = next_word(words)?;
    let (label, words) = next_word(words)?;
    let (clearance, words) = next_word(words)?;
    let (entry, _) = next_word(words)?;
    make_gate_of(heap, container, label, clearance, entry)
}

// Reads the words of the same call.
fn make_gate_of<H: Heap>(
    heap: H,
    container: &[u8],
    label: &[u8],
    clearance: &[u8],
    entry: &[u8],
) -> Result<RawCall, Unread>
    ensures exact { Gives result (make_gate_of container.now label.now clearance.now entry.now) }
    ensures memory { OnOutOfMemory result H.Refused }
{
    Ok(RawCall::MakeGate(
        read_object(container)?,
        read_handed(heap, label)?,
        read_handed(heap, clearance)?,
        read_entry(entry)?,
    ))
}

/// Reads a container, a gate in it, and three labels.
#[tactic(auto, unfolding(crate::specs::Reading::enter_in))]
fn read_enter<H: Heap>(heap: H, words: Option<&[u8]>) -> Result<RawCall, Unread>
    ensures exact { Gives result (enter_in (option_copied words.entry)) }
    ensures memory { OnOutOfMemory result H.Refused }
{
    let (container, words) = next_word(words)?;
    let (gate, words) = next_word(words)?;
    let (wanted, words) = next_word(words)?;
    let (clearance, words) = next_word(words)?;
    let (verify, _) = next_word(words)?;
    enter_of(heap, (container, gate), (wanted, clearance, verify))
}

// Reads the words of the same call: those of the objects, and those of the labels.
fn enter_of<H: Heap>(
    heap: H,
    objects: (&[u8], &[u8]),
    labels: (&[u8], &[u8], &[u8]),
) -> Result<RawCall, Unread>
    ensures exact { Gives result (enter_of objects.entry.0.now objects.entry.1.now
        labels.entry.0.now labels.entry.1.now labels.entry.2.now) }
    ensures memory { OnOutOfMemory result H.Refused }
{
    Ok(RawCall::Enter(
        read_object(objects.0)?,
        read_object(objects.1)?,
        read_handed(heap, labels.0)?,
        read_handed(heap, labels.1)?,
        read_handed(heap, labels.2)?,
    ))
}

/// Reads a container, a segment in it, the number of its bytes that are kept, and bytes.
#[tactic(auto, unfolding(crate::specs::Reading::write_in))]
fn read_write<H: Heap>(heap: H, words: Option<&[u8]>) -> Result<RawCall, Unread>
    ensures exact { Gives result (write_in (option_copied words.entry)) }
    ensures memory { OnOutOfMemory result H.Refused }
{
    let (container, words) = next_word(words)?;
    let (segment, words) = next_word(words)?;
    let (keep, words) = next_word(words)?;
    let (bytes, _) = next_word(words)?;
    write_of(heap, container, segment, keep, bytes)
}

// Reads the words of the same call.
fn write_of<H: Heap>(
    heap: H,
    container: &[u8],
    segment: &[u8],
    keep: &[u8],
    bytes: &[u8],
) -> Result<RawCall, Unread>
    ensures exact { Gives result (write_of container.now segment.now keep.now bytes.now) }
    ensures memory { OnOutOfMemory result H.Refused }
{
    Ok(RawCall::Write(
        read_object(container)?,
        read_object(segment)?,
        read_short_number(keep)?,
        read_bytes(heap, bytes)?,
    ))
}

/// Reads a container, and an object in it.
#[tactic(auto, unfolding(crate::specs::Reading::pair_in))]
fn read_pair(words: Option<&[u8]>) -> Result<(ObjId, ObjId), Unread>
    ensures exact { Gives result (pair_in (option_copied words.entry)) }
    ensures memory { OnOutOfMemory result ⊥ }
{
    let (container, words) = next_word(words)?;
    let (object, _) = next_word(words)?;
    Ok((read_object(container)?, read_object(object)?))
}

/// Reads the arguments of a call of this name on a container and an object in it.
fn read_pair_named(name: &[u8], words: Option<&[u8]>) -> Result<RawCall, Unread>
    ensures exact { Gives result (pair_named name.now (option_copied words.entry)) }
    ensures memory { OnOutOfMemory result ⊥ }
{
    let (container, object) = read_pair(words)?;
    if name == b"read".as_slice() {
        Ok(RawCall::Read(container, object))
    } else if name == b"unlink".as_slice() {
        Ok(RawCall::Unlink(container, object))
    } else if name == b"label".as_slice() {
        Ok(RawCall::LabelOf(container, object))
    } else {
        Err(Unread::NoCall)
    }
}

/// Reads the arguments of a call of this name on a container.
fn read_making_named<H: Heap>(heap: H, name: &[u8], words: Option<&[u8]>) -> Result<RawCall, Unread>
    ensures exact { Gives result (making_named name.now (option_copied words.entry)) }
    ensures memory { OnOutOfMemory result H.Refused }
{
    if name == b"make_segment".as_slice() {
        read_make_segment(heap, words)
    } else if name == b"make_container".as_slice() {
        read_make_container(heap, words)
    } else if name == b"make_thread".as_slice() {
        read_make_thread(heap, words)
    } else if name == b"make_gate".as_slice() {
        read_make_gate(heap, words)
    } else if name == b"enter".as_slice() {
        read_enter(heap, words)
    } else if name == b"write".as_slice() {
        read_write(heap, words)
    } else {
        read_pair_named(name, words)
    }
}

/// Reads a label.
#[tactic(auto, unfolding(crate::specs::Reading::own_label_in))]
fn read_own_label<H: Heap>(heap: H, words: Option<&[u8]>) -> Result<HandedLabel, Unread>
    ensures exact { Gives result (own_label_in (option_copied words.entry)) }
    ensures memory { OnOutOfMemory result H.Refused }
{
    let (label, _) = next_word(words)?;
    read_handed(heap, label)
}

/// Reads the arguments of a call of this name.
fn read_named<H: Heap>(heap: H, name: &[u8], words: Option<&[u8]>) -> Result<RawCall, Unread>
    ensures exact { Gives result (call_named name.now (option_copied words.entry)) }
    ensures memory { OnOutOfMemory result H.Refused }
{
    if name == b"make_category".as_slice() {
        Ok(RawCall::MakeCategory)
    } else if name == b"self".as_slice() {
        Ok(RawCall::OwnLabel)
    } else if name == b"set_label".as_slice() {
        Ok(RawCall::SetLabel(read_own_label(heap, words)?))
    } else if name == b"set_clearance".as_slice() {
        Ok(RawCall::SetClearance(read_own_label(heap, words)?))
    } else {
        read_making_named(heap, name, words)
    }
}

/// Reads a thread and its call. Other spellings of it are read too.
#[tactic(auto, unfolding(crate::specs::Reading::thread_call_in))]
fn read_thread_call<H: Heap>(heap: H, line: &[u8]) -> Result<(ObjId, RawCall), Unread>
    ensures exact { Gives result (thread_call_in line.now) }
    ensures memory { OnOutOfMemory result H.Refused }
{
    let (thread, words) = next_word(Some(line))?;
    let (name, words) = next_word(words)?;
    Ok((read_object(thread)?, read_named(heap, name, words)?))
}

/// Reads a line as the raw call that it is, with its thread. A line that is no raw call is `None`, and so is
/// every other spelling of one: a line is read only where it is the very text that would be written.
pub fn read_raw<H: Heap>(heap: H, line: &[u8]) -> Result<Option<(ObjId, RawCall)>, AllocError>
    ensures ok { IfOk result (IsReadAs line.now) }
    ensures memory { OnErr result H.Refused }
{
    let (thread, call) = match read_thread_call(heap, line) {
        Ok(asked) => asked,
        Err(Unread::NoCall) => return Ok(None),
        Err(Unread::OutOfMemory) => return Err(AllocError),
    };
    match is_text_of(heap, line, thread, &call) {
        Ok(true) => Ok(Some((thread, call))),
        Ok(false) => {
            drop(call);
            Ok(None)
        }
        Err(error) => {
            drop(call);
            Err(error)
        }
    }
}

/// Checks whether a line is the text of a thread's raw call.
fn is_text_of<H: Heap>(
    heap: H,
    line: &[u8],
    thread: ObjId,
    call: &RawCall,
) -> Result<bool, AllocError>
    ensures ok { IfOk result (λ is. is ≡ bytes_eq (thread_call_text thread call.now) line.now) }
    ensures memory { OnErr result H.Refused }
{
    Ok(write_call(heap, thread, call)?.as_slice() == line)
}
