//! Writing the answers of raw calls.
ghost use Rattle.std.specs.Prelude.{◌≡◌, ◌++◌, IfOk, OnOk, OnErr};
ghost use Rattle.histar_rawtext.specs.RawText.{answer_text};

use crate::labels::push_label;
use crate::words::{push_bytes, push_entry, push_number};
use histar_heap::Heap;
use histar_syscall::Answer;
use std::alloc::AllocError;

/// Adds the answer of a raw call.
fn push_answer<H: Heap>(heap: H, text: &mut Vec<u8>, answer: &Answer) -> Result<(), AllocError>
    ensures ok { OnOk result (text.new.items ≡ text.old.items ++ answer_text answer.now) }
    ensures memory { OnErr result H.Refused }
{
    match answer {
        Answer::Done => heap.extend(text, b"ok"),
        Answer::Category(category) => {
            heap.extend(text, b"cat ")?;
            push_number(heap, text, category.number())
        }
        Answer::OwnLabel(label, clearance) => {
            push_label(heap, text, label)?;
            heap.extend(text, b" ")?;
            push_label(heap, text, clearance)
        }
        Answer::Object(object) => {
            heap.extend(text, b"obj ")?;
            push_number(heap, text, object.number())
        }
        Answer::Entry(entry) => push_entry(heap, text, *entry),
        Answer::Bytes(bytes) => push_bytes(heap, text, bytes),
        Answer::Label(label) => push_label(heap, text, label),
    }
}

/// Returns the text of the answer of a raw call: `ok`, `cat` and the new category, `obj` and the new object,
/// the thread's label and clearance, the gate's entry, the bytes, or the label.
pub fn write_answer<H: Heap>(heap: H, answer: &Answer) -> Result<Vec<u8>, AllocError>
    ensures ok { IfOk result (λ text. text.items ≡ answer_text answer.now) }
    ensures memory { OnErr result H.Refused }
{
    let mut text = Vec::new(heap.alloc());
    push_answer(heap, &mut text, answer)?;
    Ok(text)
}
