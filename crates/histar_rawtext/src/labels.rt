//! The words of a raw call that are labels.
ghost use Rattle.std.specs.Prelude.{◌≡◌, ◌++◌, OnOk, OnErr};
ghost use Rattle.std.specs.List.{flat_map};
ghost use Rattle.histar_rawtext.specs.RawText.{level_text, exception_text, label_text, label_word};

use crate::words::push_number;
use histar_heap::Heap;
use histar_label::{Category, Label, Level};
use std::alloc::AllocError;

/// Adds a level.
pub fn push_level<H: Heap>(heap: H, line: &mut Vec<u8>, level: Level) -> Result<(), AllocError>
    ensures ok { OnOk result (line.new.items ≡ line.old.items ++ level_text level) }
    ensures memory { OnErr result H.Refused }
{
    match level {
        Level::Star => heap.extend(line, b"*"),
        Level::L0 => heap.extend(line, b"0"),
        Level::L1 => heap.extend(line, b"1"),
        Level::L2 => heap.extend(line, b"2"),
        Level::L3 => heap.extend(line, b"3"),
    }
}

/// Adds an exception: its category, a colon, its level, and a comma.
fn push_exception<H: Heap>(
    heap: H,
    line: &mut Vec<u8>,
    category: Category,
    level: Level,
) -> Result<(), AllocError>
    ensures ok { OnOk result (line.new.items ≡ line.old.items ++ exception_text (category, level)) }
    ensures memory { OnErr result H.Refused }
{
    push_number(heap, line, category.number())?;
    heap.extend(line, b":")?;
    push_level(heap, line, level)?;
    heap.extend(line, b",")
}

/// Adds the exceptions.
fn push_exceptions<H: Heap>(
    heap: H,
    line: &mut Vec<u8>,
    exceptions: &[(Category, Level)],
) -> Result<(), AllocError>
    ensures ok { OnOk result (line.new.items ≡ line.old.items ++ flat_map exception_text exceptions.now) }
    ensures memory { OnErr result H.Refused }
{
    for exception in exceptions {
        push_exception(heap, line, exception.0, exception.1)?;
    }
    Ok(())
}

/// Adds a label: in braces its exceptions, and then its default.
pub(crate) fn push_label<H: Heap>(
    heap: H,
    line: &mut Vec<u8>,
    label: &Label,
) -> Result<(), AllocError>
    ensures ok { OnOk result (line.new.items ≡ line.old.items ++ label_text label.now) }
    ensures memory { OnErr result H.Refused }
{
    heap.extend(line, b"{")?;
    push_exceptions(heap, line, label.exceptions())?;
    push_level(heap, line, label.default_level())?;
    heap.extend(line, b"}")
}

/// Adds a space and a label.
pub(crate) fn push_label_word<H: Heap>(
    heap: H,
    line: &mut Vec<u8>,
    label: &Label,
) -> Result<(), AllocError>
    ensures ok { OnOk result (line.new.items ≡ line.old.items ++ label_word label.now) }
    ensures memory { OnErr result H.Refused }
{
    heap.extend(line, b" ")?;
    push_label(heap, line, label)
}
