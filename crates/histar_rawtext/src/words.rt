//! Writing the words of a raw call that are numbers, bytes or a gate's entry.
ghost use Rattle.std.specs.Prelude.{◌≡◌, ◌<◌, ◌++◌, OnOk, OnErr};
ghost use Rattle.std.specs.List.{flat_map};
ghost use Rattle.std.specs.Fmt.{decimal};
ghost use Rattle.histar_rawtext.specs.RawText.{hex_digit, byte_text, bytes_text, bytes_word, gate_entry_text, entry_word, number_word};

use histar_base::Bytes;
use histar_heap::Heap;
use histar_object::Entry;
use itoa::Buffer;
use std::alloc::AllocError;

/// Adds a number, in decimal digits.
pub fn push_number<H: Heap>(heap: H, line: &mut Vec<u8>, number: u64) -> Result<(), AllocError>
    ensures ok { OnOk result (line.new.items ≡ line.old.items ++ decimal number) }
    ensures memory { OnErr result H.Refused }
{
    let mut digits = Buffer::new();
    heap.extend(line, digits.format(number).as_bytes())
}

/// Adds a space and a number.
pub(crate) fn push_number_word<H: Heap>(
    heap: H,
    line: &mut Vec<u8>,
    number: u64,
) -> Result<(), AllocError>
    ensures ok { OnOk result (line.new.items ≡ line.old.items ++ number_word number) }
    ensures memory { OnErr result H.Refused }
{
    heap.extend(line, b" ")?;
    push_number(heap, line, number)
}

/// Returns a lower case digit of base sixteen.
fn hex_digit(number: u8) -> u8
    requires { number < 16 }
    ensures { result ≡ hex_digit number }
{
    if number < 10 {
        b'0' + number
    } else {
        b'a' - 10 + number
    }
}

/// Adds the two digits of a byte.
fn push_byte<H: Heap>(heap: H, line: &mut Vec<u8>, byte: u8) -> Result<(), AllocError>
    ensures ok { OnOk result (line.new.items ≡ line.old.items ++ byte_text byte) }
    ensures memory { OnErr result H.Refused }
{
    heap.push(line, hex_digit(byte / 16))?;
    heap.push(line, hex_digit(byte % 16))?;
    Ok(())
}

/// Adds the digits of the bytes.
fn push_digits<H: Heap>(heap: H, line: &mut Vec<u8>, bytes: &[u8]) -> Result<(), AllocError>
    ensures ok { OnOk result (line.new.items ≡ line.old.items ++ flat_map byte_text bytes.now) }
    ensures memory { OnErr result H.Refused }
{
    for byte in bytes {
        push_byte(heap, line, *byte)?;
    }
    Ok(())
}

/// Adds bytes.
pub(crate) fn push_bytes<H: Heap>(
    heap: H,
    line: &mut Vec<u8>,
    bytes: &Bytes,
) -> Result<(), AllocError>
    ensures ok { OnOk result (line.new.items ≡ line.old.items ++ bytes_text bytes.now) }
    ensures memory { OnErr result H.Refused }
{
    heap.extend(line, b"x")?;
    push_digits(heap, line, bytes.as_slice())
}

/// Adds a space, and bytes.
pub(crate) fn push_bytes_word<H: Heap>(
    heap: H,
    line: &mut Vec<u8>,
    bytes: &Bytes,
) -> Result<(), AllocError>
    ensures ok { OnOk result (line.new.items ≡ line.old.items ++ bytes_word bytes.now) }
    ensures memory { OnErr result H.Refused }
{
    heap.extend(line, b" ")?;
    push_bytes(heap, line, bytes)
}

/// Adds a gate's entry.
pub(crate) fn push_entry<H: Heap>(
    heap: H,
    line: &mut Vec<u8>,
    entry: Entry,
) -> Result<(), AllocError>
    ensures ok { OnOk result (line.new.items ≡ line.old.items ++ gate_entry_text entry) }
    ensures memory { OnErr result H.Refused }
{
    match entry {
        Entry::Login(user) => {
            heap.extend(line, b"login:")?;
            push_number(heap, line, u64::from(user))
        }
        Entry::Mark(mark) => {
            heap.extend(line, b"mark:")?;
            push_number(heap, line, u64::from(mark))
        }
    }
}

/// Adds a space, and a gate's entry.
pub(crate) fn push_entry_word<H: Heap>(
    heap: H,
    line: &mut Vec<u8>,
    entry: Entry,
) -> Result<(), AllocError>
    ensures ok { OnOk result (line.new.items ≡ line.old.items ++ entry_word entry) }
    ensures memory { OnErr result H.Refused }
{
    heap.extend(line, b" ")?;
    push_entry(heap, line, entry)
}
