//! Numbers, paths and the names of processes as texts.
ghost use Rattle.std.specs.Prelude.{◌≡◌, ◌<◌, ◌+◌, ◌++◌, ◌∷◌, [], OnErr, OnOk};
ghost use Rattle.std.specs.Fmt.{decimal};
ghost use Rattle.histar_flat.specs.Texts.{names_text, path_text, process_text};

use histar_flat::{Name, Path, ProcName};
use histar_heap::Heap;
use itoa::Buffer;
use std::alloc::AllocError;

/// Adds a number, in decimal digits. Those of processes have one digit or two, and are added without `itoa`.
pub fn push_number<H: Heap>(heap: H, text: &mut Vec<u8>, number: u32) -> Result<(), AllocError>
    ensures ok { OnOk result (text.new.items ≡ text.old.items ++ decimal number) }
    ensures memory { OnErr result H.Refused }
{
    match number {
        0..=9 => push_digit(heap, text, number),
        10..=99 => {
            push_digit(heap, text, number / 10)?;
            push_digit(heap, text, number % 10)
        }
        _ => {
            let mut digits = Buffer::new();
            heap.extend(text, digits.format(number).as_bytes())
        }
    }
}

/// Adds one digit.
fn push_digit<H: Heap>(heap: H, text: &mut Vec<u8>, digit: u32) -> Result<(), AllocError>
    requires { digit < 10 }
    ensures ok { OnOk result (text.new.items ≡ text.old.items ++ (48 + digit) ∷ []) }
    ensures memory { OnErr result H.Refused }
{
    heap.push(text, b'0' + digit as u8)?;
    Ok(())
}

/// Adds a process's name: 0, and a dot before each further number.
pub fn push_process<H: Heap>(
    heap: H,
    text: &mut Vec<u8>,
    process: &ProcName,
) -> Result<(), AllocError>
    ensures ok { OnOk result (text.new.items ≡ text.old.items ++ process_text process.now) }
    ensures memory { OnErr result H.Refused }
{
    let numbers = process.numbers();
    heap.extend(text, b"0")?;
    for i in 0..numbers.len() {
        heap.push(text, b'.')?;
        push_number(heap, text, u32::from(numbers[numbers.len() - 1 - i]))?;
    }
    Ok(())
}

/// Adds the names of a path, of which the last comes first, each after a slash.
fn push_names<H: Heap>(heap: H, text: &mut Vec<u8>, names: &[Name]) -> Result<(), AllocError>
    ensures ok { OnOk result (text.new.items ≡ text.old.items ++ names_text names.now) }
    ensures memory { OnErr result H.Refused }
{
    for i in 0..names.len() {
        heap.extend(text, b"/")?;
        heap.extend(text, names[names.len() - 1 - i].as_bytes())?;
    }
    Ok(())
}

/// Adds a path, each name after a slash.
pub fn push_path<H: Heap>(heap: H, text: &mut Vec<u8>, path: &Path) -> Result<(), AllocError>
    ensures ok { OnOk result (text.new.items ≡ text.old.items ++ path_text path.now) }
    ensures memory { OnErr result H.Refused }
{
    match path.names() {
        [] => heap.extend(text, b"/"),
        names => push_names(heap, text, names),
    }
}
