//! The lines that print the outcomes of calls.
ghost use Rattle.std.specs.Prelude.{◌≡◌, ◌++◌, IfOk, OnOk, OnErr, Ok, Err};
ghost use Rattle.std.specs.Fmt.{decimal};
ghost use Rattle.histar_raw_session.specs.Answers.{line_text};

use histar_heap::Heap;
use histar_rawtext::{denial_name, write_answer};
use histar_rules::Denied;
use histar_syscall::Answer;
use itoa::Buffer;
use std::alloc::AllocError;

/// Prints the number of a line, in decimal digits.
fn write_number<H: Heap>(heap: H, number: u32) -> Result<Vec<u8>, AllocError>
    ensures ok { IfOk result (λ line. line.items ≡ decimal number) }
    ensures memory { OnErr result H.Refused }
{
    let mut digits = Buffer::new();
    heap.copy_of(digits.format(number).as_bytes())
}

/// Prints the line of a granted call: its number, an equals sign, and its answer.
pub fn answer_line<H: Heap>(heap: H, number: u32, answer: &Answer) -> Result<Vec<u8>, AllocError>
    ensures ok { IfOk result (λ line. line.items ≡ line_text number (Ok answer.now)) }
    ensures memory { OnErr result H.Refused }
{
    let mut line = write_number(heap, number)?;
    heap.extend(&mut line, b" = ")?;
    heap.extend(&mut line, write_answer(heap, answer)?.as_slice())?;
    heap.extend(&mut line, b"\n")?;
    Ok(line)
}

/// Prints the line of a denied call: its number, and the name of the denial.
pub fn denial_line<H: Heap>(heap: H, number: u32, denied: Denied) -> Result<Vec<u8>, AllocError>
    ensures ok { IfOk result (λ line. line.items ≡ line_text number (Err denied)) }
    ensures memory { OnErr result H.Refused }
{
    let mut line = write_number(heap, number)?;
    heap.extend(&mut line, b" ")?;
    heap.extend(&mut line, denial_name(denied).as_bytes())?;
    heap.extend(&mut line, b"\n")?;
    Ok(line)
}
