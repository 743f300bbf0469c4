//! Reading a whole raw session.
ghost use Rattle.std.specs.Prelude.{◌≡◌, ◌≤◌, false, length, IfOk, IfErr};
ghost use Rattle.histar_script.specs.Lines.{lines_of, most_script_bytes};
ghost use Rattle.histar_script.specs.Memory.{OnOutOfMemory};
ghost use Rattle.histar_raw_session.specs.Session.{is_comment as comment, SaysCall, IsBadLine, SayCalls, IsFirstBadLine};
ghost use Rattle.histar_raw_session.specs.Session.{IsSession, IsBadLineOf, IsFaultOf};

use histar_heap::Heap;
use histar_object::ObjId;
use histar_rawtext::read_raw;
use histar_rules::RawCall;
use histar_script::{Fault, is_plain, is_too_long, split_line};

/// A raw call of a thread, on a line of a session.
#[derive(Drop)]
pub struct RawLine {
    pub line: u32,
    pub thread: ObjId,
    pub call: RawCall,
}

/// Checks whether a line is a comment.
pub fn is_comment(line: &[u8]) -> bool
    ensures { result ≡ comment line.now }
{
    match line {
        [] => true,
        [first, ..] => *first == b'#' && is_plain(line),
    }
}

/// Reads the raw call of line `number`, which is no comment.
pub fn read_call<H: Heap>(heap: H, number: u32, line: &[u8]) -> Result<RawLine, Fault>
    requires { comment line.now ≡ false }
    ensures ok { IfOk result (SaysCall number line.now) }
    ensures err { IfErr result (IsBadLineOf (λ n. (n ≡ number) × IsBadLine line.now)) }
    ensures memory { OnOutOfMemory result H.Refused }
{
    if !is_plain(line) {
        return Err(Fault::BadScript(number));
    }
    let (thread, call) = read_raw(heap, line)?.ok_or(Fault::BadScript(number))?;
    Ok(RawLine {
        line: number,
        thread,
        call,
    })
}

/// Reads the calls of a text that is not too long.
fn read_lines<H: Heap>(heap: H, text: &[u8]) -> Result<Vec<RawLine>, Fault>
    requires { length text.now ≤ most_script_bytes }
    ensures ok { IfOk result (λ calls. SayCalls 0 (lines_of text.now) calls.items) }
    ensures err { IfErr result (IsBadLineOf (IsFirstBadLine text.now)) }
    ensures memory { OnOutOfMemory result H.Refused }
{
    let mut calls = Vec::new(heap.alloc());
    let mut rest = text;
    let mut count = 0u32;
    while !rest.is_empty() {
        let (line, after) = split_line(rest);
        count += 1;
        if !is_comment(line) {
            heap.push(&mut calls, read_call(heap, count, line)?)?;
        }
        rest = after;
    }
    Ok(calls)
}

/// Reads the calls of a raw session from its bytes. The whole text is read before a call is made.
pub fn read_session<H: Heap>(heap: H, text: &[u8]) -> Result<Vec<RawLine>, Fault>
    ensures ok { IfOk result (λ calls. IsSession text.now calls.items) }
    ensures err { IfErr result (IsFaultOf text.now) }
    ensures memory { OnOutOfMemory result H.Refused }
{
    if is_too_long(text) {
        return Err(Fault::TooLong);
    }
    read_lines(heap, text)
}
