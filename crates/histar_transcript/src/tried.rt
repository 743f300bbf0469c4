//! The replies to the calls of a script behind its first lines, each after its call and before the reason of its refusal.
ghost use Rattle.std.specs.Prelude.{◌≡◌, ℕ, ◌++◌, ◌∷◌, List, [], IfErr, IfOk, OnOk, codes, decimal, map};
ghost use Rattle.histar_script.specs.Lines.{lines_of};
ghost use Rattle.histar_script.specs.Script.{IsDeclared};
ghost use Rattle.histar_transcript.specs.Transcript.{call_and_reply};
ghost use Rattle.histar_transcript.specs.Tried.{AddsReplies, tried_text};

use crate::transcript::{call_on, lines_in, or_nothing, push_reply};
use histar_flat::CallLine;
use histar_label::{InternStore, LabelStore};
use histar_prefix::discard;
use histar_script::{Fault, Script, split_word};
use histar_shell::Machine;
use histar_why::{Log, answer_with_reason};
use std::alloc::{AllocError, Global};

/// How many answers of label comparisons are remembered.
const REMEMBERED_ANSWERS: usize = 256;

/// Which lines of a script are shown: the lines, and how many of them come before the first one whose reply is added.
#[derive(Clone, Copy)]
struct Shown<'a> {
    lines: &'a [&'a [u8]],
    first: usize,
}

/// The replies so far, and what says why a call was refused.
#[derive(Drop)]
pub(crate) struct Said {
    pub log: Log,
    pub text: Vec<u8>,
}

/// Runs the script of a text on a machine of its own, and returns the replies to its calls behind the first
/// lines, each after its call, and behind it why it was refused.
pub(crate) fn tried_replies(
    alloc: Global,
    text: &[u8],
    script: Script,
    first: usize,
) -> Result<Vec<u8>, Fault>
    requires { IsDeclared script.accounts }
    ensures ok { IfOk result (λ replies.
        replies.items ≡ tried_text first (lines_of text.now) script) }
    ensures faults { IfErr result (λ fault. fault ≡ Fault.OutOfMemory) }
{
    let lines = lines_in(alloc, text)?;
    let store = InternStore::new(alloc, REMEMBERED_ANSWERS)?;
    let (accounts, calls) = script.into_parts();
    let Ok(mut machine) = Machine::boot(alloc, store, accounts) else {
        return Err(Fault::OutOfMemory);
    };
    let shown = Shown {
        lines: lines.as_slice(),
        first,
    };
    let mut said = Said {
        log: Log::new(alloc),
        text: Vec::new(alloc),
    };
    let made = make_calls(alloc, &mut machine, &mut said, shown, calls);
    discard(machine);
    let Said { log, text: replies } = said;
    drop(log);
    made?;
    Ok(replies)
}

/// Makes calls, and adds the lines of their replies behind the first lines.
fn make_calls<S: LabelStore + Drop>(
    alloc: Global,
    machine: &mut Machine<S>,
    said: &mut Said,
    shown: Shown<'_>,
    calls: Vec<CallLine>,
) -> Result<(), Fault>
    ensures ok { OnOk result (AddsReplies shown.entry.first (map (λ line. line.now) shown.entry.lines.now)
        machine.old machine.new said.old said.new calls.items) }
    ensures faults { IfErr result (λ fault. fault ≡ Fault.OutOfMemory) }
{
    'calls: for call in calls {
        make_call(alloc, machine, said, shown, call)?;
    }
    Ok(())
}

/// Makes a call, and adds the line of its reply, and why it was refused, unless it is on one of the first lines.
///
/// A refusal changes nothing, so the reason is read off the machine after the call.
fn make_call<S: LabelStore + Drop>(
    alloc: Global,
    machine: &mut Machine<S>,
    said: &mut Said,
    shown: Shown<'_>,
    call: CallLine,
) -> Result<(), Fault>
    ensures ok { OnOk result (AddsReplies shown.entry.first (map (λ line. line.now) shown.entry.lines.now)
        machine.old machine.new said.old said.new (call ∷ [])) }
    ensures faults { IfErr result (λ fault. fault ≡ Fault.OutOfMemory) }
{
    let number = call.line;
    said.log.text.clear();
    let line = answer_with_reason(alloc, machine, &mut said.log, call)?;
    if number as usize <= shown.first {
        return Ok(());
    }
    push_answer(&mut said.text, shown.lines, number, line.as_slice())?;
    Ok(said.text.extend_from_slice(said.log.text.as_slice())?)
}

/// Adds the number of a line, its call and the reply in an answer, which begins with the number and a space.
fn push_answer(
    text: &mut Vec<u8>,
    lines: &[&[u8]],
    number: u32,
    answer: &[u8],
) -> Result<(), AllocError>
    ensures { OnOk result ((reply : List ℕ) → answer.now ≡ decimal number ++ codes " " ++ reply
        → text.new.items ≡ text.old.items ++ call_and_reply (map (λ line. line.now) lines.now) number reply) }
{
    let (_, reply) = split_word(answer);
    let call = call_on(lines, number as u64);
    push_reply(text, number as u64, call, or_nothing(reply))
}
