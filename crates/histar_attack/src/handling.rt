//! The lines of an attack: each is made, or it is written why it isn't.
ghost use Rattle.std.specs.Prelude.{◌≡◌, ◌&&◌, not, IfErr, OnOk};
ghost use Rattle.histar_attack.specs.Answering.{AnswersEach, AnswersOne, AnswersRawLine};
ghost use Rattle.histar_attack.specs.Handling.{HandlesItem, HandlesItems};

use crate::confinement::{is_outside_caller, is_tainted_caller};
use crate::texts::{push_line, push_outcome, push_reply};
use histar_flat::{CallLine, each_call_is_right};
use histar_label::{Category, LabelStore};
use histar_mixed::MixedItem;
use histar_raw_session::RawLine;
use histar_script::Fault;
use histar_shell::Machine;
use std::alloc::Global;

/// What is written of a Unix call whose process is inside.
const INSIDE: &[u8] = b"inside";

/// What is written of a raw call whose thread is not tainted.
const NOT_CONFINED: &[u8] = b"not confined";

/// By what a line is made or left out.
#[derive(Clone, Copy)]
pub struct LineRule {
    /// The category of the job.
    pub category: Category,
    /// Whether Unix calls are made whose process is inside.
    pub follow: bool,
}

/// Makes a Unix call, and writes its reply.
fn answer_unix<S: LabelStore + Drop>(
    alloc: Global,
    machine: &mut Machine<S>,
    call: CallLine,
    output: &mut Vec<u8>,
) -> Result<(), Fault>
    ensures ok { OnOk result (AnswersOne machine.old machine.new
        output.old.items output.new.items call) }
    ensures faults { IfErr result (λ fault. fault ≡ Fault.OutOfMemory) }
{
    let CallLine {
        line: number,
        process,
        call,
    } = call;
    each_call_is_right(&call);
    let Ok(reply) = machine.step(alloc, number, &process, call) else {
        return Err(Fault::OutOfMemory);
    };
    let pushed = push_reply(alloc, output, number, &reply);
    drop(reply);
    pushed?;
    Ok(())
}

/// Makes the Unix calls before an attack, and writes their replies.
pub(crate) fn answer_before<S: LabelStore + Drop>(
    alloc: Global,
    machine: &mut Machine<S>,
    calls: Vec<CallLine>,
    output: &mut Vec<u8>,
) -> Result<(), Fault>
    ensures ok { OnOk result (AnswersEach machine.old machine.new
        output.old.items output.new.items calls.items) }
    ensures faults { IfErr result (λ fault. fault ≡ Fault.OutOfMemory) }
{
    'calls: for call in calls {
        answer_unix(alloc, machine, call, output)?;
    }
    Ok(())
}

/// Checks whether a Unix call is left out: its process is inside, and such calls are not followed.
fn is_left_out(is_outside: bool, follow: bool) -> bool
    ensures { result ≡ (not is_outside && not follow) }
{
    !is_outside && !follow
}

/// Makes a Unix call if its process is outside, or such calls are followed, and writes its reply.
fn handle_unix<S: LabelStore + Drop>(
    alloc: Global,
    machine: &mut Machine<S>,
    rule: &LineRule,
    call: CallLine,
    output: &mut Vec<u8>,
) -> Result<(), Fault>
    ensures ok { OnOk result (HandlesItem rule.now machine.old machine.new
        output.old.items output.new.items (MixedItem.Unix call)) }
    ensures faults { IfErr result (λ fault. fault ≡ Fault.OutOfMemory) }
{
    let first = machine.roots().home;
    let category = rule.category;
    let is_outside = is_outside_caller(machine.kernel(), category, &first, &call.process);
    if is_left_out(is_outside, rule.follow) {
        let number = call.line;
        drop(call);
        push_line(output, number, INSIDE)?;
        return Ok(());
    }
    answer_unix(alloc, machine, call, output)
}

/// Makes a raw call if its thread is tainted, and writes its answer.
fn handle_raw<S: LabelStore + Drop>(
    alloc: Global,
    machine: &mut Machine<S>,
    rule: &LineRule,
    asked: RawLine,
    output: &mut Vec<u8>,
) -> Result<(), Fault>
    ensures ok { OnOk result (HandlesItem rule.now machine.old machine.new
        output.old.items output.new.items (MixedItem.Raw asked)) }
    ensures faults { IfErr result (λ fault. fault ≡ Fault.OutOfMemory) }
{
    if !is_tainted_caller(machine.kernel(), rule.category, asked.thread) {
        let number = asked.line;
        drop(asked);
        push_line(output, number, NOT_CONFINED)?;
        return Ok(());
    }
    answer_raw(alloc, machine, asked, output)
}

/// Makes a raw call, and writes its answer.
fn answer_raw<S: LabelStore + Drop>(
    alloc: Global,
    machine: &mut Machine<S>,
    asked: RawLine,
    output: &mut Vec<u8>,
) -> Result<(), Fault>
    ensures ok { OnOk result (AnswersRawLine machine.old machine.new
        output.old.items output.new.items asked) }
    ensures faults { IfErr result (λ fault. fault ≡ Fault.OutOfMemory) }
{
    let RawLine {
        line: number,
        thread,
        call,
    } = asked;
    let Ok(outcome) = machine.raw_call(alloc, number, thread, call) else {
        return Err(Fault::OutOfMemory);
    };
    push_outcome(alloc, output, number, outcome)?;
    Ok(())
}

/// Handles a line of either kind.
fn handle<S: LabelStore + Drop>(
    alloc: Global,
    machine: &mut Machine<S>,
    rule: &LineRule,
    item: MixedItem,
    output: &mut Vec<u8>,
) -> Result<(), Fault>
    ensures ok { OnOk result (HandlesItem rule.now machine.old machine.new
        output.old.items output.new.items item) }
    ensures faults { IfErr result (λ fault. fault ≡ Fault.OutOfMemory) }
{
    match item {
        MixedItem::Unix(call) => handle_unix(alloc, machine, rule, call, output),
        MixedItem::Raw(asked) => handle_raw(alloc, machine, rule, asked, output),
    }
}

/// Handles the lines of an attack on a category, one after another.
pub(crate) fn handle_all<S: LabelStore + Drop>(
    alloc: Global,
    machine: &mut Machine<S>,
    rule: &LineRule,
    items: Vec<MixedItem>,
    output: &mut Vec<u8>,
) -> Result<(), Fault>
    ensures ok { OnOk result (HandlesItems rule.now machine.old machine.new
        output.old.items output.new.items items.items) }
    ensures faults { IfErr result (λ fault. fault ≡ Fault.OutOfMemory) }
{
    'items: for item in items {
        handle(alloc, machine, rule, item, output)?;
    }
    Ok(())
}
