//! One call on a machine, and why it was refused.
ghost use Rattle.std.specs.Prelude.{◌≡◌, IfErr, IfOk};
ghost use Rattle.histar_why.specs.Answering.{AnswersWithReason};

use crate::asked::asked_of;
use crate::logging::log_call;
use crate::session::Log;
use histar_flat::{CallLine, each_call_is_right};
use histar_label::LabelStore;
use histar_script::Fault;
use histar_shell::{Machine, set_reply_line};
use std::alloc::Global;

/// Makes one call on a machine, and returns the line of its reply. If it was refused, the line that
/// says why is added to the log.
///
/// It costs the same late in a session as early. After an `Err` the machine and the log are of no
/// more use.
pub fn answer_with_reason<S: LabelStore + Drop>(
    alloc: Global,
    machine: &mut Machine<S>,
    log: &mut Log,
    call: CallLine,
) -> Result<Vec<u8>, Fault>
    // The line has the reply of the rules, the log grows by the line of why it is a refusal, if it
    // is one, and the machine represents the state after the call.
    ensures ok { IfOk result (λ line. AnswersWithReason machine.old machine.new log.old log.new call line.items) }
    ensures faults { IfErr result (λ fault. fault ≡ Fault.OutOfMemory) }
{
    let asked = asked_of(&call);
    each_call_is_right(&call.call);
    let CallLine {
        line: number,
        process,
        call,
    } = call;
    let Ok(reply) = machine.step(alloc, number, &process, call) else {
        return Err(Fault::OutOfMemory);
    };
    let mut said = Vec::new(alloc);
    set_reply_line(alloc, &mut said, number, &reply)?;
    log_call(alloc, machine, log, &asked, &reply)?;
    Ok(said)
}
