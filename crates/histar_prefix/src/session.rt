//! The machine of a script, up to a line.
ghost use Rattle.std.specs.Prelude.{◌≡◌, OnOk, [], ◌∷◌};
ghost use Rattle.histar_prefix.specs.Prefix.{RunsText, ShowsAfter, calls_before, is_before};

use histar_flat::CallLine;
use histar_label::{InternStore, LabelStore};
use histar_programs::Stopped;
use histar_script::{Fault, read_script};
use histar_shell::Machine;
use std::alloc::Global;

/// How many answers of label comparisons are remembered.
const REMEMBERED_ANSWERS: usize = 256;

/// Runs the script in a text on a machine of its own, up to a line if one is given, and returns the machine.
pub fn machine_before(
    alloc: Global,
    text: &[u8],
    at: Option<u32>,
) -> Result<Machine<InternStore>, Fault>
    ensures { RunsText at text.now result }
{
    let store = InternStore::new(alloc, REMEMBERED_ANSWERS)?;
    let script = read_script(alloc, text)?;
    let (accounts, calls) = script.into_parts();
    let Ok(mut machine) = Machine::boot(alloc, store, accounts) else {
        return Err(Fault::OutOfMemory);
    };
    let Ok(()) = make_calls(alloc, &mut machine, calls, at) else {
        discard(machine);
        return Err(Fault::OutOfMemory);
    };
    Ok(machine)
}

/// Drops a machine. A crate that calls it has no proof of its own that each part of a machine can be dropped.
pub fn discard(machine: Machine<InternStore>) {
    drop(machine);
}

/// Makes the calls on the lines before the given one, in their order, or all calls.
fn make_calls<S: LabelStore + Drop>(
    alloc: Global,
    machine: &mut Machine<S>,
    calls: Vec<CallLine>,
    at: Option<u32>,
) -> Result<(), Stopped>
    ensures { OnOk result (ShowsAfter machine.old machine.new (calls_before at calls.items)) }
{
    'calls: for call in calls {
        if is_before(at, call.line) {
            make_call(alloc, machine, call)?;
        }
    }
    Ok(())
}

/// Makes one call on the machine.
fn make_call<S: LabelStore + Drop>(
    alloc: Global,
    machine: &mut Machine<S>,
    call: CallLine,
) -> Result<(), Stopped>
    ensures { OnOk result (ShowsAfter machine.old machine.new (call ∷ [])) }
{
    let CallLine {
        line: number,
        process,
        call,
    } = call;
    let _reply = machine.step(alloc, number, &process, call)?;
    Ok(())
}

/// Checks whether a line comes before the given one, if one is given.
fn is_before(at: Option<u32>, line: u32) -> bool
    ensures { result ≡ is_before at line }
{
    match at {
        None => true,
        Some(first) => line < first,
    }
}
