//! What the call lines of a script say.
ghost use Rattle.std.specs.Prelude.{◌≡◌, [], ◌∷◌, IfErr, IfOk, OnOk};
ghost use Rattle.histar_script.specs.Script.{IsDeclared};
ghost use Rattle.histar_policy.specs.Answers.{AddsNotes};
ghost use Rattle.histar_policy.specs.Notes.{notes_of};

use crate::notes::{Note, asked_of, event_of};
use histar_flat::CallLine;
use histar_label::{InternStore, LabelStore};
use histar_script::{Fault, Script};
use histar_shell::Machine;
use std::alloc::Global;

/// How many answers of label comparisons are remembered.
const REMEMBERED_ANSWERS: usize = 256;

/// Runs a script on a machine of its own, and returns what its call lines say.
pub(crate) fn notes_on(alloc: Global, script: Script) -> Result<Vec<Note>, Fault>
    requires { IsDeclared script.accounts }
    ensures ok { IfOk result (λ notes. notes.items ≡ notes_of script) }
    ensures faults { IfErr result (λ fault. fault ≡ Fault.OutOfMemory) }
{
    let store = InternStore::new(alloc, REMEMBERED_ANSWERS)?;
    let (accounts, calls) = script.into_parts();
    let Ok(mut machine) = Machine::boot(alloc, store, accounts) else {
        return Err(Fault::OutOfMemory);
    };
    let mut notes = Vec::new(alloc);
    let made = make_calls(alloc, &mut machine, calls, &mut notes);
    drop(machine);
    made?;
    Ok(notes)
}

/// Makes calls, and adds what they say.
fn make_calls<S: LabelStore + Drop>(
    alloc: Global,
    machine: &mut Machine<S>,
    calls: Vec<CallLine>,
    notes: &mut Vec<Note>,
) -> Result<(), Fault>
    ensures ok { OnOk result (AddsNotes machine.old machine.new
        notes.old.items notes.new.items calls.items) }
    ensures faults { IfErr result (λ fault. fault ≡ Fault.OutOfMemory) }
{
    'calls: for call in calls {
        make_call(alloc, machine, call, notes)?;
    }
    Ok(())
}

/// Makes a call, and adds what it says.
fn make_call<S: LabelStore + Drop>(
    alloc: Global,
    machine: &mut Machine<S>,
    call: CallLine,
    notes: &mut Vec<Note>,
) -> Result<(), Fault>
    ensures ok { OnOk result (AddsNotes machine.old machine.new
        notes.old.items notes.new.items (call ∷ [])) }
    ensures faults { IfErr result (λ fault. fault ≡ Fault.OutOfMemory) }
{
    let CallLine {
        line,
        process,
        call,
    } = call;
    let asked = asked_of(&call);
    let Ok(reply) = machine.step(alloc, line, &process, call) else {
        return Err(Fault::OutOfMemory);
    };
    let event = event_of(alloc, machine, &process, &asked, &reply)?;
    notes.push(Note {
        line,
        process,
        event,
    })?;
    Ok(())
}
