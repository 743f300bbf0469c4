//! Machines that make calls, with what is gathered after each.
ghost use Rattle.std.specs.Prelude.{◌≡◌, IfOk, OnOk, [], ◌∷◌};
ghost use Rattle.histar_prefix.specs.Prefix.{calls_before, is_before as comes_before};
ghost use Rattle.histar_ever.specs.Following.{FollowsCalls, GathersNone, GathersRun, IsRunning, IsStarted};

use crate::gather::Gather;
use histar_flat::CallLine;
use histar_label::LabelStore;
use histar_never::{is_question, may_change};
use histar_script::Fault;
use histar_shell::Machine;
use std::alloc::Global;

/// Makes the calls on the lines before the given one, or all, on a machine that was just booted, and gathers
/// its states before and after each. It returns what was gathered.
pub(crate) fn follow<S: LabelStore + Drop, G: Gather>(
    alloc: Global,
    machine: &mut Machine<S>,
    calls: Vec<CallLine>,
    at: Option<u32>,
    nothing: G,
) -> Result<G, Fault>
    requires started { IsStarted machine.old }
    requires nothing { GathersNone G.Gathers machine.old nothing }
    ensures { IfOk result (GathersRun G.Gathers (calls_before at calls.items) machine.old) }
{
    let mut gathered = nothing;
    gathered.add_state(alloc, machine)?;
    make_calls(alloc, machine, calls, at, &mut gathered)?;
    Ok(gathered)
}

/// Makes the calls on the lines before the given one, in their order, or all calls.
fn make_calls<S: LabelStore + Drop, G: Gather>(
    alloc: Global,
    machine: &mut Machine<S>,
    calls: Vec<CallLine>,
    at: Option<u32>,
    gathered: &mut G,
) -> Result<(), Fault>
    requires { IsRunning G.Gathers machine.old gathered.old }
    ensures { OnOk result (FollowsCalls G.Gathers (calls_before at calls.items)
        machine.old machine.new gathered.old gathered.new) }
{
    'calls: for call in calls {
        if is_before(at, call.line) {
            make_call(alloc, machine, call, gathered)?;
        }
    }
    Ok(())
}

/// Makes one call, and gathers the state that the machine has then, if the call may have changed something.
fn make_call<S: LabelStore + Drop, G: Gather>(
    alloc: Global,
    machine: &mut Machine<S>,
    call: CallLine,
    gathered: &mut G,
) -> Result<(), Fault>
    requires { IsRunning G.Gathers machine.old gathered.old }
    ensures { OnOk result (FollowsCalls G.Gathers (call ∷ [])
        machine.old machine.new gathered.old gathered.new) }
{
    let CallLine {
        line,
        process,
        call,
    } = call;
    let question = is_question(&call);
    let Ok(reply) = machine.step(alloc, line, &process, call) else {
        return Err(Fault::OutOfMemory);
    };
    if may_change(question, &reply) {
        gathered.add_state(alloc, machine)?;
    } else {
        G::adds_nothing_again();
    }
    Ok(())
}

/// Checks whether a line comes before the given one, if one is given.
fn is_before(at: Option<u32>, line: u32) -> bool
    ensures { result ≡ comes_before at line }
{
    match at {
        None => true,
        Some(first) => line < first,
    }
}
