//! What is gathered of the states of a run.
ghost use Rattle.std.specs.Prelude.{OnOk};
ghost use Rattle.histar_access.specs.Shown.{IsShown};
ghost use Rattle.histar_ever.specs.Following.{AddsNothingAgain, AddsState, Gathering};

use histar_label::LabelStore;
use histar_shell::Machine;
use std::alloc::{AllocError, Global};

/// What is gathered of the states of a run, one after another.
pub(crate) trait Gather: Drop {
    // What was gathered of flat states.
    ghost Gathers: { Gathering Self };

    /// Gathers the state of a machine, as one more.
    fn add_state<S: LabelStore + Drop>(
        &mut self,
        alloc: Global,
        machine: &Machine<S>,
    ) -> Result<(), AllocError>
        requires { IsShown machine.now }
        ensures { OnOk result (AddsState Gathers machine.now self.old self.new) };

    /// Shows that a state that was gathered before adds nothing if it is gathered again. It does nothing.
    fn adds_nothing_again()
        ensures { AddsNothingAgain Gathers };
}
