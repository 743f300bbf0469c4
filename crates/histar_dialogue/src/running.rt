//! The machine that has made the calls of a session.
ghost use Rattle.std.specs.Prelude.{◌≡◌, [], ◌∷◌, IfErr, IfOk, OnOk};
ghost use Rattle.histar_dialogue.specs.Running.{AddsAnswers, AnswersCall, IsBooted, RunsText};
ghost use Rattle.histar_script.specs.Outcome.{Gives};
ghost use Rattle.histar_script.specs.Script.{IsDeclared};

use histar_flat::{Accounts, CallLine};
use histar_label::InternStore;
use histar_script::{Fault, read_script};
use histar_shell::Machine;
use histar_why::{Log, answer_with_reason};
use std::alloc::Global;

/// How many answers of label comparisons are remembered.
const REMEMBERED_ANSWERS: usize = 256;

/// A machine that has made the calls of a session, the users and groups with which it was booted,
/// and what says why a call was refused.
#[derive(Drop)]
pub(crate) struct Running {
    pub accounts: Accounts,
    pub machine: Machine<InternStore>,
    pub log: Log,
}

impl Running {
    /// Boots a machine with these users and groups, of which it keeps the same once more.
    fn boot(alloc: Global, accounts: Accounts, same: Accounts) -> Result<Running, Fault>
        requires { IsDeclared accounts }
        ensures ok { IfOk result (IsBooted accounts same) }
        ensures err { IfErr result (λ fault. fault ≡ Fault.OutOfMemory) }
    {
        let store = InternStore::new(alloc, REMEMBERED_ANSWERS)?;
        let Ok(machine) = Machine::boot(alloc, store, accounts) else {
            return Err(Fault::OutOfMemory);
        };
        Ok(Running {
            accounts: same,
            machine,
            log: Log::new(alloc),
        })
    }

    /// Makes a call, and returns the line of its reply, with the line of why it was refused behind
    /// it if it was.
    pub fn answer(&mut self, alloc: Global, call: CallLine) -> Result<Vec<u8>, Fault>
        ensures ok { IfOk result (λ said. AnswersCall self.old self.new call said.items) }
        ensures err { IfErr result (λ fault. fault ≡ Fault.OutOfMemory) }
    {
        self.log.text.clear();
        let mut said = answer_with_reason(alloc, &mut self.machine, &mut self.log, call)?;
        said.extend_from_slice(self.log.text.as_slice())?;
        Ok(said)
    }

    /// Makes calls, and adds the answers to those behind the first lines.
    fn make_calls(
        &mut self,
        alloc: Global,
        calls: Vec<CallLine>,
        first: usize,
        answers: &mut Vec<u8>,
    ) -> Result<(), Fault>
        ensures ok { OnOk result (AddsAnswers first self.old self.new answers.old.items answers.new.items
            calls.items) }
        ensures err { IfErr result (λ fault. fault ≡ Fault.OutOfMemory) }
    {
        'calls: for call in calls {
            self.make_call(alloc, call, first, answers)?;
        }
        Ok(())
    }

    /// Makes a call, and adds its answer unless it is on one of the first lines.
    fn make_call(
        &mut self,
        alloc: Global,
        call: CallLine,
        first: usize,
        answers: &mut Vec<u8>,
    ) -> Result<(), Fault>
        ensures ok { OnOk result (AddsAnswers first self.old self.new answers.old.items answers.new.items
            (call ∷ [])) }
        ensures err { IfErr result (λ fault. fault ≡ Fault.OutOfMemory) }
    {
        let number = call.line;
        let said = self.answer(alloc, call)?;
        if number as usize > first {
            answers.extend_from_slice(said.as_slice())?;
        }
        Ok(())
    }
}

/// Runs the script of a text on a machine of its own, and returns the machine and the answers to
/// the calls behind the first lines.
pub(crate) fn run_behind(
    alloc: Global,
    text: &[u8],
    first: usize,
) -> Result<(Running, Vec<u8>), Fault>
    ensures { RunsText first text.now result }
{
    let (accounts, calls) = read_script(alloc, text)?.into_parts();
    let (same, _calls) = read_script(alloc, text)?.into_parts();
    let mut running = Running::boot(alloc, accounts, same)?;
    let mut answers = Vec::new(alloc);
    running.make_calls(alloc, calls, first, &mut answers)?;
    Ok((running, answers))
}
