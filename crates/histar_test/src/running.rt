//! Running the steps of a script.
ghost use Rattle.std.specs.Prelude.{◌≡◌, ◌+◌, IfErr, IfOk, OnErr, OnOk};
ghost use Rattle.std.specs.Io.KnownBytes.{Appends};
ghost use Rattle.histar_io.specs.Device.{CountsFailure};
ghost use Rattle.histar_io.specs.Writing.{AppendsFront};
ghost use Rattle.histar_script.specs.Runs.{IsOutputFault, is_write_failed};
ghost use Rattle.histar_script.specs.Script.{IsDeclared};
ghost use Rattle.histar_test.specs.Checks.{check_text};
ghost use Rattle.histar_test.specs.Running.{BeginsStep, BeginsSteps, BeginsTest, Calls, Closes, CountsCheck, CountsClaims};
ghost use Rattle.histar_test.specs.Running.{IsMemory, RunsTest, Starts, TakesStep, TakesSteps, WritesStep, claims_text, close_text};
ghost use Rattle.histar_test.specs.Watching.{HasWatched};

use crate::asking::{Asking, ask};
use crate::checks::{Check, Made, Wanted, check_text, unexpected};
use crate::steps::Step;
use crate::watching::{Watch, Watched};
use histar_base::Bytes;
use histar_flat::{Accounts, CallLine};
use histar_io::{Sink, write_bytes};
use histar_label::InternStore;
use histar_prefix::discard;
use histar_script::Fault;
use histar_shell::Machine;
use std::alloc::Global;
use std::mem;

/// How many answers of label comparisons are remembered.
const REMEMBERED_ANSWERS: usize = 256;

/// How many checks there were, and whether all were met.
#[derive(Clone, Copy)]
pub(crate) struct Tally {
    pub count: usize,
    pub are_met: bool,
}

/// The state of the run of a script.
#[derive(Drop)]
pub(crate) struct Run {
    /// Whether a refusal that nobody expected is a check too.
    pub strict: bool,
    pub watched: Watched,
    /// The call that was made last, unless its reply was checked already.
    pub last: Option<Made>,
    pub tally: Tally,
}

impl Run {
    /// Boots a machine for a script, and watches these claims.
    pub(crate) fn start(
        alloc: Global,
        accounts: Accounts,
        strict: bool,
        tally: Tally,
        watches: Vec<Watch>,
    ) -> Result<Run, Fault>
        requires { IsDeclared accounts }
        ensures ok { IfOk result (Starts accounts strict tally watches.items) }
        ensures faults { IfErr result IsMemory }
    {
        let store = InternStore::new(alloc, REMEMBERED_ANSWERS)?;
        let Ok(machine) = Machine::boot(alloc, store, accounts) else {
            return Err(Fault::OutOfMemory);
        };
        Ok(Run {
            strict,
            watched: Watched {
                machine,
                watches,
                has_called: false,
            },
            last: None,
            tally,
        })
    }

    /// Drops the run, and returns its tally.
    pub(crate) fn finish(self) -> Tally
        ensures { result ≡ self.tally }
    {
        let Run {
            strict: _,
            watched,
            last,
            tally,
        } = self;
        drop(last);
        let Watched {
            machine,
            watches,
            has_called: _,
        } = watched;
        drop(watches);
        discard(machine);
        tally
    }

    /// Makes a call on the machine; it is then the last one.
    fn make_call(&mut self, alloc: Global, call: CallLine, said: Bytes) -> Result<(), Fault>
        requires { HasWatched self.old.watched }
        ensures ok { OnOk result (Calls self.old self.new call said) }
        ensures faults { IfErr result IsMemory }
    {
        let made = self.watched.make_call(alloc, call, said)?;
        self.last = Some(made);
        Ok(())
    }

    /// Writes whether a check is met, and counts it.
    fn count_check<W: Sink>(
        &mut self,
        alloc: Global,
        file: &[u8],
        check: &Check,
        writer: &mut W,
    ) -> Result<(), Fault>
        ensures ok { OnOk result (CountsCheck self.old self.new check.now) }
        ensures written { OnOk result (Appends (W.written writer.old) (W.written writer.new)
            (check_text file.now (self.old.tally.count + 1) check.now)) }
        ensures err { OnErr result (AppendsFront (W.written writer.old) (W.written writer.new)
            (check_text file.now (self.old.tally.count + 1) check.now)) }
        ensures faults { IfErr result IsOutputFault }
        ensures count { CountsFailure (W.failures writer.old) (W.failures writer.new)
            (is_write_failed result) }
    {
        let Some(number) = self.tally.count.checked_add(1) else {
            return Err(Fault::OutOfMemory);
        };
        write_check(alloc, file, number, check, writer)?;
        self.tally = Tally {
            count: number,
            are_met: self.tally.are_met && check.is_met(),
        };
        Ok(())
    }

    /// Writes that nobody expected the reply to the call that is open, if a strict test has that check, and closes
    /// the call.
    fn close<W: Sink>(&mut self, alloc: Global, file: &[u8], writer: &mut W) -> Result<(), Fault>
        ensures ok { OnOk result (Closes self.old self.new) }
        ensures written { OnOk result (Appends (W.written writer.old) (W.written writer.new)
            (close_text file.now self.old)) }
        ensures err { OnErr result (AppendsFront (W.written writer.old) (W.written writer.new)
            (close_text file.now self.old)) }
        ensures faults { IfErr result IsOutputFault }
        ensures count { CountsFailure (W.failures writer.old) (W.failures writer.new)
            (is_write_failed result) }
    {
        let last = self.last.take();
        let Some(check) = unexpected(self.strict, last) else {
            return Ok(());
        };
        self.count_check(alloc, file, &check, writer)
    }

    /// Closes the call that is open, and makes a call; it is then the open one.
    fn call_next<W: Sink>(
        &mut self,
        alloc: Global,
        file: &[u8],
        call: CallLine,
        said: Bytes,
        writer: &mut W,
    ) -> Result<(), Fault>
        requires { HasWatched self.old.watched }
        ensures ok { OnOk result (TakesStep self.old self.new (Step.Makes call said)) }
        ensures written { OnOk result (WritesStep file.now self.old (Step.Makes call said)
            (W.written writer.old) (W.written writer.new)) }
        ensures err { OnErr result (BeginsStep file.now self.old (Step.Makes call said)
            (W.written writer.old) (W.written writer.new)) }
        ensures faults { IfErr result IsOutputFault }
        ensures count { CountsFailure (W.failures writer.old) (W.failures writer.new)
            (is_write_failed result) }
    {
        self.close(alloc, file, writer)?;
        self.make_call(alloc, call, said)
    }

    /// Writes whether the reply to the last call has this text. It does so once for each call.
    fn check_reply<W: Sink>(
        &mut self,
        alloc: Global,
        file: &[u8],
        wanted: Bytes,
        writer: &mut W,
    ) -> Result<(), Fault>
        ensures ok { OnOk result (TakesStep self.old self.new (Step.Expects wanted)) }
        ensures written { OnOk result (WritesStep file.now self.old (Step.Expects wanted)
            (W.written writer.old) (W.written writer.new)) }
        ensures err { OnErr result (BeginsStep file.now self.old (Step.Expects wanted)
            (W.written writer.old) (W.written writer.new)) }
        ensures faults { IfErr result IsOutputFault }
        ensures count { CountsFailure (W.failures writer.old) (W.failures writer.new)
            (is_write_failed result) }
    {
        let Some(made) = self.last.take() else {
            return Ok(());
        };
        let check = Check {
            made,
            wanted: Wanted::Text(wanted),
        };
        self.count_check(alloc, file, &check, writer)
    }

    /// Writes whether a process has the rights that a question expects, or those are trusted that a claim names.
    fn check_asked<W: Sink>(
        &mut self,
        alloc: Global,
        file: &[u8],
        asking: Asking,
        writer: &mut W,
    ) -> Result<(), Fault>
        requires { HasWatched self.old.watched }
        ensures ok { OnOk result (TakesStep self.old self.new (Step.Asks asking)) }
        ensures written { OnOk result (WritesStep file.now self.old (Step.Asks asking)
            (W.written writer.old) (W.written writer.new)) }
        ensures err { OnErr result (BeginsStep file.now self.old (Step.Asks asking)
            (W.written writer.old) (W.written writer.new)) }
        ensures faults { IfErr result IsOutputFault }
        ensures count { CountsFailure (W.failures writer.old) (W.failures writer.new)
            (is_write_failed result) }
    {
        let check = ask(alloc, &self.watched.machine, asking)?;
        self.count_check(alloc, file, &check, writer)
    }

    /// Takes one step.
    fn take_step<W: Sink>(
        &mut self,
        alloc: Global,
        file: &[u8],
        step: Step,
        writer: &mut W,
    ) -> Result<(), Fault>
        requires { HasWatched self.old.watched }
        ensures ok { OnOk result (TakesStep self.old self.new step) }
        ensures written { OnOk result (WritesStep file.now self.old step
            (W.written writer.old) (W.written writer.new)) }
        ensures err { OnErr result (BeginsStep file.now self.old step
            (W.written writer.old) (W.written writer.new)) }
        ensures faults { IfErr result IsOutputFault }
        ensures count { CountsFailure (W.failures writer.old) (W.failures writer.new)
            (is_write_failed result) }
    {
        match step {
            Step::Makes(call, said) => self.call_next(alloc, file, call, said, writer),
            Step::Expects(wanted) => self.check_reply(alloc, file, wanted, writer),
            Step::Asks(asking) => self.check_asked(alloc, file, asking, writer),
            Step::Forbids(_) => Ok(()),
        }
    }

    /// Takes all steps of a test in their order, and writes for each expectation, question and claim on trust
    /// whether it is met, as soon as that is known.
    fn take_steps<W: Sink>(
        &mut self,
        alloc: Global,
        file: &[u8],
        steps: Vec<Step>,
        writer: &mut W,
    ) -> Result<(), Fault>
        requires { HasWatched self.old.watched }
        ensures ok { OnOk result (TakesSteps file.now self.old self.new steps.items
            (W.written writer.old) (W.written writer.new)) }
        ensures err { OnErr result (BeginsSteps file.now self.old steps.items
            (W.written writer.old) (W.written writer.new)) }
        ensures faults { IfErr result IsOutputFault }
        ensures count { CountsFailure (W.failures writer.old) (W.failures writer.new)
            (is_write_failed result) }
    {
        'steps: for step in steps {
            self.take_step(alloc, file, step, writer)?;
        }
        self.close(alloc, file, writer)
    }

    /// Writes for each claim `#never` whether it was broken, and counts these checks.
    fn check_claims<W: Sink>(
        &mut self,
        alloc: Global,
        file: &[u8],
        writer: &mut W,
    ) -> Result<(), Fault>
        ensures ok { OnOk result (CountsClaims self.old self.new) }
        ensures written { OnOk result (Appends (W.written writer.old) (W.written writer.new)
            (claims_text file.now self.old)) }
        ensures err { OnErr result (AppendsFront (W.written writer.old) (W.written writer.new)
            (claims_text file.now self.old)) }
        ensures faults { IfErr result IsOutputFault }
        ensures count { CountsFailure (W.failures writer.old) (W.failures writer.new)
            (is_write_failed result) }
    {
        let watches = mem::replace(&mut self.watched.watches, Vec::new(alloc));
        'claims: for watch in watches {
            let check = watch.check(alloc)?;
            self.count_check(alloc, file, &check, writer)?;
        }
        Ok(())
    }

    /// Takes all steps of a test in their order, and then checks the claims `#never`.
    pub(crate) fn run_test<W: Sink>(
        &mut self,
        alloc: Global,
        file: &[u8],
        steps: Vec<Step>,
        writer: &mut W,
    ) -> Result<(), Fault>
        requires { HasWatched self.old.watched }
        ensures ok { OnOk result (RunsTest file.now self.old self.new steps.items
            (W.written writer.old) (W.written writer.new)) }
        ensures err { OnErr result (BeginsTest file.now self.old steps.items
            (W.written writer.old) (W.written writer.new)) }
        ensures faults { IfErr result IsOutputFault }
        ensures count { CountsFailure (W.failures writer.old) (W.failures writer.new)
            (is_write_failed result) }
    {
        self.take_steps(alloc, file, steps, writer)?;
        self.check_claims(alloc, file, writer)
    }
}

/// Writes the lines of check `number`, of a file.
fn write_check<W: Sink>(
    alloc: Global,
    file: &[u8],
    number: usize,
    check: &Check,
    writer: &mut W,
) -> Result<(), Fault>
    ensures ok { OnOk result (Appends (W.written writer.old) (W.written writer.new)
        (check_text file.now number check.now)) }
    ensures err { OnErr result (AppendsFront (W.written writer.old) (W.written writer.new)
        (check_text file.now number check.now)) }
    ensures faults { IfErr result IsOutputFault }
    ensures count { CountsFailure (W.failures writer.old) (W.failures writer.new)
        (is_write_failed result) }
{
    let text = check_text(alloc, file, number, check)?;
    write_bytes(writer, text.as_slice())?;
    Ok(())
}
