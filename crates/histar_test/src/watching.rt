//! A machine whose calls are watched: what claims `#never` forbid is looked for after each.
ghost use Rattle.std.specs.Prelude.{◌≡◌, IfErr, IfOk, OnOk};
ghost use Rattle.histar_flat.specs.Texts.{reply_text};
ghost use Rattle.histar_prefix.specs.Listing.{HasProcesses};
ghost use Rattle.histar_reasons.specs.Laws.{is_refusal};
ghost use Rattle.histar_test.specs.Checks.{found_text};
ghost use Rattle.histar_test.specs.Running.{AreSplit, AreSplitWith, IsMemory};
ghost use Rattle.histar_test.specs.Watching.{HasWatched, Looks, LooksAt, LooksAtAll, MakesCall, watch_check};

use crate::checks::{Check, Made, Wanted};
use crate::steps::Step;
use histar_base::Bytes;
use histar_flat::{CallLine, Reply};
use histar_label::InternStore;
use histar_never::{LateBreach, Never, breach_on, breach_text, is_question, may_change};
use histar_script::Fault;
use histar_shell::{Machine, reply_text};
use std::alloc::{AllocError, Global};

/// A claim `#never`, and its first breach, once there was one.
#[derive(Drop)]
pub(crate) struct Watch {
    pub never: Never,
    pub found: Option<LateBreach>,
}

/// A machine, and the claims on what its calls do.
#[derive(Drop)]
pub(crate) struct Watched {
    pub machine: Machine<InternStore>,
    pub watches: Vec<Watch>,
    /// Whether a call was made.
    pub has_called: bool,
}

impl Watch {
    /// Returns the check of the claim.
    pub(crate) fn check(self, alloc: Global) -> Result<Check, AllocError>
        ensures { IfOk result (λ check. check ≡ watch_check self) }
    {
        let Watch { never, found } = self;
        let reply = found_text(alloc, &found)?;
        let Never { line, said, .. } = never;
        let made = Made {
            line,
            said,
            reply,
            is_refused: false,
        };
        Ok(Check {
            made,
            wanted: Wanted::NoBreach,
        })
    }
}

impl Watched {
    /// Makes a call. Then it looks at each claim that isn't broken yet, unless the call can't have changed
    /// anything and isn't the first.
    pub(crate) fn make_call(
        &mut self,
        alloc: Global,
        call: CallLine,
        said: Bytes,
    ) -> Result<Made, Fault>
        requires { HasWatched self.old }
        ensures ok { IfOk result (MakesCall self.old self.new call said) }
        ensures faults { IfErr result IsMemory }
    {
        let CallLine {
            line: number,
            process,
            call,
        } = call;
        let asks = is_question(&call);
        let Ok(reply) = self.machine.step(alloc, number, &process, call) else {
            return Err(Fault::OutOfMemory);
        };
        self.look(alloc, number, may_change(asks, &reply))?;
        let made = answered(alloc, number, said, &reply)?;
        Ok(made)
    }

    /// Looks at each claim that isn't broken yet, after the call on this line, if it may have changed something
    /// or was the first.
    fn look(&mut self, alloc: Global, line: u32, may_change: bool) -> Result<(), AllocError>
        requires { HasProcesses self.old.machine }
        ensures { OnOk result (Looks line may_change self.old self.new) }
    {
        if may_change || !self.has_called {
            look_at_all(alloc, &self.machine, line, &mut self.watches)?;
        }
        self.has_called = true;
        Ok(())
    }
}

/// Looks at each claim that isn't broken yet, after the call on this line.
fn look_at_all(
    alloc: Global,
    machine: &Machine<InternStore>,
    line: u32,
    watches: &mut Vec<Watch>,
) -> Result<(), AllocError>
    requires { HasProcesses machine.now }
    ensures { OnOk result (LooksAtAll machine.now line watches.old.items watches.new.items) }
{
    for watch in watches.iter_mut() {
        look_at(alloc, machine, line, watch)?;
    }
    Ok(())
}

/// Looks at a claim after the call on this line, unless it is broken already.
fn look_at(
    alloc: Global,
    machine: &Machine<InternStore>,
    line: u32,
    watch: &mut Watch,
) -> Result<(), AllocError>
    requires { HasProcesses machine.now }
    ensures { OnOk result (LooksAt machine.now line watch.old watch.new) }
{
    if watch.found.is_some() {
        return Ok(());
    }
    let Some(breach) = breach_on(alloc, machine, &watch.never)? else {
        return Ok(());
    };
    watch.found = Some(LateBreach { line, breach });
    Ok(())
}

/// Checks whether a reply is a refusal.
fn is_refusal(reply: &Reply) -> bool
    ensures { result ≡ is_refusal reply.now }
{
    matches!(reply, Reply::Refused(_) | Reply::Gone)
}

/// Returns the call on line `number`, which has this text, with its reply.
fn answered(alloc: Global, number: u32, said: Bytes, reply: &Reply) -> Result<Made, AllocError>
    ensures { IfOk result (λ made. made ≡ record {
      line = number;
      said = said;
      reply = reply_text reply.now;
      is_refused = is_refusal reply.now;
    }) }
{
    let text = reply_text(alloc, reply)?;
    Ok(Made {
        line: number,
        said,
        reply: Bytes::from_vec(text),
        is_refused: is_refusal(reply),
    })
}

/// Returns the text of the first breach, or no text.
fn found_text(alloc: Global, found: &Option<LateBreach>) -> Result<Bytes, AllocError>
    ensures { IfOk result (λ text. text ≡ found_text found.now) }
{
    match found {
        None => Ok(Bytes::new(alloc)),
        Some(late) => breach_text(alloc, late),
    }
}

/// Splits the steps of a test: those that are taken at their places, and the claims `#never`, which no call has
/// broken yet.
pub(crate) fn split_steps(
    alloc: Global,
    steps: Vec<Step>,
) -> Result<(Vec<Step>, Vec<Watch>), AllocError>
    ensures { IfOk result (λ split. AreSplit steps.items split.0.items split.1.items) }
{
    let mut taken = Vec::new(alloc);
    let mut watches = Vec::new(alloc);
    'steps: for step in steps {
        split_step(&mut taken, &mut watches, step)?;
    }
    Ok((taken, watches))
}

/// Adds a step to those that are taken at their places, or to the claims.
fn split_step(taken: &mut Vec<Step>, watches: &mut Vec<Watch>, step: Step) -> Result<(), AllocError>
    ensures { OnOk result (AreSplitWith step taken.old.items taken.new.items
        watches.old.items watches.new.items) }
{
    match step {
        Step::Makes(call, said) => taken.push(Step::Makes(call, said))?,
        Step::Expects(wanted) => taken.push(Step::Expects(wanted))?,
        Step::Asks(asking) => taken.push(Step::Asks(asking))?,
        Step::Forbids(never) => watches.push(Watch { never, found: None })?,
    }
    Ok(())
}
