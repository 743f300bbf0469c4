//! Reading the steps of a script that says what it expects.
ghost use Rattle.std.specs.Prelude.{◌≡◌, ◌≤◌, Some, false, length};
ghost use Rattle.std.specs.Option.{option_copied};
ghost use Rattle.histar_script.specs.Lines.{lines_of, most_script_bytes};
ghost use Rattle.histar_script.specs.Outcome.{Gives};
ghost use Rattle.histar_script.specs.Reading.{item_of};
ghost use Rattle.histar_script.specs.Script.{IsDeclared};
ghost use Rattle.histar_test.specs.Steps.{GivesStep, GivesSteps, TakesLine, asked_of, call_in, expectation_of};
ghost use Rattle.histar_test.specs.Steps.{forbidden_of, is_call, is_never, open_after, step_by, step_of, steps_from, test_of};

use crate::asking::{Asking, asked_of, read_asking};
use histar_base::Bytes;
use histar_flat::{Accounts, CallLine};
use histar_never::{Never, read_never};
use histar_script::{Fault, Item, read_item, read_script, split_line};
use std::alloc::Global;
use std::marker::Model;

/// One step of a script that says what it expects.
#[derive(Drop)]
pub enum Step {
    /// Makes this call, which is on a line with this text.
    Makes(CallLine, Bytes),
    /// Expects this reply to the call before it.
    Expects(Bytes),
    /// Asks for the rights of a process at a path, or claims who is trusted with what is at a path.
    Asks(Asking),
    /// Claims that after no call somebody has a right.
    Forbids(Never),
}

/// A test: the accounts of a script, and its steps.
#[derive(Drop)]
pub struct TestScript {
    accounts: Accounts,
    steps: Vec<Step>,
}

impl Model for TestScript {
    ghost use Rattle.histar_script.specs.Script.{IsDeclared};
    ghost use Rattle.histar_test.specs.Steps.{Test};

    ghost Value = { Test };

    ghost view = { λ t. record { accounts = t.accounts; steps = t.steps.items } };

    ghost invariant = { λ t. IsDeclared t.accounts };
}

impl Step {
    /// Checks whether this is a call.
    pub fn is_call(&self) -> bool
        ensures { result ≡ is_call self.now }
    {
        matches!(self, Step::Makes(_, _))
    }

    /// Returns whether a call is open after this step, given whether one is before it, or `None` if the step
    /// may not be there.
    fn open_after(&self, is_open: bool) -> Option<bool>
        ensures { result ≡ open_after is_open self.now }
    {
        match self {
            Step::Makes(_, _) => Some(true),
            Step::Expects(_) if is_open => Some(false),
            Step::Expects(_) => None,
            Step::Asks(_) => Some(is_open),
            Step::Forbids(_) => Some(is_open),
        }
    }
}

impl TestScript {
    /// Returns the steps, in the order of their lines.
    pub fn steps(&self) -> &[Step]
        ensures { result.now ≡ self.now.steps }
    {
        self.steps.as_slice()
    }

    /// Returns the accounts and the steps as values of their own.
    pub fn into_parts(self) -> (Accounts, Vec<Step>)
        ensures accounts { result.0 ≡ self.accounts }
        ensures steps { result.1.items ≡ self.steps }
        ensures declared { IsDeclared result.0 }
    {
        (self.accounts, self.steps)
    }
}

/// The steps of the lines that were read, and whether a call is open after them.
#[derive(Drop)]
pub(crate) struct Reading {
    steps: Vec<Step>,
    is_open: bool,
}

/// Reads a test: a script, whose fault comes first, in which each expectation has a call before it and each
/// question and claim can be read.
pub fn read_test(alloc: Global, text: &[u8]) -> Result<TestScript, Fault>
    ensures { Gives result (test_of text.now) }
{
    let script = read_script(alloc, text)?;
    let (accounts, _calls) = script.into_parts();
    let steps = read_steps(alloc, &accounts, text)?;
    Ok(TestScript { accounts, steps })
}

/// Reads the steps of the lines of a text.
fn read_steps(alloc: Global, accounts: &Accounts, text: &[u8]) -> Result<Vec<Step>, Fault>
    requires { length text.now ≤ most_script_bytes }
    ensures { GivesSteps result (steps_from accounts.now 1 false (lines_of text.now)) }
{
    let mut reading = Reading {
        steps: Vec::new(alloc),
        is_open: false,
    };
    let mut rest = text;
    let mut count = 0u32;
    'lines: while !rest.is_empty() {
        let (line, after) = split_line(rest);
        count += 1;
        take_line(alloc, accounts, &mut reading, count, line)?;
        rest = after;
    }
    Ok(reading.steps)
}

/// Adds the step of a line, if it has one.
fn take_line(
    alloc: Global,
    accounts: &Accounts,
    reading: &mut Reading,
    number: u32,
    line: &[u8],
) -> Result<(), Fault>
    ensures { TakesLine accounts.now number line.now reading.old reading.new result }
{
    let Some(step) = read_step(alloc, accounts, number, line)? else {
        return Ok(());
    };
    let Some(is_open) = step.open_after(reading.is_open) else {
        return Err(Fault::BadScript(number));
    };
    reading.steps.push(step)?;
    reading.is_open = is_open;
    Ok(())
}

/// Reads the step of a line, if it has one.
fn read_step(
    alloc: Global,
    accounts: &Accounts,
    number: u32,
    line: &[u8],
) -> Result<Option<Step>, Fault>
    ensures { GivesStep number result (step_of accounts.now number line.now) }
{
    let Some(text) = forbidden_of(line) else {
        return read_other(alloc, number, line);
    };
    let Some(never) = read_never(alloc, accounts, number, text)? else {
        return Err(Fault::BadScript(number));
    };
    Ok(Some(Step::Forbids(never)))
}

/// Reads the step of a line that is no claim `#never`, if it has one.
fn read_other(alloc: Global, number: u32, line: &[u8]) -> Result<Option<Step>, Fault>
    ensures { GivesStep number result (step_by number line.now (asked_of line.now)
        (expectation_of line.now) (call_in number (item_of line.now))) }
{
    if let Some(asked) = asked_of(line) {
        let Some(asking) = read_asking(alloc, number, asked)? else {
            return Err(Fault::BadScript(number));
        };
        return Ok(Some(Step::Asks(asking)));
    }
    if let Some(text) = expectation_of(line) {
        let text = Bytes::copy_of(alloc, text)?;
        return Ok(Some(Step::Expects(text)));
    }
    let Some(item) = read_item(alloc, line)? else {
        return Ok(None);
    };
    let Some(call) = call_in(number, item) else {
        return Ok(None);
    };
    let said = Bytes::copy_of(alloc, line)?;
    Ok(Some(Step::Makes(call, said)))
}

/// Returns the call that an item is, on line `number`.
fn call_in(number: u32, item: Item) -> Option<CallLine>
    ensures { result ≡ call_in number (Some item) }
{
    match item {
        Item::Call(process, call) => Some(CallLine {
            line: number,
            process,
            call,
        }),
        Item::Comment | Item::User(_) | Item::Group(_) => None,
    }
}

/// Returns the reply that a line expects of the call before it, if it is an expectation.
pub(crate) fn expectation_of(line: &[u8]) -> Option<&[u8]>
    ensures { option_copied result ≡ expectation_of line.now }
{
    line.strip_prefix(b"#= ".as_slice())
}

/// Checks whether a line is a claim that somebody never has a right.
fn is_never(line: &[u8]) -> bool
    ensures { result ≡ is_never line.now }
{
    line.starts_with(b"#never ") || line == b"#never".as_slice()
}

/// Returns the text of such a claim on a line, if the line is one.
pub(crate) fn forbidden_of(line: &[u8]) -> Option<&[u8]>
    ensures { option_copied result ≡ forbidden_of line.now }
{
    if !is_never(line) {
        return None;
    }
    let [_, text @ ..] = line else {
        return Some(line);
    };
    Some(text)
}
