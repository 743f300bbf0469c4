//! Testing files, from bytes to bytes.
ghost use Rattle.std.specs.Prelude.{◌≡◌, ◌+◌, All, IfErr, IfOk, OnErr, OnOk, false, map, true};
ghost use Rattle.std.specs.Io.KnownBytes.{Appends};
ghost use Rattle.histar_io.specs.Device.{CountsFailure};
ghost use Rattle.histar_io.specs.Writing.{AppendsFront};
ghost use Rattle.histar_script.specs.Runs.{IsOutputFault, LeavesSink, is_write_failed};
ghost use Rattle.histar_test.specs.Checks.{checks_text};
ghost use Rattle.histar_test.specs.Running.{IsMemory, tally_with};
ghost use Rattle.histar_test.specs.Session.{AreTests, CountsAll, CountsFiles, IsTest, TestsFiles};
ghost use Rattle.histar_test.specs.Session.{are_met, checked_of, files_text, plan_text, report_text};
ghost use Rattle.histar_test.specs.Steps.{expectation_count, test_of};

use crate::checks::push_number;
use crate::running::{Run, Tally};
use crate::steps::{Step, TestScript, read_test};
use crate::watching::split_steps;
use histar_io::{Sink, write_bytes};
use histar_script::Fault;
use std::alloc::{AllocError, Global};

/// A file by its name, and its text.
#[derive(Drop)]
pub struct TestFile {
    pub name: Vec<u8>,
    pub text: Vec<u8>,
}

/// Checks the replies, the rights and the trust that files expect, and writes for each expectation whether it is met, in
/// the form of the Test Anything Protocol, numbered through all files. It returns whether all are met.
///
/// The checks of the claims `#never` of a file come after its others: each is met if after no call of the file
/// somebody whom it means has one of its letters at its path.
///
/// A strict test also has a check, which is not met, for each call whose reply is a refusal and which no
/// expectation follows before the next call. How many there are is known at the end, so the number of checks
/// is its last line. It is the first one of other tests.
///
/// All files are read before the first call of any is made. The lines of a check are written as soon as the
/// call is done. Each file is run on a machine of its own. It doesn't flush the sink.
///
/// It keeps one parsed file and one machine at a time, so beside the texts its memory is that of the
/// largest file.
pub fn test<W: Sink>(
    alloc: Global,
    files: &[TestFile],
    strict: bool,
    writer: &mut W,
) -> Result<bool, Fault>
    // After a file that is no test the sink is as it was.
    ensures nothing { IfErr result (LeavesSink writer.old writer.new) }

    // A write has failed exactly if that fault is returned.
    ensures writes { CountsFailure (W.failures writer.old) (W.failures writer.new)
        (is_write_failed result) }

    // The fault of the first file that is no test is returned, or exactly the checks of all files are
    // written, and the result is whether all are met.
    ensures tests { TestsFiles strict files.now (W.written writer.old) (W.written writer.new) result }
{
    let total = count_checks(alloc, files)?;
    if strict {
        return report_strictly(alloc, files, writer);
    }
    report(alloc, files, total, writer)
}

/// Reads files that have to be tests, in their order, and returns how many checks they have. It keeps
/// none of them.
fn count_checks(alloc: Global, files: &[TestFile]) -> Result<usize, Fault>
    ensures { CountsFiles files.now result }
{
    let mut total = 0usize;
    'files: for file in files {
        let test = read_test(alloc, file.text.as_slice())?;
        let Some(sum) = total.checked_add(count_expectations(test.steps())) else {
            return Err(Fault::OutOfMemory);
        };
        total = sum;
    }
    Ok(total)
}

/// Writes how many checks these files have, which are tests, and the lines of each, and returns whether
/// all are met.
fn report<W: Sink>(
    alloc: Global,
    files: &[TestFile],
    total: usize,
    writer: &mut W,
) -> Result<bool, Fault>
    requires { AreTests files.now total }
    ensures ok { OnOk result (Appends (W.written writer.old) (W.written writer.new)
        (report_text false (map (checked_of false) files.now))) }
    ensures met { IfOk result (λ met. met ≡ are_met (map (checked_of false) files.now)) }
    ensures err { OnErr result (AppendsFront (W.written writer.old) (W.written writer.new)
        (report_text false (map (checked_of false) files.now))) }
    ensures faults { IfErr result IsOutputFault }
    ensures count { CountsFailure (W.failures writer.old) (W.failures writer.new)
        (is_write_failed result) }
{
    write_plan(alloc, total, writer)?;
    let tally = test_files(alloc, files, false, writer)?;
    Ok(tally.are_met)
}

/// Writes the lines of the checks of files that are strict tests, and how many checks there were, and
/// returns whether all are met.
fn report_strictly<W: Sink>(
    alloc: Global,
    files: &[TestFile],
    writer: &mut W,
) -> Result<bool, Fault>
    requires { All IsTest files.now }
    ensures ok { OnOk result (Appends (W.written writer.old) (W.written writer.new)
        (report_text true (map (checked_of true) files.now))) }
    ensures met { IfOk result (λ met. met ≡ are_met (map (checked_of true) files.now)) }
    ensures err { OnErr result (AppendsFront (W.written writer.old) (W.written writer.new)
        (report_text true (map (checked_of true) files.now))) }
    ensures faults { IfErr result IsOutputFault }
    ensures count { CountsFailure (W.failures writer.old) (W.failures writer.new)
        (is_write_failed result) }
{
    let tally = test_files(alloc, files, true, writer)?;
    write_plan(alloc, tally.count, writer)?;
    Ok(tally.are_met)
}

/// Writes the line with the number of checks.
fn write_plan<W: Sink>(alloc: Global, total: usize, writer: &mut W) -> Result<(), Fault>
    ensures ok { OnOk result (Appends (W.written writer.old) (W.written writer.new) (plan_text total)) }
    ensures err { OnErr result (AppendsFront (W.written writer.old) (W.written writer.new)
        (plan_text total)) }
    ensures faults { IfErr result IsOutputFault }
    ensures count { CountsFailure (W.failures writer.old) (W.failures writer.new)
        (is_write_failed result) }
{
    let plan = plan_text(alloc, total)?;
    write_bytes(writer, plan.as_slice())?;
    Ok(())
}

/// Counts the steps that have a check of their own: all but the calls.
fn count_expectations(steps: &[Step]) -> usize
    ensures { result ≡ expectation_count steps.now }
{
    let mut count = 0;
    'steps: for step in steps {
        if !step.is_call() {
            count += 1;
        }
    }
    count
}

/// Returns the line with the number of checks.
fn plan_text(alloc: Global, total: usize) -> Result<Vec<u8>, AllocError>
    ensures { IfOk result (λ text. text.items ≡ plan_text total) }
{
    let mut text = Vec::from_slice(alloc, b"1..".as_slice())?;
    push_number(&mut text, total)?;
    text.extend_from_slice(b"\n")?;
    Ok(text)
}

/// Writes the lines of the checks of files that are tests, and counts these.
fn test_files<W: Sink>(
    alloc: Global,
    files: &[TestFile],
    strict: bool,
    writer: &mut W,
) -> Result<Tally, Fault>
    requires { All IsTest files.now }
    ensures ok { OnOk result (Appends (W.written writer.old) (W.written writer.new)
        (files_text 1 (map (checked_of strict) files.now))) }
    ensures tally { IfOk result (λ tally. CountsAll tally (map (checked_of strict) files.now)) }
    ensures err { OnErr result (AppendsFront (W.written writer.old) (W.written writer.new)
        (files_text 1 (map (checked_of strict) files.now))) }
    ensures faults { IfErr result IsOutputFault }
    ensures count { CountsFailure (W.failures writer.old) (W.failures writer.new)
        (is_write_failed result) }
{
    let mut tally = Tally {
        count: 0,
        are_met: true,
    };
    'files: for file in files {
        tally = test_file(alloc, file, strict, tally, writer)?;
    }
    Ok(tally)
}

/// Writes the lines of the checks of a file that is a test, on a machine of its own, numbered on from
/// the tally.
fn test_file<W: Sink>(
    alloc: Global,
    file: &TestFile,
    strict: bool,
    tally: Tally,
    writer: &mut W,
) -> Result<Tally, Fault>
    requires { IsTest file.now }
    ensures ok { OnOk result (Appends (W.written writer.old) (W.written writer.new)
        (checks_text file.now.name.items (tally.count + 1) (checked_of strict file.now).checks)) }
    ensures tally { IfOk result (λ after.
        after ≡ tally_with tally (checked_of strict file.now).checks) }
    ensures err { OnErr result (AppendsFront (W.written writer.old) (W.written writer.new)
        (checks_text file.now.name.items (tally.count + 1) (checked_of strict file.now).checks)) }
    ensures faults { IfErr result IsOutputFault }
    ensures count { CountsFailure (W.failures writer.old) (W.failures writer.new)
        (is_write_failed result) }
{
    let test = read_again(alloc, file)?;
    let (accounts, steps) = test.into_parts();
    let (steps, watches) = split_steps(alloc, steps)?;
    let mut run = Run::start(alloc, accounts, strict, tally, watches)?;
    let outcome = run.run_test(alloc, file.name.as_slice(), steps, writer);
    let after = run.finish();
    outcome?;
    Ok(after)
}

/// Reads the test in a file that was read as one before. So it fails only if memory runs out.
fn read_again(alloc: Global, file: &TestFile) -> Result<TestScript, Fault>
    requires { IsTest file.now }
    ensures ok { IfOk result (λ test. test_of file.now.text.items ≡ Ok test) }
    ensures faults { IfErr result IsMemory }
{
    read_test(alloc, file.text.as_slice())
}
